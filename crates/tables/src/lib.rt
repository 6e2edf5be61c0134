#![tactic(auto)]
// Question 14: a stream is read as the one table that it holds, with an index of where the parts stand.
ghost use Rattle.std.specs.Prelude.{◌≡◌, ◌++◌, ◌+◌, ◌*◌, ◌≤◌, length, take, drop, MatchOption};
ghost use Rattle.pcrl.specs.Limits.{max_sorts, max_functions, max_actions, max_equations, max_stream};
ghost use Rattle.pcrl.specs.Tests.{Every};
ghost use Rattle.pcrl.specs.Blocks.{block_stream, blocks_for, table_read};
ghost use Rattle.pcrl.specs.Reader.{missing};
ghost use Rattle.pcrl.specs.Decode.{decode};
ghost use Rattle.laws.specs.Says.{Says};
ghost use Rattle.signature.specs.Reading.{names_there};
ghost use Rattle.tables.specs.Indexed.{TableRead, Decoded};

use blocks::BLOCK_STREAM;
use elements::{peek, wide};
use limits::{MAX_ACTIONS, MAX_EQUATIONS, MAX_FUNCTIONS, MAX_SORTS, MAX_SUMMANDS};

// Cells for the places of the functions, and for the sizes of the sorts behind them.
pub const FUNCS: usize = MAX_FUNCTIONS + MAX_SORTS;

// Where sorts, functions, actions, parameters and summands of the equations, and the start stand in the stream; the sizes of the sorts
// stand behind the places of the functions. Are the sorts named in the stream?
#[derive(Clone, Copy)]
pub struct Index {
    pub sorts: [u16; MAX_SORTS],
    pub funcs: [u16; FUNCS],
    pub acts: [u16; MAX_ACTIONS],
    pub params: [u16; MAX_EQUATIONS],
    pub rows: [u16; MAX_EQUATIONS],
    pub sort_count: usize,
    pub named: bool,
    pub functions: usize,
    pub actions: usize,
    pub equations: usize,
    pub start: usize,
}

// What was read into lent places: how many sorts, functions, actions and equations there are, where the start stands and the table ends.
#[derive(Clone, Copy)]
struct Read {
    sort_count: usize,
    named: bool,
    functions: usize,
    actions: usize,
    equations: usize,
    start: usize,
    end: usize,
}

// The table from the start of the stream, its parts' places in lent arrays.
fn read_into(
    s: &[u8],
    sizes: &mut [u8],
    sorts: &mut [u16],
    funcs: &mut [u16],
    acts: &mut [u16],
    params: &mut [u16],
    rows: &mut [u16],
) -> Option<Read>
    requires { (max_sorts ≤ length sizes.old) × ((max_sorts ≤ length sorts.old) × ((max_functions ≤ length funcs.old) × ((max_actions ≤ length acts.old) × ((max_equations ≤ length params.old) × ((max_equations ≤ length rows.old) × (length s.now ≤ max_stream)))))) }
    ensures { MatchOption result (decode s.now ≡ missing) (λ r. Decoded s.now r.end (take r.sort_count sizes.new) (names_there r.named s.now (take r.sort_count sorts.new)) (take r.functions funcs.new) (take r.actions acts.new) (take r.equations params.new) (take r.equations rows.new) r.start × ((r.sort_count ≤ max_sorts) × ((r.functions ≤ max_functions) × ((r.actions ≤ max_actions) × ((r.equations ≤ max_equations) × (r.end ≤ length s.now)))))) }
{
    let g = signature::read_sig(s, sizes, sorts, funcs, acts)?;
    let r = equations::read_equations(
        s,
        &sizes[..g.sorts],
        &funcs[..g.funcs],
        &acts[..g.acts],
        g.at,
        params,
        rows,
    )?;
    let n = wide(peek(s, g.at));
    let end = equations::read_start(s, &sizes[..g.sorts], &params[..n], r.at)?;
    if MAX_SUMMANDS < r.total {
        return None;
    }
    Some(Read {
        sort_count: g.sorts,
        named: g.named,
        functions: g.funcs,
        actions: g.acts,
        equations: n,
        start: r.at,
        end,
    })
}

// The sizes of the sorts go behind the places of the functions.
fn put_sizes(funcs: &mut [u16], sizes: &[u8])
    requires { (length funcs.old ≡ max_functions + max_sorts) × (length sizes.now ≡ max_sorts) }
    ensures { funcs.new ≡ take max_functions funcs.old ++ sizes.now }
{
    // by an index, since bytes go into cells
    for k in 0..sizes.len() {
        funcs[MAX_FUNCTIONS + k] = u16::from(sizes[k]);
    }
}

// "zeros after it": the loop has one way out, so that the compiler tests many bytes at once.
fn zeros(s: &[u8], at: usize) -> bool
    ensures { Says result (Every (λ b. b ≡ 0) (drop at s.now)) }
{
    let mut good = true;
    for i in (at..s.len()).rev() {
        good = good & (s[i] == 0);
    }
    good
}

// "fewest blocks, zeros after it"
fn filled(s: &[u8], end: usize) -> bool
    requires { end ≤ max_stream }
    ensures { Says result ((length s.now ≡ blocks_for end * block_stream) × Every (λ b. b ≡ 0) (drop end s.now)) }
{
    if s.len() != (end + (BLOCK_STREAM - 1)) / BLOCK_STREAM * BLOCK_STREAM {
        return false;
    }
    zeros(s, end)
}

// The one table that a stream holds, as an index.
pub fn read_table(s: &[u8]) -> Option<Index>
    requires { length s.now ≤ max_stream }
    ensures { TableRead (table_read s.now) s.now result }
{
    let mut sizes = [0u8; MAX_SORTS];
    let mut sorts = [0u16; MAX_SORTS];
    let mut funcs = [0u16; FUNCS];
    let mut acts = [0u16; MAX_ACTIONS];
    let mut params = [0u16; MAX_EQUATIONS];
    let mut rows = [0u16; MAX_EQUATIONS];
    let r = read_into(
        s,
        &mut sizes,
        &mut sorts,
        &mut funcs,
        &mut acts,
        &mut params,
        &mut rows,
    )?;
    if !filled(s, r.end) {
        return None;
    }
    put_sizes(&mut funcs, &sizes);
    Some(Index {
        sorts,
        funcs,
        acts,
        params,
        rows,
        sort_count: r.sort_count,
        named: r.named,
        functions: r.functions,
        actions: r.actions,
        equations: r.equations,
        start: r.start,
    })
}
