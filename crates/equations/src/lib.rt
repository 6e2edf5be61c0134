#![tactic(auto)]
// The equations of a table's stream: parameters of all, summands of all, and the start; where each stands is kept.
ghost use Rattle.std.specs.Prelude.{◌≡◌, List, ℕ, ◌≤◌, ◌<◌, length, get_or, take, drop, MatchOption, IfSome, OnSome};
ghost use Rattle.pcrl.specs.Limits.{max_equations, frame_width};
ghost use Rattle.pcrl.specs.Tests.{between?, below?};
ghost use Rattle.pcrl.specs.Reader.{missing, one, counted, each};
ghost use Rattle.pcrl.specs.Sheet.{Sig};
ghost use Rattle.pcrl.specs.Table.{Equation, params_of};
ghost use Rattle.pcrl.specs.Stream.{encode_numbers};
ghost use Rattle.pcrl.specs.Decode.{read_sorts, read_summands, read_equations, read_start};
ghost use Rattle.terms.specs.Stands.{KnownParams};
ghost use Rattle.terms.specs.Ends.{rests, ended};
ghost use Rattle.terms.specs.Laid.{Laid};
ghost use Rattle.equations.specs.Reading.{KnownSig, KnownRows, RowsRead, EquationsRead};

use elements::{cell, peek, wide};
use limits::MAX_EQUATIONS;

const PARAMETERS: u8 = limits::FRAME_WIDTH as u8;

// Where the summands end, and how many they are.
#[derive(Clone, Copy)]
pub struct SummandRows {
    pub at: usize,
    pub total: usize,
}

// The parameter lists of all equations; where each stands goes into params.
fn read_params(s: &[u8], sizes: &[u8], at: usize, params: &mut [u16]) -> Option<usize>
    requires { (max_equations ≤ length params.old) × (length s.now < 65536) }
    ensures { Laid (counted (between? 1 max_equations) (read_sorts sizes.now frame_width) (drop at s.now)) encode_numbers s.now result (take (get_or s.now at 0) params.new) × OnSome result (get_or s.now at 0 ≤ max_equations) }
{
    let n = terms::number_at(s, at, 1, MAX_EQUATIONS + 1)?;
    let mut i = at + 1;
    for k in 0..n {
        let next = terms::read_list(s, i, 0, PARAMETERS, 0, sizes.len())?;
        params[k] = i as u16;
        i = next;
    }
    Some(i)
}

// The summands of all equations; where the count of each equation's stands goes into rows.
fn read_rows(
    s: &[u8],
    sizes: &[u8],
    funcs: &[u16],
    acts: &[u16],
    params: &[u16],
    at: usize,
    rows: &mut [u16],
) -> Option<SummandRows>
    requires { (length params.now ≤ max_equations) × ((max_equations ≤ length rows.old) × (length s.now < 65536)) }
    ensures { (S : Sig) (Ps : List (List ℕ)) → KnownSig S s.now sizes.now funcs.now acts.now → KnownRows S Ps s.now params.now → RowsRead (each (read_summands S Ps) Ps (drop at s.now)) s.now (take (length params.now) rows.new) result }
{
    let mut i = at;
    let mut total = 0usize;
    for k in 0..params.len() {
        let own = terms::list_at(s, cell(params, k));
        let next = summands::read_summands(s, sizes, funcs, acts, params, own, i)?;
        rows[k] = i as u16;
        total += wide(peek(s, i));
        i = next;
    }
    Some(SummandRows { at: i, total })
}

// The parameters of all equations, and their summands behind them.
pub fn read_equations(
    s: &[u8],
    sizes: &[u8],
    funcs: &[u16],
    acts: &[u16],
    at: usize,
    params: &mut [u16],
    rows: &mut [u16],
) -> Option<SummandRows>
    requires { (max_equations ≤ length params.old) × ((max_equations ≤ length rows.old) × (length s.now < 65536)) }
    ensures { ((S : Sig) → KnownSig S s.now sizes.now funcs.now acts.now → MatchOption result (read_equations S (drop at s.now) ≡ missing) (λ r. EquationsRead S s.now at r.at r.total (take (get_or s.now at 0) params.new) (take (get_or s.now at 0) rows.new))) × OnSome result (get_or s.now at 0 ≤ max_equations) }
{
    let summands = read_params(s, sizes, at, params)?;
    let n = wide(peek(s, at));
    read_rows(s, sizes, funcs, acts, &params[..n], summands, rows)
}

// "its data evaluated": a value of its sort for each parameter
fn read_data(s: &[u8], sizes: &[u8], sorts: &[u8], at: usize) -> Option<usize>
    ensures { (rests (each (λ D. one (below? (get_or sizes.now D 0))) sorts.now (drop at s.now)) ≡ ended s.now result) × (at ≤ length s.now → IfSome result (λ end. end ≤ length s.now)) }
{
    let mut i = at;
    for d in sorts {
        terms::number_at(s, i, 0, cell(sizes, wide(*d)))?;
        i += 1;
    }
    Some(i)
}

// "start equation, its data evaluated"
pub fn read_start(s: &[u8], sizes: &[u8], params: &[u16], at: usize) -> Option<usize>
    ensures { ((S : Sig) (es : List Equation) → sizes.now ≡ S.sorts → KnownParams (params_of es) s.now params.now → rests (read_start S es (drop at s.now)) ≡ ended s.now result) × IfSome result (λ end. end ≤ length s.now) }
{
    let e = terms::number_at(s, at, 0, params.len())?;
    let sorts = terms::list_at(s, cell(params, e));
    read_data(s, sizes, sorts, at + 1)
}
