#![tactic(auto)]
// The summands of all equations: the written processes, and behind them the new equations, whose rows are given.
ghost use Rattle.std.specs.Prelude.{◌≡◌, ◌+◌, ◌≤◌, ◌<◌, length, IfOk};
ghost use Rattle.pcrl.specs.Limits.{max_processes, max_equations, max_stream};
ghost use Rattle.nodes.specs.Layout.{byte_limit};
ghost use Rattle.nodes.specs.Scoped.{max_scope};
ghost use Rattle.counting.specs.Limits.{max_fuel};
ghost use Rattle.listing.specs.Listing.{Bounded, WrittenSource, PartSource, Sources, EquationPut, CountsAll, PutsAll};
ghost use Rattle.listing.specs.Summands.{PutsSummands};

use elements::{cell, peek};
use limits::MAX_SUMMANDS;
use marking::many;
use nodes::{MAX_SCOPE, Outline, PROC_ROW};
use parts::row::{MARKS, ROW, SCOPE};
use refusals::Refusal;

// Every variable marked.
const ALL_MARKS: u32 = u32::MAX;

// Where the right side of an equation stands; how many variables are in scope there, and as bits those that are parameters;
// the number of the next variable, and that of the first new equation in it.
#[derive(Clone, Copy)]
pub struct Source {
    pub at: usize,
    pub scope: usize,
    pub marks: u32,
    pub next: usize,
    pub first: usize,
}

// A number of variables.
fn in_scope(n: usize) -> usize
    ensures { (result ≤ max_scope) × (n ≤ max_scope → result ≡ n) }
{
    if n > MAX_SCOPE { 0 } else { n }
}

// The right side of process k: all variables in scope are its parameters.
fn written_source(procs: &[u8], starts: &[u16], firsts: &[u8], k: usize) -> Source
    requires { k < byte_limit }
    ensures bounded { Bounded result }
    ensures written_source { WrittenSource procs.now starts.now firsts.now k result }
{
    let m = in_scope(cell(procs, PROC_ROW * k));
    Source {
        at: cell(starts, k),
        scope: m,
        marks: ALL_MARKS,
        next: m,
        first: cell(firsts, k),
    }
}

// The part in row j, which is the right side of equation k: the marked variables are its parameters.
fn part_source(rows: &[u32], k: usize, j: usize) -> Source
    requires { (k + 1 < byte_limit) × (j < byte_limit) }
    ensures bounded { Bounded result }
    ensures part_source { PartSource rows.now k j result }
{
    let at = peek(rows, ROW * j);
    let n = peek(rows, ROW * j + SCOPE);
    let marks = peek(rows, ROW * j + MARKS);
    Source {
        at: at as usize,
        scope: in_scope(n as usize),
        marks,
        next: in_scope(many(marks)),
        first: k + 1,
    }
}

// The right side of equation k.
fn source_of(
    procs: &[u8],
    starts: &[u16],
    firsts: &[u8],
    n: Outline,
    rows: &[u32],
    k: usize,
) -> Source
    requires { k + 1 < byte_limit }
    ensures bounded { Bounded result }
    ensures sources { Sources procs.now starts.now firsts.now n rows.now k result }
{
    if k < n.procs {
        return written_source(procs, starts, firsts, k);
    }
    part_source(rows, k, k - n.procs)
}

// How many summands all equations have, cut.
fn count_all(
    procs: &[u8],
    cells: &[u16],
    starts: &[u16],
    counts: &[u16],
    firsts: &[u8],
    n: Outline,
    rows: &[u32],
    total: usize,
    fuel: usize,
) -> usize
    requires { (total + 1 < byte_limit) × (fuel ≤ max_fuel) }
    ensures { CountsAll procs.now cells.now starts.now counts.now firsts.now n rows.now total fuel result }
{
    let mut sum: usize = 0;
    for k in 0..total {
        let s = source_of(procs, starts, firsts, n, rows, k);
        let more = heads::count_heads(cells, counts, fuel, s.at);
        sum = sum.saturating_add(more).min(counting::MOST);
    }
    sum
}

// The summands of one equation, with their count.
fn put_equation(
    cells: &[u16],
    starts: &[u16],
    counts: &[u16],
    firsts: &[u8],
    fuel: usize,
    s: Source,
    out: &mut [u8],
    w: usize,
) -> Result<usize, Refusal>
    requires { (fuel ≤ max_fuel) × Bounded s × (w ≤ length out.old) × (length out.old ≤ max_stream) }
    ensures w_le_w { IfOk result (λ v. (w ≤ v) × (v ≤ length out.old)) }
    ensures equation_put { EquationPut cells.now starts.now counts.now firsts.now fuel s w out.old result out.new }
{
    let mut slots = [0u8; heads::params::SLOTS];
    heads::params::put_params(&mut slots, s.marks, s.scope);
    heads::write_summands(
        cells, starts, counts, firsts, fuel, s.at, s.first, &mut slots, s.scope, s.next, out, w,
    )
}

// The summands of all equations, one list behind another.
fn put_all(
    procs: &[u8],
    cells: &[u16],
    starts: &[u16],
    counts: &[u16],
    firsts: &[u8],
    n: Outline,
    rows: &[u32],
    total: usize,
    fuel: usize,
    out: &mut [u8],
    w: usize,
) -> Result<usize, Refusal>
    requires { (total + 1 < byte_limit) × (fuel ≤ max_fuel) × (w ≤ length out.old) × (length out.old ≤ max_stream) }
    ensures { PutsAll procs.now cells.now starts.now counts.now firsts.now n rows.now total fuel w out.old result out.new }
{
    let mut v = w;
    for k in 0..total {
        let s = source_of(procs, starts, firsts, n, rows, k);
        v = put_equation(cells, starts, counts, firsts, fuel, s, out, v)?;
    }
    Ok(v)
}

// The summands of all equations, each list with its count; they are counted before anything is written.
// NoRoom: for them, or they are not within their limits.
pub fn put_summands(
    procs: &[u8],
    cells: &[u16],
    starts: &[u16],
    n: Outline,
    rows: &[u32],
    count: usize,
    out: &mut [u8],
    w: usize,
) -> Result<usize, Refusal>
    requires { (n.procs ≤ max_processes) × (count ≤ max_equations) × (length out.old ≤ max_stream) }
    ensures { PutsSummands procs.now cells.now starts.now n rows.now count w out.old result out.new }
{
    if w > out.len() {
        return Err(Refusal::NoRoom);
    }
    let fuel = n.procs + 1;
    let total = n.procs + count;
    let mut counts = [0u16; counting::ROOM];
    counting::rounds(cells, starts, n.procs, fuel, &mut counts);
    let firsts = heads::numbering::first_numbers(cells, starts, n.procs);
    if count_all(procs, cells, starts, &counts, &firsts, n, rows, total, fuel) > MAX_SUMMANDS {
        return Err(Refusal::NotWithin);
    }
    put_all(
        procs, cells, starts, &counts, &firsts, n, rows, total, fuel, out, w,
    )
}
