#![tactic(auto)]
// The heads of a term written as summands, one after another.
ghost use Rattle.std.specs.Prelude.{◌+◌, ◌*◌, ◌≤◌, ◌<◌, length, IfOk};
ghost use Rattle.pcrl.specs.Limits.{max_variables};
ghost use Rattle.nodes.specs.Layout.{byte_limit};
ghost use Rattle.nodes.specs.Scoped.{max_scope};
ghost use Rattle.counting.specs.Limits.{max_fuel};
ghost use Rattle.putting.specs.Slots.{slot_width};
ghost use Rattle.contexts.specs.Spots.{variable_limit};
ghost use Rattle.heads.specs.Writing.{HeadsWritten, HeadsCounted, SummandsWritten};

pub mod alternatives; // the first alternatives that have no heads are passed
pub mod numbering; // the numbers of the first new equations
pub mod params; // the slots of an equation's parameters
pub mod remembered; // what is found from a place on
pub mod waiting; // what is walked later
pub mod walk; // one walk over the term and the right sides that it calls at the head
pub mod work; // what a walk works in

use contexts::{CONDITIONS, Spot};
use elements::BYTE_LIMIT;
use following::CALLS;
use limits::{MAX_SUMMANDS, MAX_VARIABLES};
use refusals::Refusal;
use remembered::REMEMBERED;
use waiting::LATER;
use walk::{Sheet, walk};
use work::Work;

// Cells for the heads of an equation: each second side that waits has one of them.
const LATERS: usize = MAX_SUMMANDS * LATER;

// All heads of a term written as summands, one behind another; behind the slots of the variables in scope there is room for those that a
// summand adds. Err: not every one has the limits, or there is no room for them; NoRoom where every one has them.
pub fn write_heads(
    cells: &[u16],
    starts: &[u16],
    counts: &[u16],
    firsts: &[u8],
    fuel: usize,
    at: usize,
    c: usize,
    slots: &mut [u8],
    n: usize,
    m: usize,
    heads: usize,
    out: &mut [u8],
    w: usize,
) -> Result<usize, Refusal>
    requires { (fuel ≤ max_fuel) × (c < byte_limit) × (n ≤ max_scope) × (slot_width * (n + max_variables) ≤ length slots.old) × (m ≤ variable_limit) × (w ≤ length out.old) }
    ensures w_le_w { IfOk result (λ v. (w ≤ v) × (v ≤ length out.old)) }
    ensures heads_written { HeadsWritten cells.now starts.now counts.now firsts.now fuel at c slots.old n m heads w out.old result out.new }
{
    let mut vars = [0u8; MAX_VARIABLES];
    let mut conds = [0u8; CONDITIONS];
    let mut after = [0u8; CALLS];
    let mut calls = [0u8; CALLS];
    let mut later = [0u16; LATERS];
    let mut remembered = [0u16; REMEMBERED];
    let mut work = Work {
        vars: &mut vars,
        conds: &mut conds,
        after: &mut after,
        calls: &mut calls,
        later: &mut later,
        remembered: &mut remembered,
    };
    let s = Spot {
        at,
        fuel,
        n,
        m,
        c,
        nv: 0,
        nc: 0,
        lc: 0,
        nk: 0,
        top: CALLS,
    };
    let sheet = Sheet {
        cells,
        starts,
        counts,
        firsts,
    };
    walk(sheet, s, heads, slots, &mut work, 0, out, w)
}

// How many heads a term has, where `fuel` calls may be followed.
pub fn count_heads(cells: &[u16], counts: &[u16], fuel: usize, at: usize) -> usize
    requires { fuel ≤ max_fuel }
    ensures { HeadsCounted cells.now counts.now fuel at result }
{
    let a = counting::count(cells, at, counts, counting::ROW * fuel);
    a.heads
}

// The summands of an equation, their count in front.
pub fn write_summands(
    cells: &[u16],
    starts: &[u16],
    counts: &[u16],
    firsts: &[u8],
    fuel: usize,
    at: usize,
    c: usize,
    slots: &mut [u8],
    n: usize,
    m: usize,
    out: &mut [u8],
    w: usize,
) -> Result<usize, Refusal>
    requires { (fuel ≤ max_fuel) × (c < byte_limit) × (n ≤ max_scope) × (slot_width * (n + max_variables) ≤ length slots.old) × (m ≤ variable_limit) × (w ≤ length out.old) }
    ensures w_le_w { IfOk result (λ v. (w ≤ v) × (v ≤ length out.old)) }
    ensures summands_written { SummandsWritten cells.now starts.now counts.now firsts.now fuel at c slots.old n m w out.old result out.new }
{
    let a = count_heads(cells, counts, fuel, at);
    if w >= out.len() {
        return Err(Refusal::NoRoom);
    }
    out[w] = (a % BYTE_LIMIT) as u8;
    if a == 0 {
        return Ok(w + 1);
    }
    write_heads(
        cells,
        starts,
        counts,
        firsts,
        fuel,
        at,
        c,
        slots,
        n,
        m,
        a,
        out,
        w + 1,
    )
}
