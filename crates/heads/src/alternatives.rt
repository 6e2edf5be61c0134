// Where the walk over a term stands; alternatives that have no heads are passed.
ghost use Rattle.std.specs.Prelude.{◌≡◌, true, false, ℕ, ◌≤◌, ◌<◌, length, IfSome};
ghost use Rattle.nodes.specs.Layout.{cell_limit, byte_limit};
ghost use Rattle.counting.specs.Limits.{most_heads, max_fuel, row};
ghost use Rattle.counting.specs.Counting.{Counts};
ghost use Rattle.heads.specs.Progress.{Choice, Parted, Looked, SecondSide, side_spot, Idle, Behind, Past};
ghost use Rattle.heads.specs.Memory.{work_limit, Reaches, OnlySide, Passed, Finds, Remembers};

use crate::remembered::{Arrival, WORK, find, found_at, remember};
use contexts::{Side, Spot};
use counting::Counted;
use elements::BYTE_LIMIT;
use nodes::Node;

// Where the walk stands, the node there, and the count of its first part if it is a choice or a sequence.
#[derive(Clone, Copy)]
pub struct Ahead {
    pub s: Spot,
    pub d: Node,
    pub a: Counted,
}

pub fn choice(kind: usize) -> bool
    ensures { Choice kind result }
{
    kind == nodes::ALT || kind == nodes::COND
}

// Has the node a first part that is walked or passed by itself? A choice or a sequence.
fn parted(kind: usize) -> bool
    ensures { result ≡ false → Parted kind → ⊥ }
{
    kind == nodes::SEQ || choice(kind)
}

// The count of the first part of a choice or a sequence. Of another node zeros, which nobody reads: each reader knows the kind, and
// would have to open an Option again.
fn first_part(cells: &[u16], counts: &[u16], base: usize, d: Node) -> Counted
    requires { base < cell_limit }
    ensures heads_le_most_heads { (result.heads ≤ most_heads) × (result.own ≤ most_heads) × (Parted d.kind → d.next ≤ result.next) }
    ensures counts { 0 < d.next → d.next ≤ result.next → Counts cells.now (row base counts.now) d.next result }
{
    if parted(d.kind) {
        return counting::count(cells, d.next, counts, base);
    }
    Counted {
        next: 0,
        heads: 0,
        own: 0,
    }
}

pub fn second_side(g: Ahead) -> Side
    requires { g.s.c < byte_limit }
    ensures { SecondSide g result }
{
    Side {
        second: true,
        at: g.a.next,
        c: following::later(g.s.c, g.a.own),
    }
}

// A side of `+`, in the same context.
fn beside(s: Spot, e: Side) -> Spot
    ensures { result ≡ side_spot s e }
{
    Spot {
        at: e.at,
        c: e.c,
        ..s
    }
}

// Has the node no subterm, no head and no new equation? `delta`, or a call without heads.
fn idle(counts: &[u16], base: usize, e: Node) -> bool
    requires { base < cell_limit }
    ensures { result ≡ true → Idle (row base counts.now) e }
{
    e.kids == 0 && e.own == 0 && counting::leaf(counts, base, e.kind, e.number) == 0
}

// The second side of `+` whose first side is idle.
fn behind_idle(cells: &[u16], counts: &[u16], base: usize, p: usize) -> Option<usize>
    requires { (p < length cells.now) × (base < cell_limit) }
    ensures { IfSome result (λ r. (p < r) × (r < length cells.now) × Behind cells.now (row base counts.now) p r) }
{
    let d = nodes::node_at(cells, p);
    if d.kind != nodes::ALT || d.next >= cells.len() {
        return None;
    }
    let e = nodes::node_at(cells, d.next);
    if idle(counts, base, e) && e.next < cells.len() {
        return Some(e.next);
    }
    None
}

// The first alternatives passed that are idle.
fn pass_idle(cells: &[u16], counts: &[u16], base: usize, at: usize) -> usize
    requires { (at < length cells.now) × (base < cell_limit) }
    ensures { (at ≤ result) × (result < length cells.now) × ((heads : ℕ) → Reaches cells.now counts.now base heads at result 0) }
{
    let mut p = at;
    while let Some(q) = behind_idle(cells, counts, base, p) {
        p = q;
    }
    p
}

// The side of `+` that has all heads, if there are cells for it.
fn only_side(d: Node, a: Counted, heads: usize, l: usize) -> Option<usize>
    ensures { IfSome result (λ r. (r < l) × OnlySide d a heads r) }
{
    if d.kind != nodes::ALT {
        return None;
    }
    let side = if a.heads == 0 { a.next } else { d.next };
    if side >= l {
        return None;
    }
    if a.heads > 0 && a.heads < heads {
        return None;
    }
    Some(side)
}

// The new equations passed, with those of a first side that has no heads.
fn passed(own: usize, a: Counted) -> usize
    requires { (own < byte_limit) × (a.own ≤ most_heads) }
    ensures { Passed a own result }
{
    if a.heads == 0 {
        return (own + a.own) % BYTE_LIMIT;
    }
    own
}

// The cells looked at, with those from p on.
fn weigh(work: usize, p: usize, next: usize) -> usize
    requires { work ≤ work_limit }
    ensures { result ≤ work_limit }
{
    work.saturating_add(next.saturating_sub(p)).min(WORK)
}

// From a place on as long as one side of `+` has all heads.
fn reach(cells: &[u16], counts: &[u16], base: usize, heads: usize, at: usize) -> Arrival
    requires { (at < length cells.now) × (base < cell_limit) }
    ensures { Finds cells.now counts.now base heads at result }
{
    let mut p = pass_idle(cells, counts, base, at);
    let mut d = nodes::node_at(cells, p);
    let mut a = first_part(cells, counts, base, d);
    let mut own: usize = 0;
    let mut work = weigh(0, at, p);
    while let Some(q) = only_side(d, a, heads, cells.len()) {
        own = passed(own, a);
        work = weigh(work, p, a.next);
        let r = pass_idle(cells, counts, base, q);
        work = weigh(work, q, r);
        p = r;
        d = nodes::node_at(cells, p);
        a = first_part(cells, counts, base, d);
    }
    Arrival {
        at: p,
        own,
        next: d.next,
        a,
        work: weigh(work, p, a.next),
    }
}

// What is found from a place on; it is remembered where it takes long.
fn recall(
    cells: &[u16],
    counts: &[u16],
    base: usize,
    heads: usize,
    at: usize,
    remembered: &mut [u16],
) -> Arrival
    requires { (at < length cells.now) × (base < cell_limit) × Remembers cells.now counts.now remembered.old }
    ensures { Finds cells.now counts.now base heads at result × Remembers cells.now counts.now remembered.new }
{
    if let Some(i) = find(remembered, at, base, heads) {
        return found_at(remembered, i);
    }
    let f = reach(cells, counts, base, heads, at);
    if f.work >= WORK {
        remember(cells, counts, remembered, at, base, heads, f);
    }
    f
}

// Is what was found right for the node d there?
fn usable(d: Node, f: Arrival) -> bool
    ensures { result ≡ true → (d.next ≡ f.next) × (Parted d.kind → f.next ≤ f.a.next) }
{
    d.next == f.next && (f.next <= f.a.next || !parted(d.kind))
}

// Where the walk comes to from s on, as long as one side of `+` has all heads.
pub fn look(cells: &[u16], counts: &[u16], s: Spot, heads: usize, remembered: &mut [u16]) -> Ahead
    requires { (s.at < length cells.now) × (s.fuel ≤ max_fuel) × (s.c < byte_limit) × Remembers cells.now counts.now remembered.old }
    ensures looked { Looked cells.now counts.now result }
    ensures past { Past cells.now counts.now heads s result.s }
    ensures remembers { Remembers cells.now counts.now remembered.new }
{
    let base = counting::ROW * s.fuel;
    let d = nodes::node_at(cells, s.at);
    if !parted(d.kind) {
        let none = Counted {
            next: 0,
            heads: 0,
            own: 0,
        };
        return Ahead { s, d, a: none };
    }
    let f = recall(cells, counts, base, heads, s.at, remembered);
    let e = Side {
        second: true,
        at: f.at,
        c: (s.c + f.own % BYTE_LIMIT) % BYTE_LIMIT,
    };
    let t = beside(s, e);
    let b = nodes::node_at(cells, f.at);
    if usable(b, f) {
        let m = f.a;
        return Ahead { s: t, d: b, a: m };
    }
    let a = first_part(cells, counts, base, b);
    Ahead { s: t, d: b, a }
}
