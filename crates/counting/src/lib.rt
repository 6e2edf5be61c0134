#![tactic(auto)]
// Heads counted, without writing any.
ghost use Rattle.std.specs.Prelude.{◌≡◌, true, ℕ, ◌+◌, ◌*◌, ◌≤◌, ◌<◌, length, get_or, replicate};
ghost use Rattle.pcrl.specs.Sheet.{Sheet};
ghost use Rattle.nodes.specs.Layout.{cell_limit};
ghost use Rattle.checker.specs.Circles.{HeadsOf};
ghost use Rattle.counting.specs.Limits.{most_heads, row_width, max_fuel, counts_room, cut, row};
ghost use Rattle.counting.specs.Counting.{leaf_of, Counts, Placed, Tallied, PartOf, SameIn, Unchanged, NextCount};

use checker::circles::head_sets;
use elements::cell;
use limits::{MAX_PROCESSES, MAX_SUMMANDS};
use nodes::with_bit;

// From here on counts are not told apart: a table has fewer summands and fewer equations.
pub const MOST: usize = MAX_SUMMANDS + 1;

// A row of counts for each number of calls that may be followed, none to one more than there are processes.
pub const ROW: usize = MAX_PROCESSES;

pub const ROOM: usize = (MAX_PROCESSES + 2) * ROW;

// How many heads and new equations a term has, and the place after it.
#[derive(Clone, Copy)]
pub struct Counted {
    pub next: usize,
    pub heads: usize,
    pub own: usize,
}

#[tactic(auto, unfolding(crate::specs::Limits::cut))]
fn add(a: usize, b: usize) -> usize
    requires { a ≤ most_heads }
    ensures { (result ≡ cut (a + b)) × (result ≤ most_heads) }
{
    a.saturating_add(b).min(MOST)
}

// The count of process k in the row at base, 0 past the row's end.
fn known(counts: &[u16], base: usize, k: usize) -> usize
    requires { base < cell_limit }
    ensures { (result ≡ get_or (row base counts.now) k 0) × (result < cell_limit) }
{
    if k < ROW { cell(counts, base + k) } else { 0 }
}

// The heads that a node has by itself: an action's, or those of the process that is called.
pub fn leaf(counts: &[u16], base: usize, kind: usize, number: usize) -> usize
    requires { base < cell_limit }
    ensures { (result ≡ leaf_of (row base counts.now) kind number) × (result < cell_limit) }
{
    if kind == nodes::ATOM {
        return 1;
    }
    if kind == nodes::CALL {
        return known(counts, base, number);
    }
    0
}

// How many heads and new equations a term has, given the heads of each process: a loop over what is left of it.
// Of a sequence the first part is counted and the rest is passed; only brackets go deeper.
pub fn count(cells: &[u16], at: usize, counts: &[u16], base: usize) -> Counted
    requires { base < cell_limit }
    ensures at_le_next { (at ≤ result.next) × (result.heads ≤ most_heads) × (result.own ≤ most_heads) }
    ensures counts { Counts cells.now (row base counts.now) at result }
{
    let mut p = at;
    let mut need: usize = 1;
    let mut n: usize = 0;
    let mut m: usize = 0;
    while need > 0 {
        if p >= cells.len() {
            return Counted {
                next: p,
                heads: n,
                own: m,
            };
        }
        // a choice without a new equation, which has no data
        if cell(cells, p) == nodes::ALT {
            need += 1;
            p += nodes::HEADER;
            continue;
        }
        let d = nodes::node_at(cells, p);
        if d.kind == nodes::SEQ {
            let a = count(cells, d.next, counts, base);
            let b = nodes::skip(cells, a.next);
            n = add(n, a.heads);
            m = add(m, add(a.own, b.own));
            need -= 1;
            p = b.next;
            continue;
        }
        n = add(n, leaf(counts, base, d.kind, d.number));
        m = add(m, d.own);
        need = need - 1 + d.kids;
        p = d.next;
    }
    Counted {
        next: p,
        heads: n,
        own: m,
    }
}

// Is there a row before row f, and is the first set part of the second?
fn settled(set: u32, same: u32, f: usize) -> bool
    ensures { result ≡ true → (0 < f) × PartOf set same }
{
    if f == 0 {
        return false;
    }
    set | same == same
}

// The count of process k in row f + 1: that of row f, if the processes at its head have in row f the counts of the row before it.
fn next_count(cells: &[u16], at: usize, t: &[u16], f: usize, k: usize, set: u32, same: u32) -> usize
    requires { (f < max_fuel) × (k < row_width) }
    ensures upper_bound { result < cell_limit }
    ensures next_count { NextCount cells.now at t.now f k set same result }
{
    if settled(set, same, f) {
        return cell(t, ROW * f + k);
    }
    let r = count(cells, at, t, ROW * f);
    r.heads
}

// One row more: calls followed once more. Row f is read while the row behind it is written.
fn round(cells: &[u16], starts: &[u16], n: usize, f: usize, sets: &[u32], same: u32, t: &mut [u16])
    requires { (n ≤ row_width) × (f < max_fuel) × (length sets.now ≡ row_width) × (length t.old ≡ counts_room) }
    ensures { (H : Sheet) → length H.procs ≡ n → Placed H cells.now starts.now → HeadsOf H n sets.now → Unchanged t.old f same → Tallied H f t.old → Tallied H (f + 1) t.new }
{
    for k in 0..n {
        let p = cell(starts, k);
        let c = next_count(cells, p, t, f, k, sets[k], same);
        t[ROW * (f + 1) + k] = c as u16;
    }
}

// The processes whose counts are the same in the rows f and f + 1.
fn unchanged(t: &[u16], n: usize, f: usize) -> u32
    requires { (n ≤ row_width) × (f < max_fuel) }
    ensures { SameIn t.now f result }
{
    let mut same: u32 = 0;
    for k in 0..n {
        if cell(t, ROW * (f + 1) + k) == cell(t, ROW * f + k) {
            same = with_bit(same, k);
        }
    }
    same
}

// The rows 0 to `times`, written over zeros. A right side is counted again only where a process at its head has another count.
pub fn rounds(cells: &[u16], starts: &[u16], n: usize, times: usize, t: &mut [u16])
    requires { (n ≤ row_width) × (times ≤ max_fuel) × (t.old ≡ replicate counts_room 0) }
    ensures { (H : Sheet) → length H.procs ≡ n → Placed H cells.now starts.now → Tallied H times t.new }
{
    let sets = head_sets(cells, starts, n);
    let mut same: u32 = 0;
    for f in 0..times {
        round(cells, starts, n, f, &sets, same, t);
        same = unchanged(t, n, f);
    }
}
