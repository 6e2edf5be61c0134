// One walk over a term and the right sides that it calls at the head: each head is written as a summand. Only calls are walked by a
// call of the walk itself; the second sides of choices wait on a stack.
ghost use Rattle.std.specs.Prelude.{◌≡◌, ◌⊎◌, ◌*◌, ◌≤◌, length, take, IfOk};
ghost use Rattle.contexts.specs.Spots.{arrays, Bound};
ghost use Rattle.heads.specs.Stack.{later_cells, Steady};
ghost use Rattle.heads.specs.Memory.{Remembers};
ghost use Rattle.heads.specs.Lent.{SameArrays};
ghost use Rattle.heads.specs.Progress.{Looked, Leaf, Parting, Inner, Bounded, start, WrittenBy, aside_turn, place, IfInto, Chosen, Resumed, Nearer, Turned};

use crate::alternatives::{Ahead, choice, look, second_side};
use crate::waiting::{LATER, later_at, put_later};
use crate::work::Work;
use contexts::{Side, Spot};
use nodes::Node;
use refusals::Refusal;

// The walk goes on in the side e of the choice d at t: how many heads it has, how many are left with those of the second sides that
// wait, how many sides wait, with those of the walks around; how far is written.
#[derive(Clone, Copy)]
struct Turn {
    t: Spot,
    d: Node,
    e: Side,
    heads: usize,
    left: usize,
    q: usize,
    w: usize,
}

// All heads are written, so far; or the walk goes on.
enum Next {
    Over(usize),
    Into(Turn),
}

// A sheet in its cells: where the right sides start, how many heads they have, and the numbers of their first new equations.
#[derive(Clone, Copy)]
pub struct Sheet<'a> {
    pub cells: &'a [u16],
    pub starts: &'a [u16],
    pub counts: &'a [u16],
    pub firsts: &'a [u8],
}

// Neither a leaf (an action or a call) nor a choice: the walk goes one step down.
fn inner(kind: usize) -> bool
    ensures { Inner kind result }
{
    kind != nodes::ATOM && kind != nodes::CALL && !choice(kind)
}

// Into a side of the choice at g.
fn aside(g: Ahead, e: Side, heads: usize, left: usize, q: usize, w: usize) -> Turn
    ensures { result ≡ aside_turn g e heads left q w }
{
    Turn {
        t: g.s,
        d: g.d,
        e,
        heads,
        left,
        q,
        w,
    }
}

// Into the first side of a choice, if it has heads; the second one waits, if it has heads too.
fn chosen(
    g: Ahead,
    heads: usize,
    left: usize,
    later: &mut [u16],
    q: usize,
    w: usize,
) -> Result<Next, Refusal>
    requires { Bounded g.s × (later_cells * q ≤ length later.old) }
    ensures { Chosen g heads left q w later.old result later.new }
{
    let first = g.a.heads;
    let e = second_side(g);
    if first == 0 {
        return Ok(Next::Into(aside(g, e, heads, left, q, w)));
    }
    let f = Side {
        second: false,
        at: g.d.next,
        c: g.s.c,
    };
    if first >= heads {
        return Ok(Next::Into(aside(g, f, heads, left, q, w)));
    }
    if later.len() - LATER * q < LATER {
        return Err(Refusal::NotWithin);
    }
    put_later(later, q, g.s, e, heads - first);
    Ok(Next::Into(aside(g, f, first, left, q + 1, w)))
}

// After a leaf that is written up to v: on to the last of the second sides that wait.
fn resumed(
    cells: &[u16],
    later: &[u16],
    g: Ahead,
    heads: usize,
    left: usize,
    q0: usize,
    q: usize,
    v: usize,
) -> Result<Next, Refusal>
    requires { later_cells * q ≤ length later.now }
    ensures w_value { IfOk result (λ n. place n ≡ v) }
    ensures resumed { Resumed cells.now g.s heads left q0 q v later.now result }
{
    if left <= heads {
        return Ok(Next::Over(v));
    }
    if q <= q0 {
        return Err(Refusal::NotWithin);
    }
    if heads == 0 {
        return Err(Refusal::NotWithin);
    }
    let l = later_at(later, q - 1, g.s.fuel);
    let t = l.s;
    if t.at >= cells.len() {
        return Err(Refusal::NotWithin);
    }
    let d = nodes::node_at(cells, t.at);
    Ok(Next::Into(Turn {
        t,
        d,
        e: l.e,
        heads: l.heads,
        left: left - heads,
        q: q - 1,
        w: v,
    }))
}

// The head of an action, or the heads of a call: those of the process's right side.
#[cycle(leaf_next_turn_walk)]
fn leaf(
    sheet: Sheet<'_>,
    g: Ahead,
    heads: usize,
    slots: &[u8],
    work: &mut Work<'_>,
    q: usize,
    out: &mut [u8],
    w: usize,
) -> Result<usize, Refusal>
    requires bound { Bound (length work.old.calls.now) (length slots.now) g.s × (w ≤ length out.old) × (later_cells * q ≤ length work.old.later.now) }
    requires looked { Looked sheet.cells.now sheet.counts.now g × Leaf g.d.kind × Remembers sheet.cells.now sheet.counts.now work.old.remembered.now }
    ensures w_le_w { IfOk result (λ v. (w ≤ v) × (v ≤ length out.old)) × (take (later_cells * q) work.new.later.now ≡ take (later_cells * q) work.old.later.now) }
    ensures same_arrays { SameArrays work.old work.new }
    ensures written_by { WrittenBy sheet.entry.cells.now sheet.entry.starts.now sheet.entry.counts.now sheet.entry.firsts.now (start g.s (arrays slots.now work.old.vars.now work.old.conds.now work.old.calls.now) w out.old heads q (length work.old.later.now)) result (arrays slots.now work.new.vars.now work.new.conds.now work.new.calls.now) out.new }
    ensures remembers { Remembers sheet.entry.cells.now sheet.entry.counts.now work.new.remembered.now }
{
    if g.d.kind == nodes::ATOM {
        let vars = &mut *work.vars;
        let conds = &mut *work.conds;
        let calls = &mut *work.calls;
        return contexts::emit(
            sheet.cells,
            g.d,
            g.s,
            slots,
            vars,
            conds,
            work.after,
            calls,
            out,
            w,
        );
    }
    let mut mine = [0u8; contexts::MINE];
    let Some(r) = contexts::down_call(
        sheet.cells,
        sheet.starts,
        sheet.firsts,
        g.d,
        g.s,
        slots,
        &mut mine,
    ) else {
        return Err(Refusal::NotWithin);
    };
    walk(sheet, r, heads, &mut mine, work, q, out, w)
}

// Into a choice, or on after a leaf that is written.
#[cycle(leaf_next_turn_walk)]
fn next_turn(
    sheet: Sheet<'_>,
    g: Ahead,
    heads: usize,
    left: usize,
    slots: &[u8],
    work: &mut Work<'_>,
    q0: usize,
    q: usize,
    out: &mut [u8],
    w: usize,
) -> Result<Next, Refusal>
    requires steady { Steady (length work.old.calls.now) (length slots.now) g.s.fuel q0 g.s q work.old.later.now × (w ≤ length out.old) }
    requires looked { Looked sheet.cells.now sheet.counts.now g × (Leaf g.d.kind ⊎ Parting g.d.kind) × Remembers sheet.cells.now sheet.counts.now work.old.remembered.now }
    ensures w_le_w { IfOk result (λ n. (w ≤ place n) × (place n ≤ length out.old)) × (take (later_cells * q0) work.new.later.now ≡ take (later_cells * q0) work.old.later.now) }
    ensures same_arrays { SameArrays work.old work.new }
    ensures stays_steady { IfInto result (λ k. Steady (length work.old.calls.now) (length slots.now) g.s.fuel q0 k.t k.q work.new.later.now × Nearer g.s left k) }
    ensures turned { Turned sheet.entry.cells.now sheet.entry.starts.now sheet.entry.counts.now sheet.entry.firsts.now q0 g.s heads left q w (arrays slots.now work.old.vars.now work.old.conds.now work.old.calls.now) work.old.later.now out.old result (arrays slots.now work.new.vars.now work.new.conds.now work.new.calls.now) work.new.later.now out.new }
    ensures remembers { Remembers sheet.entry.cells.now sheet.entry.counts.now work.new.remembered.now }
{
    if choice(g.d.kind) {
        return chosen(g, heads, left, work.later, q, w);
    }
    let v = leaf(sheet, g, heads, slots, work, q, out, w)?;
    let later = &mut *work.later;
    resumed(sheet.cells, later, g, heads, left, q0, q, v)
}

// The heads of the term at s0 in its context, one after another: the place behind them.
#[cycle(leaf_next_turn_walk)]
pub fn walk(
    sheet: Sheet<'_>,
    s0: Spot,
    heads0: usize,
    slots: &mut [u8],
    work: &mut Work<'_>,
    q0: usize,
    out: &mut [u8],
    w: usize,
) -> Result<usize, Refusal>
    requires { Bound (length work.old.calls.now) (length slots.old) s0 × (w ≤ length out.old) × (later_cells * q0 ≤ length work.old.later.now) × Remembers sheet.cells.now sheet.counts.now work.old.remembered.now }
    ensures w_le_w { IfOk result (λ v. (w ≤ v) × (v ≤ length out.old)) × (take (later_cells * q0) work.new.later.now ≡ take (later_cells * q0) work.old.later.now) }
    ensures same_arrays { SameArrays work.old work.new }
    ensures written_by { WrittenBy sheet.entry.cells.now sheet.entry.starts.now sheet.entry.counts.now sheet.entry.firsts.now (start s0 (arrays slots.old work.old.vars.now work.old.conds.now work.old.calls.now) w out.old heads0 q0 (length work.old.later.now)) result (arrays slots.new work.new.vars.now work.new.conds.now work.new.calls.now) out.new }
    ensures remembers { Remembers sheet.entry.cells.now sheet.entry.counts.now work.new.remembered.now }
{
    let mut s = s0;
    let mut heads = heads0;
    let mut left = heads0;
    let mut q = q0;
    let mut v = w;
    while s.at < sheet.cells.len() {
        let g = look(sheet.cells, sheet.counts, s, heads, work.remembered);
        if inner(g.d.kind) {
            let Some(t) = contexts::step(
                sheet.cells,
                g.d,
                g.s,
                second_side(g),
                slots,
                work.vars,
                work.after,
                work.calls,
            ) else {
                return Err(Refusal::NotWithin);
            };
            s = t;
        } else {
            let turn = next_turn(sheet, g, heads, left, slots, work, q0, q, out, v)?;
            let k = match turn {
                Next::Over(end) => return Ok(end),
                Next::Into(k) => k,
            };
            let Some(side) = contexts::down_side(sheet.cells, k.d, k.t, k.e, slots, work.conds)
            else {
                return Err(Refusal::NotWithin);
            };
            s = side;
            heads = k.heads;
            left = k.left;
            q = k.q;
            v = k.w;
        }
    }
    // no term stands behind the cells
    Err(Refusal::NotWithin)
}
