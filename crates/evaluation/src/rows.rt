// Data terms for many values of two variables at once: rows of up to 128 values, one for each pair of theirs.
ghost use Rattle.std.specs.Prelude.{◌≡◌, ℕ, ◌+◌, ◌-◌, ◌*◌, ◌≤◌, ◌<◌, min, eqb, length, take, drop, IfSome};
ghost use Rattle.pcrl.specs.Decode.{node_of};
ghost use Rattle.evaluation.specs.Run.{pick, argument_count, worth_of, run, top};
ghost use Rattle.evaluation.specs.Rows.{lane_count, row_count, row_room, mark_room, lane, RowPut, Marked, Zeros, lane_env, LanesKept};

use crate::lanes::{LANES, ROWS, binary, copy, fill, operator, unary};
use crate::operator_arguments;
use elements::{cell, peek, wide};
use terms::{FUNCTION, NOT, VARIABLE, size_of};

// The row for a node that takes the first k rows from t on.
fn onto(t: usize, k: usize) -> usize
    requires { (0 < t) × ((t ≤ row_count) × (k ≤ 3)) }
    ensures { (result ≡ min (t + k) row_count - 1) × (result < row_count) }
{
    (t + k).min(ROWS) - 1
}

// A byte's row is put in the place of the rows that it takes; where it stands.
fn node(
    s: &[u8],
    funcs: &[u16],
    e: &[u8],
    u: usize,
    v: usize,
    slow: &[u8],
    fast: &[u8],
    n: usize,
    rows: &mut [u8],
    marks: &mut [u8],
    t: usize,
    b: u8,
) -> usize
    requires { (0 < t) × ((t ≤ row_count) × ((row_room ≤ length rows.old) × ((mark_room ≤ length marks.old) × ((n ≤ lane_count) × ((lane_count ≤ length slow.now) × (lane_count ≤ length fast.now)))))) }
    ensures { (result < row_count) × ((result ≡ min (t + argument_count s.now funcs.now (node_of b)) row_count - 1) × (u < length e.now → v < length e.now → Marked rows.old marks.old → RowPut n rows.old result (λ i. worth_of s.now funcs.now (lane_env e.now u v slow.now fast.now i) (node_of b) (lane rows.old t i) (lane rows.old (t + 1) i) (lane rows.old (t + 2) i)) rows.new × Marked rows.new marks.new)) }
{
    let c = wide(b);
    if c < VARIABLE {
        let d = onto(t, 0);
        fill(rows, d, b);
        marks[d] = 0;
        return d;
    }
    if c < FUNCTION {
        let d = onto(t, 0);
        let i = c - VARIABLE;
        if i == v {
            copy(fast, rows, d);
            marks[d] = 1;
            return d;
        }
        if i == u {
            copy(slow, rows, d);
            marks[d] = 1;
            return d;
        }
        fill(rows, d, peek(e, i));
        marks[d] = 0;
        return d;
    }
    if c < NOT {
        let p = cell(funcs, c - FUNCTION);
        if peek(s, p) == 1 {
            let d = onto(t, 1);
            unary(s, p + 3, rows, marks, t, d, n);
            return d;
        }
        let d = onto(t, 2);
        let width = size_of(funcs, peek(s, p + 2));
        binary(s, p + 4, width, rows, marks, t, d, n);
        return d;
    }
    let d = onto(t, operator_arguments(c));
    operator(c, rows, t, d);
    marks[d] = 1;
    d
}

// The row of the term that stands from at to end, for n pairs of values of variables u and v: where it stands, if there are rows enough.
fn term(
    s: &[u8],
    funcs: &[u16],
    e: &[u8],
    u: usize,
    v: usize,
    slow: &[u8],
    fast: &[u8],
    n: usize,
    at: usize,
    end: usize,
    rows: &mut [u8],
    marks: &mut [u8],
) -> Option<usize>
    requires { (at ≤ end) × ((end ≤ length s.now) × ((row_room ≤ length rows.old) × ((mark_room ≤ length marks.old) × ((n ≤ lane_count) × ((lane_count ≤ length slow.now) × (lane_count ≤ length fast.now)))))) }
    ensures { IfSome result (λ t. t ≤ row_count) × (u < length e.now → v < length e.now → Marked rows.old marks.old → Zeros rows.old → Marked rows.new marks.new × (Zeros rows.new × IfSome result (λ t. (i : ℕ) → i < n → lane rows.new t i ≡ top (run s.now funcs.now (lane_env e.now u v slow.now fast.now i) (take (end - at) (drop at s.now)))))) }
{
    let mut t: usize = ROWS;
    for j in (at..end).rev() {
        if t == 0 {
            return None;
        }
        t = node(s, funcs, e, u, v, slow, fast, n, rows, marks, t, s[j]);
    }
    Some(t)
}

fn same(x: u8, wanted: u8, m: u8) -> u8
    ensures { result ≡ pick (eqb x wanted) m 0 }
{
    if x == wanted { m } else { 0 }
}

// Of the lanes that are kept, those in which row t is what is wanted; false only if there are none.
fn keep(rows: &[u8], t: usize, wanted: u8, met: &mut [u8], n: usize) -> bool
    requires { (t ≤ row_count) × ((row_room ≤ length rows.now) × ((n ≤ lane_count) × (lane_count ≤ length met.old))) }
    ensures { LanesKept n (lane rows.now t) wanted met.old met.new result }
{
    let mut some: u8 = 0;
    let r = t * LANES;
    for i in 0..n {
        let m = same(rows[r + i], wanted, met[i]);
        met[i] = m;
        some = some.max(m);
    }
    some != 0
}

// Of the lanes that are kept, those in which the term that stands from at to end is worth what is wanted: false only if there are none; or they are not known.
// Lane i, of n, has value i of `slow` and of `fast` for variables u and v. The rows and marks are left for the next term.
pub fn row_holds(
    s: &[u8],
    funcs: &[u16],
    e: &[u8],
    u: usize,
    v: usize,
    slow: &[u8],
    fast: &[u8],
    n: usize,
    at: usize,
    end: usize,
    wanted: u8,
    rows: &mut [u8],
    marks: &mut [u8],
    met: &mut [u8],
) -> Option<bool>
    requires { (row_room ≤ length rows.old) × ((mark_room ≤ length marks.old) × ((n ≤ lane_count) × ((lane_count ≤ length slow.now) × ((lane_count ≤ length fast.now) × (lane_count ≤ length met.old))))) }
    ensures { at ≤ end → end ≤ length s.now → u < length e.now → v < length e.now → Marked rows.old marks.old → Zeros rows.old → Marked rows.new marks.new × (Zeros rows.new × IfSome result (λ some. LanesKept n (λ i. top (run s.now funcs.now (lane_env e.now u v slow.now fast.now i) (take (end - at) (drop at s.now)))) wanted met.old met.new some)) }
{
    if end < at {
        return None;
    }
    if s.len() < end {
        return None;
    }
    let t = term(s, funcs, e, u, v, slow, fast, n, at, end, rows, marks)?;
    Some(keep(rows, t, wanted, met, n))
}
