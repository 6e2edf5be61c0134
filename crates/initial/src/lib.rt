#![tactic(auto)]
// "start equation, its data evaluated": the last part of a table's stream.
// The data are read from the right, and their values stand in the cells that were read.
ghost use Rattle.std.specs.Prelude.{◌≡◌, ◌+◌, ◌*◌, ◌<◌, ◌≤◌, length, set};
ghost use Rattle.nodes.specs.Layout.{cell_limit, byte_limit};
ghost use Rattle.initial.specs.Symbols.{looked_at, second_size, operated, one_value, two_value};
ghost use Rattle.initial.specs.Evaluating.{far, Further, Steps, Evaluates, PutsValues, PutsStart};

use elements::{cell, low};
use emit::bytes::put;
use nodes::{AND, EQUAL, FUNC_ROW, NOT, VALUE, node_at};

// Where the cells that are left to read end, and where the values begin.
#[derive(Clone, Copy)]
pub struct Reached {
    pub end: usize,
    pub top: usize,
}

// A cell; past the end nothing is written.
fn store(cells: &mut [u16], i: usize, v: usize)
    requires { v < cell_limit }
    ensures { cells.new ≡ set cells.old i v }
{
    if i < cells.len() {
        cells[i] = v as u16;
    }
}

// The element x of the values of function f.
fn looked(values: &[u8], places: &[u16], f: usize, x: usize) -> usize
    requires { x < far }
    ensures { (result ≡ looked_at values.now places.now f x) × (result < byte_limit) }
{
    cell(values, cell(places, f) + x)
}

// The size of the second sort that function f takes.
fn second(sizes: &[u8], funcs: &[u8], f: usize) -> usize
    requires { f < cell_limit }
    ensures { (result ≡ second_size sizes.now funcs.now f) × (result < byte_limit) }
{
    cell(sizes, cell(funcs, FUNC_ROW * f + 2))
}

// The place of y in row x, where the rows are of n elements.
fn row(x: usize, n: usize, y: usize) -> usize
    requires { (x < cell_limit) × (n < byte_limit) × (y < cell_limit) }
    ensures { (result ≡ x * n + y) × (result < far) }
{
    x * n + y
}

// The value of function f for one argument. (`!` is the only operator that takes one.)
fn of_one(values: &[u8], places: &[u16], f: usize, x: usize) -> usize
    requires { x < cell_limit }
    ensures { (result ≡ one_value values.now places.now f x) × (result < cell_limit) }
{
    if f < NOT {
        return looked(values, places, f, x);
    }
    if x == 0 { 1 } else { 0 }
}

// An operator of two operands.
fn operate(f: usize, x: usize, y: usize) -> usize
    requires { y < cell_limit }
    ensures { (result ≡ operated f x y) × (result < cell_limit) }
{
    if f >= EQUAL {
        return if x == y { 1 } else { 0 };
    }
    if f == AND {
        return if x == 0 { 0 } else { y };
    }
    if x == 0 { y } else { 1 }
}

// The value of function f for two arguments.
fn of_two(
    sizes: &[u8],
    funcs: &[u8],
    values: &[u8],
    places: &[u16],
    f: usize,
    x: usize,
    y: usize,
) -> usize
    requires { (x < cell_limit) × (y < cell_limit) }
    ensures { (result ≡ two_value sizes.now funcs.now values.now places.now f x y) × (result < cell_limit) }
{
    if f < NOT {
        let p = row(x, second(sizes, funcs, f), y);
        return looked(values, places, f, p);
    }
    operate(f, x, y)
}

// One symbol, which stands before place i; the values stand from t on. No count of arguments is a multiple of 4.
fn step(
    sizes: &[u8],
    funcs: &[u8],
    values: &[u8],
    places: &[u16],
    cells: &mut [u16],
    i: usize,
    t: usize,
) -> Reached
    requires { (0 < i) × (i ≤ t) × (t ≤ length cells.old) }
    ensures further { Further cells.old i result }
    ensures steps { Steps sizes.now funcs.now values.now places.now cells.old i t result cells.new }
{
    let k = cell(cells, i - 1);
    if k % 4 == VALUE {
        let s = t - 1;
        store(cells, s, k / 4);
        return Reached { end: i - 1, top: s };
    }
    if i < 2 {
        return Reached { end: 0, top: t };
    }
    let f = cell(cells, i - 2) / 4;
    let x = cell(cells, t);
    if k < 2 {
        store(cells, t, of_one(values, places, f, x));
        return Reached { end: i - 2, top: t };
    }
    if t >= cells.len() {
        return Reached { end: i - 2, top: t };
    }
    let u = t + 1;
    let y = cell(cells, u);
    store(cells, u, of_two(sizes, funcs, values, places, f, x, y));
    Reached { end: i - 2, top: u }
}

// The symbols from `at` to `end`; where their values begin.
fn evaluate(
    sizes: &[u8],
    funcs: &[u8],
    values: &[u8],
    places: &[u16],
    cells: &mut [u16],
    at: usize,
    end: usize,
) -> usize
    requires { end ≤ length cells.old }
    ensures { Evaluates sizes.now funcs.now values.now places.now cells.old at end result cells.new }
{
    let mut i = end;
    let mut t = end;
    while at < i {
        let r = step(sizes, funcs, values, places, cells, i, t);
        i = r.end;
        t = r.top;
    }
    t
}

// The n values from `at` on.
fn put_values(cells: &[u16], at: usize, n: usize, out: &mut [u8], w: usize) -> Option<usize>
    ensures { PutsValues cells.now at n w out.old result out.new }
{
    let mut p = at;
    let mut v = w;
    for i in 0..n {
        if p >= cells.len() {
            return Some(v);
        }
        v = put(out, v, low(cell(cells, p)))?;
        p += 1;
    }
    Some(v)
}

// The call of init stands at `at`; its data are lost.
pub fn put_start(
    sizes: &[u8],
    funcs: &[u8],
    values: &[u8],
    places: &[u16],
    cells: &mut [u16],
    at: usize,
    out: &mut [u8],
    w: usize,
) -> Option<usize>
    ensures { PutsStart sizes.now funcs.now values.now places.now cells.old at w out.old result out.new }
{
    if at >= cells.len() {
        return Some(w);
    }
    let d = node_at(cells, at);
    let v = put(out, w, low(d.number))?;
    let end = d.next.min(cells.len());
    let t = evaluate(sizes, funcs, values, places, cells, d.terms, end);
    put_values(cells, t, d.datas, out, v)
}
