// #104: hex F2, "count and sizes of sorts, Bool's 2 first", and "each sort a name length and name after its size"; "count of functions, each arity, sorts, result, values; count of actions, each name length, name, arity, sorts"
ghost use Rattle.std.specs.Prelude.{◌-◌, ◌<◌};
ghost use Rattle.nodes.specs.Layout.{cell_limit};
ghost use Rattle.names.specs.NameCells.{name_at};
ghost use Rattle.emit.specs.Putting.{Puts};
ghost use Rattle.emit.specs.Bytes.{sort_bytes, sorts_bytes, func_bytes, name_bytes, action_bytes, counted_bytes, PutsSig};

use crate::bytes::{copy, put, put_row};
use elements::{cell, low, peek};
use lexer::bytes::{DIGIT, UNDERSCORE, run};
use limits::{BOOL, NAMES_CODE};
use names::find::first_byte;
use nodes::{ACT_ROW, FUNC_ROW, GIVES, Outline};

// A name, by its cell.
fn put_name(s: &[u8], c: u16, out: &mut [u8], w: usize) -> Option<usize>
    ensures { Puts (name_bytes (name_at s.now c)) w out.old result out.new }
{
    let p = first_byte(c);
    let n = run(s, p, DIGIT, UNDERSCORE);
    let v = put(out, w, low(n))?;
    copy(s, p, n, out, v)
}

// A sort: its size and its name. "Bool first"; the cells of the others' names stand before all others in `names`.
fn put_sort(
    s: &[u8],
    sizes: &[u8],
    names: &[u16],
    d: usize,
    out: &mut [u8],
    w: usize,
) -> Option<usize>
    ensures { Puts (sort_bytes s.now sizes.now names.now d) w out.old result out.new }
{
    let v = put(out, w, peek(sizes, d))?;
    if d == BOOL {
        return put_row(b"\x04Bool", 0, out, v);
    }
    put_name(s, peek(names, d - 1), out, v)
}

// Hex F2, the count of sorts, each sort.
fn put_sorts(
    s: &[u8],
    sizes: &[u8],
    names: &[u16],
    n: usize,
    out: &mut [u8],
    w: usize,
) -> Option<usize>
    ensures { Puts (sorts_bytes s.now sizes.now names.now n) w out.old result out.new }
{
    let a = put(out, w, NAMES_CODE)?;
    let mut v = put(out, a, low(n))?;
    for d in 0..n {
        v = put_sort(s, sizes, names, d, out, v)?;
    }
    Some(v)
}

// Function i: its sorts with their count, the sort that it gives, its values.
fn put_func(
    funcs: &[u8],
    values: &[u8],
    places: &[u16],
    i: usize,
    out: &mut [u8],
    w: usize,
) -> Option<usize>
    requires { i < cell_limit }
    ensures { Puts (func_bytes funcs.now values.now places.now i) w out.old result out.new }
{
    let p = FUNC_ROW * i;
    let a = put_row(funcs, p, out, w)?;
    let b = put(out, a, peek(funcs, p + GIVES))?;
    let from = cell(places, i);
    copy(
        values,
        from,
        cell(places, i + 1).saturating_sub(from),
        out,
        b,
    )
}

// The count of functions, each function.
fn put_funcs(
    funcs: &[u8],
    values: &[u8],
    places: &[u16],
    n: usize,
    out: &mut [u8],
    w: usize,
) -> Option<usize>
    requires { n < cell_limit }
    ensures { Puts (counted_bytes n (func_bytes funcs.now values.now places.now)) w out.old result out.new }
{
    let mut v = put(out, w, low(n))?;
    for i in 0..n {
        v = put_func(funcs, values, places, i, out, v)?;
    }
    Some(v)
}

// Action i: its name, whose cell stands at place b + i of `names`, and its sorts with their count.
fn put_action(
    s: &[u8],
    acts: &[u8],
    names: &[u16],
    b: usize,
    i: usize,
    out: &mut [u8],
    w: usize,
) -> Option<usize>
    requires { (b < cell_limit) × (i < cell_limit) }
    ensures { Puts (action_bytes s.now acts.now names.now b i) w out.old result out.new }
{
    let v = put_name(s, peek(names, b + i), out, w)?;
    put_row(acts, ACT_ROW * i, out, v)
}

// The count of actions, each action.
fn put_actions(
    s: &[u8],
    acts: &[u8],
    names: &[u16],
    b: usize,
    n: usize,
    out: &mut [u8],
    w: usize,
) -> Option<usize>
    requires { (b < cell_limit) × (n < cell_limit) }
    ensures { Puts (counted_bytes n (action_bytes s.now acts.now names.now b)) w out.old result out.new }
{
    let mut v = put(out, w, low(n))?;
    for i in 0..n {
        v = put_action(s, acts, names, b, i, out, v)?;
    }
    Some(v)
}

// The whole signature; the cells of the sorts' names begin at place 0 of `names`, those of the actions' at place b.
pub fn put_signature(
    s: &[u8],
    sizes: &[u8],
    funcs: &[u8],
    values: &[u8],
    places: &[u16],
    acts: &[u8],
    names: &[u16],
    b: usize,
    n: Outline,
    out: &mut [u8],
    w: usize,
) -> Option<usize>
    requires { (b < cell_limit) × (n.funcs < cell_limit) × (n.acts < cell_limit) }
    ensures { PutsSig s.now sizes.now funcs.now values.now places.now acts.now names.now b n w out.old result out.new }
{
    let x = put_sorts(s, sizes, names, n.sorts, out, w)?;
    let y = put_funcs(funcs, values, places, n.funcs, out, x)?;
    put_actions(s, acts, names, b, n.acts, out, y)
}
