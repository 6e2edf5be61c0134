#![tactic(auto)]
// Summands and right sides as text, read from the stream.
ghost use Rattle.std.specs.Prelude.{◌≡◌, List, ◌++◌, ℕ, ◌+◌, ◌*◌, ◌≤◌, ◌<◌, length, drop};
ghost use Rattle.pcrl.specs.Limits.{max_stream, max_conditions, frame_width};
ghost use Rattle.pcrl.specs.Sheet.{Sig};
ghost use Rattle.pcrl.specs.Table.{Summand};
ghost use Rattle.pcrl.specs.Stream.{encode_list, encode_summand};
ghost use Rattle.pcrl.specs.Right.{RightSummands};
ghost use Rattle.rendering.specs.Texts.{condition_text, first_text, second_text, before_text, behind_text, right_text};
ghost use Rattle.evaluation.specs.Known.{KnownTerms};
ghost use Rattle.firing.specs.Known.{KnownParts};
ghost use Rattle.texts.specs.Wrote.{Wrote};
ghost use Rattle.lettering.specs.Named.{Lettered};
ghost use Rattle.clauses.specs.Terms.{Within};
ghost use Rattle.clauses.specs.Written.{Ends, Marks, sum_by, SumsPut, CondPut, CondsPut, ActionPut, CallPut, CallsPut, SummandPut};

pub mod data; // data terms
pub mod operands; // what is to be written behind operands

use crate::data::{TextPut, put_term, put_terms};
use assignments::Conditions;
use elements::{cell, peek, wide};
use lettering::{PROCS, VARS, put_name, put_sort};
use limits::TAU;
use texts::{put_byte, put_bytes, put_run};

// The sum of variable i, whose sort is d, up to its comma.
fn put_sum(out: &mut [u8], at: usize, l: &[u8], i: usize, d: u8) -> usize
    requires { at ≤ length out.old }
    ensures { Wrote out.old at (sum_by l.now i d) out.new result }
{
    let a = put_bytes(out, at, b"sum(");
    let b = put_name(out, a, l, b'v', VARS, i);
    let c = put_byte(out, b, b':');
    let e = put_sort(out, c, l, d);
    put_byte(out, e, b',')
}

// The sums of the variables whose count stands at a place; the first of them has the number n.
fn put_sums(s: &[u8], l: &[u8], from: usize, n: usize, out: &mut [u8], at: usize) -> usize
    requires { (at ≤ length out.old) × ((from ≤ 65536) × (n ≤ 255)) }
    ensures ends { Ends out.old result out.new }
    ensures sums_put { SumsPut s.now l.now from n out.old at out.new result }
{
    let m = wide(peek(s, from));
    let mut p = at;
    for i in 0..m {
        p = put_sum(out, p, l, n + i, peek(s, from + 1 + i));
    }
    p
}

// A mark, if i is below n.
fn put_mark(out: &mut [u8], at: usize, b: u8, i: usize, n: usize) -> usize
    requires { at ≤ length out.old }
    ensures ends { Ends out.old result out.new }
    ensures marks { Marks out.old at b i n out.new result }
{
    if i < n {
        return put_byte(out, at, b);
    }
    at
}

// The condition whose wanted value stands at a place: its term between its marks.
fn put_condition(s: &[u8], funcs: &[u16], l: &[u8], from: usize, out: &mut [u8], at: usize) -> usize
    requires { (at ≤ length out.old) × (length s.now ≤ max_stream) }
    ensures ends { Ends out.old result out.new }
    ensures cond_put { CondPut s.now funcs.now l.now (λ S c. condition_text S c.1) from out.old at out.new result }
{
    let b = from.min(s.len()) + 1;
    let a = put_bytes(out, at, b"<|");
    let r = put_term(s, funcs, l, b, out, a);
    put_bytes(out, r.at, b"|>")
}

// What stands of a condition before what it guards: all of it, with delta for yes, if 0 is wanted.
fn put_first(s: &[u8], funcs: &[u16], l: &[u8], from: usize, out: &mut [u8], at: usize) -> usize
    requires { (at ≤ length out.old) × (length s.now ≤ max_stream) }
    ensures ends { Ends out.old result out.new }
    ensures cond_put { CondPut s.now funcs.now l.now first_text from out.old at out.new result }
{
    if peek(s, from) != 0 {
        return at;
    }
    let a = put_bytes(out, at, b"delta");
    put_condition(s, funcs, l, from, out, a)
}

// What stands of it behind: all of it, with delta for no, if 1 is wanted.
fn put_second(s: &[u8], funcs: &[u16], l: &[u8], from: usize, out: &mut [u8], at: usize) -> usize
    requires { (at ≤ length out.old) × (length s.now ≤ max_stream) }
    ensures ends { Ends out.old result out.new }
    ensures cond_put { CondPut s.now funcs.now l.now second_text from out.old at out.new result }
{
    if peek(s, from) == 0 {
        return at;
    }
    let a = put_condition(s, funcs, l, from, out, at);
    put_bytes(out, a, b"delta")
}

// What stands of the conditions before what they guard, a bracket before each that stands inside another.
fn put_before(s: &[u8], funcs: &[u16], l: &[u8], c: Conditions, out: &mut [u8], at: usize) -> usize
    requires { (at ≤ length out.old) × ((length s.now ≤ max_stream) × (c.count ≤ max_conditions)) }
    ensures ends { Ends out.old result out.new }
    ensures conds_put { CondsPut s.now funcs.now l.now before_text c.froms c.count out.old at out.new result }
{
    let froms = c.froms;
    let n = c.count;
    let mut p = at;
    for i in 0..n {
        let q = put_first(s, funcs, l, froms[i], out, p);
        p = put_mark(out, q, b'(', i + 1, n);
    }
    p
}

// What stands of them behind, from the innermost.
fn put_behind(s: &[u8], funcs: &[u16], l: &[u8], c: Conditions, out: &mut [u8], at: usize) -> usize
    requires { (at ≤ length out.old) × ((length s.now ≤ max_stream) × (c.count ≤ max_conditions)) }
    ensures ends { Ends out.old result out.new }
    ensures conds_put { CondsPut s.now funcs.now l.now behind_text c.froms c.count out.old at out.new result }
{
    let froms = c.froms;
    let n = c.count;
    let mut p = at;
    for i in (0..n).rev() {
        let q = put_mark(out, p, b')', i + 1, n);
        p = put_second(s, funcs, l, froms[i], out, q);
    }
    p
}

// The action that stands at a place, with its data.
fn put_action(
    s: &[u8],
    funcs: &[u16],
    acts: &[u16],
    l: &[u8],
    from: usize,
    out: &mut [u8],
    at: usize,
) -> TextPut
    requires { (at ≤ length out.old) × ((length s.now ≤ max_stream) × (from ≤ max_stream * 3)) }
    ensures within { Within s.now out.old (from + 1) result out.new }
    ensures action_put { ActionPut s.now funcs.now l.now acts.now from out.old at out.new result }
{
    let b = peek(s, from);
    if b == TAU {
        return TextPut {
            from: from + 1,
            at: put_bytes(out, at, b"tau"),
        };
    }
    let p = cell(acts, wide(b));
    let a = put_bytes(out, at, terms::list_at(s, p));
    let n = wide(peek(s, p + 1 + wide(peek(s, p))));
    put_terms(s, funcs, l, from + 1, n, out, a)
}

// The call that stands at a place, behind a point.
fn put_call(
    s: &[u8],
    funcs: &[u16],
    params: &[u16],
    l: &[u8],
    from: usize,
    out: &mut [u8],
    at: usize,
) -> TextPut
    requires { (at ≤ length out.old) × ((length s.now ≤ max_stream) × (from ≤ max_stream * 5)) }
    ensures within { Within s.now out.old (from + 1) result out.new }
    ensures call_put { CallPut s.now funcs.now l.now params.now from out.old at out.new result }
{
    let e = wide(peek(s, from));
    let a = put_byte(out, at, b'.');
    let b = put_name(out, a, l, b'p', PROCS, e);
    let k = wide(peek(s, cell(params, e)));
    put_terms(s, funcs, l, from + 1, k, out, b)
}

// The calls whose count stands at a place, one behind another.
fn put_calls(
    s: &[u8],
    funcs: &[u16],
    params: &[u16],
    l: &[u8],
    from: usize,
    out: &mut [u8],
    at: usize,
) -> TextPut
    requires { (at ≤ length out.old) × ((length s.now ≤ max_stream) × (from ≤ max_stream * 4)) }
    ensures ends { Ends out.old result.at out.new }
    ensures calls_put { CallsPut s.now funcs.now l.now params.now from out.old at out.new result }
{
    let n = wide(peek(s, from));
    let mut r = TextPut {
        from: from + 1,
        at: at,
    };
    for i in 0..n {
        r = put_call(s, funcs, params, l, r.from, out, r.at);
    }
    r
}

// The summand that stands at a place, of an equation with n parameters.
fn put_summand(
    s: &[u8],
    funcs: &[u16],
    acts: &[u16],
    params: &[u16],
    l: &[u8],
    from: usize,
    n: usize,
    out: &mut [u8],
    at: usize,
) -> TextPut
    requires { (at ≤ length out.old) × ((length s.now ≤ max_stream) × ((from ≤ 65536) × (n ≤ 255))) }
    ensures ends { Ends out.old result.at out.new × (result.from ≤ length s.now) }
    ensures summand_put { SummandPut s.now funcs.now l.now acts.now params.now from n out.old at out.new result }
{
    let m = wide(peek(s, from));
    let c = opening::conditions(s, funcs, from + 1 + m, n, opening::sizes(s, funcs, from));
    let a = put_sums(s, l, from, n, out, at);
    let b = put_before(s, funcs, l, c, out, a);
    let d = put_action(s, funcs, acts, l, c.end, out, b);
    let e = put_calls(s, funcs, params, l, d.from, out, d.at);
    let f = put_behind(s, funcs, l, c, out, e.at);
    TextPut {
        from: e.from.min(s.len()),
        at: put_run(out, f, b')', m),
    }
}

// The right side of an equation with n parameters: its summands, whose count stands at a place; delta where there is none.
pub fn put_right(
    s: &[u8],
    funcs: &[u16],
    acts: &[u16],
    params: &[u16],
    l: &[u8],
    row: usize,
    n: usize,
    out: &mut [u8],
    at: usize,
) -> usize
    requires { (at ≤ length out.old) × ((length s.now ≤ max_stream) × ((row < 65536) × (n ≤ 255))) }
    ensures upper_bound { (result ≤ length out.old) × (length out.new ≡ length out.old) }
    ensures wrote { (S : Sig) (Ps : List (List ℕ)) (Δ : List ℕ) (hs : List Summand) (rest : List ℕ) → KnownTerms S s.now funcs.now → KnownParts S Ps s.now acts.now params.now → RightSummands S Ps Δ hs → length Δ ≡ n → n ≤ frame_width → Lettered S l.now → drop row s.now ≡ encode_list encode_summand hs ++ rest → Wrote out.old at (right_text S n hs) out.new result }
{
    let m = wide(peek(s, row));
    if m == 0 {
        return put_bytes(out, at, b"delta");
    }
    let mut from = row + 1;
    let mut p = at;
    for i in 0..m {
        let r = put_summand(s, funcs, acts, params, l, from, n, out, p);
        from = r.from;
        p = put_mark(out, r.at, b'+', i + 1, m);
    }
    p
}
