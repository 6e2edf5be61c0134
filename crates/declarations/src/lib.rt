#![tactic(auto)]
// The lines of sorts, functions and actions as text, read from the stream.
ghost use Rattle.std.specs.Prelude.{◌≡◌, List, ℕ, ◌+◌, ◌*◌, ◌≤◌, ◌<◌, length, get_or, drop};
ghost use Rattle.pcrl.specs.Limits.{max_stream};
ghost use Rattle.pcrl.specs.Tests.{Every};
ghost use Rattle.pcrl.specs.Reader.{all};
ghost use Rattle.pcrl.specs.Sheet.{Func, Action, Sig};
ghost use Rattle.pcrl.specs.Stream.{encode_func, encode_action};
ghost use Rattle.pcrl.specs.Right.{RightFunc, RightAction};
ghost use Rattle.pcrl.specs.Printer.{numbered};
ghost use Rattle.rendering.specs.Texts.{concat, sort_line_text, func_line_text, act_line_text};
ghost use Rattle.terms.specs.Stands.{Stands, size_in};
ghost use Rattle.evaluation.specs.Known.{KnownTerms};
ghost use Rattle.firing.specs.Known.{KnownParts};
ghost use Rattle.texts.specs.Wrote.{Wrote};
ghost use Rattle.lettering.specs.Named.{Lettered};
ghost use Rattle.declarations.specs.Lines.{sort_line_by, takes_by, func_head_by, colon_before};

use elements::{cell, low, peek, wide};
use lettering::{FUNCS, put_name, put_sort};
use texts::{put_byte, put_bytes, put_decimal, put_values};

// "`sort` name size"
fn put_sort_line(out: &mut [u8], at: usize, l: &[u8], d: u8, size: u8) -> usize
    requires { at ≤ length out.old }
    ensures { Wrote out.old at (sort_line_by l.now d size) out.new result }
{
    let a = put_bytes(out, at, b"sort ");
    let b = put_sort(out, a, l, d);
    let c = put_byte(out, b, b' ');
    let e = put_decimal(out, c, wide(size));
    put_byte(out, e, b';')
}

// The lines of n sorts but Bool, which is the first.
pub fn put_sorts(funcs: &[u16], n: usize, l: &[u8], out: &mut [u8], at: usize) -> usize
    requires { at ≤ length out.old }
    ensures upper_bound { (result ≤ length out.old) × (length out.new ≡ length out.old) }
    ensures wrote { (S : Sig) (s : List ℕ) → KnownTerms S s funcs.now → Lettered S l.now → n ≡ length S.sorts → Wrote out.old at (concat (numbered (sort_line_text S) 1 (drop 1 S.sorts))) out.new result }
{
    let mut p = at;
    for i in 1..n {
        let d = low(i);
        p = put_sort_line(out, p, l, d, terms::size_of(funcs, d));
    }
    p
}

// "sort, or sort `#` sort"
fn put_takes(sorts: &[u8], l: &[u8], out: &mut [u8], at: usize) -> usize
    requires { at ≤ length out.old }
    ensures { Wrote out.old at (takes_by l.now sorts.now) out.new result }
{
    if sorts.len() == 0 {
        return at;
    }
    let mut p = put_sort(out, at, l, sorts[0]);
    for i in 1..sorts.len() {
        let q = put_byte(out, p, b'#');
        p = put_sort(out, q, l, sorts[i]);
    }
    p
}

// How many pairs of values there are of two sorts of these sizes.
fn product(x: u8, y: u8) -> usize
    ensures { (result ≡ x * y) × (result < 65536) }
{
    wide(x) * wide(y)
}

// The size of the i-th of some sorts.
fn size_at(funcs: &[u16], sorts: &[u8], i: usize) -> u8
    ensures { result ≡ size_in funcs.now (get_or sorts.now i 0) }
{
    terms::size_of(funcs, peek(sorts, i))
}

// How many values a function of these sorts has.
fn many_values(funcs: &[u16], sorts: &[u8]) -> usize
    ensures { (result < 65536) × ((S : Sig) (s : List ℕ) (g : Func) → KnownTerms S s funcs.now → RightFunc S.sorts g → sorts.now ≡ g.takes → result ≡ length g.values) }
{
    let x = size_at(funcs, sorts, 0);
    if sorts.len() < 2 {
        return wide(x);
    }
    product(x, size_at(funcs, sorts, 1))
}

// n bytes of the stream from a place on.
pub fn bytes_at(s: &[u8], from: usize, n: usize) -> &[u8]
    requires { (length s.now ≤ max_stream) × (n < 65536) }
    ensures { (e : List ℕ) → Stands s.now from e → length e ≡ n → result.now ≡ e }
{
    let v = from.min(s.len());
    let w = (v + n).min(s.len());
    &s[v..w]
}

// The values of the function that stands at a place.
fn values_at<'a>(s: &'a [u8], funcs: &[u16], from: usize) -> &'a [u8]
    requires { (length s.now ≤ max_stream) × (from < 65536) }
    ensures { (S : Sig) (g : Func) → KnownTerms S s.now funcs.now → RightFunc S.sorts g → Stands s.now from (encode_func g) → result.now ≡ g.values }
{
    let takes = terms::list_at(s, from);
    bytes_at(s, from + 2 + takes.len(), many_values(funcs, takes))
}

// "`func` name `:` sort, or sort `#` sort, `->`"
fn put_func_head(takes: &[u8], f: usize, l: &[u8], out: &mut [u8], at: usize) -> usize
    requires { at ≤ length out.old }
    ensures { Wrote out.old at (func_head_by l.now f takes.now) out.new result }
{
    let a = put_bytes(out, at, b"func ");
    let b = put_name(out, a, l, b'f', FUNCS, f);
    let c = put_byte(out, b, b':');
    let d = put_takes(takes, l, out, c);
    put_bytes(out, d, b"->")
}

// The function that stands at a place: "`func` name `:` sort, or sort `#` sort, `->` sort `=` values by commas".
fn put_func(
    s: &[u8],
    funcs: &[u16],
    from: usize,
    f: usize,
    l: &[u8],
    out: &mut [u8],
    at: usize,
) -> usize
    requires { (at ≤ length out.old) × ((length s.now ≤ max_stream) × (from < 65536)) }
    ensures upper_bound { (result ≤ length out.old) × (length out.new ≡ length out.old) }
    ensures wrote { (S : Sig) (g : Func) → KnownTerms S s.now funcs.now → RightFunc S.sorts g → Lettered S l.now → f < 256 → Stands s.now from (encode_func g) → Wrote out.old at (func_line_text S f g) out.new result }
{
    let takes = terms::list_at(s, from);
    let gives = peek(s, from + 1 + takes.len());
    let a = put_func_head(takes, f, l, out, at);
    let b = put_sort(out, a, l, gives);
    let c = put_byte(out, b, b'=');
    let d = put_values(out, c, values_at(s, funcs, from));
    put_byte(out, d, b';')
}

// The lines of all functions, in order.
pub fn put_funcs(s: &[u8], funcs: &[u16], n: usize, l: &[u8], out: &mut [u8], at: usize) -> usize
    requires { (at ≤ length out.old) × (length s.now ≤ max_stream) }
    ensures upper_bound { (result ≤ length out.old) × (length out.new ≡ length out.old) }
    ensures wrote { (S : Sig) → KnownTerms S s.now funcs.now → length S.funcs ≤ 256 → Lettered S l.now → n ≡ length S.funcs → Wrote out.old at (concat (numbered (func_line_text S) 0 S.funcs)) out.new result }
{
    let mut p = at;
    for f in 0..n {
        p = put_func(s, funcs, cell(funcs, f), f, l, out, p);
    }
    p
}

// The action that stands at a place: "`act` name, or name `:` sort, or name `:` sort `#` sort".
fn put_act(s: &[u8], from: usize, l: &[u8], out: &mut [u8], at: usize) -> usize
    requires { (at ≤ length out.old) × ((length s.now ≤ max_stream) × (from < 65536)) }
    ensures upper_bound { (result ≤ length out.old) × (length out.new ≡ length out.old) }
    ensures wrote { (S : Sig) (a : Action) → RightAction S.sorts a → Lettered S l.now → Stands s.now from (encode_action a) → Wrote out.old at (act_line_text S a) out.new result }
{
    let name = terms::list_at(s, from);
    let takes = terms::list_at(s, from + 1 + name.len());
    let a = put_bytes(out, at, b"act ");
    let b = put_bytes(out, a, name);
    let c = put_colon(out, b, takes.len());
    let d = put_takes(takes, l, out, c);
    put_byte(out, d, b';')
}

// A colon, if sorts follow.
fn put_colon(out: &mut [u8], at: usize, n: usize) -> usize
    requires { at ≤ length out.old }
    ensures { Wrote out.old at (colon_before n) out.new result }
{
    if n == 0 {
        return at;
    }
    put_byte(out, at, b':')
}

// The lines of all actions, in order.
pub fn put_acts(s: &[u8], acts: &[u16], n: usize, l: &[u8], out: &mut [u8], at: usize) -> usize
    requires { (at ≤ length out.old) × (length s.now ≤ max_stream) }
    ensures upper_bound { (result ≤ length out.old) × (length out.new ≡ length out.old) }
    ensures wrote { (S : Sig) (Ps : List (List ℕ)) (params : List ℕ) → KnownParts S Ps s.now acts.now params → Every (RightAction S.sorts) S.acts → Lettered S l.now → n ≡ length S.acts → Wrote out.old at (all (act_line_text S) S.acts) out.new result }
{
    let mut p = at;
    for i in 0..n {
        p = put_act(s, cell(acts, i), l, out, p);
    }
    p
}
