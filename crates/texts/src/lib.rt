#![tactic(auto)]
// Pieces of the walk's text, written into lent bytes one behind another, as far as there is room.
ghost use Rattle.std.specs.Prelude.{◌≡◌, [], ◌∷◌, ◌+◌, ◌%◌, ◌<◌, ◌≤◌, length, get_or, replicate};
ghost use Rattle.pcrl.specs.Sheet.{Sig, no_action};
ghost use Rattle.pcrl.specs.Table.{Table};
ghost use Rattle.pcrl.specs.Text.{decimal};
ghost use Rattle.pcrl.specs.Walk.{values_text, label_text, step_line};
ghost use Rattle.tables.specs.Indexed.{Indexed};
ghost use Rattle.firing.specs.Known.{ActsAt};
ghost use Rattle.labels.specs.Labels.{label_of};
ghost use Rattle.texts.specs.Wrote.{Wrote};
ghost use Rattle.texts.specs.Pieces.{bracketed};

use elements::{cell, wide};
use limits::TAU;

pub fn put_byte(out: &mut [u8], at: usize, b: u8) -> usize
    requires { at ≤ length out.old }
    ensures { Wrote out.old at (b ∷ []) out.new result }
{
    if at < out.len() {
        out[at] = b;
        return at + 1;
    }
    at
}

pub fn put_bytes(out: &mut [u8], at: usize, s: &[u8]) -> usize
    requires { at ≤ length out.old }
    ensures { Wrote out.old at s.now out.new result }
{
    // byte by byte: the language's copy would need memmove, which the archive for C does without
    let mut p = at;
    for i in 0..s.len() {
        p = put_byte(out, p, s[i]);
    }
    p
}

// A byte n times.
pub fn put_run(out: &mut [u8], at: usize, b: u8, n: usize) -> usize
    requires { at ≤ length out.old }
    ensures { Wrote out.old at (replicate n b) out.new result }
{
    let end = at + n.min(out.len() - at);
    out[at..end].fill(b);
    end
}

fn digit(d: usize) -> u8
    requires { d < 10 }
    ensures { result ≡ 48 + d }
{
    (48 + d) as u8
}

// A number below 256 in decimal.
pub fn put_decimal(out: &mut [u8], at: usize, n: usize) -> usize
    requires { at ≤ length out.old }
    ensures { Wrote out.old at (decimal (n % 256)) out.new result }
{
    let m = n % 256;
    if m < 10 {
        return put_byte(out, at, digit(m));
    }
    if m < 100 {
        let p = put_byte(out, at, digit(m / 10));
        return put_byte(out, p, digit(m % 10));
    }
    let p = put_byte(out, at, digit(m / 100));
    let q = put_byte(out, p, digit(m / 10 % 10));
    put_byte(out, q, digit(m % 10))
}

pub fn put_value(out: &mut [u8], at: usize, v: u8) -> usize
    requires { at ≤ length out.old }
    ensures { Wrote out.old at (decimal v) out.new result }
{
    put_decimal(out, at, wide(v))
}

// "values by commas, no blanks"
pub fn put_values(out: &mut [u8], at: usize, vs: &[u8]) -> usize
    requires { at ≤ length out.old }
    ensures { Wrote out.old at (values_text vs.now) out.new result }
{
    if vs.is_empty() {
        return at;
    }
    let mut p = put_value(out, at, vs[0]);
    let rest = &vs[1..];
    for v in rest {
        let q = put_byte(out, p, b',');
        p = put_value(out, q, *v);
    }
    p
}

// "bracketed values by commas", nothing for none
pub fn put_bracketed(out: &mut [u8], at: usize, vs: &[u8]) -> usize
    requires { at ≤ length out.old }
    ensures { Wrote out.old at (bracketed vs.now) out.new result }
{
    if vs.is_empty() {
        return at;
    }
    let a = put_byte(out, at, b'(');
    let b = put_values(out, a, vs);
    put_byte(out, b, b')')
}

// The name of an action, by where the actions stand and how many there are.
pub fn name<'a>(s: &'a [u8], acts: &[u16], actions: usize, action: u8) -> &'a [u8]
    ensures { (S : Sig) → ActsAt S s.now acts.now actions → result.now ≡ (get_or S.acts action no_action).name }
{
    let a = wide(action);
    if actions <= a {
        return &s[0..0];
    }
    terms::list_at(s, cell(acts, a))
}

// "label (name, bracketed values by commas, no blanks; tau as `tau`)"
pub fn put_label(
    out: &mut [u8],
    at: usize,
    s: &[u8],
    index: tables::Index,
    action: u8,
    vs: &[u8],
) -> usize
    requires { at ≤ length out.old }
    ensures { (result ≤ length out.old) × ((T : Table) → Indexed T s.now index → Wrote out.old at (label_text (label_of T.sig action vs.now)) out.new result) }
{
    if action == TAU {
        return put_bytes(out, at, b"tau");
    }
    let acts = index.acts;
    let p = put_bytes(out, at, name(s, &acts, index.actions, action));
    put_bracketed(out, p, vs)
}

// "Each line is step number (from 1), label, depth after."
pub fn put_line(
    out: &mut [u8],
    at: usize,
    i: usize,
    s: &[u8],
    index: tables::Index,
    action: u8,
    vs: &[u8],
    depth: usize,
) -> usize
    requires { at ≤ length out.old }
    ensures { (result ≤ length out.old) × ((T : Table) → Indexed T s.now index → Wrote out.old at (step_line (i % 256) (label_of T.sig action vs.now) (depth % 256)) out.new result) }
{
    let a = put_decimal(out, at, i);
    let b = put_byte(out, a, b' ');
    let c = put_label(out, b, s, index, action, vs);
    let d = put_byte(out, c, b' ');
    let e = put_decimal(out, d, depth);
    put_byte(out, e, b'\n')
}
