#![tactic(auto)]
// Data terms that stand in a table's stream: where they end, what they are worth, the variables that they name.
ghost use Rattle.std.specs.Prelude.{◌≡◌, ◌+◌, ◌-◌, ◌*◌, ◌≤◌, ◌<◌, max, min, length, get_or, take, drop};
ghost use Rattle.pcrl.specs.Limits.{max_stream};
ghost use Rattle.pcrl.specs.Decode.{node_of};
ghost use Rattle.laws.specs.TermLength.{max_term};
ghost use Rattle.evaluation.specs.Run.{pick, operator_code, operator_count, operator_worth, argument_count, worth_of, extent, run, top, named, peak, lowered, foot};

pub mod lanes; // one row of values
pub mod rows; // terms for all values of two variables at once

use elements::{cell, peek, wide};
use limits::{MAX_TERM, VARIABLES};
use terms::{AND, EQUAL, FUNCTION, NOT, VARIABLE, size_of};

// How many values an operator takes: `==` its sort too.
fn operator_arguments(n: usize) -> usize
    requires { operator_code ≤ n }
    ensures { (result ≡ operator_count (n - operator_code)) × (result ≤ 3) }
{
    if n == NOT {
        return 1;
    }
    if n == EQUAL {
        return 3;
    }
    2
}

// How many values stand behind a byte.
fn arguments(s: &[u8], funcs: &[u16], b: u8) -> usize
    ensures { (result ≡ argument_count s.now funcs.now (node_of b)) × (result ≤ 3) }
{
    let n = wide(b);
    if n < FUNCTION {
        return 0;
    }
    if n < NOT {
        let p = cell(funcs, n - FUNCTION);
        if peek(s, p) == 1 {
            return 1;
        }
        return 2;
    }
    operator_arguments(n)
}

// What an operator is worth where the values behind it begin with x, y and z.
fn operator_worth(n: usize, x: u8, y: u8, z: u8) -> u8
    requires { operator_code ≤ n }
    ensures { result ≡ operator_worth (n - operator_code) x y z }
{
    if n == NOT {
        return u8::from(x == 0);
    }
    if n == EQUAL {
        return u8::from(y == z);
    }
    if n == AND {
        if x == 0 {
            return 0;
        }
        return y;
    }
    if x == 0 {
        return y;
    }
    1
}

// What a byte is worth where the value behind it is x, and those behind that stand on the stack from t on.
fn worth(s: &[u8], funcs: &[u16], e: &[u8], stack: &[u8], t: usize, b: u8, x: u8) -> u8
    requires { t ≤ 48 }
    ensures { result ≡ worth_of s.now funcs.now e.now (node_of b) x (get_or stack.now t 0) (get_or stack.now (t + 1) 0) }
{
    let n = wide(b);
    if n < VARIABLE {
        return b;
    }
    if n < FUNCTION {
        return peek(e, n - VARIABLE);
    }
    if n < NOT {
        let p = cell(funcs, n - FUNCTION);
        if peek(s, p) == 1 {
            return peek(s, p + 3 + wide(x));
        }
        let d = peek(s, p + 2);
        let y = peek(stack, t);
        let i = row(x, size_of(funcs, d), y);
        return peek(s, p + 4 + i);
    }
    operator_worth(n, x, peek(stack, t), peek(stack, t + 1))
}

// The place of y in row x, where the rows are of the given length.
fn row(x: u8, length: u8, y: u8) -> usize
    ensures { (result ≡ x * length + y) × (result < 65536) }
{
    wide(x) * wide(length) + wide(y)
}

// The place behind n terms.
pub fn skip(s: &[u8], funcs: &[u16], at: usize, n: u8) -> usize
    requires { length s.now ≤ max_stream }
    ensures { (result ≡ at + extent s.now funcs.now (drop at s.now) n) × ((at ≤ result) × (result ≤ max at (length s.now))) }
{
    let mut need = wide(n);
    for i in at..s.len() {
        if need == 0 {
            return i;
        }
        need = need - 1 + arguments(s, funcs, s[i]);
    }
    at.max(s.len())
}

// One more than the variable that a byte names, 0 if none.
fn variable(b: u8) -> usize
    ensures { result ≡ named (node_of b) }
{
    let n = wide(b);
    if n < VARIABLE {
        return 0;
    }
    if n < FUNCTION {
        return n - VARIABLE + 1;
    }
    0
}

// The lower of m and the variable before n, if that is none of the first p.
fn lower(p: usize, n: usize, m: usize) -> usize
    ensures { result ≡ lowered p n m }
{
    if p < n {
        return (n - 1).min(m);
    }
    m
}

// What bytes name: one more than the highest variable, and the lowest from some number on, VARIABLES if none.
#[derive(Clone, Copy)]
pub struct Span {
    pub high: usize,
    pub low: usize,
}

// The variables that are named from at to end, the lowest from p on.
pub fn variables(s: &[u8], at: usize, end: usize, p: usize) -> Span
    ensures { at ≤ end → end ≤ length s.now → (result.high ≡ peak (take (end - at) (drop at s.now))) × (result.low ≡ foot p (take (end - at) (drop at s.now))) }
{
    let mut high: usize = 0;
    let mut low: usize = VARIABLES;
    for i in (at..end.min(s.len())).rev() {
        let n = variable(s[i]);
        high = n.max(high);
        low = lower(p, n, low);
    }
    Span {
        high: high,
        low: low,
    }
}

// Where the stack begins after its first value was put on it and k were taken.
fn taken(t: usize, k: usize) -> usize
    requires { (0 < t) × ((t ≤ 48) × (k ≤ 3)) }
    ensures { result ≡ min (t - 1 + k) 48 }
{
    (t - 1 + k).min(48)
}

// The value of the term that stands from at to end, from the right: the value last found is x, those before it stand on a stack that grows downwards.
pub fn value(s: &[u8], funcs: &[u16], e: &[u8], at: usize, end: usize) -> u8
    ensures { at ≤ end → end ≤ at + max_term → end ≤ length s.now → result ≡ top (run s.now funcs.now e.now (take (end - at) (drop at s.now))) }
{
    let mut stack = [0u8; 48];
    let mut t: usize = 48;
    let mut x: u8 = 0;
    if end < at {
        return 0;
    }
    if s.len() < end {
        return 0;
    }
    if MAX_TERM < end - at {
        return 0;
    }
    for i in (at..end).rev() {
        let b = s[i];
        let v = worth(s, funcs, e, &stack, t, b, x);
        stack[t - 1] = x;
        x = v;
        t = taken(t, arguments(s, funcs, b));
    }
    x
}
