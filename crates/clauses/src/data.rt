// Data terms as text, by a loop over the prefix order.
ghost use Rattle.std.specs.Prelude.{◌≡◌, List, ◌++◌, ℕ, ◌+◌, ◌-◌, ◌≤◌, ◌<◌, min, length, get_or, drop};
ghost use Rattle.pcrl.specs.Limits.{max_stream};
ghost use Rattle.pcrl.specs.Tests.{Each};
ghost use Rattle.pcrl.specs.Reader.{all};
ghost use Rattle.pcrl.specs.Sheet.{Data, Sig};
ghost use Rattle.pcrl.specs.Stream.{variable_code, function_code, encode_data};
ghost use Rattle.pcrl.specs.Right.{RightTerm};
ghost use Rattle.rendering.specs.Texts.{data_text, given_text};
ghost use Rattle.evaluation.specs.Known.{KnownTerms};
ghost use Rattle.texts.specs.Wrote.{Wrote};
ghost use Rattle.lettering.specs.Named.{funcs_place, vars_place, Lettered};
ghost use Rattle.clauses.specs.Brackets.{Open, code, operator_code, sign, node_text, deeper, passed, lead, Turns};
ghost use Rattle.clauses.specs.Terms.{Within, Puts};

use crate::operands::{
    ANY, After, COMMA, LIMIT, NEGATION, NONE, close, first_place, joint, marked,
};
use elements::{cell, peek, wide};
use lettering::{FUNCS, VARS, put_name};
use limits::{EQUAL_CODE, FUNCTION_CODE, NOT_CODE, VARIABLE_CODE};
use texts::{put_byte, put_decimal};

// Where the stream was read to, and where the text ends.
#[derive(Clone, Copy)]
pub struct TextPut {
    pub from: usize,
    pub at: usize,
}

// What stands before the operands of an operator: `!`, or a bracket where its form is looser than its place.
fn put_operator(out: &mut [u8], at: usize, n: usize, place: u64) -> usize
    requires { (at ≤ length out.old) × (operator_code ≤ n) }
    ensures { (k l : ℕ) → Wrote out.old at (node_text k l place (sign n)) out.new result }
{
    if n == NOT_CODE {
        return put_byte(out, at, b'!');
    }
    if joint(n) <= place {
        return put_byte(out, at, b'(');
    }
    at
}

// What stands before the operands of a node at a place: a value, a name, that of a function with its bracket.
fn put_node(out: &mut [u8], at: usize, l: &[u8], b: u8, place: u64) -> usize
    requires { at ≤ length out.old }
    ensures { Wrote out.old at (node_text (get_or l.now funcs_place 0) (get_or l.now vars_place 0) place (sign b)) out.new result }
{
    let n = wide(b);
    if n < VARIABLE_CODE {
        return put_decimal(out, at, n);
    }
    if n < FUNCTION_CODE {
        return put_name(out, at, l, b'v', VARS, n - VARIABLE_CODE);
    }
    if n < NOT_CODE {
        let a = put_name(out, at, l, b'f', FUNCS, n - FUNCTION_CODE);
        return put_byte(out, a, b'(');
    }
    put_operator(out, at, n, place)
}

// The bracket of a function more, in which a second argument follows or not.
fn opened(s: &[u8], funcs: &[u16], b: u8, opens: u64) -> u64
    requires { function_code ≤ b }
    ensures { (bs : Open) → opens ≡ code bs → result ≡ code (deeper s.now (get_or funcs.now (b - function_code) 0) bs) }
{
    let p = cell(funcs, wide(b) - FUNCTION_CODE);
    if peek(s, p) != 1 {
        return marked(opens, COMMA, ANY);
    }
    if LIMIT <= opens {
        return opens;
    }
    2 * opens
}

// Behind the byte b, which stands at a place: operands follow behind a function or an operator, and an operand ends with a value or a variable.
fn turn(s: &[u8], funcs: &[u16], b: u8, opens: u64, place: u64, out: &mut [u8], at: usize) -> After
    requires { at ≤ length out.old }
    ensures at_in_bounds { (result.at ≤ length out.old) × (length out.new ≡ length out.old) }
    ensures turns { (bs : Open) → opens ≡ code bs → Turns s.now funcs.now b place out.old at bs out.new result.at result.opens result.place }
{
    let n = wide(b);
    if n < FUNCTION_CODE {
        return close(out, at, opens);
    }
    if n < NOT_CODE {
        return After {
            at: at,
            opens: opened(s, funcs, b, opens),
            place: ANY,
        };
    }
    if n == NOT_CODE {
        return After {
            at: at,
            opens: opens,
            place: NEGATION,
        };
    }
    let m = joint(n);
    After {
        at: at,
        opens: marked(opens, m, place),
        place: first_place(m),
    }
}

// Where the next node stands in a stream of n bytes, behind that at i: a sort is passed.
fn next_node(n: usize, i: usize, b: u8) -> usize
    requires { (i < n) × (n ≤ max_stream) }
    ensures { result ≡ min n (i + 1 + passed (sign b)) }
{
    if wide(b) == EQUAL_CODE {
        return n.min(i + 2);
    }
    i + 1
}

// A term that stands in the stream.
pub fn put_term(
    s: &[u8],
    funcs: &[u16],
    l: &[u8],
    from: usize,
    out: &mut [u8],
    at: usize,
) -> TextPut
    requires { (at ≤ length out.old) × (length s.now ≤ max_stream) }
    ensures within { Within s.now out.old from result out.new }
    ensures puts { (S : Sig) (Γ : List ℕ) (D : ℕ) (d : Data) (rest : List ℕ) → KnownTerms S s.now funcs.now → length Γ ≤ variable_code → RightTerm S Γ D d → Lettered S l.now → drop from s.now ≡ encode_data d ++ rest → Puts s.now out.old at (data_text S d) rest result out.new }
{
    let mut i = from;
    let mut p = at;
    let mut opens: u64 = 1;
    let mut place = ANY;
    while i < s.len() {
        let b = s[i];
        i = next_node(s.len(), i, b);
        let q = put_node(out, p, l, b, place);
        let t = turn(s, funcs, b, opens, place, out, q);
        p = t.at;
        opens = t.opens;
        place = t.place;
        if place == NONE {
            return TextPut { from: i, at: p };
        }
    }
    TextPut { from: i, at: p }
}

// What stands before the term number i of several.
fn led(i: usize) -> u8
    ensures { result ≡ lead i }
{
    if i == 0 {
        return b'(';
    }
    b','
}

// n terms that stand one behind another, in brackets, with commas between; nothing for none.
pub fn put_terms(
    s: &[u8],
    funcs: &[u16],
    l: &[u8],
    from: usize,
    n: usize,
    out: &mut [u8],
    at: usize,
) -> TextPut
    requires { (at ≤ length out.old) × (length s.now ≤ max_stream) }
    ensures within { Within s.now out.old from result out.new }
    ensures puts { (S : Sig) (Γ Ds : List ℕ) (ds : List Data) (rest : List ℕ) → KnownTerms S s.now funcs.now → length Γ ≤ variable_code → Each (RightTerm S Γ) Ds ds → length ds ≡ n → Lettered S l.now → drop from s.now ≡ all encode_data ds ++ rest → Puts s.now out.old at (given_text S ds) rest result out.new }
{
    if n == 0 {
        return TextPut { from: from, at: at };
    }
    let mut r = TextPut { from: from, at: at };
    for i in 0..n {
        let a = put_byte(out, r.at, led(i));
        r = put_term(s, funcs, l, r.from, out, a);
    }
    TextPut {
        from: r.from,
        at: put_byte(out, r.at, b')'),
    }
}
