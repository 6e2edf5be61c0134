// One token, by its first byte.
ghost use Rattle.std.specs.Prelude.{true, ◌≡◌, ◌≢◌, List, [], ◌∷◌, ℕ, ◌+◌, ◌-◌, ◌≤◌, ◌<◌, length, drop, get_or, Option, Some, IfSome};
ghost use Rattle.pcrl.specs.Text.{byte};
ghost use Rattle.pcrl.specs.Limits.{max_bytes};
ghost use Rattle.pcrl.specs.Bytes as B;
ghost use Rattle.pcrl.specs.Tokens as T;
ghost use Rattle.lexer.specs.Classes.{leads, sign_cell, capped};
ghost use Rattle.lexer.specs.Cells.{first_word, first_long_mark, long_marks, Reads, Fits};

use crate::bytes::{DIGIT, UNDERSCORE, run_within};
use crate::{
    ACT, AND, ARROW, DELTA, ELSE, EQUALS, FIRST_NAME, FIRST_NUMERAL, FUNC, IF, INIT, OR, PROC,
    SAME, SORT, SUM, TAU, Taken,
};
use elements::peek;
use limits::MAX_NAME;

const MAX_NUMERAL: u16 = limits::MAX_NUMERAL as u16;

const MIN_WORD: usize = 3;

// more digits have a zero first, or spell more
const MAX_DIGITS: usize = 3;

// A cell, where a text is this word.
fn spelled(t: &[u8], text: &[u8], cell: u16) -> Option<u16>
    ensures { result ≡ sign_cell cell (text.now ∷ []) t.now }
{
    if t == text { Some(cell) } else { None }
}

// The cell of a word: by the first byte, which only `sort` and `sum` share.
pub fn word(t: &[u8]) -> Option<u16>
    ensures { result ≡ sign_cell first_word T.words t.now }
{
    if t.len() < MIN_WORD {
        return None;
    }
    match peek(t, 0) {
        b's' => match spelled(t, b"sort", SORT) {
            Some(cell) => Some(cell),
            None => spelled(t, b"sum", SUM),
        },
        b'f' => spelled(t, b"func", FUNC),
        b'a' => spelled(t, b"act", ACT),
        b'p' => spelled(t, b"proc", PROC),
        b'i' => spelled(t, b"init", INIT),
        b'd' => spelled(t, b"delta", DELTA),
        b't' => spelled(t, b"tau", TAU),
        _ => None,
    }
}

// The name or word at `at`, where a letter stands.
fn name_at(s: &[u8], at: usize) -> Option<Taken>
    requires { (at < length s.now) × (length s.now ≤ max_bytes) × (B.letter (get_or s.now at 0) ≡ true) }
    ensures fits { IfSome result (Fits (length s.now) at) }
    ensures reads { Reads s.now (T.name_of (T.front B.name_byte (drop at s.now))) result }
{
    let n = 1 + run_within(s, at + 1, MAX_NAME, DIGIT, UNDERSCORE);
    if MAX_NAME < n {
        return None;
    }
    match word(&s[at..at + n]) {
        Some(cell) => Some(Taken { cell, len: n }),
        None => Some(Taken {
            cell: FIRST_NAME + at as u16,
            len: n,
        }),
    }
}

// The value of a digit.
fn digit_value(b: u8) -> u16
    ensures { result ≡ b - 48 }
{
    if b < b'0' { 0 } else { u16::from(b - b'0') }
}

// The number that digits spell, where it is 255 at most.
fn value_of(t: &[u8]) -> Option<u16>
    ensures { result ≡ capped (T.value_of 0 t.now) }
{
    let mut v: u16 = 0;
    for b in t {
        v = v * 10 + digit_value(*b);
        if MAX_NUMERAL < v {
            return None;
        }
    }
    Some(v)
}

// The numeral that digits spell: no leading zero but in 0 itself.
fn numeral(t: &[u8]) -> Option<Taken>
    ensures long { IfSome result (λ n. n.len ≡ length t.now) }
    ensures reads { (s : List ℕ) → Reads s (T.numeral_of t.now) result }
{
    if t.len() != 1 && peek(t, 0) <= b'0' {
        return None;
    }
    let v = value_of(t)?;
    Some(Taken {
        cell: FIRST_NUMERAL + v,
        len: t.len(),
    })
}

// The numeral at `at`, where a digit stands.
fn numeral_at(s: &[u8], at: usize) -> Option<Taken>
    requires { (at < length s.now) × (B.digit (get_or s.now at 0) ≡ true) }
    ensures fits { IfSome result (Fits (length s.now) at) }
    ensures reads { Reads s.now (T.numeral_of (T.front B.digit (drop at s.now))) result }
{
    let n = run_within(s, at, MAX_DIGITS + 1, DIGIT, DIGIT);
    if MAX_DIGITS < n {
        return None;
    }
    numeral(&s[at..at + n])
}

// The cell of the mark of two bytes that does not begin with `=`.
fn long_mark(a: u8, b: u8) -> Option<u16>
    requires { a ≢ byte "=" }
    ensures { result ≡ sign_cell first_long_mark long_marks (a ∷ b ∷ []) }
{
    match a {
        b'-' => if b == b'>' { Some(ARROW) } else { None },
        b'<' => if b == b'|' { Some(IF) } else { None },
        b'|' => if b == b'>' { Some(ELSE) } else { None },
        b'/' => if b == b'\\' { Some(AND) } else { None },
        b'\\' => if b == b'/' { Some(OR) } else { None },
        _ => None,
    }
}

// `==` or `=` at `at`, where `=` stands: the only byte that begins a mark of two and is one by itself.
fn equals_at(s: &[u8], at: usize) -> Taken
    requires { (at < length s.now) × (get_or s.now at 0 ≡ byte "=") }
    ensures fits { Fits (length s.now) at result }
    ensures reads { Reads s.now (T.mark_of T.punctuation (drop at s.now)) (Some result) }
{
    if peek(s, at + 1) == b'=' {
        Taken { cell: SAME, len: 2 }
    } else {
        Taken {
            cell: EQUALS,
            len: 1,
        }
    }
}

// The mark at `at`, where the first byte of a mark of two stands.
fn long_mark_at(s: &[u8], at: usize) -> Option<Taken>
    requires { (at < length s.now) × (leads (get_or s.now at 0) ≡ true) }
    ensures fits { IfSome result (Fits (length s.now) at) }
    ensures reads { Reads s.now (T.mark_of T.punctuation (drop at s.now)) result }
{
    let a = peek(s, at);
    if a == b'=' {
        return Some(equals_at(s, at));
    }
    let cell = long_mark(a, peek(s, at + 1))?;
    Some(Taken { cell, len: 2 })
}

// The token at `at`, by the value of its first byte: a letter, a digit, a mark of one byte, the first byte of a longer mark. Separators were
// skipped before (`skip`), and no other byte begins a token.
pub fn token_at(s: &[u8], at: usize) -> Option<Taken>
    requires { (at < length s.now) × (length s.now ≤ max_bytes) }
    ensures fits { IfSome result (Fits (length s.now) at) }
    ensures reads { Reads s.now (T.first_token (get_or s.now at 0) (drop (at + 1) s.now)) result }
{
    let b = s[at];
    match b {
        b'A'..=b'Z' | b'a'..=b'z' => name_at(s, at),
        b'0'..=b'9' => numeral_at(s, at),
        b'(' | b')' | b',' | b';' | b':' | b'#' | b'+' | b'.' | b'!' => Some(Taken {
            cell: u16::from(b),
            len: 1,
        }),
        b'-' | b'<' | b'|' | b'=' | b'/' | b'\\' => long_mark_at(s, at),
        _ => None,
    }
}
