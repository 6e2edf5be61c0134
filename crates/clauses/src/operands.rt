// What is still to be written behind the operands of a term: brackets and marks, the items of a number.
ghost use Rattle.std.specs.Prelude.{◌≡◌, ◌∷◌, Bool, ◌-◌, ◌≤◌, ◌<◌, length};
ghost use Rattle.texts.specs.Wrote.{Wrote};
ghost use Rattle.clauses.specs.Brackets.{Mark, mark_text, first_place, number, mark_of, enclosed, mark, Open, code, ended, operator_code, operator_mark, more, Closes};

use limits::{AND_CODE, EQUAL_CODE};
use texts::{put_byte, put_bytes};

// From here on nothing more is put, so that the number fits for any bytes; a term of 31 nodes keeps below it.
pub const LIMIT: u64 = 0x1000000000000000;

// What stands between two operands, by its number, which is also the place of the operand behind it.
pub const COMMA: u64 = 0;

const OR_MARK: u64 = 1;

const AND_MARK: u64 = 2;

const EQUAL_MARK: u64 = 3;

// Places of operands: any data, a negation; and no operand.
pub const ANY: u64 = 0;

pub const NEGATION: u64 = 3;

pub const NONE: u64 = 4;

// Where the text ends behind a node; what is to be written behind the next operand, and its place. What is to be written stands in the bits
// of a number, the innermost item lowest, behind a first 1: a closing bracket is 0; a mark is 1, its number in two bits, and then 1 if a
// bracket closes behind its second operand and 0 if not.
#[derive(Clone, Copy)]
pub struct After {
    pub at: usize,
    pub opens: u64,
    pub place: u64,
}

// What stands between two operands.
fn put_joint(out: &mut [u8], at: usize, m: u64) -> usize
    requires { at ≤ length out.old }
    ensures { Wrote out.old at (mark_text (mark_of m)) out.new result }
{
    if m == COMMA {
        return put_byte(out, at, b',');
    }
    if m == OR_MARK {
        return put_bytes(out, at, b"\\/");
    }
    if m == AND_MARK {
        return put_bytes(out, at, b"/\\");
    }
    put_bytes(out, at, b"==")
}

// What is left behind the mark that is the lowest item: with a bracket where one closes behind the second operand.
fn kept(o: u64) -> u64
    ensures { (m : Mark) (b : Bool) (bs : Open) → o ≡ code (mark m b ∷ bs) → result ≡ code (ended b bs) }
{
    if o / 8 % 2 == 1 {
        return o / 16 * 2;
    }
    o / 16
}

// Behind an operand: brackets are closed up to a mark.
pub fn close(out: &mut [u8], at: usize, opens: u64) -> After
    requires { at ≤ length out.old }
    ensures at_in_bounds { (result.at ≤ length out.old) × (length out.new ≡ length out.old) }
    ensures closes { (bs : Open) → opens ≡ code bs → Closes out.old at bs out.new result.at result.opens result.place }
{
    let mut p = at;
    let mut o = opens;
    while 1 < o {
        if o % 2 == 1 {
            let m = o / 2 % 4;
            let k = kept(o);
            return After {
                at: put_joint(out, p, m),
                opens: k,
                place: m,
            };
        }
        p = put_byte(out, p, b')');
        o = o / 2;
    }
    After {
        at: p,
        opens: o,
        place: NONE,
    }
}

// The mark of an operator with two operands.
pub fn joint(n: usize) -> u64
    requires { operator_code < n }
    ensures { result ≡ number (operator_mark (n - operator_code - 1)) }
{
    if n == EQUAL_CODE {
        return EQUAL_MARK;
    }
    if n == AND_CODE {
        return AND_MARK;
    }
    OR_MARK
}

// A mark more, at a place: its operator stands in brackets if its form is looser, and a comma always.
pub fn marked(opens: u64, m: u64, place: u64) -> u64
    requires { m < 4 }
    ensures { (k : Mark) (bs : Open) → m ≡ number k → opens ≡ code bs → result ≡ code (more (mark k (enclosed k place)) bs) }
{
    if LIMIT <= opens {
        return opens;
    }
    if m <= place {
        return 16 * opens + 2 * m + 9;
    }
    16 * opens + 2 * m + 1
}

// The place of the operand before a mark.
pub fn first_place(m: u64) -> u64
    requires { 0 < m }
    ensures { (k : Mark) → m ≡ number k → result ≡ first_place k }
{
    if m == EQUAL_MARK {
        return NEGATION;
    }
    m - 1
}
