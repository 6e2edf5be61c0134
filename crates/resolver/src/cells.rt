// Cells read and written. Nothing asks for room: a cell past the end is not written.
ghost use Rattle.std.specs.Prelude.{◌≡◌, [], ◌∷◌, ℕ, ◌+◌, ◌<◌, ◌≤◌, length};
ghost use Rattle.nodes.specs.Layout.{cell_limit, byte_limit, after_mark, one_if, first_cell};
ghost use Rattle.resolver.specs.Raw.{kids_of, tokens_of, Skips};
ghost use Rattle.resolver.specs.Writing.{Writes};
ghost use Rattle.resolver.specs.Resolving.{joins};

use elements::{peek, short, wide};
use nodes::{AFTER, NUMBER};
use parser::cells::put;
use parser::codes::{FIRST_ANDS, FIRST_ORS};

// The first three cells of a node.
pub fn node(out: &mut [u16], w: usize, first: u16, length: u16, count: u16) -> usize
    ensures { Writes (first ∷ length ∷ count ∷ []) w out.old result out.new }
{
    let a = put(out, w, first);
    let b = put(out, a, length);
    put(out, b, count)
}

// So many times a function of two arguments, by its cell: what is grouped to the left has them before its operands.
pub fn put_joins(out: &mut [u16], w: usize, c: u16, many: usize) -> usize
    ensures { Writes (joins c many) w out.old result out.new }
{
    let mut v = w;
    for _ in 0..many {
        let a = put(out, v, c);
        v = put(out, a, 2);
    }
    v
}

// The first cell of a node: it gets a new equation if it stands after a first part.
pub fn first_cell(number: usize, after: bool, kind: usize) -> u16
    requires { (number < byte_limit) × (kind < after_mark) }
    ensures { result ≡ first_cell number (one_if after) kind }
{
    let k = NUMBER * number + kind;
    if after { short(k + AFTER) } else { short(k) }
}

// How many cells were written from one place to a later one.
pub fn span(from: usize, to: usize) -> u16
    ensures { (n : ℕ) → to ≡ from + n → n < cell_limit → result ≡ n }
{
    if to < from {
        return 0;
    }
    short(to - from)
}

// How many tokens stand behind a tag (crate parser, Cells). Tags stay numbers: they stand in cells of lent arrays, as memory is fixed.
pub fn tokens(k: u16) -> u8
    ensures { (result ≡ tokens_of k) × (result < 3) }
{
    match k {
        1 | 2 | 3 | 14 | 15 => 1,
        16 => 2,
        _ => 0,
    }
}

// How many subterms stand behind a tag and its tokens; a cell of `\/` or `/\` has one operand more than it says.
pub fn kids(k: u16) -> u16
    ensures { (result ≡ kids_of k) × (result < cell_limit) }
{
    if k >= FIRST_ANDS {
        return k - FIRST_ANDS + 1;
    }
    if k >= FIRST_ORS {
        return k - FIRST_ORS + 1;
    }
    match k {
        3 | 4 | 6 | 8 | 10 | 15 | 16 | 17 | 25 | 27 | 28 => 1,
        5 | 7 | 11 | 26 => 2,
        9 => 3,
        _ => 0,
    }
}

// The place behind the raw term at `at`.
pub fn skip(raw: &[u16], at: usize) -> usize
    requires { length raw.now < cell_limit }
    ensures on { at ≤ result }
    ensures skips { Skips raw.now at result }
{
    let mut p = at;
    let mut need: usize = 1;
    while need > 0 {
        if p >= raw.len() {
            return p;
        }
        let k = peek(raw, p);
        need = need - 1 + wide(kids(k));
        p = p + 1 + wide(tokens(k));
    }
    p
}
