// Names by their cells: compared byte by byte, and looked up among those that lines declare.
ghost use Rattle.std.specs.Prelude.{◌≡◌, ◌∷◌, ◌+◌, ◌-◌, ◌≤◌, ◌<◌, IfSome, length, get_or};
ghost use Rattle.pcrl.specs.Text.{bytes};
ghost use Rattle.pcrl.specs.Names.{number_of};
ghost use Rattle.laws.specs.Says.{Says};
ghost use Rattle.lexer.specs.Cells.{first_name};
ghost use Rattle.nodes.specs.Layout.{cell_limit};
ghost use Rattle.names.specs.NameCells.{name_at, names_at, scope_at, found, shown};

use elements::{peek, wide};
use lexer::FIRST_NAME;
use lexer::bytes::name_byte;

// Where a name's first byte stands in the sheet.
pub fn first_byte(c: u16) -> usize
    ensures { (result ≡ c - first_name) × (result < cell_limit) }
{
    if c < FIRST_NAME {
        0
    } else {
        wide(c - FIRST_NAME)
    }
}

// The byte, if names have it, else 0.
pub fn letter(b: u8) -> u8
    ensures { result ≡ shown b }
{
    // most bytes of long names are small letters
    if b >= b'a' {
        if b <= b'z' {
            return b;
        }
        return 0;
    }
    if name_byte(b) { b } else { 0 }
}

// The name's byte at a place, 0 behind the name.
fn letter_at(s: &[u8], i: usize) -> u8
    ensures { result ≡ shown (get_or s.now i 0) }
{
    if i < s.len() { letter(s[i]) } else { 0 }
}

// The same name? Both runs are compared to their ends.
pub fn same_name(s: &[u8], a: u16, b: u16) -> bool
    ensures { Says result (name_at s.now a ≡ name_at s.now b) }
{
    let p = first_byte(a);
    let q = first_byte(b);
    for i in 0..s.len() {
        let x = peek(s, p + i);
        let y = peek(s, q + i);
        if x != y {
            // the same only if both names have ended
            if letter(x) != 0 {
                return false;
            }
            if letter(y) != 0 {
                return false;
            }
            return true;
        }
        if letter(x) == 0 {
            return true;
        }
    }
    true
}

// "Bool is taken."
#[tactic(auto, using(crate::proofs::Runs::bool_shows))]
pub fn is_bool(s: &[u8], a: u16) -> bool
    ensures { Says result (name_at s.now a ≡ bytes "Bool") }
{
    let p = first_byte(a);
    if letter_at(s, p) != b'B' {
        return false;
    }
    if letter_at(s, p + 1) != b'o' {
        return false;
    }
    if letter_at(s, p + 2) != b'o' {
        return false;
    }
    if letter_at(s, p + 3) != b'l' {
        return false;
    }
    if letter_at(s, p + 4) != 0 {
        return false;
    }
    true
}

// The first of the lines at these places that declares the name of cell c.
pub fn number_of(s: &[u8], cells: &[u16], places: &[u16], count: usize, c: u16) -> Option<usize>
    requires { count ≤ length places.now }
    ensures most { IfSome result (λ i. i < count) }
    ensures number { result ≡ found (number_of (name_at s.now c) (names_at s.now cells.now places.now count)) }
{
    for i in 0..count {
        let p = wide(places[i]);
        if same_name(s, c, peek(cells, p + 1)) {
            return Some(i);
        }
    }
    None
}

// The sort's number: Bool is 0, the first line 1.
pub fn sort_number(s: &[u8], cells: &[u16], places: &[u16], count: usize, c: u16) -> Option<usize>
    requires { count ≤ length places.now }
    ensures most { IfSome result (λ d. d ≤ count) }
    ensures number { result ≡ found (number_of (name_at s.now c) (bytes "Bool" ∷ names_at s.now cells.now places.now count)) }
{
    if is_bool(s, c) {
        return Some(0);
    }
    let i = number_of(s, cells, places, count, c)?;
    Some(i + 1)
}

// How many bytes the name of cell c has.
fn name_length(s: &[u8], c: u16) -> usize
    ensures { result ≡ length (name_at s.now c) }
{
    let p = first_byte(c);
    for e in p..s.len() {
        if letter(s[e]) == 0 {
            return e - p;
        }
    }
    s.len().saturating_sub(p)
}

// Is the name of cell c, of l bytes, that of cell d? From the back: numbered names differ at their ends.
pub fn same_run(s: &[u8], c: u16, l: usize, d: u16) -> bool
    requires { l ≡ length (name_at s.now c) }
    ensures { Says result (name_at s.now c ≡ name_at s.now d) }
{
    let p = first_byte(c);
    let q = first_byte(d);
    for i in (0..l).rev() {
        if s[p + i] != peek(s, q + i) {
            return false;
        }
    }
    // the other one ends there too
    letter(peek(s, q + l)) == 0
}

// The first of n names in scope that is the name of cell c.
pub fn scope_number(s: &[u8], scope: &[u16], n: usize, c: u16) -> Option<usize>
    requires { n ≤ length scope.now }
    ensures most { IfSome result (λ i. i < n) }
    ensures number { result ≡ found (number_of (name_at s.now c) (scope_at s.now scope.now n)) }
{
    let l = name_length(s, c);
    for i in 0..n {
        if same_run(s, c, l, scope[i]) {
            return Some(i);
        }
    }
    None
}
