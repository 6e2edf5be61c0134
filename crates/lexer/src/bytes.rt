// Bytes: their classes, runs of them, and question 2.
ghost use Rattle.std.specs.Prelude.{true, ◌≡◌, ℕ, ◌+◌, ◌≤◌, ◌<◌, min, length, drop, get_or};
ghost use Rattle.pcrl.specs.Limits.{max_bytes};
ghost use Rattle.pcrl.specs.Bytes as B;
ghost use Rattle.pcrl.specs.Tokens as T;
ghost use Rattle.laws.specs.Says.{Says};
ghost use Rattle.lexer.specs.Classes.{class_of, in_classes};

// Classes: those of a name stand one after another. They are numbers and no enum, since a run is tested against a range of them (run_within).
pub const SEPARATOR: u8 = 1;

pub const DIGIT: u8 = 2;

pub const LETTER: u8 = 3;

pub const UNDERSCORE: u8 = 4;

pub const MARK: u8 = 5;

pub const LEAD: u8 = 6;

// The class of a byte, 0 for any other; LEAD is the first byte of a mark of two, of which `=` is a mark by itself too.
#[tactic(auto, unfolding(crate::specs::Classes::class_of))]
pub fn class(b: u8) -> u8
    ensures { result ≡ class_of b }
{
    match b {
        b' ' | b'\n' => SEPARATOR,
        b'0'..=b'9' => DIGIT,
        b'A'..=b'Z' | b'a'..=b'z' => LETTER,
        b'_' => UNDERSCORE,
        b'(' | b')' | b',' | b';' | b':' | b'#' | b'+' | b'.' | b'!' => MARK,
        b'-' | b'<' | b'|' | b'=' | b'/' | b'\\' => LEAD,
        _ => 0,
    }
}

// "letters, digits or underscores": the classes from DIGIT to UNDERSCORE, as one test.
pub fn name_byte(b: u8) -> bool
    ensures { result ≡ B.name_byte b }
{
    match b {
        b'0'..=b'9' | b'A'..=b'Z' | b'_' | b'a'..=b'z' => true,
        _ => false,
    }
}

// How many bytes from `at` on have a class from lo to hi, one after another, and no more than `most` of them: what stands further on is
// not looked at.
pub fn run_within(s: &[u8], at: usize, most: usize, lo: u8, hi: u8) -> usize
    requires { at ≤ length s.now }
    ensures { result ≡ min most (T.run (in_classes lo hi) (drop at s.now)) }
{
    let end = at + most.min(s.len() - at);
    for i in at..end {
        let k = class(s[i]);
        if k < lo || hi < k {
            return i - at;
        }
    }
    end - at
}

// How many bytes from `at` on have a class from lo to hi, one after another.
pub fn run(s: &[u8], at: usize, lo: u8, hi: u8) -> usize
    ensures { result ≡ T.run (in_classes lo hi) (drop at s.now) }
{
    if s.len() <= at {
        return 0;
    }
    run_within(s, at, s.len() - at, lo, hi)
}

// "Blanks (hex 20) and line feeds (hex 0A) separate tokens"
fn separator(b: u8) -> bool
    ensures { result ≡ B.separator b }
{
    match b {
        0x20 | 0x0A => true,
        _ => false,
    }
}

// Is each byte a separator? One way out, as in block_printable; where there are so many as a constant says the compiler leaves no loop.
fn row_separates(row: &[u8]) -> bool
    ensures { Says result ((k : ℕ) → k < length row.now → B.separator (get_or row.now k 0) ≡ true) }
{
    let mut good = true;
    for b in row {
        good = good & separator(*b);
    }
    good
}

// How many separators are skipped at once, and behind how many this is tried.
const ROW: usize = 16;

const FEW: usize = 4;

// Past whole rows of separators.
fn past_rows(s: &[u8], at: usize) -> usize
    requires { at ≤ length s.now }
    ensures { (at ≤ result) × (result + T.run B.separator (drop result s.now) ≡ at + T.run B.separator (drop at s.now)) }
{
    let mut i = at;
    while ROW <= s.len() - i {
        if !row_separates(&s[i..i + ROW]) {
            return i;
        }
        i += ROW;
    }
    i
}

// A place in the sheet.
#[derive(Clone, Copy)]
pub struct Cursor {
    pub at: usize,
}

impl Cursor {
    // Past the separators: one by one, and by rows where more than a few stand together.
    pub fn skip(self, s: &[u8]) -> Cursor
        ensures { result.at ≡ self.at + T.run B.separator (drop self.at s.now) }
    {
        let start = self.at;
        let mut at = start;
        while at < s.len() {
            let b = s[at];
            if b' ' < b {
                return Cursor { at };
            }
            if !separator(b) {
                return Cursor { at };
            }
            at += 1;
            if at - start == FEW {
                at = past_rows(s, at);
            }
        }
        Cursor { at }
    }

    // Past n bytes.
    pub fn past(self, n: usize) -> Cursor
        requires { self.at + n ≤ max_bytes }
        ensures { result.at ≡ self.at + n }
    {
        Cursor { at: self.at + n }
    }
}

// 2: "hex 20 to 7E or hex 0A"
fn printable(b: u8) -> bool
    ensures { result ≡ B.printable b }
{
    match b {
        0x20..=0x7E | 0x0A => true,
        _ => false,
    }
}

// How many bytes are tested before the first answer.
const BLOCK: usize = 256;

// Is each byte printable? The loop has one way out, so that the compiler tests many bytes at once. It stands twice, here and in
// row_separates, since the test of the calls (tools/no-recursion) reads no function that is handed over.
fn block_printable(block: &[u8]) -> bool
    ensures { Says result (B.Printable block.now) }
{
    let mut good = true;
    for b in block {
        good = good & printable(*b);
    }
    good
}

// Question 2: each byte hex 20 to 7E or hex 0A?
pub fn all_printable(s: &[u8]) -> bool
    ensures { Says result (B.Printable s.now) }
{
    for block in s.chunks(BLOCK) {
        if !block_printable(block) {
            return false;
        }
    }
    true
}
