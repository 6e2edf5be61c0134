#![tactic(auto)]
// Questions 1 to 4: the bytes of a sheet to its tokens, one u16 a token (specs/Cells.antt).
ghost use Rattle.std.specs.Prelude.{◌≤◌, min, length};
ghost use Rattle.pcrl.specs.Limits.{max_bytes};
ghost use Rattle.pcrl.specs.Answers.{tokens_read};
ghost use Rattle.lexer.specs.Cells.{Lexes};

pub mod bytes; // bytes and their classes
pub mod token; // one token
pub mod tokens; // the tokens
pub mod brackets; // brackets that are open

use brackets::shallow;
use bytes::all_printable;
use limits::MAX_BYTES;
use refusals::Refusal;
use tokens::tokens;

// Cells: tokens stay numbers, one u16 a token, since they stand in an array that is lent (fixed memory). A mark of one byte is its byte.
pub const BANG: u16 = 33;

pub const HASH: u16 = 35;

pub const OPEN: u16 = 40;

pub const CLOSE: u16 = 41;

pub const PLUS: u16 = 43;

pub const COMMA: u16 = 44;

pub const DOT: u16 = 46;

pub const COLON: u16 = 58;

pub const SEMICOLON: u16 = 59;

pub const EQUALS: u16 = 61;

// marks of two bytes: `->`, `<|`, `|>`, `==`, `/\`, `\/`
pub const ARROW: u16 = 128;

pub const IF: u16 = 129;

pub const ELSE: u16 = 130;

pub const SAME: u16 = 131;

pub const AND: u16 = 132;

pub const OR: u16 = 133;

// words
pub const SORT: u16 = 160;

pub const FUNC: u16 = 161;

pub const ACT: u16 = 162;

pub const PROC: u16 = 163;

pub const INIT: u16 = 164;

pub const SUM: u16 = 165;

pub const DELTA: u16 = 166;

pub const TAU: u16 = 167;

// where numerals and names begin
pub const FIRST_NUMERAL: u16 = 256;

pub const FIRST_NAME: u16 = 1024;

// The cell of a token and how many bytes it takes.
#[derive(Clone, Copy)]
pub struct Taken {
    pub cell: u16,
    pub len: usize,
}

// Questions 1 to 4, each put to the whole sheet before the next; the cells of an accepted sheet are left in out. How many there are.
pub fn lex(sheet: &[u8], out: &mut [u16]) -> Result<usize, Refusal>
    requires { min (length sheet.now) max_bytes ≤ length out.old }
    ensures { Lexes (tokens_read sheet.now) sheet.now result out.new }
{
    if MAX_BYTES < sheet.len() {
        return Err(Refusal::TooLong);
    }
    if !all_printable(sheet) {
        return Err(Refusal::NotText);
    }
    let n = tokens(sheet, out)?;
    if !shallow(&out[..n]) {
        return Err(Refusal::TooOpen);
    }
    Ok(n)
}
