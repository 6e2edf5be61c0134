// One token read, one cell written. No reader asks for room: a cell past the end is not written.
ghost use Rattle.std.specs.Prelude.{◌≡◌, ◌+◌, ◌≤◌, ◌<◌, length, IfSome};
ghost use Rattle.pcrl.specs.Grammar.{a_name, a_numeral};
ghost use Rattle.parser.specs.Cells.{first_ors, first_ands, enc_name, enc_numeral};
ghost use Rattle.parser.specs.Reading.{Ahead, Put, Expected, Closed, Read};

use crate::Step;
use crate::codes::FIRST_ORS;
use elements::peek;

// Writes a cell; the next free one.
pub fn put(out: &mut [u16], w: usize, v: u16) -> usize
    ensures { Put out.old w v result out.new }
{
    if w < out.len() {
        out[w] = v;
        w + 1
    } else {
        w
    }
}

// The sign stands next: the place behind it.
pub fn expect(toks: &[u16], at: usize, sign: u16) -> Option<usize>
    requires { 0 < sign }
    ensures ahead { IfSome result (Ahead (length toks.now) at) }
    ensures read { Expected toks.now at sign result }
{
    if peek(toks, at) == sign {
        Some(at + 1)
    } else {
        None
    }
}

// A closing bracket stands behind what was read.
pub fn closed(toks: &[u16], a: Step) -> Option<Step>
    ensures ahead { IfSome result (λ r. Ahead (length toks.now) a.at r.at) }
    ensures read { Closed toks.now a result }
{
    let at = expect(toks, a.at, lexer::CLOSE)?;
    Some(Step { at, w: a.w })
}

// A name stands next: its cell is written.
pub fn name(toks: &[u16], at: usize, out: &mut [u16], w: usize) -> Option<Step>
    ensures ahead { IfSome result (λ r. Ahead (length toks.now) at r.at) }
    ensures read { Read 0 enc_name (λ f. a_name) toks.now at w out.old result out.new }
{
    let t = peek(toks, at);
    if t < lexer::FIRST_NAME {
        return None;
    }
    Some(Step {
        at: at + 1,
        w: put(out, w, t),
    })
}

// A numeral stands next: its cell is written.
pub fn numeral(toks: &[u16], at: usize, out: &mut [u16], w: usize) -> Option<Step>
    ensures ahead { IfSome result (λ r. Ahead (length toks.now) at r.at) }
    ensures read { Read 0 enc_numeral (λ f. a_numeral) toks.now at w out.old result out.new }
{
    let t = peek(toks, at);
    if t < lexer::FIRST_NUMERAL || t >= lexer::FIRST_NAME {
        return None;
    }
    Some(Step {
        at: at + 1,
        w: put(out, w, t),
    })
}

// Counts are below this, so that those of both kinds are told apart.
const COUNTS: usize = FIRST_ORS as usize;

// The cell of a count: so many operands stand behind the first.
pub fn counted(first: u16, n: usize) -> u16
    requires { first ≤ first_ands }
    ensures { n < first_ors → result ≡ first + n }
{
    if n < COUNTS { first + n as u16 } else { first }
}
