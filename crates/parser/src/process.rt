// Readers of choice, conditional, sequence and part call each other in a cycle, remaining tokens falling.
ghost use Rattle.std.specs.Prelude.{◌+◌, ◌*◌, length, IfSome};
ghost use Rattle.pcrl.specs.Grammar.{choice, conditional, sequence, part};
ghost use Rattle.parser.specs.Cells.{enc_choice, enc_conditional, enc_sequence, enc_part, enc_param};
ghost use Rattle.parser.specs.Call.{sum_head};
ghost use Rattle.parser.specs.Reading.{Ahead, Read, left};

use crate::cells::{closed, expect, name, put};
use crate::data::{data_term, named};
use crate::{Step, codes};
use elements::peek;

// "A choice is conditionals joined by `+`."
#[cycle(choice_conditional_part_sequence)]
pub fn choice(toks: &[u16], at: usize, out: &mut [u16], w: usize) -> Option<Step>
    ensures ahead { IfSome result (λ r. Ahead (length toks.now) at r.at) }
    ensures read { Read (5 * left toks.now at + 4) enc_choice choice toks.now at w out.old result out.new }
{
    let mut from = at;
    let mut v = w;
    loop {
        let u = put(out, v, codes::ONLY_TAG);
        let a = conditional(toks, from, out, u)?;
        if peek(toks, a.at) != lexer::PLUS {
            return Some(a);
        }
        put(out, v, codes::PLUS_TAG);
        from = a.at + 1;
        v = a.w;
    }
}

// "A conditional is a sequence, or sequence `<|` data `|>` sequence (yes part first)."
#[cycle(choice_conditional_part_sequence)]
fn conditional(toks: &[u16], at: usize, out: &mut [u16], w: usize) -> Option<Step>
    ensures ahead { IfSome result (λ r. Ahead (length toks.now) at r.at) }
    ensures read { Read (5 * left toks.now at + 3) enc_conditional conditional toks.now at w out.old result out.new }
{
    let v = put(out, w, codes::PLAIN_TAG);
    let a = sequence(toks, at, out, v)?;
    if peek(toks, a.at) != lexer::IF {
        return Some(a);
    }
    put(out, w, codes::COND_TAG);
    let d = data_term(toks, a.at + 1, out, a.w)?;
    let e = expect(toks, d.at, lexer::ELSE)?;
    sequence(toks, e, out, d.w)
}

// "A sequence is parts joined by `.`." As choice, but for the reader that it calls, which calls back (see data::conjunction).
#[cycle(choice_conditional_part_sequence)]
fn sequence(toks: &[u16], at: usize, out: &mut [u16], w: usize) -> Option<Step>
    ensures ahead { IfSome result (λ r. Ahead (length toks.now) at r.at) }
    ensures read { Read (5 * left toks.now at + 2) enc_sequence sequence toks.now at w out.old result out.new }
{
    let mut from = at;
    let mut v = w;
    loop {
        let u = put(out, v, codes::LAST_TAG);
        let a = part(toks, from, out, u)?;
        if peek(toks, a.at) != lexer::DOT {
            return Some(a);
        }
        put(out, v, codes::THEN_TAG);
        from = a.at + 1;
        v = a.w;
    }
}

// "A part is delta, tau, a name with or without bracketed data, `sum(v:sort, choice)`, or a bracketed choice."
#[cycle(choice_conditional_part_sequence)]
fn part(toks: &[u16], at: usize, out: &mut [u16], w: usize) -> Option<Step>
    ensures ahead { IfSome result (λ r. Ahead (length toks.now) at r.at) }
    ensures read { Read (5 * left toks.now at + 1) enc_part part toks.now at w out.old result out.new }
{
    let t = peek(toks, at);
    if t == lexer::DELTA {
        return Some(Step {
            at: at + 1,
            w: put(out, w, codes::DELTA_TAG),
        });
    }
    if t == lexer::TAU {
        return Some(Step {
            at: at + 1,
            w: put(out, w, codes::TAU_TAG),
        });
    }
    if t == lexer::SUM {
        let v = put(out, w, codes::SUM_TAG);
        let h = sum_head(toks, at + 1, out, v)?;
        let a = choice(toks, h.at, out, h.w)?;
        return closed(toks, a);
    }
    if t == lexer::OPEN {
        let v = put(out, w, codes::GROUP_TAG);
        let a = choice(toks, at + 1, out, v)?;
        return closed(toks, a);
    }
    named(toks, at, out, w)
}

// `( v : sort ,` of a sum
fn sum_head(toks: &[u16], at: usize, out: &mut [u16], w: usize) -> Option<Step>
    ensures ahead { IfSome result (λ r. Ahead (length toks.now) at r.at) }
    ensures read { Read 0 enc_param (λ f. sum_head) toks.now at w out.old result out.new }
{
    let a = expect(toks, at, lexer::OPEN)?;
    let v = name(toks, a, out, w)?;
    let c = expect(toks, v.at, lexer::COLON)?;
    let d = name(toks, c, out, v.w)?;
    let at = expect(toks, d.at, lexer::COMMA)?;
    Some(Step { at, w: d.w })
}
