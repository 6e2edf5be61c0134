// Data: "`!`, `==`, `/\` and `\/`, binding in that order from tightest", over numerals, variables, functions and bracketed data.
// Only brackets are read by a call of the same reader; what is joined by operators is read by loops.
ghost use Rattle.std.specs.Prelude.{◌+◌, ◌*◌, ◌<◌, length, IfSome};
ghost use Rattle.pcrl.specs.Grammar.{data_term, conjunction, comparison, negation, atom, data_list};
ghost use Rattle.parser.specs.Cells.{enc_data, enc_conjunction, enc_comparison, enc_negation, enc_atom, enc_datas, enc_part};
ghost use Rattle.parser.specs.Call.{call};
ghost use Rattle.parser.specs.Reading.{Ahead, Read, left};

use crate::cells::{closed, counted, name, put};
use crate::{Step, codes};
use elements::peek;

// Conjunctions joined by `\/`. Their count stands before them: its cell is set when the last one is read.
#[cycle(atom_comparison_conjunction_data_list_data_term_negation)]
pub fn data_term(toks: &[u16], at: usize, out: &mut [u16], w: usize) -> Option<Step>
    ensures ahead { IfSome result (λ r. Ahead (length toks.now) at r.at) }
    ensures read { Read (5 * left toks.now at + 4) enc_data data_term toks.now at w out.old result out.new }
{
    let mut from = at;
    let mut v = put(out, w, codes::FIRST_ORS);
    let mut n: usize = 0;
    loop {
        let a = conjunction(toks, from, out, v)?;
        if peek(toks, a.at) != lexer::OR {
            put(out, w, counted(codes::FIRST_ORS, n));
            return Some(a);
        }
        from = a.at + 1;
        v = a.w;
        n += 1;
    }
}

// Comparisons joined by `/\`, and before them their count. As data_term, but for the reader that it calls, which calls back: one function
// for both would choose the reader by a test in the loop, and say no more plainly what is read.
#[cycle(atom_comparison_conjunction_data_list_data_term_negation)]
fn conjunction(toks: &[u16], at: usize, out: &mut [u16], w: usize) -> Option<Step>
    ensures ahead { IfSome result (λ r. Ahead (length toks.now) at r.at) }
    ensures read { Read (5 * left toks.now at + 3) enc_conjunction conjunction toks.now at w out.old result out.new }
{
    let mut from = at;
    let mut v = put(out, w, codes::FIRST_ANDS);
    let mut n: usize = 0;
    loop {
        let a = comparison(toks, from, out, v)?;
        if peek(toks, a.at) != lexer::AND {
            put(out, w, counted(codes::FIRST_ANDS, n));
            return Some(a);
        }
        from = a.at + 1;
        v = a.w;
        n += 1;
    }
}

// "`==` takes two data .., doesn't chain"
#[cycle(atom_comparison_conjunction_data_list_data_term_negation)]
fn comparison(toks: &[u16], at: usize, out: &mut [u16], w: usize) -> Option<Step>
    ensures ahead { IfSome result (λ r. Ahead (length toks.now) at r.at) }
    ensures read { Read (5 * left toks.now at + 2) enc_comparison comparison toks.now at w out.old result out.new }
{
    let v = put(out, w, codes::ALONE_TAG);
    let a = negation(toks, at, out, v)?;
    if peek(toks, a.at) != lexer::SAME {
        return Some(a);
    }
    put(out, w, codes::EQUAL_TAG);
    negation(toks, a.at + 1, out, a.w)
}

// `!`, any number of times, and then an atom.
#[cycle(atom_comparison_conjunction_data_list_data_term_negation)]
fn negation(toks: &[u16], at: usize, out: &mut [u16], w: usize) -> Option<Step>
    ensures ahead { IfSome result (λ r. Ahead (length toks.now) at r.at) }
    ensures read { Read (5 * left toks.now at + 1) enc_negation negation toks.now at w out.old result out.new }
{
    let mut from = at;
    let mut v = w;
    while peek(toks, from) == lexer::BANG {
        v = put(out, v, codes::NOT_TAG);
        from += 1;
    }
    atom(toks, from, out, v)
}

// "Data is a numeral, a variable, or a function name with bracketed data." "Brackets in data are allowed"
#[cycle(atom_comparison_conjunction_data_list_data_term_negation)]
fn atom(toks: &[u16], at: usize, out: &mut [u16], w: usize) -> Option<Step>
    ensures ahead { IfSome result (λ r. Ahead (length toks.now) at r.at) }
    ensures read { Read (5 * left toks.now at) enc_atom atom toks.now at w out.old result out.new }
{
    let t = peek(toks, at);
    if t == lexer::OPEN {
        let v = put(out, w, codes::NEST_TAG);
        let a = data_term(toks, at + 1, out, v)?;
        return closed(toks, a);
    }
    if t < lexer::FIRST_NUMERAL {
        return None;
    }
    if t < lexer::FIRST_NAME {
        let v = put(out, w, codes::VALUE_TAG);
        return Some(Step {
            at: at + 1,
            w: put(out, v, t),
        });
    }
    let x = put(out, w, codes::VARIABLE_TAG);
    let d = put(out, x, t);
    let p = at + 1;
    if peek(toks, p) != lexer::OPEN {
        return Some(Step { at: p, w: d });
    }
    put(out, w, codes::APPLY_TAG);
    data_list(toks, p + 1, out, d)
}

// Bracketed data, behind the opening bracket.
#[cycle(atom_comparison_conjunction_data_list_data_term_negation)]
pub fn data_list(toks: &[u16], at: usize, out: &mut [u16], w: usize) -> Option<Step>
    ensures ahead { IfSome result (λ r. Ahead (length toks.now) at r.at) }
    ensures read { Read (5 * left toks.now at + 5) enc_datas data_list toks.now at w out.old result out.new }
{
    let mut from = at;
    let mut v = w;
    loop {
        let u = put(out, v, codes::ONE_TAG);
        let a = data_term(toks, from, out, u)?;
        if peek(toks, a.at) != lexer::COMMA {
            return closed(toks, a);
        }
        put(out, v, codes::MORE_TAG);
        from = a.at + 1;
        v = a.w;
    }
}

// A name with or without bracketed data.
pub fn named(toks: &[u16], at: usize, out: &mut [u16], w: usize) -> Option<Step>
    ensures ahead { IfSome result (λ r. Ahead (length toks.now) at r.at) }
    ensures read { Read (5 * left toks.now at) enc_part call toks.now at w out.old result out.new }
{
    let x = put(out, w, codes::BARE_TAG);
    let a = name(toks, at, out, x)?;
    if peek(toks, a.at) != lexer::OPEN {
        return Some(a);
    }
    put(out, w, codes::GIVEN_TAG);
    data_list(toks, a.at + 1, out, a.w)
}
