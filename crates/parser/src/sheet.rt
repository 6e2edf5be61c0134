// The lines of a sheet, "each closed by `;`".
ghost use Rattle.std.specs.Prelude.{◌≡◌, not, List, ◌++◌, ℕ, ◌+◌, ◌*◌, ◌<◌, ◌≤◌, length, get_or, IfSome};
ghost use Rattle.pcrl.specs.Tokens.{Token};
ghost use Rattle.pcrl.specs.Grammar.{sort_line, numerals, one_or_two, func_line, act_line, parameters, proc_line, init_line};
ghost use Rattle.pcrl.specs.Grammar as G;
ghost use Rattle.parser.specs.Cells.{enc_items, enc_name, enc_numeral, enc_param, enc_sort, enc_func, enc_act, enc_proc, enc_init, end_tag};
ghost use Rattle.lexer.specs.Cells.{cell_token};
ghost use Rattle.parser.specs.Call.{params, called, all_called};
ghost use Rattle.parser.specs.Kinds.{kind_of};
ghost use Rattle.parser.specs.Reading.{rest, left, Ahead, Onward, Put, Read};
ghost use Rattle.parser.specs.Runs.{Ran};

use crate::cells::{expect, name, numeral, put};
use crate::data::named;
use crate::process::choice;
use crate::{Run, Step, codes};
use elements::{peek, short};

// "`sort` name size"
fn sort_line(toks: &[u16], at: usize, out: &mut [u16], w: usize) -> Option<Step>
    ensures ahead { IfSome result (λ r. Ahead (length toks.now) at r.at) }
    ensures read { Read 0 enc_sort (λ f. sort_line) toks.now at w out.old result out.new }
{
    let v = put(out, w, codes::SORT_TAG);
    let x = name(toks, at, out, v)?;
    numeral(toks, x.at, out, x.w)
}

// The end of a list, behind what was read.
fn ended(a: Step, out: &mut [u16]) -> Step
    ensures place { result.at ≡ a.at }
    ensures cell { Put out.old a.w end_tag result.w out.new }
{
    Step {
        at: a.at,
        w: put(out, a.w, codes::END_TAG),
    }
}

// "values by commas"
fn numerals(toks: &[u16], at: usize, out: &mut [u16], w: usize) -> Option<Step>
    ensures ahead { IfSome result (λ r. Ahead (length toks.now) at r.at) }
    ensures read { Read (left toks.now at) (enc_items enc_numeral) numerals toks.now at w out.old result out.new }
{
    let mut from = at;
    let mut v = w;
    loop {
        let u = put(out, v, codes::ITEM_TAG);
        let a = numeral(toks, from, out, u)?;
        if peek(toks, a.at) != lexer::COMMA {
            return Some(ended(a, out));
        }
        from = a.at + 1;
        v = a.w;
    }
}

// "sort, or sort `#` sort"
fn one_or_two(toks: &[u16], at: usize, out: &mut [u16], w: usize) -> Option<Step>
    ensures ahead { IfSome result (λ r. Ahead (length toks.now) at r.at) }
    ensures read { Read 0 (enc_items enc_name) (λ f. one_or_two) toks.now at w out.old result out.new }
{
    let v = put(out, w, codes::ITEM_TAG);
    let a = name(toks, at, out, v)?;
    if peek(toks, a.at) != lexer::HASH {
        return Some(ended(a, out));
    }
    let u = put(out, a.w, codes::ITEM_TAG);
    let b = name(toks, a.at + 1, out, u)?;
    Some(ended(b, out))
}

// "`func` name `:` sort, or sort `#` sort, `->` sort `=` values by commas, last argument fastest"
fn func_line(toks: &[u16], at: usize, out: &mut [u16], w: usize) -> Option<Step>
    ensures ahead { IfSome result (λ r. Ahead (length toks.now) at r.at) }
    ensures read { Read (length toks.now) enc_func func_line toks.now at w out.old result out.new }
{
    let v = put(out, w, codes::FUNC_TAG);
    let x = name(toks, at, out, v)?;
    let c = expect(toks, x.at, lexer::COLON)?;
    let t = one_or_two(toks, c, out, x.w)?;
    let a = expect(toks, t.at, lexer::ARROW)?;
    let g = name(toks, a, out, t.w)?;
    let e = expect(toks, g.at, lexer::EQUALS)?;
    numerals(toks, e, out, g.w)
}

// "`act` name, or name `:` sort, or name `:` sort `#` sort"
fn act_line(toks: &[u16], at: usize, out: &mut [u16], w: usize) -> Option<Step>
    ensures ahead { IfSome result (λ r. Ahead (length toks.now) at r.at) }
    ensures read { Read 0 enc_act (λ f. act_line) toks.now at w out.old result out.new }
{
    let v = put(out, w, codes::ACT_TAG);
    let x = name(toks, at, out, v)?;
    if peek(toks, x.at) != lexer::COLON {
        return Some(ended(x, out));
    }
    one_or_two(toks, x.at + 1, out, x.w)
}

// "bracketed `v:sort` by commas", behind the opening bracket
fn parameters(toks: &[u16], at: usize, out: &mut [u16], w: usize) -> Option<Step>
    ensures ahead { IfSome result (λ r. Ahead (length toks.now) at r.at) }
    ensures read { Read (left toks.now at) (enc_items enc_param) parameters toks.now at w out.old result out.new }
{
    let mut from = at;
    let mut v = w;
    loop {
        let u = put(out, v, codes::ITEM_TAG);
        let x = name(toks, from, out, u)?;
        let c = expect(toks, x.at, lexer::COLON)?;
        let d = name(toks, c, out, x.w)?;
        if peek(toks, d.at) != lexer::COMMA {
            let at = expect(toks, d.at, lexer::CLOSE)?;
            return Some(ended(Step { at, w: d.w }, out));
        }
        from = d.at + 1;
        v = d.w;
    }
}

// "with bracketed `v:sort` by commas", or without
fn params(toks: &[u16], at: usize, out: &mut [u16], w: usize) -> Option<Step>
    ensures onward { IfSome result (λ r. Onward (length toks.now) at r.at) }
    ensures read { at ≤ length toks.now → Read (left toks.now at) (enc_items enc_param) params toks.now at w out.old result out.new }
{
    if peek(toks, at) != lexer::OPEN {
        return Some(ended(Step { at, w }, out));
    }
    parameters(toks, at + 1, out, w)
}

// "`proc` name, or name with bracketed `v:sort` by commas, `=` a choice"
fn proc_line(toks: &[u16], at: usize, out: &mut [u16], w: usize) -> Option<Step>
    ensures ahead { IfSome result (λ r. Ahead (length toks.now) at r.at) }
    ensures read { Read (5 * length toks.now + 4) enc_proc proc_line toks.now at w out.old result out.new }
{
    let v = put(out, w, codes::PROC_TAG);
    let x = name(toks, at, out, v)?;
    let h = params(toks, x.at, out, x.w)?;
    let e = expect(toks, h.at, lexer::EQUALS)?;
    choice(toks, e, out, h.w)
}

// A name with no bracket behind it.
fn bare(toks: &[u16], at: usize) -> bool
    ensures { (s : List ℕ) → called (cell_token s (get_or toks.now at 0)) (rest s toks.now (at + 1)) ≡ not result }
{
    if peek(toks, at) < lexer::FIRST_NAME {
        return false;
    }
    peek(toks, at + 1) != lexer::OPEN
}

// "no name in its data that lacks brackets", from one place to another
fn all_called(toks: &[u16], from: usize, to: usize) -> bool
    requires { (from ≤ to) × (to ≤ length toks.now) }
    ensures { (s : List ℕ) (ts : List Token) → rest s toks.now from ≡ ts ++ rest s toks.now to → result ≡ all_called ts (rest s toks.now to) }
{
    for i in from..to {
        if bare(toks, i) {
            return false;
        }
    }
    true
}

// "`init` a call, with no name in its data that lacks brackets"
pub fn init_line(toks: &[u16], at: usize, out: &mut [u16], w: usize) -> Option<Step>
    ensures ahead { IfSome result (λ r. Ahead (length toks.now) at r.at) }
    ensures read { Read (5 * length toks.now) enc_init init_line toks.now at w out.old result out.new }
{
    let v = put(out, w, codes::INIT_TAG);
    let a = named(toks, at, out, v)?;
    if !all_called(toks, at + 1, a.at) {
        return None;
    }
    Some(a)
}

// A line of the kind that the word begins, behind the word.
fn line(word: u16, toks: &[u16], at: usize, out: &mut [u16], w: usize) -> Option<Step>
    ensures ahead { IfSome result (λ r. Ahead (length toks.now) at r.at) }
    ensures read { Read (5 * length toks.now + 4) (kind_of word).enc (kind_of word).reader toks.now at w out.old result out.new }
{
    if word == lexer::SORT {
        return sort_line(toks, at, out, w);
    }
    if word == lexer::FUNC {
        return func_line(toks, at, out, w);
    }
    if word == lexer::ACT {
        return act_line(toks, at, out, w);
    }
    proc_line(toks, at, out, w)
}

// Lines that begin with a word; the places of the first ones are kept.
pub fn lines_of(
    word: u16,
    toks: &[u16],
    at: usize,
    out: &mut [u16],
    w: usize,
    places: &mut [u16],
    n: usize,
) -> Option<Run>
    requires { (n ≤ at) × (160 ≤ word) × (word ≤ 163) }
    ensures onward { IfSome result (λ r. Onward (length toks.now) at r.at) }
    ensures read { at ≤ length toks.now → (s : List ℕ) (f g : ℕ) → 5 * length toks.now + 4 < f → left toks.now at < g → Ran s toks.now (kind_of word).enc w out.old n places.old result out.new places.new (G.lines (kind_of word).word ((kind_of word).reader f) g (rest s toks.now at)) }
{
    let mut from = at;
    let mut v = w;
    let mut i = n;
    while peek(toks, from) == word {
        put(places, i, short(v));
        let a = line(word, toks, from + 1, out, v)?;
        from = expect(toks, a.at, lexer::SEMICOLON)?;
        v = a.w;
        i += 1;
    }
    Some(Run {
        at: from,
        w: v,
        count: i,
    })
}
