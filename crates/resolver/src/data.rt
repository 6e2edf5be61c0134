// "In data a name without brackets is a variable in scope, one with brackets a function."
ghost use Rattle.std.specs.Prelude.{◌≤◌, IfSome};
ghost use Rattle.names.specs.NameList.{names_in, kinds_in, KeyedNames};
ghost use Rattle.resolver.specs.Resolving.{Few, ResolvesData, ResolvesConjunction, ResolvesComparison, ResolvesNegation, ResolvesAtom, ResolvesDatas, ResolvesGiven, ResolvesCondition};

use crate::DataRun;
use crate::cells::{put_joins, span};
use crate::operators::equal_cell;
use elements::{peek, short, wide};
use lexer::{FIRST_NAME, FIRST_NUMERAL};
use names::find::scope_number;
use names::keys::func_in;
use parser::Step;
use parser::cells::put;
use parser::codes::{
    ALONE_TAG, APPLY_TAG, BARE_TAG, EQUAL_TAG, FIRST_ANDS, FIRST_ORS, GIVEN_TAG, MORE_TAG,
    NEST_TAG, NOT_TAG, ONE_TAG, VALUE_TAG, VARIABLE_TAG,
};

// The first cells of the operators' terms.
const NOT_CELL: u16 = (4 * nodes::NOT + nodes::FUNCTION) as u16;

const AND_CELL: u16 = (4 * nodes::AND + nodes::FUNCTION) as u16;

const OR_CELL: u16 = (4 * nodes::OR + nodes::FUNCTION) as u16;

// Conjunctions joined by `\/`, which groups to the left.
#[cycle(atom_comparison_conjunction_data_list_data_term_negation)]
pub fn data_term(
    s: &[u8],
    raw: &[u16],
    declared: &[u16],
    scope: &[u16],
    n: usize,
    at: usize,
    out: &mut [u16],
    w: usize,
) -> Option<Step>
    requires { Few raw.now (kinds_in declared.now) scope.now n × KeyedNames s.now declared.now }
    ensures ahead { IfSome result (λ r. at ≤ r.at) }
    ensures resolves { ResolvesData s.now raw.now (names_in declared.now) (kinds_in declared.now) scope.now n at w out.old result out.new }
{
    let k = peek(raw, at);
    if k < FIRST_ORS {
        return None;
    }
    if k >= FIRST_ANDS {
        return None;
    }
    let more = wide(k - FIRST_ORS);
    let mut p = at + 1;
    let mut v = put_joins(out, w, OR_CELL, more);
    for _ in 0..more + 1 {
        let a = conjunction(s, raw, declared, scope, n, p, out, v)?;
        p = a.at;
        v = a.w;
    }
    Some(Step { at: p, w: v })
}

// Comparisons joined by `/\`, which groups to the left. As data_term but for its operands: a reader of them cannot be handed over
// (no function pointers).
#[cycle(atom_comparison_conjunction_data_list_data_term_negation)]
fn conjunction(
    s: &[u8],
    raw: &[u16],
    declared: &[u16],
    scope: &[u16],
    n: usize,
    at: usize,
    out: &mut [u16],
    w: usize,
) -> Option<Step>
    requires { Few raw.now (kinds_in declared.now) scope.now n × KeyedNames s.now declared.now }
    ensures ahead { IfSome result (λ r. at ≤ r.at) }
    ensures resolves { ResolvesConjunction s.now raw.now (names_in declared.now) (kinds_in declared.now) scope.now n at w out.old result out.new }
{
    let k = peek(raw, at);
    if k < FIRST_ANDS {
        return None;
    }
    let more = wide(k - FIRST_ANDS);
    let mut p = at + 1;
    let mut v = put_joins(out, w, AND_CELL, more);
    for _ in 0..more + 1 {
        let a = comparison(s, raw, declared, scope, n, p, out, v)?;
        p = a.at;
        v = a.w;
    }
    Some(Step { at: p, w: v })
}

// A negation, or two with `==`: its cell is put when both stand behind it.
#[cycle(atom_comparison_conjunction_data_list_data_term_negation)]
fn comparison(
    s: &[u8],
    raw: &[u16],
    declared: &[u16],
    scope: &[u16],
    n: usize,
    at: usize,
    out: &mut [u16],
    w: usize,
) -> Option<Step>
    requires { Few raw.now (kinds_in declared.now) scope.now n × KeyedNames s.now declared.now }
    ensures ahead { IfSome result (λ r. at ≤ r.at) }
    ensures resolves { ResolvesComparison s.now raw.now (names_in declared.now) (kinds_in declared.now) scope.now n at w out.old result out.new }
{
    let k = peek(raw, at);
    if k == ALONE_TAG {
        return negation(s, raw, declared, scope, n, at + 1, out, w);
    }
    if k != EQUAL_TAG {
        return None;
    }
    let c = put(out, w, 0);
    let v = put(out, c, 2);
    let a = negation(s, raw, declared, scope, n, at + 1, out, v)?;
    let b = negation(s, raw, declared, scope, n, a.at, out, a.w)?;
    let x = peek(out, v);
    let y = peek(out, a.w);
    put(out, w, equal_cell(scope, x, y));
    Some(b)
}

// An atom behind any number of `!`.
#[cycle(atom_comparison_conjunction_data_list_data_term_negation)]
fn negation(
    s: &[u8],
    raw: &[u16],
    declared: &[u16],
    scope: &[u16],
    n: usize,
    at: usize,
    out: &mut [u16],
    w: usize,
) -> Option<Step>
    requires { Few raw.now (kinds_in declared.now) scope.now n × KeyedNames s.now declared.now }
    ensures ahead { IfSome result (λ r. at ≤ r.at) }
    ensures resolves { ResolvesNegation s.now raw.now (names_in declared.now) (kinds_in declared.now) scope.now n at w out.old result out.new }
{
    let mut p = at;
    let mut v = w;
    while peek(raw, p) == NOT_TAG {
        let a = put(out, v, NOT_CELL);
        v = put(out, a, 1);
        p += 1;
    }
    atom(s, raw, declared, scope, n, p, out, v)
}

// A numeral, a variable, a function with bracketed data, or data in brackets.
#[cycle(atom_comparison_conjunction_data_list_data_term_negation)]
fn atom(
    s: &[u8],
    raw: &[u16],
    declared: &[u16],
    scope: &[u16],
    n: usize,
    at: usize,
    out: &mut [u16],
    w: usize,
) -> Option<Step>
    requires { Few raw.now (kinds_in declared.now) scope.now n × KeyedNames s.now declared.now }
    ensures ahead { IfSome result (λ r. at ≤ r.at) }
    ensures resolves { ResolvesAtom s.now raw.now (names_in declared.now) (kinds_in declared.now) scope.now n at w out.old result out.new }
{
    let k = peek(raw, at);
    if k == NEST_TAG {
        return data_term(s, raw, declared, scope, n, at + 1, out, w);
    }
    if k == VALUE_TAG {
        let c = peek(raw, at + 1);
        if c < FIRST_NUMERAL {
            return None;
        }
        if c >= FIRST_NAME {
            return None;
        }
        return Some(Step {
            at: at + 2,
            w: put(out, w, (c - FIRST_NUMERAL) * 4),
        });
    }
    if k == VARIABLE_TAG {
        let i = scope_number(s, scope, n, peek(raw, at + 1))?;
        return Some(Step {
            at: at + 2,
            w: put(out, w, short(4 * i + 1)),
        });
    }
    if k != APPLY_TAG {
        return None;
    }
    let f = func_in(s, declared, peek(raw, at + 1))?;
    let v = put(out, w, short(4 * f + 2));
    let d = put(out, v, 0);
    let l = data_list(s, raw, declared, scope, n, at + 2, out, d)?;
    put(out, v, short(l.count));
    Some(Step { at: l.at, w: l.w })
}

// Data of a list, one behind another, and how many they are.
#[cycle(atom_comparison_conjunction_data_list_data_term_negation)]
pub fn data_list(
    s: &[u8],
    raw: &[u16],
    declared: &[u16],
    scope: &[u16],
    n: usize,
    at: usize,
    out: &mut [u16],
    w: usize,
) -> Option<DataRun>
    requires { Few raw.now (kinds_in declared.now) scope.now n × KeyedNames s.now declared.now }
    ensures ahead { IfSome result (λ r. at ≤ r.at) }
    ensures resolves { ResolvesDatas s.now raw.now (names_in declared.now) (kinds_in declared.now) scope.now n at w out.old result out.new }
{
    let mut p = at;
    let mut v = w;
    let mut count: usize = 0;
    while peek(raw, p) == MORE_TAG {
        let a = data_term(s, raw, declared, scope, n, p + 1, out, v)?;
        p = a.at;
        v = a.w;
        count += 1;
    }
    if peek(raw, p) != ONE_TAG {
        return None;
    }
    let b = data_term(s, raw, declared, scope, n, p + 1, out, v)?;
    Some(DataRun {
        at: b.at,
        w: b.w,
        count: count + 1,
    })
}

// The data given to the name at `at`: how many cells they take, how many they are, and they.
pub fn given(
    s: &[u8],
    raw: &[u16],
    declared: &[u16],
    scope: &[u16],
    n: usize,
    at: usize,
    out: &mut [u16],
    w: usize,
) -> Option<Step>
    requires { Few raw.now (kinds_in declared.now) scope.now n × KeyedNames s.now declared.now }
    ensures ahead { IfSome result (λ r. at ≤ r.at) }
    ensures resolves { ResolvesGiven s.now raw.now (names_in declared.now) (kinds_in declared.now) scope.now n at w out.old result out.new }
{
    let k = peek(raw, at);
    let c = put(out, w, 0);
    let v = put(out, c, 0);
    if k == BARE_TAG {
        return Some(Step { at: at + 2, w: v });
    }
    if k != GIVEN_TAG {
        return None;
    }
    let l = data_list(s, raw, declared, scope, n, at + 2, out, v)?;
    put(out, c, short(l.count));
    put(out, w, span(v, l.w));
    Some(Step { at: l.at, w: l.w })
}

// A condition: how many cells it takes, that it is one data term, and it.
pub fn condition(
    s: &[u8],
    raw: &[u16],
    declared: &[u16],
    scope: &[u16],
    n: usize,
    at: usize,
    out: &mut [u16],
    w: usize,
) -> Option<Step>
    requires { Few raw.now (kinds_in declared.now) scope.now n × KeyedNames s.now declared.now }
    ensures { ResolvesCondition s.now raw.now (names_in declared.now) (kinds_in declared.now) scope.now n at w out.old result out.new }
{
    let c = put(out, w, 0);
    let v = put(out, c, 1);
    let d = data_term(s, raw, declared, scope, n, at, out, v)?;
    put(out, w, span(v, d.w));
    Some(d)
}
