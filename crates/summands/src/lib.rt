#![tactic(auto)]
// The summands of a table's stream: each function says where its piece ends.
ghost use Rattle.std.specs.Prelude.{◌≡◌, List, ◌++◌, ℕ, ◌+◌, ◌≤◌, ◌<◌, length, drop, OnSome};
ghost use Rattle.pcrl.specs.Limits.{max_variables, max_conditions, max_calls, frame_width};
ghost use Rattle.pcrl.specs.Tests.{at_most?};
ghost use Rattle.pcrl.specs.Sheet.{Sig};
ghost use Rattle.pcrl.specs.Reader.{counted};
ghost use Rattle.pcrl.specs.Decode.{read_cond, read_call, read_summand, read_summands};
ghost use Rattle.terms.specs.Stands.{KnownData, KnownActs, KnownParams};
ghost use Rattle.terms.specs.Ends.{rests, ended};
ghost use Rattle.summands.specs.Parts.{read_label, read_body};

use elements::{cell, peek, wide};
use limits::{FRAME_WIDTH, MAX_CALLS, MAX_CONDITIONS, MAX_SUMMANDS, TAU, VARIABLES};

// Per summand.
const SUMS: u8 = limits::MAX_VARIABLES as u8;

// A condition: the wanted value and a term of Bool.
fn read_cond(s: &[u8], sizes: &[u8], funcs: &[u16], scope: &[u8], at: usize) -> Option<usize>
    ensures { (S : Sig) → KnownData S s.now sizes.now funcs.now → rests (read_cond S scope.now (drop at s.now)) ≡ ended s.now result }
{
    terms::number_at(s, at, 0, 2)?;
    terms::read_term(s, sizes, funcs, scope, at + 1, 0)
}

// The conditions of a summand, behind their count. Calls and summands below are read alike, each by its own reader: one function for all
// three would take the reader as a closure, which the C library's code may not call.
fn read_conds(s: &[u8], sizes: &[u8], funcs: &[u16], scope: &[u8], at: usize) -> Option<usize>
    ensures { (S : Sig) → KnownData S s.now sizes.now funcs.now → rests (counted (at_most? max_conditions) (read_cond S scope.now) (drop at s.now)) ≡ ended s.now result }
{
    let n = terms::number_at(s, at, 0, MAX_CONDITIONS + 1)?;
    let mut i = at + 1;
    for _ in 0..n {
        i = read_cond(s, sizes, funcs, scope, i)?;
    }
    Some(i)
}

// A call: an equation and a term for each of its parameters.
fn read_call(
    s: &[u8],
    sizes: &[u8],
    funcs: &[u16],
    params: &[u16],
    scope: &[u8],
    at: usize,
) -> Option<usize>
    ensures { (S : Sig) (Ps : List (List ℕ)) → KnownData S s.now sizes.now funcs.now → KnownParams Ps s.now params.now → rests (read_call S Ps scope.now (drop at s.now)) ≡ ended s.now result }
{
    let e = terms::number_at(s, at, 0, params.len())?;
    let sorts = terms::list_at(s, cell(params, e));
    terms::read_terms(s, sizes, funcs, scope, sorts, at + 1)
}

// The calls of a summand, behind their count.
fn read_calls(
    s: &[u8],
    sizes: &[u8],
    funcs: &[u16],
    params: &[u16],
    scope: &[u8],
    at: usize,
) -> Option<usize>
    ensures { (S : Sig) (Ps : List (List ℕ)) → KnownData S s.now sizes.now funcs.now → KnownParams Ps s.now params.now → rests (counted (at_most? max_calls) (read_call S Ps scope.now) (drop at s.now)) ≡ ended s.now result }
{
    let n = terms::number_at(s, at, 0, MAX_CALLS + 1)?;
    let mut i = at + 1;
    for _ in 0..n {
        i = read_call(s, sizes, funcs, params, scope, i)?;
    }
    Some(i)
}

// An action or tau, and a term for each of its sorts, which stand behind the action's name.
fn read_label(
    s: &[u8],
    sizes: &[u8],
    funcs: &[u16],
    acts: &[u16],
    scope: &[u8],
    at: usize,
) -> Option<usize>
    ensures { (S : Sig) → KnownData S s.now sizes.now funcs.now → KnownActs S s.now acts.now → rests (read_label S scope.now (drop at s.now)) ≡ ended s.now result }
{
    if s.len() <= at {
        return None;
    }
    if s[at] == TAU {
        return Some(at + 1);
    }
    let a = terms::number_at(s, at, 0, acts.len())?;
    let p = cell(acts, a);
    let sorts = terms::list_at(s, p + 1 + wide(peek(s, p)));
    terms::read_terms(s, sizes, funcs, scope, sorts, at + 1)
}

// What stands behind the variables of a summand: conditions, label, calls.
fn read_body(
    s: &[u8],
    sizes: &[u8],
    funcs: &[u16],
    acts: &[u16],
    params: &[u16],
    scope: &[u8],
    at: usize,
) -> Option<usize>
    ensures { (S : Sig) (Ps : List (List ℕ)) → KnownData S s.now sizes.now funcs.now → KnownActs S s.now acts.now → KnownParams Ps s.now params.now → rests (read_body S Ps scope.now (drop at s.now)) ≡ ended s.now result }
{
    let label = read_conds(s, sizes, funcs, scope, at)?;
    let calls = read_label(s, sizes, funcs, acts, scope, label)?;
    read_calls(s, sizes, funcs, params, scope, calls)
}

// A summand of an equation with the parameters own.
fn read_summand(
    s: &[u8],
    sizes: &[u8],
    funcs: &[u16],
    acts: &[u16],
    params: &[u16],
    own: &[u8],
    at: usize,
) -> Option<usize>
    ensures { (S : Sig) (Ps : List (List ℕ)) → KnownData S s.now sizes.now funcs.now → KnownActs S s.now acts.now → KnownParams Ps s.now params.now → length own.now ≤ frame_width → rests (read_summand S Ps own.now (drop at s.now)) ≡ ended s.now result }
{
    if FRAME_WIDTH < own.len() {
        return None;
    }
    let body = terms::read_list(s, at, 0, SUMS, 0, sizes.len())?;
    let variables = &s[at + 1..body];
    let mut sorts = [0u8; VARIABLES];
    let n = own.len();
    let scope = n + variables.len();
    sorts[..n].copy_from_slice(own);
    sorts[n..scope].copy_from_slice(variables);
    read_body(s, sizes, funcs, acts, params, &sorts[..scope], body)
}

// The summands of an equation with the parameters own.
pub fn read_summands(
    s: &[u8],
    sizes: &[u8],
    funcs: &[u16],
    acts: &[u16],
    params: &[u16],
    own: &[u8],
    at: usize,
) -> Option<usize>
    ensures { ((S : Sig) (Ps : List (List ℕ)) → KnownData S s.now sizes.now funcs.now → KnownActs S s.now acts.now → KnownParams Ps s.now params.now → length own.now ≤ frame_width → rests (read_summands S Ps own.now (drop at s.now)) ≡ ended s.now result) × OnSome result (at < length s.now) }
{
    let n = terms::number_at(s, at, 0, MAX_SUMMANDS + 1)?;
    let mut i = at + 1;
    for _ in 0..n {
        i = read_summand(s, sizes, funcs, acts, params, own, i)?;
    }
    Some(i)
}
