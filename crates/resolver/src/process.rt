// Choices, conditionals, sequences and parts, as one kind of term: what stands last in a term is read by going on in the loop,
// what stands first by recursion. So a chain of `.` or `+` takes no stack, only brackets do.
ghost use Rattle.std.specs.Prelude.{◌≤◌, ◌<◌, IfSome, length};
ghost use Rattle.pcrl.specs.Limits.{max_actions, max_processes};
ghost use Rattle.pcrl.specs.Names.{number_of};
ghost use Rattle.names.specs.NameCells.{name_at};
ghost use Rattle.names.specs.NameKinds.{acts_in, procs_in};
ghost use Rattle.names.specs.NameList.{names_in, kinds_in, KeyedNames};
ghost use Rattle.resolver.specs.Sorting.{ScopeKept};
ghost use Rattle.resolver.specs.Resolving.{Few, Naming, InScope, Binds, ResolvesConstant, ResolvesNamed, Forks, ResolvesFirst, ResolvesTerm};

use crate::cells::{first_cell, kids, node, skip, tokens};
use crate::data::{condition, given};
use crate::{FIRST_SORT, Fork};
use elements::{cell, peek, short};
use names::ACT_COUNT;
use names::fresh::new_variable;
use names::keys::{part_in, sort_in};
use nodes::{ALT, ATOM, CALL, COND, DELTA, MAX_SCOPE, SEQ, SUM};
use parser::Step;
use parser::cells::put;
use parser::codes::{DELTA_TAG, PLUS_TAG, SUM_TAG, TAU_TAG, THEN_TAG};

// "As a part a name is an action or a process": the first cell of its node, if the name is known.
fn named(s: &[u8], declared: &[u16], x: u16, after: bool) -> Option<u16>
    requires { ((kinds_in declared.now).acts ≤ max_actions) × ((kinds_in declared.now).procs ≤ max_processes) × KeyedNames s.now declared.now }
    ensures { Naming after (number_of (name_at s.now x) (acts_in s.now (names_in declared.now) (kinds_in declared.now))) (number_of (name_at s.now x) (procs_in s.now (names_in declared.now) (kinds_in declared.now))) result }
{
    let acts = cell(declared, ACT_COUNT);
    let i = part_in(s, declared, x)?;
    if i < acts {
        return Some(first_cell(i + 1, after, ATOM));
    }
    Some(first_cell(i - acts, false, CALL))
}

// `sum(v:sort,`: the variable comes into scope with the next number, and its sort.
fn binder(
    s: &[u8],
    raw: &[u16],
    declared: &[u16],
    scope: &mut [u16],
    n: usize,
    from: Step,
    after: bool,
    out: &mut [u16],
) -> Option<Step>
    requires { Few raw.now (kinds_in declared.now) scope.old n × (from.at < length raw.now) × KeyedNames s.now declared.now }
    ensures ahead { IfSome result (λ r. from.at < r.at) }
    ensures kept { ScopeKept n scope.old scope.new }
    ensures bound { InScope s.now raw.now (names_in declared.now) (kinds_in declared.now) scope.old n from.at result scope.new }
    ensures binds { Binds s.now raw.now (names_in declared.now) (kinds_in declared.now) scope.old n from.at after from.w out.old result out.new }
{
    let x = peek(raw, from.at + 1);
    if !new_variable(s, declared, scope, n, x) {
        return None;
    }
    let d = sort_in(s, declared, peek(raw, from.at + 2))?;
    if n >= MAX_SCOPE {
        return None;
    }
    scope[n] = x;
    scope[FIRST_SORT + n] = short(d);
    let v = node(out, from.w, first_cell(d, after, SUM), 1, 1);
    Some(Step {
        at: from.at + 3,
        w: put(out, v, short(4 * n + 1)),
    })
}

// delta or tau
fn constant(raw: &[u16], at: usize, after: bool, out: &mut [u16], w: usize) -> Option<Step>
    requires { at < length raw.now }
    ensures ahead { IfSome result (λ r. at ≤ r.at) }
    ensures resolves { ResolvesConstant raw.now at after w out.old result out.new }
{
    let k = peek(raw, at);
    if k == DELTA_TAG {
        return Some(Step {
            at: at + 1,
            w: node(out, w, first_cell(0, after, DELTA), 0, 0),
        });
    }
    if k == TAU_TAG {
        return Some(Step {
            at: at + 1,
            w: node(out, w, first_cell(0, after, ATOM), 0, 0),
        });
    }
    None
}

// The node of a `+`, a `.` or a conditional, whose condition stands behind the first part and is resolved before it.
fn fork(
    s: &[u8],
    raw: &[u16],
    declared: &[u16],
    scope: &[u16],
    n: usize,
    from: Step,
    after: bool,
    out: &mut [u16],
) -> Option<Fork>
    requires { Few raw.now (kinds_in declared.now) scope.now n × (from.at < length raw.now) × KeyedNames s.now declared.now }
    ensures { Forks s.now raw.now (names_in declared.now) (kinds_in declared.now) scope.now n from.at after from.w out.old result out.new }
{
    let k = peek(raw, from.at);
    if k == THEN_TAG {
        return Some(Fork {
            at: from.at,
            w: node(out, from.w, first_cell(0, false, SEQ), 0, 0),
            left: after,
        });
    }
    if k == PLUS_TAG {
        return Some(Fork {
            at: from.at,
            w: node(out, from.w, first_cell(0, after, ALT), 0, 0),
            left: false,
        });
    }
    let v = put(out, from.w, first_cell(0, after, COND));
    let d = condition(s, raw, declared, scope, n, skip(raw, from.at + 1), out, v)?;
    Some(Fork {
        at: d.at,
        w: d.w,
        left: false,
    })
}

// A name, and the data given to it.
fn named_part(
    s: &[u8],
    raw: &[u16],
    declared: &[u16],
    scope: &[u16],
    n: usize,
    from: Step,
    after: bool,
    out: &mut [u16],
) -> Option<Step>
    requires { Few raw.now (kinds_in declared.now) scope.now n × (from.at < length raw.now) × KeyedNames s.now declared.now }
    ensures ahead { IfSome result (λ r. from.at ≤ r.at) }
    ensures resolves { ResolvesNamed s.now raw.now (names_in declared.now) (kinds_in declared.now) scope.now n from.at after from.w out.old result out.new }
{
    let first = named(s, declared, peek(raw, from.at + 1), after)?;
    let v = put(out, from.w, first);
    given(s, raw, declared, scope, n, from.at, out, v)
}

// A `+`, a `.` or a conditional, up to its second part.
#[cycle(first_part_term)]
fn first_part(
    s: &[u8],
    raw: &[u16],
    declared: &[u16],
    scope: &mut [u16],
    n: usize,
    from: Step,
    after: bool,
    out: &mut [u16],
) -> Option<Step>
    requires { Few raw.now (kinds_in declared.now) scope.old n × (from.at < length raw.now) × KeyedNames s.now declared.now }
    ensures ahead { IfSome result (λ r. from.at < r.at) }
    ensures kept { ScopeKept n scope.old scope.new }
    ensures resolves { ResolvesFirst s.now raw.now (names_in declared.now) (kinds_in declared.now) scope.old n from.at after from.w out.old result out.new }
{
    let h = fork(s, raw, declared, scope, n, from, after, out)?;
    let next = Step {
        at: from.at + 1,
        w: h.w,
    };
    let a = term(s, raw, declared, scope, n, next, h.left, out)?;
    // the second part stands behind the condition, if there is one
    if a.at < h.at {
        return Some(Step { at: h.at, w: a.w });
    }
    Some(a)
}

// A choice, conditional, sequence or part at `from.at`, with n names in scope; whether it stands after a first part.
#[cycle(first_part_term)]
pub fn term(
    s: &[u8],
    raw: &[u16],
    declared: &[u16],
    scope: &mut [u16],
    n: usize,
    from: Step,
    after: bool,
    out: &mut [u16],
) -> Option<Step>
    requires { Few raw.now (kinds_in declared.now) scope.old n × KeyedNames s.now declared.now }
    ensures ahead { IfSome result (λ r. from.at ≤ r.at) }
    ensures kept { ScopeKept n scope.old scope.new }
    ensures resolves { ResolvesTerm s.now raw.now (names_in declared.now) (kinds_in declared.now) scope.old n from.at after from.w out.old result out.new }
{
    let mut p = from.at;
    let mut m = n;
    let mut r = after;
    let mut v = from.w;
    while p < raw.len() {
        let k = peek(raw, p);
        if k == SUM_TAG {
            let b = binder(s, raw, declared, scope, m, Step { at: p, w: v }, r, out)?;
            p = b.at;
            m += 1;
            r = false;
            v = b.w;
            continue;
        }
        if tokens(k) > 0 {
            return named_part(s, raw, declared, scope, m, Step { at: p, w: v }, r, out);
        }
        let f = kids(k);
        // delta or tau; one subterm, a bracket's or the last of a chain; two parts
        if f == 0 {
            return constant(raw, p, r, out, v);
        }
        if f == 1 {
            p += 1;
            continue;
        }
        let h = first_part(s, raw, declared, scope, m, Step { at: p, w: v }, r, out)?;
        p = h.at;
        r = k == THEN_TAG;
        v = h.w;
    }
    None
}
