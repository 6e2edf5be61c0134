// A right side and init, as the layers above ask for them.
ghost use Rattle.std.specs.Prelude.{◌<◌, length};
ghost use Rattle.names.specs.NameList.{names_in, kinds_in, KeyedNames};
ghost use Rattle.resolver.specs.Sorting.{ScopeKept};
ghost use Rattle.resolver.specs.Resolving.{Few, ResolvesRight, ResolvesInit};

use crate::cells::first_cell;
use crate::data::given;
use crate::process::term;
use elements::peek;
use names::keys::proc_in;
use nodes::CALL;
use parser::Step;
use parser::cells::put;

// The right side of a process at `at`, with n names in scope: the place behind it and the next free cell, if every name is as it must be.
pub fn right_side(
    s: &[u8],
    raw: &[u16],
    declared: &[u16],
    scope: &mut [u16],
    n: usize,
    at: usize,
    out: &mut [u16],
    w: usize,
) -> Option<Step>
    requires { Few raw.now (kinds_in declared.now) scope.old n × KeyedNames s.now declared.now }
    ensures kept { ScopeKept n scope.old scope.new }
    ensures resolves { ResolvesRight s.now raw.now (names_in declared.now) (kinds_in declared.now) scope.old n at w out.old result out.new }
{
    let from = Step { at, w };
    term(s, raw, declared, scope, n, from, false, out)
}

// The same of the call of init, whose line stands at `at`; nothing is in scope.
pub fn init(
    s: &[u8],
    raw: &[u16],
    declared: &[u16],
    scope: &[u16],
    at: usize,
    out: &mut [u16],
    w: usize,
) -> Option<Step>
    requires { Few raw.now (kinds_in declared.now) scope.now 0 × (at < length raw.now) × KeyedNames s.now declared.now }
    ensures { ResolvesInit s.now raw.now (names_in declared.now) (kinds_in declared.now) scope.now at w out.old result out.new }
{
    let k = proc_in(s, declared, peek(raw, at + 2))?;
    let v = put(out, w, first_cell(k, false, CALL));
    given(s, raw, declared, scope, 0, at + 1, out, v)
}
