#![tactic(auto)]
// A summand in the stream is opened: the sizes of its variables' sorts, and its conditions.
ghost use Rattle.std.specs.Prelude.{◌≡◌, List, ◌++◌, ℕ, ◌+◌, ◌≤◌, ◌<◌, length, get_or, drop};
ghost use Rattle.pcrl.specs.Limits.{max_size, max_stream, max_variables, max_conditions};
ghost use Rattle.pcrl.specs.Tests.{Every};
ghost use Rattle.pcrl.specs.Sheet.{Data, Sig};
ghost use Rattle.pcrl.specs.Stream.{variable_code, encode_numbers, encode_list, encode_cond};
ghost use Rattle.pcrl.specs.Right.{AreSorts, RightCond};
ghost use Rattle.terms.specs.Stands.{Stands};
ghost use Rattle.evaluation.specs.Known.{KnownTerms};
ghost use Rattle.assignments.specs.Places.{Sizes};
ghost use Rattle.opening.specs.Opened.{sizes_of, Prepared};

use assignments::in_rows::narrow;
use assignments::{Conditions, PerSum};
use elements::{peek, wide};
use limits::{MAX_CONDITIONS, VARIABLES};
use terms::size_of;

const SIZE: u8 = limits::MAX_SIZE as u8;

// The size of the sort of variable i of the summand at a place, 1 where there is no variable.
fn size_at(s: &[u8], funcs: &[u16], at: usize, i: usize) -> u8
    requires { (at ≤ max_stream + max_stream) × (i < max_variables) }
    ensures { (0 < result) × ((result ≤ max_size) × ((S : Sig) (vars : List ℕ) → KnownTerms S s.now funcs.now → Stands s.now at (encode_numbers vars) → AreSorts S.sorts vars → length vars ≤ max_variables → result ≡ get_or (sizes_of S vars) i 0)) }
{
    if wide(peek(s, at)) <= i {
        return 1;
    }
    let z = size_of(funcs, peek(s, at + 1 + i));
    if z == 0 {
        return 1;
    }
    if SIZE < z {
        return 1;
    }
    z
}

// The sizes of the sorts of the variables.
pub fn sizes(s: &[u8], funcs: &[u16], at: usize) -> PerSum
    requires { at ≤ max_stream + max_stream }
    ensures { Sizes result.at × ((S : Sig) (vars : List ℕ) → KnownTerms S s.now funcs.now → Stands s.now at (encode_numbers vars) → AreSorts S.sorts vars → length vars ≤ max_variables → result.at ≡ sizes_of S vars) }
{
    let v = [
        size_at(s, funcs, at, 0),
        size_at(s, funcs, at, 1),
        size_at(s, funcs, at, 2),
        size_at(s, funcs, at, 3),
    ];
    PerSum { at: v }
}

// The conditions whose count stands at a place, where p variables are parameters.
pub fn conditions(s: &[u8], funcs: &[u16], at: usize, p: usize, z: PerSum) -> Conditions
    requires { (length s.now ≤ max_stream) × ((at ≤ max_stream + max_stream) × Sizes z.at) }
    ensures { (result.count ≤ max_conditions) × ((result.end ≤ max_stream + max_stream + 16) × ((S : Sig) (Γ : List ℕ) (cs : List (ℕ × Data)) (rest : List ℕ) → KnownTerms S s.now funcs.now → length Γ ≤ variable_code → Every (RightCond S Γ) cs → length cs ≤ max_conditions → drop at s.now ≡ encode_list encode_cond cs ++ rest → Prepared s.now p z.at cs rest result)) }
{
    let n = wide(peek(s, at)).min(MAX_CONDITIONS);
    let mut froms = [0usize; MAX_CONDITIONS];
    let mut ends = [0usize; MAX_CONDITIONS];
    let mut blocks = [0u32; MAX_CONDITIONS];
    let mut reach: usize = 0;
    let mut low: usize = VARIABLES;
    let mut a = at + 1;
    for i in 0..n {
        let b = a + 1;
        let end = evaluation::skip(s, funcs, b, 1);
        let v = evaluation::variables(s, b, end, p);
        froms[i] = a;
        ends[i] = end;
        blocks[i] = narrow(assignments::grain(z, v.high, p));
        reach = reach.max(v.high);
        low = low.min(v.low);
        a = end;
    }
    Conditions {
        froms: froms,
        ends: ends,
        blocks: blocks,
        count: n,
        reach: reach,
        low: low,
        end: a,
    }
}
