// "Every declared name new (Bool is taken), each variable unlike all declared names and all variables in scope."
ghost use Rattle.std.specs.Prelude.{◌≡◌, List, ◌∷◌, ◌++◌, map, ℕ, ◌+◌, ◌≤◌, length, take};
ghost use Rattle.pcrl.specs.Text.{bytes};
ghost use Rattle.pcrl.specs.Tests.{and, negated, among, distinct};
ghost use Rattle.names.specs.NameCells.{name_at, name_cell, names_at, scope_at};
ghost use Rattle.names.specs.NameKinds.{total_of};
ghost use Rattle.names.specs.NameList.{names_in, kinds_in, KeyedNames};

use crate::find::{is_bool, scope_number};
use crate::keys::{number_in, total};
use elements::{peek, wide};

// The cells of the names that lines declare, behind n cells.
fn gather(cells: &[u16], places: &[u16], names: &mut [u16], n: usize) -> usize
    requires { n + length places.now ≤ length names.old }
    ensures next { result ≡ n + length places.now }
    ensures cells { take result names.new ≡ take n names.old ++ map (name_cell cells.now) places.now }
{
    for i in 0..places.len() {
        names[n + i] = peek(cells, wide(places[i]) + 1);
    }
    n + places.len()
}

// The cells of all declared names, but for Bool.
pub fn declared_names(
    cells: &[u16],
    sorts: &[u16],
    funcs: &[u16],
    acts: &[u16],
    procs: &[u16],
    names: &mut [u16],
) -> usize
    requires { length sorts.now + (length funcs.now + (length acts.now + length procs.now)) ≤ length names.old }
    ensures most { result ≤ length names.new }
    ensures names { (s : List ℕ) → scope_at s names.new result
        ≡ names_at s cells.now sorts.now (length sorts.now)
        ++ (names_at s cells.now funcs.now (length funcs.now)
        ++ (names_at s cells.now acts.now (length acts.now)
        ++ names_at s cells.now procs.now (length procs.now))) }
{
    let a = gather(cells, sorts, names, 0);
    let b = gather(cells, funcs, names, a);
    let c = gather(cells, acts, names, b);
    gather(cells, procs, names, c)
}

// "Every declared name new (Bool is taken)."
pub fn all_new(s: &[u8], declared: &[u16]) -> bool
    requires { KeyedNames s.now declared.now }
    ensures { result ≡ distinct (bytes "Bool" ∷ scope_at s.now (names_in declared.now) (total_of (kinds_in declared.now))) }
{
    let n = total(declared);
    for i in 0..n {
        let c = declared[i];
        if is_bool(s, c) {
            return false;
        }
        let left = n - i - 1;
        if number_in(s, declared, i + 1, left, c).is_some() {
            return false;
        }
    }
    true
}

// A variable unlike Bool, the other declared names and the k variables in scope.
pub fn new_variable(s: &[u8], declared: &[u16], scope: &[u16], k: usize, c: u16) -> bool
    requires { KeyedNames s.now declared.now × (k ≤ length scope.now) }
    ensures { result ≡ and (negated (among (name_at s.now c) (bytes "Bool" ∷ scope_at s.now (names_in declared.now) (total_of (kinds_in declared.now)))))
        (negated (among (name_at s.now c) (scope_at s.now scope.now k))) }
{
    if is_bool(s, c) {
        return false;
    }
    let n = total(declared);
    if number_in(s, declared, 0, n, c).is_some() {
        return false;
    }
    scope_number(s, scope, k, c).is_none()
}
