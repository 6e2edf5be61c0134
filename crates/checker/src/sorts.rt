// Question 8: counts of arguments, sorts, numerals, function values.
ghost use Rattle.std.specs.Prelude.{◌≡◌, ◌*◌, ◌≤◌, ◌<◌, length};
ghost use Rattle.pcrl.specs.Limits.{max_processes};
ghost use Rattle.nodes.specs.Layout.{cell_limit};
ghost use Rattle.nodes.specs.Scoped.{max_scope};
ghost use Rattle.nodes.specs.Held.{proc_width};
ghost use Rattle.checker.specs.Sorts.{ParamsInScope, ProcessesSay, SheetSays};

use crate::functions::functions_complete;
use crate::terms::term_right;
use elements::cell;
use limits::{FRAME_WIDTH, MAX_FUNCTIONS, MAX_PROCESSES};
use nodes::{MAX_SCOPE, Outline, PROC_ROW};

// The parameters of process k in scope.
fn params_of(procs: &[u8], k: usize) -> [u16; MAX_SCOPE]
    requires { k < cell_limit }
    ensures sorts_len { length result ≡ max_scope }
    ensures params_in_scope { ParamsInScope procs.now (proc_width * k) result }
{
    let mut sorts = [0u16; MAX_SCOPE];
    let start = PROC_ROW * k;
    for i in 0..FRAME_WIDTH {
        sorts[i] = cell(procs, start + 1 + i) as u16;
    }
    sorts
}

// Is every right side rightly sorted, with its parameters in scope?
fn processes_right(
    cells: &[u16],
    starts: &[u16],
    sizes: &[u8],
    funcs: &[u8],
    acts: &[u8],
    procs: &[u8],
    n: Outline,
) -> bool
    requires { n.procs ≤ max_processes }
    ensures { ProcessesSay cells.now starts.now sizes.now funcs.now acts.now procs.now n result }
{
    for k in 0..n.procs {
        let at = cell(starts, k);
        let scope = params_of(procs, k);
        if !term_right(cells, at, scope, sizes, funcs, acts, procs, n) {
            return false;
        }
    }
    true
}

// 8: "Argument counts and sorts right, conditions Bool, numerals below their sort's size, function values complete and in range?"
pub fn rightly_sorted(
    sizes: &[u8],
    funcs: &[u8],
    values: &[u8],
    places: &[u16],
    acts: &[u8],
    procs: &[u8],
    cells: &[u16],
    starts: &[u16],
    n: Outline,
) -> bool
    ensures { SheetSays sizes.now funcs.now values.now places.now acts.now procs.now cells.now starts.now n result }
{
    if n.funcs > MAX_FUNCTIONS {
        return false;
    }
    if n.procs > MAX_PROCESSES {
        return false;
    }
    if !functions_complete(funcs, values, places, sizes, n) {
        return false;
    }
    if !processes_right(cells, starts, sizes, funcs, acts, procs, n) {
        return false;
    }
    let none = [0u16; MAX_SCOPE];
    term_right(cells, n.init, none, sizes, funcs, acts, procs, n)
}
