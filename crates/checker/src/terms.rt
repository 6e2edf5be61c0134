// Process terms and their sorts: a loop over the nodes. One array holds the sorts of the variables in scope.
ghost use Rattle.std.specs.Prelude.{◌≡◌, List, ℕ, ◌<◌, length};
ghost use Rattle.nodes.specs.Layout.{cell_limit};
ghost use Rattle.nodes.specs.Scoped.{max_scope};
ghost use Rattle.checker.specs.Sorts.{AtomSays, CallSays, CondSays, NodeSays, Binds, TermSays};

use crate::arguments::{Given, all_fit, arguments_right, fits};
use elements::cell;
use limits::BOOL;
use nodes::{ACT_ROW, ATOM, CALL, COND, MAX_SCOPE, Node, Outline, PROC_ROW, SUM, node_at};

// An action with as many data as it takes, each of its sort; tau takes none.
pub fn atom_right(
    cells: &[u16],
    d: Node,
    scope: &[u16],
    sizes: &[u8],
    funcs: &[u8],
    acts: &[u8],
    n: Outline,
) -> bool
    requires { (d.number < cell_limit) × (d.datas < cell_limit) }
    ensures { (procs : List ℕ) → AtomSays cells.now scope.now sizes.now funcs.now acts.now procs n d result }
{
    if d.number == 0 {
        return d.datas == 0;
    }
    let a = d.number - 1;
    if a >= n.acts {
        return false;
    }
    let given = Given {
        at: d.terms,
        count: d.datas,
    };
    arguments_right(cells, given, acts, ACT_ROW * a, scope, sizes, funcs, n)
}

// A call of a written process, with data of the sorts of its parameters.
pub fn call_right(
    cells: &[u16],
    d: Node,
    scope: &[u16],
    sizes: &[u8],
    funcs: &[u8],
    procs: &[u8],
    n: Outline,
) -> bool
    requires { (d.number < cell_limit) × (d.datas < cell_limit) }
    ensures { (acts : List ℕ) → CallSays cells.now scope.now sizes.now funcs.now acts procs.now n d result }
{
    if d.number >= n.procs {
        return false;
    }
    let given = Given {
        at: d.terms,
        count: d.datas,
    };
    arguments_right(
        cells,
        given,
        procs,
        PROC_ROW * d.number,
        scope,
        sizes,
        funcs,
        n,
    )
}

// "conditions Bool"
pub fn cond_right(
    cells: &[u16],
    d: Node,
    scope: &[u16],
    sizes: &[u8],
    funcs: &[u8],
    n: Outline,
) -> bool
    requires { d.datas < cell_limit }
    ensures { (acts procs : List ℕ) → CondSays cells.now scope.now sizes.now funcs.now acts procs n d result }
{
    if !fits(cells, d.terms, BOOL, scope, sizes, funcs, n) {
        return false;
    }
    let given = Given {
        at: d.terms,
        count: d.datas,
    };
    all_fit(cells, given, scope, sizes, funcs, n)
}

// Is one node of a process term right?
pub fn node_right(
    cells: &[u16],
    d: Node,
    scope: &[u16],
    sizes: &[u8],
    funcs: &[u8],
    acts: &[u8],
    procs: &[u8],
    n: Outline,
) -> bool
    requires { (d.number < cell_limit) × (d.datas < cell_limit) }
    ensures { NodeSays cells.now scope.now sizes.now funcs.now acts.now procs.now n d result }
{
    if d.kind == ATOM {
        return atom_right(cells, d, scope, sizes, funcs, acts, n);
    }
    if d.kind == CALL {
        return call_right(cells, d, scope, sizes, funcs, procs, n);
    }
    if d.kind == COND {
        return cond_right(cells, d, scope, sizes, funcs, n);
    }
    if d.kind == SUM {
        return d.number < n.sorts;
    }
    true
}

// A sum binds the next variable. Those of the terms still to come have lower numbers.
pub fn bind(cells: &[u16], d: Node, scope: &mut [u16])
    requires { (d.number < cell_limit) × (length scope.old ≡ max_scope) }
    ensures { Binds cells.now d scope.old scope.new }
{
    if d.kind != SUM {
        return;
    }
    let x = cell(cells, d.terms) / 4;
    if x >= MAX_SCOPE {
        return;
    }
    scope[x] = d.number as u16;
}

// Is a process term rightly sorted? At the start the variables in scope have these sorts, by their numbers.
pub fn term_right(
    cells: &[u16],
    at: usize,
    start: [u16; MAX_SCOPE],
    sizes: &[u8],
    funcs: &[u8],
    acts: &[u8],
    procs: &[u8],
    n: Outline,
) -> bool
    requires { length start ≡ max_scope }
    ensures { TermSays cells.now at start sizes.now funcs.now acts.now procs.now n result }
{
    let mut scope = start;
    let mut p = at;
    let mut need: usize = 1;
    while need > 0 {
        if p >= cells.len() {
            return false;
        }
        let d = node_at(cells, p);
        if !node_right(cells, d, &scope, sizes, funcs, acts, procs, n) {
            return false;
        }
        bind(cells, d, &mut scope);
        need = need - 1 + d.kids;
        p = d.next;
    }
    true
}
