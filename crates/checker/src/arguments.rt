// Data terms and their sorts. A data term is rightly sorted where each of its nodes is: a node's own arguments are looked at
// from the node, so no walk needs a stack.
ghost use Rattle.std.specs.Prelude.{◌≡◌, ◌≤◌, ◌<◌};
ghost use Rattle.pcrl.specs.Sheet.{Sig, size};
ghost use Rattle.nodes.specs.Layout.{cell_limit, byte_limit, function_tag};
ghost use Rattle.checker.specs.Known.{KnownSizes};
ghost use Rattle.checker.specs.Sorts.{start_limit, FitsAt, EachFitsAt, EveryFitsAt, ArgumentsFitAt, AllFitAt, ArgumentsAt};

use crate::operators::{bools, operator_of, run_of};
use elements::cell;
use limits::BOOL;
use nodes::{Datum, FUNC_ROW, FUNCTION, GIVES, Outline, VALUE, VARIABLE, data_at, skip_data};

// Data terms that stand one behind another: where, and how many.
#[derive(Clone, Copy)]
pub struct Given {
    pub at: usize,
    pub count: usize,
}

// A sort's size, 0 for no sort.
pub fn size_of(sizes: &[u8], sorts: usize, sort: usize) -> usize
    ensures upper_bound { result < byte_limit }
    ensures value { (S : Sig) → KnownSizes S sizes.now sorts → result ≡ size S sort }
{
    if sort < sorts { cell(sizes, sort) } else { 0 }
}

// Has the first node of a data term this sort, whatever its arguments are?
pub fn fits(
    cells: &[u16],
    at: usize,
    sort: usize,
    scope: &[u16],
    sizes: &[u8],
    funcs: &[u8],
    n: Outline,
) -> bool
    ensures { FitsAt cells.now scope.now sizes.now funcs.now n at sort result }
{
    if at >= cells.len() {
        return false;
    }
    let d = data_at(cells, at);
    if d.tag == VALUE {
        return d.number < size_of(sizes, n.sorts, sort);
    }
    if d.tag == VARIABLE {
        return cell(scope, d.number) == sort;
    }
    if d.number < n.funcs {
        return cell(funcs, FUNC_ROW * d.number + GIVES) == sort;
    }
    match operator_of(d.number, n.sorts) {
        Some(_) => sort == BOOL,
        None => false,
    }
}

// Do as many data terms as a row has sorts fit these sorts, one by one?
pub fn each_fits(
    cells: &[u16],
    given: Given,
    row: &[u8],
    start: usize,
    scope: &[u16],
    sizes: &[u8],
    funcs: &[u8],
    n: Outline,
) -> bool
    requires { (start < start_limit) × (given.count < cell_limit) }
    ensures { EachFitsAt cells.now scope.now sizes.now funcs.now n given.at given.count row.now start result }
{
    let count = given.count;
    if cell(row, start) != count {
        return false;
    }
    let mut p = given.at;
    for i in 0..count {
        let sort = cell(row, start + 1 + i);
        if !fits(cells, p, sort, scope, sizes, funcs, n) {
            return false;
        }
        // behind the last one nothing is looked at
        if i + 1 == count {
            return true;
        }
        p = skip_data(cells, p, 1);
    }
    true
}

// Do data terms fit one sort, each of them?
pub fn every_fits(
    cells: &[u16],
    given: Given,
    sort: usize,
    scope: &[u16],
    sizes: &[u8],
    funcs: &[u8],
    n: Outline,
) -> bool
    ensures { EveryFitsAt cells.now scope.now sizes.now funcs.now n given.at given.count sort result }
{
    let count = given.count;
    let mut p = given.at;
    for i in 0..count {
        if !fits(cells, p, sort, scope, sizes, funcs, n) {
            return false;
        }
        // behind the last one nothing is looked at
        if i + 1 == count {
            return true;
        }
        p = skip_data(cells, p, 1);
    }
    true
}

// Do the arguments of a node fit whose function is not written?
pub fn operator_fits(
    cells: &[u16],
    d: Datum,
    scope: &[u16],
    sizes: &[u8],
    funcs: &[u8],
    n: Outline,
) -> bool
    requires { (d.tag ≡ function_tag) × (n.funcs ≤ d.number) }
    ensures { ArgumentsFitAt cells.now scope.now sizes.now funcs.now n d result }
{
    let Some(o) = operator_of(d.number, n.sorts) else {
        return false;
    };
    if d.kids != o.count {
        return false;
    }
    let given = Given {
        at: d.next,
        count: d.kids,
    };
    every_fits(cells, given, o.sort, scope, sizes, funcs, n)
}

// Do the arguments of one node of a data term fit?
pub fn arguments_fit(
    cells: &[u16],
    d: Datum,
    scope: &[u16],
    sizes: &[u8],
    funcs: &[u8],
    n: Outline,
) -> bool
    requires { (d.number < cell_limit) × (d.kids < cell_limit) }
    ensures { ArgumentsFitAt cells.now scope.now sizes.now funcs.now n d result }
{
    if d.tag != FUNCTION {
        return true;
    }
    if d.number >= n.funcs {
        return operator_fits(cells, d, scope, sizes, funcs, n);
    }
    let given = Given {
        at: d.next,
        count: d.kids,
    };
    each_fits(
        cells,
        given,
        funcs,
        FUNC_ROW * d.number,
        scope,
        sizes,
        funcs,
        n,
    )
}

// Do the arguments of every node in some data terms fit?
pub fn all_fit(
    cells: &[u16],
    given: Given,
    scope: &[u16],
    sizes: &[u8],
    funcs: &[u8],
    n: Outline,
) -> bool
    requires { given.count < cell_limit }
    ensures { AllFitAt cells.now scope.now sizes.now funcs.now n given.at given.count result }
{
    let mut p = given.at;
    let mut need = given.count;
    while need > 0 {
        if p >= cells.len() {
            return false;
        }
        if need > cells.len() {
            return false;
        }
        let d = data_at(cells, p);
        if let Some(takes) = bools(d) {
            let r = run_of(cells, d.next, takes);
            let taken = Given {
                at: r.next,
                count: r.count,
            };
            if !every_fits(cells, taken, BOOL, scope, sizes, funcs, n) {
                return false;
            }
            need = need - 1 + r.count;
            p = r.next;
            continue;
        }
        if !arguments_fit(cells, d, scope, sizes, funcs, n) {
            return false;
        }
        need = need - 1 + d.kids;
        p = d.next;
    }
    true
}

// "Argument counts and sorts right": have data terms the sorts of a row?
pub fn arguments_right(
    cells: &[u16],
    given: Given,
    row: &[u8],
    start: usize,
    scope: &[u16],
    sizes: &[u8],
    funcs: &[u8],
    n: Outline,
) -> bool
    requires { (start < start_limit) × (given.count < cell_limit) }
    ensures { ArgumentsAt cells.now scope.now sizes.now funcs.now n given.at given.count row.now start result }
{
    if !each_fits(cells, given, row, start, scope, sizes, funcs, n) {
        return false;
    }
    if given.count == 0 {
        return true;
    }
    all_fit(cells, given, scope, sizes, funcs, n)
}
