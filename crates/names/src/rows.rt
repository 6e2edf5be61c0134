// The signature in rows of bytes (crate nodes, Held): sizes, functions with their values, actions, parameters.
ghost use Rattle.std.specs.Prelude.{◌≡◌, ◌∷◌, ◌++◌, map, ◌+◌, ◌*◌, ◌-◌, ◌≤◌, ◌<◌, IfSome, length, take};
ghost use Rattle.lexer.specs.Cells.{first_numeral};
ghost use Rattle.pcrl.specs.Limits.{max_sorts, max_arity, frame_width};
ghost use Rattle.nodes.specs.Layout.{cell_limit};
ghost use Rattle.nodes.specs.Held.{func_width, act_width, SortsAt};
ghost use Rattle.names.specs.NameCells.{byte_of};
ghost use Rattle.names.specs.NameList.{names_in, kinds_in, KeyedNames};
ghost use Rattle.names.specs.Items.{far, name_step, item_count, item_names, numeral_at, item_values};
ghost use Rattle.names.specs.Rows.{Kept, Yields, ActRows, FuncRead, FuncRows, ParamsRead, sorts_at, numbered};

use crate::Params;
use crate::counts::{NAME_STEP, PARAM_STEP, items};
use crate::find::sort_number;
use crate::fresh::new_variable;
use crate::keys::sort_in;
use elements::{peek, short, wide};
use lexer::FIRST_NUMERAL;
use limits::{FRAME_WIDTH, MAX_ARITY};
use nodes::{ACT_ROW, FUNC_ROW, GIVES};

const MAX_NUMERAL: u8 = limits::MAX_NUMERAL as u8;

const BYTE_LIMIT: u16 = elements::BYTE_LIMIT as u16;

const BOOL_SIZE: u8 = limits::BOOL_SIZE as u8;

// A numeral's value.
fn value(c: u16) -> u8
    ensures { result ≡ byte_of (c - first_numeral) }
{
    if c < FIRST_NUMERAL {
        return 0;
    }
    let v = c - FIRST_NUMERAL;
    if v >= BYTE_LIMIT {
        return MAX_NUMERAL;
    }
    v as u8
}

// "Bool, size 2, is always there first."
pub fn sizes(cells: &[u16], sorts: &[u16], out: &mut [u8])
    requires { length sorts.now < length out.old }
    ensures { take (length sorts.now + 1) out.new ≡ 2 ∷ map (λ p. byte_of (numeral_at cells.now (p + 2))) sorts.now }
{
    out[0] = BOOL_SIZE;
    for i in 0..sorts.len() {
        out[i + 1] = value(peek(cells, wide(sorts[i]) + 2));
    }
}

// At p: how many sorts a list of names has, then their numbers. The place behind the list, if every name in it is a sort.
fn sort_row(
    s: &[u8],
    cells: &[u16],
    sorts: &[u16],
    at: usize,
    rows: &mut [u8],
    p: usize,
) -> Option<usize>
    requires { (length sorts.now < max_sorts) × (at < far) × (p + max_arity < length rows.old) }
    ensures kept { Kept p rows.old rows.new }
    ensures near { IfSome result (λ q. q ≤ at + 5) }
    ensures row { Yields (λ Ds q. (q ≡ at + name_step * length Ds + 1) × SortsAt Ds rows.new p)
        (numbered (sorts_at s.now cells.now sorts.now) (item_names s.now cells.now at (item_count cells.now name_step at max_arity))) result }
{
    let n = items(cells, NAME_STEP, at, MAX_ARITY);
    for k in 0..n {
        let d = sort_number(
            s,
            cells,
            sorts,
            sorts.len(),
            peek(cells, at + NAME_STEP * k + 1),
        )?;
        rows[p + 1 + k] = d as u8;
    }
    rows[p] = n as u8;
    Some(at + NAME_STEP * n + 1)
}

// The rows of all actions. False: some sort is not known.
pub fn act_rows(s: &[u8], cells: &[u16], sorts: &[u16], acts: &[u16], rows: &mut [u8]) -> bool
    requires { (length sorts.now < max_sorts) × (act_width * length acts.now ≤ length rows.old) }
    ensures { ActRows s.now cells.now sorts.now acts.now rows.new result }
{
    for i in 0..acts.len() {
        let Some(_) = sort_row(s, cells, sorts, wide(acts[i]) + 2, rows, ACT_ROW * i) else {
            return false;
        };
    }
    true
}

// At p: the row of the function whose line stands at `at`. The place of its values, if every name before them is a sort.
fn func_row(
    s: &[u8],
    cells: &[u16],
    sorts: &[u16],
    at: usize,
    rows: &mut [u8],
    p: usize,
) -> Option<usize>
    requires { (length sorts.now < max_sorts) × (at < cell_limit) × (p + func_width ≤ length rows.old) }
    ensures kept { Kept p rows.old rows.new }
    ensures near { IfSome result (λ q. q < far) }
    ensures row { FuncRead s.now cells.now sorts.now at rows.new p result }
{
    let q = sort_row(s, cells, sorts, at + 2, rows, p)?;
    let d = sort_number(s, cells, sorts, sorts.len(), peek(cells, q))?;
    rows[p + GIVES] = d as u8;
    Some(q + 1)
}

// The values of n items, behind w.
fn copy_values(cells: &[u16], at: usize, n: usize, values: &mut [u8], w: usize)
    requires { (at < far) × (w + n ≤ length values.old) × (length values.old < cell_limit) }
    ensures kept { Kept w values.old values.new }
    ensures values { take (w + n) values.new ≡ take w values.old ++ map byte_of (item_values cells.now at n) }
{
    for k in 0..n {
        values[w + k] = value(peek(cells, at + NAME_STEP * k + 1));
    }
}

// The rows of all functions, their values one behind another, and where each function's begin. False: some sort is not known.
pub fn func_rows(
    s: &[u8],
    cells: &[u16],
    sorts: &[u16],
    lines: &[u16],
    rows: &mut [u8],
    values: &mut [u8],
    places: &mut [u16],
) -> bool
    requires { (length sorts.now < max_sorts) × (func_width * length lines.now ≤ length rows.old) × (length lines.now < length places.old) × (length values.old < cell_limit) }
    ensures { FuncRows s.now cells.now sorts.now lines.now rows.new values.new places.new result }
{
    places[0] = 0;
    let mut w: usize = 0;
    for i in 0..lines.len() {
        let Some(q) = func_row(s, cells, sorts, wide(lines[i]), rows, FUNC_ROW * i) else {
            return false;
        };
        let n = items(cells, NAME_STEP, q, values.len() - w);
        copy_values(cells, q, n, values, w);
        w += n;
        places[i + 1] = short(w);
    }
    true
}

// A process's row: how many parameters, then their sorts' numbers; their names' cells in scope. None: some name is not as it must be.
pub fn param_row(
    s: &[u8],
    cells: &[u16],
    declared: &[u16],
    at: usize,
    row: &mut [u8],
    scope: &mut [u16],
) -> Option<Params>
    requires { KeyedNames s.now declared.now × (at < far) × (frame_width < length row.old) × (frame_width ≤ length scope.old) }
    ensures few { IfSome result (λ r. r.count ≤ frame_width) }
    ensures params { ParamsRead s.now cells.now (names_in declared.now) (kinds_in declared.now) at row.new scope.new result }
{
    let m = items(cells, PARAM_STEP, at, FRAME_WIDTH);
    for k in 0..m {
        let v = peek(cells, at + PARAM_STEP * k + 1);
        if !new_variable(s, declared, scope, k, v) {
            return None;
        }
        let d = sort_in(s, declared, peek(cells, at + PARAM_STEP * k + 2))?;
        scope[k] = v;
        row[1 + k] = d as u8;
    }
    row[0] = m as u8;
    Some(Params {
        count: m,
        at: at + PARAM_STEP * m + 1,
    })
}
