// The parts of a right side, in the order of their first characters: the marked nodes, in the order of the cells.
ghost use Rattle.std.specs.Prelude.{◌≡◌, ◌+◌, ◌≤◌, ◌<◌, length};
ghost use Rattle.nodes.specs.Layout.{cell_limit};
ghost use Rattle.nodes.specs.Scoped.{max_scope};
ghost use Rattle.parts.specs.Rows.{RowsKept};
ghost use Rattle.parts.specs.Walking.{Rises, Notes, Noting, Enters, Steps, PutsParts};

use crate::params::put_params;
use crate::row::put_part_row;
use crate::{Noted, PartWalk};
use elements::{cell, low, short};
use marking::marks;
use nodes::{MAX_SCOPE, SUM, node_at};

// Up to a level where something is left.
fn rise(left: &[u16], base: usize, s: PartWalk) -> PartWalk
    ensures at_value { (result.at ≡ s.at) × (result.level ≤ s.level) × (result.count ≡ s.count) × (result.w ≡ s.w) × (result.need ≡ 0 → result.level ≤ base) }
    ensures rises { Rises left.now base s result }
{
    let mut level = s.level;
    let mut need = s.need;
    while need == 0 {
        if level <= base {
            break;
        }
        level -= 1;
        need = cell(left, level);
    }
    PartWalk { level, need, ..s }
}

// The part at `at`, where n variables are in scope.
fn note(
    cells: &[u16],
    at: usize,
    n: usize,
    sorts: &[u8],
    rows: &mut [u32],
    k: usize,
    out: &mut [u8],
    w: Option<usize>,
) -> Option<usize>
    requires { (n ≤ max_scope) × (length sorts.now ≡ max_scope) }
    ensures rows_kept { RowsKept rows.old k rows.new }
    ensures notes { Notes cells.now sorts.now rows.old out.old at n k w rows.new out.new result }
{
    let m = marks(cells, at, n);
    put_part_row(rows, k, at, n, m);
    match w {
        Some(v) => put_params(m, sorts, out, v),
        None => None,
    }
}

// The node's part, if it gets a new equation.
fn own_part(
    cells: &[u16],
    own: usize,
    s: PartWalk,
    sorts: &[u8],
    rows: &mut [u32],
    out: &mut [u8],
) -> Noted
    requires { (s.level ≤ max_scope) × (s.count < cell_limit + length cells.now) × (length sorts.now ≡ max_scope) }
    ensures count_le_count { (s.count ≤ result.count) × (result.count ≤ s.count + 1) }
    ensures noting { Noting cells.now sorts.now rows.old out.old own s rows.new out.new result }
{
    if own == 1 {
        let w = note(cells, s.at, s.level, sorts, rows, s.count, out, s.w);
        return Noted {
            count: s.count + 1,
            w,
        };
    }
    Noted {
        count: s.count,
        w: s.w,
    }
}

// A sum: what is left at this level is kept, and its variable's sort.
fn enter(left: &mut [u16], sorts: &mut [u8], n: usize, need: usize, sort: usize)
    requires { (n < length left.old) × (n < length sorts.old) × (0 < need) }
    ensures { Enters left.old sorts.old n need sort left.new sorts.new }
{
    left[n] = short(need - 1);
    sorts[n] = low(sort);
}

// One node.
fn pass(
    cells: &[u16],
    left: &mut [u16],
    sorts: &mut [u8],
    rows: &mut [u32],
    out: &mut [u8],
    s: PartWalk,
) -> PartWalk
    requires { (s.at < length cells.now) × (0 < s.need) × (s.need ≤ length cells.now) × (s.level ≤ max_scope) × (s.count < cell_limit + length cells.now) × (length left.old ≡ max_scope) × (length sorts.old ≡ max_scope) }
    ensures at_lt_at { (s.at < result.at) × (result.level ≤ max_scope) × (s.count ≤ result.count) × (result.count ≤ s.count + 1) }
    ensures rows_kept { RowsKept rows.old s.count rows.new }
    ensures steps { Steps cells.now left.old sorts.old rows.old out.old s left.new sorts.new rows.new out.new result }
{
    let d = node_at(cells, s.at);
    let t = own_part(cells, d.own, s, sorts, rows, out);
    if d.kind == SUM {
        let n = s.level;
        if n < MAX_SCOPE {
            enter(left, sorts, n, s.need, d.number);
            return PartWalk {
                at: d.next,
                level: n + 1,
                need: 1,
                count: t.count,
                w: t.w,
            };
        }
    }
    PartWalk {
        at: d.next,
        level: s.level,
        need: s.need - 1 + d.kids,
        count: t.count,
        w: t.w,
    }
}

// The parts of the right side at `at`, where the first `base` of these sorts are in scope: rows from k on, parameters behind w.
pub fn put_parts(
    cells: &[u16],
    at: usize,
    base: usize,
    left: &mut [u16],
    sorts: &mut [u8],
    rows: &mut [u32],
    k: usize,
    out: &mut [u8],
    w: Option<usize>,
) -> PartWalk
    requires { (base ≤ max_scope) × (k < cell_limit) × (length left.old ≡ max_scope) × (length sorts.old ≡ max_scope) }
    ensures rows_kept { RowsKept rows.old k rows.new }
    ensures puts_parts { PutsParts cells.now sorts.old rows.old at base k w out.old result rows.new out.new }
{
    let mut s = PartWalk {
        at,
        level: base,
        need: 1,
        count: k,
        w,
    };
    while s.need > 0 {
        if s.at >= cells.len() {
            return s;
        }
        // more terms than cells: no term
        if s.need > cells.len() {
            return s;
        }
        let t = pass(cells, left, sorts, rows, out, s);
        s = rise(left, base, t);
    }
    s
}
