// The new equations of all right sides, and the lists of parameters of all equations.
ghost use Rattle.std.specs.Prelude.{◌≡◌, ◌*◌, ◌≤◌, ◌<◌, length};
ghost use Rattle.pcrl.specs.Limits.{max_processes};
ghost use Rattle.pcrl.specs.Blocks.{concatenated};
ghost use Rattle.nodes.specs.Layout.{cell_limit};
ghost use Rattle.nodes.specs.Held.{proc_width};
ghost use Rattle.nodes.specs.Scoped.{max_scope};
ghost use Rattle.emit.specs.Putting.{Puts};
ghost use Rattle.emit.specs.Bytes.{row_bytes};
ghost use Rattle.parts.specs.Sheets.{Loads, CountsParts, PutsAll, front_bytes, PutsParams};

use crate::Noted;
use crate::right_side::put_parts;
use elements::{CELL_LIMIT, cell, low, peek};
use emit::bytes::{put, put_row};
use limits::MAX_EQUATIONS;
use nodes::{MAX_SCOPE, Outline, PROC_ROW, skip};

// One more than there may be equations: counts are cut here.
const COUNT_CUT: usize = MAX_EQUATIONS + 1;

// How many equations there are, cut.
pub fn count_equations(procs: &[u8], cells: &[u16], starts: &[u16], n: Outline) -> usize
    ensures { CountsParts procs.now cells.now starts.now n result }
{
    let mut total = n.procs.min(COUNT_CUT);
    for k in 0..n.procs {
        let s = skip(cells, cell(starts, k));
        total = total.saturating_add(s.own).min(COUNT_CUT);
    }
    total
}

// The sorts of the row at p; how many.
fn load(procs: &[u8], p: usize, sorts: &mut [u8]) -> usize
    requires { (p < cell_limit) × (length sorts.old ≡ max_scope) }
    ensures upper_bound { result ≤ max_scope }
    ensures loads { Loads procs.now p sorts.new result }
{
    let n = cell(procs, p);
    if n > MAX_SCOPE {
        return 0;
    }
    for i in 0..n {
        sorts[i] = peek(procs, p + 1 + i);
    }
    n
}

// The rows of the written processes.
pub fn put_written(procs: &[u8], n: usize, out: &mut [u8], w: usize) -> Option<usize>
    requires { n ≤ max_processes }
    ensures { Puts (concatenated n (λ k. row_bytes procs.now (proc_width * k))) w out.old result out.new }
{
    let mut v = w;
    for k in 0..n {
        v = put_row(procs, PROC_ROW * k, out, v)?;
    }
    Some(v)
}

// The count of equations, and the rows of the written processes.
fn put_front(procs: &[u8], n: usize, total: usize, out: &mut [u8], w: usize) -> Option<usize>
    requires { n ≤ max_processes }
    ensures { Puts (front_bytes procs.now n total) w out.old result out.new }
{
    let v = put(out, w, low(total))?;
    put_written(procs, n, out, v)
}

// The parts of all right sides.
pub fn put_all_parts(
    procs: &[u8],
    cells: &[u16],
    starts: &[u16],
    n: Outline,
    rows: &mut [u32],
    out: &mut [u8],
    w: Option<usize>,
) -> Noted
    requires { (n.procs ≤ max_processes) × (length rows.old < cell_limit) }
    ensures { PutsAll procs.now cells.now starts.now n rows.old w out.old result rows.new out.new }
{
    let mut left = [0u16; MAX_SCOPE];
    let mut sorts = [0u8; MAX_SCOPE];
    let mut count: usize = 0;
    let mut v = w;
    for k in 0..n.procs {
        // more parts than rows
        if count >= CELL_LIMIT {
            return Noted { count, w: v };
        }
        let base = load(procs, PROC_ROW * k, &mut sorts);
        let s = put_parts(
            cells,
            cell(starts, k),
            base,
            &mut left,
            &mut sorts,
            rows,
            count,
            out,
            v,
        );
        count = s.count;
        v = s.w;
    }
    Noted { count, w: v }
}

// "count of equations, each parameter count, sorts"
pub fn put_param_lists(
    procs: &[u8],
    cells: &[u16],
    starts: &[u16],
    n: Outline,
    total: usize,
    rows: &mut [u32],
    out: &mut [u8],
    w: usize,
) -> Noted
    requires { (n.procs ≤ max_processes) × (length rows.old < cell_limit) }
    ensures { PutsParams procs.now cells.now starts.now n total rows.old w out.old result rows.new out.new }
{
    let x = put_front(procs, n.procs, total, out, w);
    put_all_parts(procs, cells, starts, n, rows, out, x)
}
