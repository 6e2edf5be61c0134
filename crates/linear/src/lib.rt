#![tactic(auto)]
// The stream of a sheet's table: question 10.
ghost use Rattle.std.specs.Prelude.{◌≡◌, ◌≤◌, ◌<◌, length};
ghost use Rattle.pcrl.specs.Limits.{max_stream};
ghost use Rattle.laws.specs.Says.{Says};
ghost use Rattle.nodes.specs.Layout.{cell_limit};
ghost use Rattle.linear.specs.Within.{FewMarks, FewIn, WritesTable};

use elements::peek;
use emit::signature::put_signature;
use initial::put_start;
use limits::{FRAME_WIDTH, MAX_ACTIONS, MAX_EQUATIONS, MAX_FUNCTIONS, MAX_PROCESSES, MAX_SORTS};
use listing::put_summands;
use marking::many;
use nodes::Outline;
use parts::row::{MARKS, ROW};
use parts::sheet_parts::{count_equations, put_param_lists};
use refusals::Refusal;
use sheets::SheetRows;

// "4 parameters": of the first n new equations.
fn few_marks(rows: &[u32], n: usize) -> bool
    requires { n < cell_limit }
    ensures { Says result (FewMarks rows.now n) }
{
    for k in 0..n {
        if many(peek(rows, ROW * k + MARKS)) > FRAME_WIDTH {
            return false;
        }
    }
    true
}

// The whole stream over the front of the lent bytes, and its length; the data of init are lost.
fn write_stream(
    s: &[u8],
    sheet: &SheetRows,
    values: &[u8],
    cells: &mut [u16],
    rows: &mut [u32],
    out: &mut [u8],
) -> Result<usize, Refusal>
    requires { FewIn sheet.now.outline × (length rows.old ≡ 192) × (length out.old ≤ max_stream) }
    ensures { WritesTable s.now sheet.now values.now cells.old out.old result out.new }
{
    let n = sheet.outline;
    let total = count_equations(&sheet.procs, cells, &sheet.starts, n);
    if total > MAX_EQUATIONS {
        return Err(Refusal::NotWithin);
    }
    let first = n.sorts.saturating_sub(1) + n.funcs;
    let a = put_signature(
        s,
        &sheet.sizes,
        &sheet.funcs,
        values,
        &sheet.places,
        &sheet.acts,
        &sheet.names,
        first,
        n,
        out,
        0,
    )
    .ok_or(Refusal::NoRoom)?;
    let p = put_param_lists(&sheet.procs, cells, &sheet.starts, n, total, rows, out, a);
    if p.count > MAX_EQUATIONS {
        return Err(Refusal::NotWithin);
    }
    if !few_marks(rows, p.count) {
        return Err(Refusal::NotWithin);
    }
    let w = p.w.ok_or(Refusal::NoRoom)?;
    let d = put_summands(&sheet.procs, cells, &sheet.starts, n, rows, p.count, out, w)?;
    put_start(
        &sheet.sizes,
        &sheet.funcs,
        values,
        &sheet.places,
        cells,
        n.init,
        out,
        d,
    )
    .ok_or(Refusal::NoRoom)
}

fn few_in(n: Outline) -> bool
    ensures { Says result (FewIn n) }
{
    n.sorts <= MAX_SORTS
        && n.funcs <= MAX_FUNCTIONS
        && n.acts <= MAX_ACTIONS
        && n.procs <= MAX_PROCESSES
}

// The table of a sheet that was read: its stream over the front of the lent bytes, and how long that is; the data of init are lost.
// NoRoom: for it, or the table is not within its limits.
pub fn write_table(
    s: &[u8],
    sheet: &SheetRows,
    values: &[u8],
    cells: &mut [u16],
    out: &mut [u8],
) -> Result<usize, Refusal>
    requires { length out.old ≤ max_stream }
    ensures { WritesTable s.now sheet.now values.now cells.old out.old result out.new }
{
    if !few_in(sheet.outline) {
        return Err(Refusal::NotWithin);
    }
    let mut part_rows = [0u32; ROW * MAX_EQUATIONS];
    write_stream(s, sheet, values, cells, &mut part_rows, out)
}
