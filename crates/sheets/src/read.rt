// Questions 1 to 9, each put to the whole sheet before the next.
ghost use Rattle.pcrl.specs.Answers.{sheet_read};
ghost use Rattle.sheets.specs.Reading.{Room, Judges, Reads};

use crate::SheetRows;
use crate::resolve::resolve;
use checker::circles::guarded_sheet;
use checker::sorts::rightly_sorted;
use lexer::lex;
use names::counts::counted;
use parser::parse;
use refusals::Refusal;

// Questions 8 and 9 on the sheet that is held.
fn judge(rows: SheetRows, values: &[u8], cells: &[u16]) -> Result<(), Refusal>
    ensures { Judges rows values.now cells.now result }
{
    let sizes = rows.sizes;
    let funcs = rows.funcs;
    let places = rows.places;
    let acts = rows.acts;
    let procs = rows.procs;
    let starts = rows.starts;
    if !rightly_sorted(
        &sizes,
        &funcs,
        values,
        &places,
        &acts,
        &procs,
        cells,
        &starts,
        rows.outline,
    ) {
        return Err(Refusal::NotSorted);
    }
    if !guarded_sheet(cells, &starts, rows.outline) {
        return Err(Refusal::NotGuarded);
    }
    Ok(())
}

// Check a sheet: the resolved sheet is left in the rows, the values and the cells. The tokens stand in the cells until the
// raw tree is made of them; what is left of the raw tree is not needed afterwards.
pub fn read_sheet(
    sheet: &[u8],
    raw: &mut [u16],
    values: &mut [u8],
    cells: &mut [u16],
) -> Result<SheetRows, Refusal>
    requires { Room sheet.now raw.old values.old cells.old }
    ensures { Reads (sheet_read sheet.now) sheet.now result values.new cells.new }
{
    let n = lex(sheet, cells)?;
    let t = parse(&cells[0..n], raw).ok_or(Refusal::NoSheet)?;
    let lines = t.lines;
    if !counted(raw, lines) {
        return Err(Refusal::TooMany);
    }
    let rows = resolve(sheet, raw, lines, values, cells).ok_or(Refusal::NoName)?;
    judge(rows, values, cells)?;
    Ok(rows)
}
