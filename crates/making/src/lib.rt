#![tactic(auto)]
// Make a table and check a sheet, from any bytes: questions 1 to 11.
ghost use Rattle.std.specs.Prelude.{◌≡◌, ◌*◌, ◌≤◌, ◌<◌, length, Ok};
ghost use Rattle.pcrl.specs.Limits.{max_stream};
ghost use Rattle.pcrl.specs.Answers.{sheet_read, table_made, file_made, output_after};
ghost use Rattle.nodes.specs.Layout.{cell_limit};
ghost use Rattle.sheets.specs.Reading.{Room, Reads};
ghost use Rattle.making.specs.Making.{Makes, Checks, Tries};

use blocks::write_file;
use limits::{MAX_BYTES, MAX_STREAM};
use linear::write_table;
use refusals::Refusal;
use sheets::SheetRows;
use sheets::read::read_sheet;

// Arrays of three sizes: for sheets below these lengths the short and the middle ones. To clear the long ones would take
// longer than to read a short sheet.
const SHORT: usize = 65;

const MIDDLE: usize = 513;

// Three cells a byte are room enough for the tokens, the raw tree and the resolved terms.
const SHORT_CELLS: usize = 192;

const MIDDLE_CELLS: usize = 1536;

const CELLS: usize = 3 * MAX_BYTES;

// A function's value takes two tokens, itself and a comma or `=`.
const SHORT_VALUES: usize = 32;

const MIDDLE_VALUES: usize = 256;

const VALUES: usize = MAX_BYTES / 2;

// A stream is seldom longer than these.
const SHORT_STREAM: usize = 1024;

const MIDDLE_STREAM: usize = 8192;

// Questions 10 and 11 of a sheet that was read, over arrays that are lent: how many bytes were written, or none where the
// stream's array was too short to know.
fn write(
    sheet: &[u8],
    rows: &SheetRows,
    values: &[u8],
    cells: &mut [u16],
    stream: &mut [u8],
    out: &mut [u8],
) -> Result<Option<usize>, Refusal>
    requires reads { Reads (sheet_read sheet.now) sheet.now (Ok rows.now) values.now cells.old }
    requires rooms { (length cells.old < cell_limit) × (length stream.old ≤ max_stream) }
    ensures { Tries (file_made sheet.now (length out.old)) (length stream.old) out.old result out.new }
{
    match write_table(sheet, rows, values, cells, stream) {
        Ok(n) => {
            let m = write_file(&stream[..n], out)?;
            Ok(Some(m))
        }
        Err(e) => {
            if e == Refusal::NoRoom && stream.len() < MAX_STREAM {
                return Ok(None);
            }
            Err(Refusal::NotWithin)
        }
    }
}

// Questions 1 to 11 in their order, over arrays that are lent.
fn make(
    sheet: &[u8],
    raw: &mut [u16],
    values: &mut [u8],
    cells: &mut [u16],
    stream: &mut [u8],
    out: &mut [u8],
) -> Result<Option<usize>, Refusal>
    requires { Room sheet.now raw.old values.old cells.old × (length stream.old ≤ max_stream) }
    ensures { Tries (file_made sheet.now (length out.old)) (length stream.old) out.old result out.new }
{
    let rows = read_sheet(sheet, raw, values, cells)?;
    write(sheet, &rows, values, cells, stream, out)
}

// The same over arrays of its own. They stand in a function that is not inlined, so that a short sheet does not take the stack
// of a long one.
#[inline(never)]
fn make_in<const CELLS: usize, const VALUES: usize, const STREAM: usize>(
    sheet: &[u8],
    out: &mut [u8],
) -> Result<Option<usize>, Refusal>
    requires cells_room { (3 * length sheet.now ≤ CELLS) × (CELLS < cell_limit) }
    requires values_room { (length sheet.now ≤ 2 * VALUES) × (VALUES < cell_limit) }
    requires stream_room { STREAM ≤ max_stream }
    ensures { Tries (file_made sheet.now (length out.old)) STREAM out.old result out.new }
{
    let mut raw = [0u16; CELLS];
    let mut values = [0u8; VALUES];
    let mut cells = [0u16; CELLS];
    let mut stream = [0u8; STREAM];
    make(sheet, &mut raw, &mut values, &mut cells, &mut stream, out)
}

// A long sheet read: the raw tree's array is left before that of the stream is needed.
#[inline(never)]
fn read_long(
    sheet: &[u8],
    values: &mut [u8; VALUES],
    cells: &mut [u16; CELLS],
) -> Result<SheetRows, Refusal>
    ensures { Reads (sheet_read sheet.now) sheet.now result values.new cells.new }
{
    let mut raw = [0u16; CELLS];
    read_sheet(sheet, &mut raw, values, cells)
}

// Questions 10 and 11 of a sheet that was read, over an array for the longest stream.
#[inline(never)]
fn write_long(
    sheet: &[u8],
    rows: &SheetRows,
    values: &[u8; VALUES],
    cells: &mut [u16; CELLS],
    out: &mut [u8],
) -> Result<usize, Refusal>
    requires { Reads (sheet_read sheet.now) sheet.now (Ok rows.now) values.now cells.old }
    ensures answer { Makes (file_made sheet.now (length out.old)) result }
    ensures written { out.new ≡ output_after (file_made sheet.now (length out.old)) out.old }
{
    let mut stream = [0u8; MAX_STREAM];
    // with an array for the longest stream it is known
    write(sheet, rows, values, cells, &mut stream, out)?.ok_or(Refusal::NotWithin)
}

// Questions 1 to 11 over arrays for the longest sheet.
#[inline(never)]
fn make_long(sheet: &[u8], out: &mut [u8]) -> Result<usize, Refusal>
    ensures answer { Makes (file_made sheet.now (length out.old)) result }
    ensures written { out.new ≡ output_after (file_made sheet.now (length out.old)) out.old }
{
    let mut values = [0u8; VALUES];
    let mut cells = [0u16; CELLS];
    let rows = read_long(sheet, &mut values, &mut cells)?;
    write_long(sheet, &rows, &values, &mut cells, out)
}

// Make a table: the file of a sheet's bytes over the front of the lent output, and how many bytes it has. Over short or middle arrays,
// and where the stream is too long for them over the long ones.
pub fn make_table(sheet: &[u8], out: &mut [u8]) -> Result<usize, Refusal>
    ensures answer { Makes (file_made sheet.now (length out.old)) result }
    ensures written { out.new ≡ output_after (file_made sheet.now (length out.old)) out.old }
{
    if sheet.len() < SHORT {
        if let Some(n) = make_in::<SHORT_CELLS, SHORT_VALUES, SHORT_STREAM>(sheet, out)? {
            return Ok(n);
        }
        return make_long(sheet, out);
    }
    if sheet.len() < MIDDLE {
        if let Some(n) = make_in::<MIDDLE_CELLS, MIDDLE_VALUES, MIDDLE_STREAM>(sheet, out)? {
            return Ok(n);
        }
        return make_long(sheet, out);
    }
    make_long(sheet, out)
}

// Check a sheet, questions 1 to 10. Where there is no room for a file, question 11 is the first to fail exactly if 1 to 10 pass.
pub fn check_sheet(sheet: &[u8]) -> Result<(), Refusal>
    ensures { Checks (table_made sheet.now) result }
{
    let mut none = [0u8; 1];
    match make_table(sheet, &mut none) {
        Ok(_) => Ok(()),
        Err(r) => {
            if r == Refusal::NoRoom {
                return Ok(());
            }
            Err(r)
        }
    }
}
