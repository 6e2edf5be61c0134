// A row for each part that gets a new equation.
ghost use Rattle.std.specs.Prelude.{◌≡◌, ◌<◌};
ghost use Rattle.nodes.specs.Layout.{cell_limit};
ghost use Rattle.parts.specs.Rows.{RowPut};

use elements::CELL_LIMIT;

// Where a part stands, how many variables are in scope there, and as bits those that stand free in it.
pub const ROW: usize = 3;

pub const SCOPE: usize = 1;

pub const MARKS: usize = 2;

// A number below the limit of cells.
fn word(n: usize) -> u32
    ensures { n < cell_limit → result ≡ n }
{
    if n < CELL_LIMIT { n as u32 } else { 0 }
}

// Row k, if there is room for it.
pub fn put_part_row(rows: &mut [u32], k: usize, place: usize, scope: usize, bits: u32)
    ensures { RowPut rows.old k place scope bits rows.new }
{
    if k < rows.len() / ROW {
        let i = ROW * k;
        rows[i] = word(place);
        rows[i + SCOPE] = word(scope);
        rows[i + MARKS] = bits;
    }
}
