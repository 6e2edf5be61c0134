// "`==` takes two data of one sort": which `==` it is follows from the sort that a side has by itself, by its first cell.
ghost use Rattle.std.specs.Prelude.{◌≡◌, ◌<◌, IfSome};
ghost use Rattle.nodes.specs.Layout.{cell_limit};
ghost use Rattle.names.specs.NameCells.{found};
ghost use Rattle.resolver.specs.Sorting.{cell_sort};
ghost use Rattle.resolver.specs.Resolving.{EqualCell};

use crate::{FIRST_RESULT, FIRST_SORT};
use elements::{peek, short, wide};
use limits::{BOOL, MAX_FUNCTIONS};
use nodes::{EQUAL, FUNCTION, UNSORTED, VALUE, VARIABLE};

// `==` over two numerals is a function that is not there.
const UNSORTED_CELL: u16 = (4 * UNSORTED + FUNCTION) as u16;

// The sort that data with this first cell has by itself: a numeral has none.
fn own_sort(scope: &[u16], c: u16) -> Option<usize>
    ensures sort { result ≡ found (cell_sort scope.now c) }
    ensures small { IfSome result (λ D. D < cell_limit) }
{
    let k = wide(c % 4);
    let i = wide(c / 4);
    if k == VALUE {
        return None;
    }
    if k == VARIABLE {
        return Some(wide(peek(scope, FIRST_SORT + i)));
    }
    if i < MAX_FUNCTIONS {
        return Some(wide(peek(scope, FIRST_RESULT + i)));
    }
    Some(BOOL)
}

// The first cell of `==` over data with the first cells c and d: its sort is that of a side that has one by itself.
pub fn equal_cell(scope: &[u16], c: u16, d: u16) -> u16
    ensures { EqualCell scope.now c d result }
{
    if let Some(a) = own_sort(scope, c) {
        return short(4 * (EQUAL + a) + FUNCTION);
    }
    if let Some(b) = own_sort(scope, d) {
        return short(4 * (EQUAL + b) + FUNCTION);
    }
    UNSORTED_CELL
}
