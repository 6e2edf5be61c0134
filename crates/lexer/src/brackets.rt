// Question 4: round brackets that are open.
ghost use Rattle.std.specs.Prelude.{◌≡◌, List, map, ℕ, ◌+◌, ◌≤◌, length};
ghost use Rattle.pcrl.specs.Limits.{max_bytes, max_open};
ghost use Rattle.pcrl.specs.Tokens as T;
ghost use Rattle.laws.specs.Says.{Says};
ghost use Rattle.lexer.specs.Cells.{cell_token};

use crate::{CLOSE, OPEN};
use elements::wide;
use limits::MAX_OPEN;

// How many round brackets are open behind a cell.
fn open_behind(c: u16, n: usize) -> usize
    requires { n ≤ max_open }
    ensures { (s : List ℕ) → result ≡ T.open_behind (cell_token s c) n }
{
    match c {
        OPEN => n + 1,
        CLOSE => if n == 0 { 0 } else { n - 1 },
        _ => n,
    }
}

// How many round brackets a cell opens.
fn opens(c: u16) -> u16
    ensures { (result ≤ 1) × ((s : List ℕ) (n : ℕ) → T.open_behind (cell_token s c) n ≤ n + result) }
{
    match c {
        OPEN => 1,
        _ => 0,
    }
}

// How many the cells open: never are more open. The loop has one way out, so that the compiler tests many cells at once.
fn opened(cells: &[u16]) -> u16
    requires { length cells.now ≤ max_bytes }
    ensures { (s : List ℕ) → T.most_open 0 (map (cell_token s) cells.now) ≤ result }
{
    let mut count: u16 = 0;
    for c in cells {
        count += opens(*c);
    }
    count
}

// Never more than 16 round brackets open behind the cells? One by one only where more are opened at all.
pub fn shallow(cells: &[u16]) -> bool
    requires { length cells.now ≤ max_bytes }
    ensures { (s : List ℕ) → Says result (T.Shallow (map (cell_token s) cells.now)) }
{
    if wide(opened(cells)) <= MAX_OPEN {
        return true;
    }
    let mut count: usize = 0;
    for c in cells {
        count = open_behind(*c, count);
        if MAX_OPEN < count {
            return false;
        }
    }
    true
}
