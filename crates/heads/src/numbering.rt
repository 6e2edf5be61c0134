// New equations are numbered process by process.
ghost use Rattle.std.specs.Prelude.{◌≤◌};
ghost use Rattle.counting.specs.Limits.{row_width};
ghost use Rattle.heads.specs.Writing.{NumbersFirst};

use elements::cell;
use limits::MAX_PROCESSES;

// The numbers of the first new equations of all processes.
pub fn first_numbers(cells: &[u16], starts: &[u16], n: usize) -> [u8; MAX_PROCESSES]
    requires { n ≤ row_width }
    ensures { NumbersFirst cells.now starts.now n result }
{
    let mut t = [0u8; MAX_PROCESSES];
    let mut c = n;
    for k in 0..n {
        let p = cell(starts, k);
        let s = nodes::skip(cells, p);
        t[k] = c as u8;
        c = following::later(c, s.own);
    }
    t
}
