// Question 6: "At most 8 sorts with Bool, sizes 1 to 16; 16 functions; 32 actions; 16 processes of 0 to 4 parameters?"
ghost use Rattle.std.specs.Prelude.{◌≡◌, List, ℕ, suc, ◌+◌, ◌≤◌, ◌<◌};
ghost use Rattle.pcrl.specs.Limits.{max_size, frame_width};
ghost use Rattle.pcrl.specs.Tests.{Between, Every};
ghost use Rattle.pcrl.specs.Tree.{RawSheet};
ghost use Rattle.pcrl.specs.Counts.{Counted};
ghost use Rattle.laws.specs.Says.{Says};
ghost use Rattle.names.specs.Standing.{Standing};
ghost use Rattle.names.specs.Items.{far, param_step, numeral_at, item_count};

use elements::{peek, wide};
use lexer::FIRST_NUMERAL;
use limits::{FRAME_WIDTH, MAX_ACTIONS, MAX_FUNCTIONS, MAX_PROCESSES, MAX_SORTS};
use parser::Lines;
use parser::codes::END_TAG;

// Bool has no line.
const MAX_SORT_LINES: usize = MAX_SORTS - 1;

const MAX_SIZE: u16 = limits::MAX_SIZE as u16;

// Cells of a list's item and the tag before it: a name or a numeral, a parameter.
pub const NAME_STEP: usize = 2;

pub const PARAM_STEP: usize = 3;

// How many items a list has, or `most`; an item and the tag before it take `step` cells.
pub fn items(cells: &[u16], step: usize, at: usize, most: usize) -> usize
    requires { (step ≤ param_step) × (at < far) × (most < far) }
    ensures most { result ≤ most }
    ensures count { result ≡ item_count cells.now step at most }
{
    let mut p = at;
    for n in 0..most {
        if peek(cells, p) == END_TAG {
            return n;
        }
        p += step;
    }
    most
}

// "sizes 1 to 16"
fn sizes_right(cells: &[u16], sorts: &[u16]) -> bool
    ensures { Says result (Every (λ p. Between 1 max_size (numeral_at cells.now (p + 2))) sorts.now) }
{
    for p in sorts {
        let v = peek(cells, wide(*p) + 2);
        if v <= FIRST_NUMERAL {
            return false;
        }
        if v > FIRST_NUMERAL + MAX_SIZE {
            return false;
        }
    }
    true
}

// "0 to 4 parameters"
fn params_few(cells: &[u16], procs: &[u16]) -> bool
    ensures { Says result (Every (λ p. item_count cells.now param_step (p + 2) (suc frame_width) ≤ frame_width) procs.now) }
{
    for p in procs {
        if items(cells, PARAM_STEP, wide(*p) + 2, FRAME_WIDTH + 1) > FRAME_WIDTH {
            return false;
        }
    }
    true
}

// 6, put to all lines.
pub fn counted(cells: &[u16], lines: Lines) -> bool
    ensures { (s : List ℕ) (R : RawSheet) → Standing s cells.now lines R → Says result (Counted R) }
{
    let n = lines.sort_count;
    if n > MAX_SORT_LINES {
        return false;
    }
    if lines.func_count > MAX_FUNCTIONS {
        return false;
    }
    if lines.act_count > MAX_ACTIONS {
        return false;
    }
    let m = lines.proc_count;
    if m > MAX_PROCESSES {
        return false;
    }
    let sorts = lines.sorts;
    if !sizes_right(cells, &sorts[0..n]) {
        return false;
    }
    let procs = lines.procs;
    params_few(cells, &procs[0..m])
}
