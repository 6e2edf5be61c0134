#![tactic(auto)]
// Questions 1 to 9: from a sheet's bytes to the resolved sheet in arrays, or the number of the first question that fails.
pub mod signature; // question 7 on the declarations
pub mod scopes; // what the resolver is told of sorts
pub mod processes; // question 7 on right sides
pub mod resolve; // question 7 on the whole sheet
pub mod read; // the questions in their order

use limits::{MAX_ACTIONS, MAX_FUNCTIONS, MAX_PROCESSES, MAX_SORTS};
use names::MAX_NAMES;
use nodes::{ACT_ROW, FUNC_ROW, Outline, PROC_ROW};

// The bytes of all rows, and the places of function values: each begins where the one before it ends.
const FUNC_ROWS: usize = FUNC_ROW * MAX_FUNCTIONS;

const ACT_ROWS: usize = ACT_ROW * MAX_ACTIONS;

const PROC_ROWS: usize = PROC_ROW * MAX_PROCESSES;

const PLACES: usize = MAX_FUNCTIONS + 1;

// The rows of sorts, functions and actions (crate nodes, Held).
#[derive(Clone, Copy)]
pub struct SigRows {
    pub sizes: [u8; MAX_SORTS],
    pub funcs: [u8; FUNC_ROWS],
    pub places: [u16; PLACES],
    pub acts: [u8; ACT_ROWS],
}

// The rows of the processes, where their right sides begin, and the next free cell.
#[derive(Clone, Copy)]
pub struct ProcRows {
    pub procs: [u8; PROC_ROWS],
    pub starts: [u16; MAX_PROCESSES],
    pub w: usize,
}

// What holds a resolved sheet beside the cells of its terms and the values of its functions.
#[derive(Clone, Copy)]
pub struct SheetRows {
    pub sizes: [u8; MAX_SORTS],
    pub funcs: [u8; FUNC_ROWS],
    pub places: [u16; PLACES],
    pub acts: [u8; ACT_ROWS],
    pub procs: [u8; PROC_ROWS],
    pub starts: [u16; MAX_PROCESSES],
    // the cells of the declared names, but for Bool: sorts, functions, actions, processes
    pub names: [u16; MAX_NAMES],
    pub outline: Outline,
}
