#![tactic(auto)]
// Questions 6 and 7 on declarations: counts and sizes, names found by their bytes, the signature's rows.
pub mod find; // names compared, and looked up among the declared ones
pub mod keys; // names looked up by their keys
pub mod counts; // question 6
pub mod fresh; // every declared name new, each variable unlike those there
pub mod rows; // the signature in rows of bytes

use limits::{MAX_ACTIONS, MAX_FUNCTIONS, MAX_PROCESSES, MAX_SORTS};

// The declared names in one array, Bool not among them: the cells of the names, kind after kind, then for each the place of
// the next name with its key, then how many there are of each kind, then for each key the place of the first name that has it.
pub const MAX_NAMES: usize = MAX_SORTS + MAX_FUNCTIONS + MAX_ACTIONS + MAX_PROCESSES;

pub const FIRST_NEXT: usize = MAX_NAMES;

pub const SORT_COUNT: usize = FIRST_NEXT + MAX_NAMES;

pub const FUNC_COUNT: usize = SORT_COUNT + 1;

pub const ACT_COUNT: usize = SORT_COUNT + 2;

pub const PROC_COUNT: usize = SORT_COUNT + 3;

pub const FIRST_PLACE: usize = SORT_COUNT + 4;

// How many keys there are.
pub const KEYS: usize = 256;

pub const DECLARED_CELLS: usize = FIRST_PLACE + KEYS;

// The key of a name, and how many bytes it has.
#[derive(Clone, Copy)]
pub struct Digest {
    pub key: u8,
    pub length: usize,
}

// How many names of each kind are declared, in this order.
#[derive(Clone, Copy)]
pub struct Kinds {
    pub sorts: usize,
    pub funcs: usize,
    pub acts: usize,
    pub procs: usize,
}

// How many parameters a process has, and the place behind them.
#[derive(Clone, Copy)]
pub struct Params {
    pub count: usize,
    pub at: usize,
}
