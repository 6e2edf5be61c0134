#![tactic(auto)]
// Question 7 on right sides and init: names become numbers, and the resolved term is written in cells (crate nodes, Layout).
pub mod cells; // cells read and written
pub mod operators; // which `==` it is
pub mod data; // data terms
pub mod process; // process terms
pub mod entry; // a right side, init

use limits::MAX_FUNCTIONS;
use nodes::MAX_SCOPE;

// The cells of the lent scope: those of the names in scope, then the sorts of these variables, then the sorts that the functions give.
pub const FIRST_SORT: usize = MAX_SCOPE;

pub const FIRST_RESULT: usize = FIRST_SORT + MAX_SCOPE;

pub const SCOPE_CELLS: usize = FIRST_RESULT + MAX_FUNCTIONS;

// A place among the cells of the raw tree, the next free cell, and how many data terms there were.
#[derive(Clone, Copy)]
pub struct DataRun {
    pub at: usize,
    pub w: usize,
    pub count: usize,
}

// A node of two subterms: how far its head was read, the next free cell, and whether the first subterm stands after a first part.
#[derive(Clone, Copy)]
pub struct Fork {
    pub at: usize,
    pub w: usize,
    pub left: bool,
}
