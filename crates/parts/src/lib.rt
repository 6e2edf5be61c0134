#![tactic(auto)]
// The new equations of a sheet: "Each part that then stands after the first and is not a call of a process gets a new equation."
pub mod params; // the sorts of marked variables, as bytes
pub mod row; // a row for each part
pub mod right_side; // the parts of a right side
pub mod sheet_parts; // all right sides

// Where a walk over a right side is: the place in the cells, how many variables are in scope, how many terms are left at this level,
// how many rows there are, and the next free place of the output, if there was room.
#[derive(Clone, Copy)]
pub struct PartWalk {
    pub at: usize,
    pub level: usize,
    pub need: usize,
    pub count: usize,
    pub w: Option<usize>,
}

// How many rows there are after a node, and the next free place of the output, if there was room: the rows are put without it too.
#[derive(Clone, Copy)]
pub struct Noted {
    pub count: usize,
    pub w: Option<usize>,
}
