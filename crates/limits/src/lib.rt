#![tactic(auto)]
// The numbers of document 01 in code, each once, in the order of pcrl's Limits.

// "At most 4,096 bytes"
pub const MAX_BYTES: usize = 4096;

// "the whole run at most 16 characters"
pub const MAX_NAME: usize = 16;

// "at most 255"
pub const MAX_NUMERAL: usize = 255;

// "Never more than 16 round brackets open"
pub const MAX_OPEN: usize = 16;

// "At most 8 sorts with Bool, sizes 1 to 16; 16 functions; 32 actions; 16 processes of 0 to 4 parameters"
pub const MAX_SORTS: usize = 8;

pub const MAX_SIZE: usize = 16;

pub const MAX_FUNCTIONS: usize = 16;

pub const MAX_ACTIONS: usize = 32;

pub const MAX_PROCESSES: usize = 16;

// "A frame is an equation number and four values": an equation has as many parameters at the most.
pub const FRAME_WIDTH: usize = 4;

// A frame in bytes: the number and the values.
pub const FRAME: usize = 1 + FRAME_WIDTH;

// "Functions have one or two sorts, actions none to two."
pub const MAX_ARITY: usize = 2;

// "64 equations; 4 parameters; 255 summands in all; per summand 4 sum variables, 8 conditions, 8 calls; 31 nodes a data term;
// 64,768 stream bytes."
pub const MAX_EQUATIONS: usize = 64;

pub const MAX_SUMMANDS: usize = 255;

pub const MAX_VARIABLES: usize = 4;

// The variables of a summand with the parameters before them, at the most.
pub const VARIABLES: usize = FRAME_WIDTH + MAX_VARIABLES;

pub const MAX_CONDITIONS: usize = 8;

pub const MAX_CALLS: usize = 8;

pub const MAX_NODES: usize = 31;

pub const MAX_STREAM: usize = 64768;

// "exactly 64 frames lent"
pub const STACK_LIMIT: usize = 64;

// All frames of a stack in bytes.
pub const STACK_BYTES: usize = STACK_LIMIT * FRAME;

// "Bool, size 2, is always there first"
pub const BOOL: usize = 0;

pub const BOOL_SIZE: usize = 2;

// "action (hex FF for tau)"
pub const TAU: u8 = 0xFF;

// #104: the stream "starts with hex F2".
pub const NAMES_CODE: u8 = 0xF2;

// The most bytes of a sort's name: in a table without hex F2 a run of 17 letters and an index of one digit.
pub const MAX_SORT_NAME: usize = 18;

// Data in a stream: "value v is v; variable i is 20 + i, parameters first; function i is 40 + i", and by #102 60 to 63.
pub const VARIABLE_CODE: usize = 0x20;

pub const FUNCTION_CODE: usize = 0x40;

pub const NOT_CODE: usize = 0x60;

pub const EQUAL_CODE: usize = 0x61;

pub const AND_CODE: usize = 0x62;

pub const OR_CODE: usize = 0x63;

// The most bytes of a data term, `max_term` of crate laws.
pub const MAX_TERM: usize = 46;

// In the index of a table: a place for each function, and behind them the size of each sort.
pub const FUNCTION_CELLS: usize = MAX_FUNCTIONS + MAX_SORTS;
