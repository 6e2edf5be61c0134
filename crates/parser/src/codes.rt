// The tags and counts of the tree's cells (specs/Cells.antt). Other cells are tokens, as the lexer writes them. All are numbers, since they
// stand in an array that is lent (fixed memory).
pub const VALUE_TAG: u16 = 1;

pub const VARIABLE_TAG: u16 = 2;

pub const APPLY_TAG: u16 = 3;

pub const ONE_TAG: u16 = 4;

pub const MORE_TAG: u16 = 5;

pub const ONLY_TAG: u16 = 6;

pub const PLUS_TAG: u16 = 7;

pub const PLAIN_TAG: u16 = 8;

pub const COND_TAG: u16 = 9;

pub const LAST_TAG: u16 = 10;

pub const THEN_TAG: u16 = 11;

pub const DELTA_TAG: u16 = 12;

pub const TAU_TAG: u16 = 13;

pub const BARE_TAG: u16 = 14;

pub const GIVEN_TAG: u16 = 15;

pub const SUM_TAG: u16 = 16;

pub const GROUP_TAG: u16 = 17;

pub const END_TAG: u16 = 18;

pub const ITEM_TAG: u16 = 19;

pub const SORT_TAG: u16 = 20;

pub const FUNC_TAG: u16 = 21;

pub const ACT_TAG: u16 = 22;

pub const PROC_TAG: u16 = 23;

pub const INIT_TAG: u16 = 24;

pub const ALONE_TAG: u16 = 25;

pub const EQUAL_TAG: u16 = 26;

pub const NOT_TAG: u16 = 27;

pub const NEST_TAG: u16 = 28;

// Where the counts of operands begin: of `\/`, and of `/\`.
pub const FIRST_ORS: u16 = 8192;

pub const FIRST_ANDS: u16 = 16384;
