#![tactic(auto)]
// The reader of nodes: what stands at a place of the cells that hold a resolved sheet, and where the next thing stands.
ghost use Rattle.std.specs.Prelude.{◌≡◌, ℕ, ◌+◌, ◌≤◌, ◌<◌, eqb, length, get_or};
ghost use Rattle.pcrl.specs.Tests.{or};
ghost use Rattle.nodes.specs.Layout.{cell_limit};
ghost use Rattle.nodes.specs.Bits.{bit, set_width};
ghost use Rattle.nodes.specs.Views.{OnData, DataViews, SkipsData, On, Views, Skips};

use elements::cell;

// The tags of data cells and the kinds of nodes, as in Layout.
pub const VALUE: usize = 0;

pub const VARIABLE: usize = 1;

pub const FUNCTION: usize = 2;

// The numbers of operators among those of functions, as in Sheet; `==` at the sort D is EQUAL + D.
// UNSORTED, `unsorted_number`, is no function: `equal_at` of Names gives it to `==` over two numerals.
pub const NOT: usize = 32;

pub const UNSORTED: usize = 33;

pub const AND: usize = 34;

pub const OR: usize = 35;

pub const EQUAL: usize = 256;

pub const DELTA: usize = 0;

pub const SUM: usize = 1;

pub const ALT: usize = 2;

pub const ATOM: usize = 4;

pub const COND: usize = 6;

pub const CALL: usize = 8;

pub const SEQ: usize = 10;

pub const AFTER: usize = 16;

// A node's number stands in its first cell, so many times itself.
pub const NUMBER: usize = 32;

// The cells of a node before its data: the first, how many cells the data take, and how many terms they are.
pub const HEADER: usize = 3;

// The bytes of a row, as in Held.
pub const FUNC_ROW: usize = 4;

pub const ACT_ROW: usize = 3;

pub const PROC_ROW: usize = limits::FRAME;

// Where in a function's row the sort stands that it gives.
pub const GIVES: usize = 3;

// Numbers of variables in scope are below this: a set of them is the bits of a u32.
pub const MAX_SCOPE: usize = 32;

// How many sorts, functions, actions and processes a held sheet has, and where init stands in its cells.
#[derive(Clone, Copy)]
pub struct Outline {
    pub sorts: usize,
    pub funcs: usize,
    pub acts: usize,
    pub procs: usize,
    pub init: usize,
}

// The first node of a data term: value, variable or function, its number, how many arguments it has, and where they stand.
#[derive(Clone, Copy)]
pub struct Datum {
    pub tag: usize,
    pub number: usize,
    pub kids: usize,
    pub next: usize,
}

// The first node of a process term: its kind, 1 if it gets a new equation, its number, where its data terms stand and how many,
// how many subterms it has, and where they stand.
#[derive(Clone, Copy)]
pub struct Node {
    pub kind: usize,
    pub own: usize,
    pub number: usize,
    pub terms: usize,
    pub datas: usize,
    pub kids: usize,
    pub next: usize,
}

// A term passed: the place after it, and how many new equations it has.
#[derive(Clone, Copy)]
pub struct Skipped {
    pub next: usize,
    pub own: usize,
}

// The first node of the data term at a place.
pub fn data_at(cells: &[u16], at: usize) -> Datum
    requires { at < length cells.now }
    ensures on_data { OnData at result }
    ensures data_views { DataViews cells.now at result }
{
    let k = cell(cells, at);
    if k % 4 == FUNCTION {
        let n = cell(cells, at + 1);
        return Datum {
            tag: k % 4,
            number: k / 4,
            kids: n,
            next: at + 2,
        };
    }
    Datum {
        tag: k % 4,
        number: k / 4,
        kids: 0,
        next: at + 1,
    }
}

// The place after n data terms.
pub fn skip_data(cells: &[u16], at: usize, n: usize) -> usize
    requires { n < cell_limit }
    ensures lower_bound { at ≤ result }
    ensures skips_data { SkipsData cells.now at n result }
{
    let mut p = at;
    let mut need = n;
    while need > 0 {
        if p >= cells.len() {
            return p;
        }
        // more terms than cells: no data
        if need > cells.len() {
            return p;
        }
        let d = data_at(cells, p);
        need = need - 1 + d.kids;
        p = d.next;
    }
    p
}

// The place behind the n data terms of the node at `at`. Where there are none no cell is read: the processor need not wait for it.
fn behind_data(cells: &[u16], at: usize, n: usize) -> usize
    requires { at < length cells.now }
    ensures { (at + 3 ≤ result) × (n ≡ 0 → result ≡ at + 3) × (0 < n → result ≡ at + 3 + get_or cells.now (at + 1) 0) }
{
    if n == 0 {
        return at + HEADER;
    }
    at + HEADER + cell(cells, at + 1)
}

// The first node of the process term at a place.
pub fn node_at(cells: &[u16], at: usize) -> Node
    requires { at < length cells.now }
    ensures on { On at result }
    ensures views { Views cells.now at result }
{
    let k = cell(cells, at);
    let n = cell(cells, at + 2);
    Node {
        kind: k % AFTER,
        own: k / AFTER % 2,
        number: k / NUMBER,
        terms: at + HEADER,
        datas: n,
        kids: k % 4,
        next: behind_data(cells, at, n),
    }
}

// The process term at a place, passed by a loop over its nodes.
pub fn skip(cells: &[u16], at: usize) -> Skipped
    ensures at_le_next { at ≤ result.next }
    ensures skips { Skips cells.now at result }
{
    let mut p = at;
    let mut need: usize = 1;
    let mut n: usize = 0;
    while need > 0 {
        if p >= cells.len() {
            return Skipped { next: p, own: n };
        }
        let d = node_at(cells, p);
        need = need - 1 + d.kids;
        n += d.own;
        p = d.next;
    }
    Skipped { next: p, own: n }
}

// A set of numbers, the bits of a u32, with one number more.
pub fn with_bit(set: u32, k: usize) -> u32
    requires { k < set_width }
    ensures { (i : ℕ) → bit i result ≡ or (bit i set) (eqb i k) }
{
    set | (1u32 << (k as u32))
}
