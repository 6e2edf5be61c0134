#![tactic(auto)]
// The k-th assignment of a summand's sum variables that meets its conditions: a counter that goes over blocks of assignments.
ghost use Rattle.std.specs.Prelude.{◌≡◌, Bool, true, ℕ, ◌-◌, ◌*◌, ◌/◌, ◌%◌, ◌≤◌, ◌<◌, get_or, drop};
ghost use Rattle.pcrl.specs.Limits.{max_size, frame_width, max_variables, max_conditions};
ghost use Rattle.assignments.specs.Places.{product, digits_of, places, Sizes};
ghost use Rattle.assignments.specs.Conditions.{env, met, Ready, Finds};

pub mod one_part; // the search with one part of the conditions
pub mod in_rows; // the same by rows of blocks
pub mod strips; // rows that are searched together
pub mod gaps; // variables that no condition names, between others
pub mod rounds; // the search in all rounds
pub mod two_parts; // the conditions parted in two, and the search with both parts

use limits::{MAX_CONDITIONS, MAX_VARIABLES, VARIABLES};
use rounds::find_rounds;
use two_parts::{find_parted, split};

// One for each sum variable: sizes of their sorts, 1 where there is no variable; or their values.
#[derive(Clone, Copy)]
pub struct PerSum {
    pub at: [u8; MAX_VARIABLES],
}

// A value for each variable: parameters, then sum variables.
#[derive(Clone, Copy)]
pub struct PerVariable {
    pub at: [u8; VARIABLES],
}

// What is searched: p parameters have values, and the sum variables sorts of these sizes; terms stand in the stream.
#[derive(Clone, Copy)]
pub struct Space<'a> {
    pub s: &'a [u8],
    pub funcs: &'a [u16],
    pub params: PerVariable,
    pub p: usize,
    pub z: PerSum,
}

// The conditions of a summand: where each begins and ends, the block of assignments that it fails on as a whole;
// how many there are, one more than the highest variable that they name, the lowest sum variable that they name, and where they all end.
#[derive(Clone, Copy)]
pub struct Conditions {
    pub froms: [usize; MAX_CONDITIONS],
    pub ends: [usize; MAX_CONDITIONS],
    pub blocks: [u32; MAX_CONDITIONS],
    pub count: usize,
    pub reach: usize,
    pub low: usize,
    pub end: usize,
}

// The conditions in two parts.
#[derive(Clone, Copy)]
pub struct Parts {
    pub early: [u32; MAX_CONDITIONS],
    pub late: [u32; MAX_CONDITIONS],
    pub grain: usize,
    pub low: usize,
}

// Blocks of the sum variables behind the first ones, before a gap, and of those behind it.
#[derive(Clone, Copy)]
pub struct Gap {
    pub before: usize,
    pub behind: usize,
}

// How far a search by rows came, and how much of k is left there.
#[derive(Clone, Copy)]
pub struct Reached {
    pub at: usize,
    pub left: u64,
}

fn times(a: u8, b: usize) -> usize
    requires { (a ≤ max_size) × (b ≤ 4096) }
    ensures { (result ≡ a * b) × (result ≤ max_size * b) }
{
    (a as usize) * b
}

// The number of assignments of the variables from a level on.
pub fn block_size(s: PerSum, l: usize) -> usize
    requires { Sizes s.at }
    ensures { (result ≡ product (drop l s.at)) × (result ≤ 65536) }
{
    if MAX_VARIABLES <= l {
        return 1;
    }
    let s3 = times(s.at[3], 1);
    if l == 3 {
        return s3;
    }
    let s2 = times(s.at[2], s3);
    if l == 2 {
        return s2;
    }
    let s1 = times(s.at[1], s2);
    if l == 1 {
        return s1;
    }
    times(s.at[0], s1)
}

// The block of assignments on which nothing changes that names only variables below h; p of them are parameters.
pub fn grain(sizes: PerSum, h: usize, p: usize) -> usize
    requires { Sizes sizes.at }
    ensures { (result ≡ product (drop (h - p) sizes.at)) × (result ≤ 65536) }
{
    if h < p {
        return block_size(sizes, 0);
    }
    block_size(sizes, h - p)
}

pub fn wide_block(x: u32) -> usize
    ensures { (result ≡ x) × (result < 4294967296) }
{
    x as usize
}

// A division takes longer than to see that there is nothing to divide by.
fn digit(j: usize, s: u8) -> u8
    requires { 0 < s }
    ensures { result ≡ j % s }
{
    if s == 1 {
        return 0;
    }
    (j % (s as usize)) as u8
}

fn quotient(j: usize, s: u8) -> usize
    requires { 0 < s }
    ensures { result ≡ j / s }
{
    if s == 1 {
        return j;
    }
    j / (s as usize)
}

// Assignment j.
pub fn values(s: PerSum, j: usize) -> PerSum
    requires { (i : ℕ) → i < max_variables → 0 < get_or s.at i 0 }
    ensures { result.at ≡ digits_of s.at j }
{
    let s3 = s.at[3];
    let s2 = s.at[2];
    let s1 = s.at[1];
    let s0 = s.at[0];
    let j2 = quotient(j, s3);
    let j1 = quotient(j2, s2);
    let j0 = quotient(j1, s1);
    let v = [digit(j0, s0), digit(j1, s1), digit(j2, s2), digit(j, s3)];
    PerSum { at: v }
}

// The values w are put behind p parameters.
pub fn environment(params: PerVariable, p: usize, w: PerSum) -> PerVariable
    requires { (p ≤ frame_width) × ((i : ℕ) → p ≤ i → get_or params.at i 0 ≡ 0) }
    ensures { (i : ℕ) → get_or result.at i 0 ≡ get_or (env p params.at w.at) i 0 }
{
    let mut a = params.at;
    a[p] = w.at[0];
    a[p + 1] = w.at[1];
    a[p + 2] = w.at[2];
    a[p + 3] = w.at[3];
    PerVariable { at: a }
}

// The k-th of all assignments, or how much of k is left.
pub fn find_any(sizes: PerSum, k: u64) -> Result<usize, u64>
    requires { Sizes sizes.at }
    ensures { (acc : ℕ → Bool) → ((i : ℕ) → acc i ≡ true) → Finds (places acc (product sizes.at) 0) k result }
{
    let total = block_size(sizes, 0) as u64;
    if k < total {
        return Ok(k as usize);
    }
    Err(k - total)
}

// The k-th assignment that meets the conditions, or how much of k is left.
pub fn find(
    s: &[u8],
    funcs: &[u16],
    params: PerVariable,
    p: usize,
    sizes: PerSum,
    c: &Conditions,
    k: u64,
) -> Result<usize, u64>
    requires { (p ≤ frame_width) × (((i : ℕ) → p ≤ i → get_or params.at i 0 ≡ 0) × ((c.now.count ≤ max_conditions) × Sizes sizes.at)) }
    ensures { ((i : ℕ) → i < c.now.count → Ready s.now p sizes.at c.now.froms c.now.ends c.now.blocks c.now.reach c.now.low i) → Finds (places (λ j. met s.now funcs.now c.now.froms c.now.ends c.now.count (env p params.at (digits_of sizes.at j))) (product sizes.at) 0) k result }
{
    if c.count == 0 {
        return find_any(sizes, k);
    }
    let g = grain(sizes, c.reach, p);
    let round = grain(sizes, c.low, p);
    let space = Space {
        s: s,
        funcs: funcs,
        params: params,
        p: p,
        z: sizes,
    };
    if 1 < c.count {
        if let Some(t) = split(s, p, sizes, c, g, c.low) {
            return find_parted(&space, c, t, g, round, k);
        }
    }
    find_rounds(&space, c, g, round, k)
}
