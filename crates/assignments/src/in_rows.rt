// Where the search by rows of blocks pays: one block for each value of the last variable that the conditions name. Rows that differ in one more variable are searched together, in strips.
ghost use Rattle.std.specs.Prelude.{◌≡◌, true, ℕ, ◌+◌, ◌≤◌, ◌<◌, get_or, drop, IfSome, IfOk, IfErr};
ghost use Rattle.pcrl.specs.Limits.{frame_width, max_variables, max_conditions};
ghost use Rattle.assignments.specs.Places.{product, digits_of, Sizes};
ghost use Rattle.assignments.specs.Conditions.{env};
ghost use Rattle.assignments.specs.Parting.{part_met, Part};
ghost use Rattle.assignments.specs.Lanes.{Came};

use crate::one_part::next;
use crate::strips::by_strips;
use crate::{Conditions, PerSum, Reached, Space, block_size};
use evaluation::lanes::{LANES, MARK_ROOM, ROW_ROOM};
use limits::MAX_VARIABLES;

// So many blocks are enough to look for rows, and a row has so many at the fewest.
const MANY: usize = 16;

const FEW: u8 = 4;

// Does a variable of more than one value stand at a level, and are blocks of g those of the variables behind it?
fn varies(z: PerSum, g: usize, l: usize) -> bool
    requires { Sizes z.at × (l < max_variables) }
    ensures { result ≡ true → g ≡ product (drop (l + 1) z.at) }
{
    if block_size(z, l + 1) == g {
        let a = z.at;
        return 1 < a[l];
    }
    false
}

// The level of the last variable on which blocks of g hang.
fn row_level(z: PerSum, g: usize) -> Option<usize>
    requires { Sizes z.at }
    ensures { IfSome result (λ l. (l < max_variables) × (g ≡ product (drop (l + 1) z.at))) }
{
    for l in (0..MAX_VARIABLES).rev() {
        if varies(z, g, l) {
            return Some(l);
        }
    }
    None
}

// Where rows begin to pay: behind the first one, if there are more.
pub fn first_row(z: PerSum, g: usize, from: usize, to: usize) -> usize
    requires { Sizes z.at × ((to ≤ 131072) × ((0 < g) × (g ≤ 65536))) }
{
    if to <= from {
        return to;
    }
    if to - from <= MANY * g {
        return to;
    }
    let Some(l) = row_level(z, g) else {
        return to;
    };
    let a = z.at;
    if a[l] < FEW {
        return to;
    }
    next(from, block_size(z, l))
}

pub fn narrow(x: usize) -> u32
    requires { x ≤ 65536 }
    ensures { result ≡ x }
{
    x as u32
}

// The search goes on by rows from `from` on, as far as rows stand before `to`: what is found, or how far it came and how much of k is left there.
pub fn find_rows(
    space: &Space,
    c: &Conditions,
    g: usize,
    from: usize,
    to: usize,
    k: u64,
) -> Result<usize, Reached>
    requires { (space.now.p ≤ frame_width) × (((i : ℕ) → space.now.p ≤ i → get_or space.now.params.at i 0 ≡ 0) × ((c.now.count ≤ max_conditions) × (Sizes space.now.z.at × ((to ≤ 131072) × ((0 < g) × (g ≤ 65536)))))) }
    ensures { IfOk result (λ at. at ≤ to) × (IfErr result (λ r. from ≤ r.at) × (IfErr result (λ r. r.left ≤ k) × ((l : ℕ) → g ≡ product (drop l space.now.z.at) → ((i : ℕ) → i < c.now.count → Part space.now.s.now space.now.p space.now.z.at c.now.froms c.now.ends c.now.blocks g i) → Came (λ j. part_met space.now.s.now space.now.funcs.now c.now.froms c.now.ends c.now.blocks c.now.count (env space.now.p space.now.params.at (digits_of space.now.z.at j))) to from k result))) }
{
    let here = Reached { at: from, left: k };
    let Some(l) = row_level(space.z, g) else {
        return Err(here);
    };
    let w = block_size(space.z, l);
    let Some(u) = row_level(space.z, w) else {
        return Err(here);
    };
    if l <= u {
        return Err(here);
    }
    let mut rows = [0u8; ROW_ROOM];
    let mut marks = [0u8; MARK_ROOM];
    let mut slow = [0u8; LANES];
    let mut fast = [0u8; LANES];
    let mut met = [0u8; LANES];
    by_strips(
        space, c, g, l, u, w, from, to, k, &mut rows, &mut marks, &mut slow, &mut fast, &mut met,
    )
}
