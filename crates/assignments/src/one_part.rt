// The search with one part of the conditions: blocks of assignments are passed or counted as wholes, and rounds of them.
ghost use Rattle.std.specs.Prelude.{◌≡◌, ℕ, ◌+◌, ◌-◌, ◌/◌, ◌≤◌, ◌<◌, length, get_or, drop, IfOk, IfErr};
ghost use Rattle.pcrl.specs.Limits.{frame_width, max_conditions};
ghost use Rattle.laws.specs.TermLength.{max_term};
ghost use Rattle.assignments.specs.Places.{product, digits_of, places, Sizes};
ghost use Rattle.assignments.specs.Conditions.{env, holds, tried_of, Tested, Finds};
ghost use Rattle.assignments.specs.Parting.{Standing, asked, part_met, Part};

use crate::in_rows::{find_rows, first_row};
use crate::{Conditions, Space, environment, values, wide_block};

// The first number of the next block of d.
pub fn next(j: usize, d: usize) -> usize
    requires { (0 < d) × ((d < 4294967296) × (j < 131072)) }
    ensures { (j < result) × ((i : ℕ) → j ≤ i → i < result → i / d ≡ j / d) }
{
    (j / d + 1) * d
}

// The larger of out and the condition's block, if the condition fails; it is not evaluated if that changes nothing.
fn tried(s: &[u8], funcs: &[u16], e: &[u8], from: usize, end: usize, block: u32, out: u32) -> u32
    ensures { from + 1 ≤ end → end ≤ from + 1 + max_term → end ≤ length s.now → result ≡ tried_of (holds s.now funcs.now e.now from end) block out }
{
    if block <= out {
        return out;
    }
    if s.len() <= from {
        return out;
    }
    let v = evaluation::value(s, funcs, e, from + 1, end);
    if v == s[from] {
        return out;
    }
    block
}

// The block of a condition that fails, the largest of such blocks; `least` if none is larger. A condition with a block no larger than that is not asked.
pub fn test(s: &[u8], funcs: &[u16], e: &[u8], c: &Conditions, least: u32) -> u32
    requires { c.now.count ≤ max_conditions }
    ensures { ((i : ℕ) → i < c.now.count → Standing s.now c.now.froms c.now.ends i) → Tested (asked s.now funcs.now c.now.froms c.now.ends c.now.blocks e.now) c.now.blocks least c.now.count result }
{
    let mut out = least;
    for i in 0..c.count {
        out = tried(s, funcs, e, c.froms[i], c.ends[i], c.blocks[i], out);
    }
    out
}

// The k-th of the assignments from `from` on and before `to` that meet the conditions asked, or how much of k is left; what they say changes only between blocks of g.
pub fn find_from(
    space: &Space,
    c: &Conditions,
    g: usize,
    from: usize,
    to: usize,
    k: u64,
) -> Result<usize, u64>
    requires { (space.now.p ≤ frame_width) × (((i : ℕ) → space.now.p ≤ i → get_or space.now.params.at i 0 ≡ 0) × ((c.now.count ≤ max_conditions) × (Sizes space.now.z.at × ((to ≤ 131072) × ((0 < g) × (g ≤ 65536)))))) }
    ensures { IfOk result (λ at. at ≤ to) × (IfErr result (λ left. left ≤ k) × ((l : ℕ) → g ≡ product (drop l space.now.z.at) → ((i : ℕ) → i < c.now.count → Part space.now.s.now space.now.p space.now.z.at c.now.froms c.now.ends c.now.blocks g i) → Finds (places (λ j. part_met space.now.s.now space.now.funcs.now c.now.froms c.now.ends c.now.blocks c.now.count (env space.now.p space.now.params.at (digits_of space.now.z.at j))) (to - from) from) k result)) }
{
    let mut j = from;
    let mut left = k;
    let mut start = first_row(space.z, g, from, to);
    while j < to {
        if start <= j {
            let r = match find_rows(space, c, g, j, to, left) {
                Ok(at) => return Ok(at),
                Err(r) => r,
            };
            start = to;
            left = r.left;
            j = r.at;
            continue;
        }
        let e = environment(space.params, space.p, values(space.z, j));
        let a = e.at;
        let d = test(space.s, space.funcs, &a, c, 0);
        if d == 0 {
            let r = next(j, g).min(to);
            let m = (r - j) as u64;
            if left < m {
                return Ok(j + (left as usize));
            }
            left -= m;
            j = r;
        } else {
            j = next(j, wide_block(d));
        }
    }
    Err(left)
}

// The same from the first assignment on.
pub fn find_in(space: &Space, c: &Conditions, g: usize, total: usize, k: u64) -> Result<usize, u64>
    requires { (space.now.p ≤ frame_width) × (((i : ℕ) → space.now.p ≤ i → get_or space.now.params.at i 0 ≡ 0) × ((c.now.count ≤ max_conditions) × (Sizes space.now.z.at × ((total ≤ 65536) × ((0 < g) × (g ≤ 65536)))))) }
    ensures { IfOk result (λ at. at ≤ 65536) × (IfErr result (λ left. left ≤ k) × ((l : ℕ) → g ≡ product (drop l space.now.z.at) → ((i : ℕ) → i < c.now.count → Part space.now.s.now space.now.p space.now.z.at c.now.froms c.now.ends c.now.blocks g i) → Finds (places (λ j. part_met space.now.s.now space.now.funcs.now c.now.froms c.now.ends c.now.blocks c.now.count (env space.now.p space.now.params.at (digits_of space.now.z.at j))) total 0) k result)) }
{
    find_from(space, c, g, 0, total, k)
}
