// A gap: sum variables that no condition names, with some before and behind them that conditions name. They are not gone through.
ghost use Rattle.std.specs.Prelude.{◌≡◌, List, ℕ, ◌+◌, ◌≤◌, ◌<◌, length, get_or, drop, IfSome, IfOk, IfErr};
ghost use Rattle.pcrl.specs.Limits.{frame_width, max_variables, max_conditions};
ghost use Rattle.assignments.specs.Places.{product, digits_of, places, Sizes};
ghost use Rattle.evaluation.specs.Run.{foot};
ghost use Rattle.assignments.specs.Conditions.{env, code, Finds};
ghost use Rattle.assignments.specs.Parting.{Standing, part_met, Part, Gapped};

use crate::one_part::{find_from, find_in};
use crate::{Conditions, Gap, PerSum, Space, block_size, grain};
use limits::VARIABLES;

// Assignments of a variable before a gap, one in it and one behind it, at the fewest: two values each.
const FEWEST: usize = 8;

// The lowest variable from p on that a condition names, VARIABLES if none.
pub fn term_low(s: &[u8], from: usize, end: usize, p: usize) -> usize
    ensures { from + 1 ≤ end → end ≤ length s.now → result ≡ foot p (code s.now from end) }
{
    if s.len() <= from {
        return 0;
    }
    let v = evaluation::variables(s, from + 1, end, p);
    v.low
}

// The lowest variable from p on that any of the conditions names.
fn lowest(s: &[u8], c: &Conditions, p: usize) -> usize
    requires { c.now.count ≤ max_conditions }
    ensures { ((i : ℕ) → i < c.now.count → Standing s.now c.now.froms c.now.ends i) → (i : ℕ) → i < c.now.count → result ≤ foot p (code s.now (get_or c.now.froms i 0) (get_or c.now.ends i 0)) }
{
    let mut low: usize = VARIABLES;
    for i in 0..c.count {
        low = low.min(term_low(s, c.froms[i], c.ends[i], p));
    }
    low
}

// The gap behind the first h sum variables, if there is one.
fn gap_at(
    s: &[u8],
    p: usize,
    z: PerSum,
    c: &Conditions,
    g: usize,
    round: usize,
    h: usize,
) -> Option<Gap>
    requires { (p ≤ frame_width) × ((c.now.count ≤ max_conditions) × (Sizes z.at × (h < max_variables))) }
    ensures { IfSome result (λ t. ((0 < t.behind) × ((t.behind ≤ t.before) × (t.before ≤ 65536))) × ((blocks : List ℕ) → ((i : ℕ) → i < c.now.count → Standing s.now c.now.froms c.now.ends i) → Gapped s.now p z.at c.now.froms c.now.ends blocks c.now.count round t.before t.behind)) }
{
    let w = block_size(z, h);
    if w < round {
        if g < block_size(z, h + 1) {
            let b = grain(z, lowest(s, c, p + h), p);
            if b < w {
                return Some(Gap {
                    before: w,
                    behind: b,
                });
            }
        }
    }
    None
}

// The gap, if there is one: of four variables it is the second, the third, or both.
pub fn gap_of(s: &[u8], p: usize, z: PerSum, c: &Conditions, g: usize, round: usize) -> Option<Gap>
    requires { (p ≤ frame_width) × ((c.now.count ≤ max_conditions) × Sizes z.at) }
    ensures { IfSome result (λ t. ((0 < t.behind) × ((t.behind ≤ t.before) × (t.before ≤ 65536))) × ((blocks : List ℕ) → ((i : ℕ) → i < c.now.count → Standing s.now c.now.froms c.now.ends i) → Gapped s.now p z.at c.now.froms c.now.ends blocks c.now.count round t.before t.behind)) }
{
    if round < FEWEST {
        return None;
    }
    let x = gap_at(s, p, z, c, g, round, 1);
    if x.is_some() {
        return x;
    }
    gap_at(s, p, z, c, g, round, 2)
}

// The k-th of the assignments below `total` that meet the conditions asked, where there is a gap:
// in each block of the variables before it, what is met for its first values is met for all its values.
fn find_around(
    space: &Space,
    c: &Conditions,
    g: usize,
    t: Gap,
    total: usize,
    k: u64,
) -> Result<usize, u64>
    requires { (space.now.p ≤ frame_width) × (((i : ℕ) → space.now.p ≤ i → get_or space.now.params.at i 0 ≡ 0) × ((c.now.count ≤ max_conditions) × (Sizes space.now.z.at × ((total ≤ 65536) × ((0 < g) × ((g ≤ 65536) × ((0 < t.behind) × ((t.behind ≤ t.before) × (t.before ≤ 65536))))))))) }
    ensures { IfOk result (λ at. at ≤ 196608) × (IfErr result (λ left. left ≤ k) × ((l m : ℕ) → g ≡ product (drop l space.now.z.at) → total ≡ product (drop m space.now.z.at) → ((i : ℕ) → i < c.now.count → Part space.now.s.now space.now.p space.now.z.at c.now.froms c.now.ends c.now.blocks g i) → Gapped space.now.s.now space.now.p space.now.z.at c.now.froms c.now.ends c.now.blocks c.now.count total t.before t.behind → Finds (places (λ j. part_met space.now.s.now space.now.funcs.now c.now.froms c.now.ends c.now.blocks c.now.count (env space.now.p space.now.params.at (digits_of space.now.z.at j))) total 0) k result)) }
{
    let w = t.before;
    let b = t.behind;
    let rounds = (w / b) as u64;
    let mut left = k;
    for j in (0..total).step_by(w) {
        let to = j + b;
        let rest = match find_from(space, c, g, j, to, left) {
            Ok(at) => return Ok(at),
            Err(rest) => rest,
        };
        let m = left - rest;
        if left / rounds < m {
            let i = left % m;
            let at = find_from(space, c, g, j, to, i)?;
            return Ok((left / m) as usize * b + at);
        }
        left -= m * rounds;
    }
    Err(left)
}

// The k-th of the assignments in one round, around the gap if there is one.
pub fn find_once(
    space: &Space,
    c: &Conditions,
    g: usize,
    t: Option<Gap>,
    round: usize,
    k: u64,
) -> Result<usize, u64>
    requires { (space.now.p ≤ frame_width) × (((i : ℕ) → space.now.p ≤ i → get_or space.now.params.at i 0 ≡ 0) × ((c.now.count ≤ max_conditions) × (Sizes space.now.z.at × ((round ≤ 65536) × ((0 < g) × ((g ≤ 65536) × IfSome t (λ t. (0 < t.behind) × ((t.behind ≤ t.before) × (t.before ≤ 65536))))))))) }
    ensures { IfOk result (λ at. at ≤ 196608) × (IfErr result (λ left. left ≤ k) × ((l m : ℕ) → g ≡ product (drop l space.now.z.at) → round ≡ product (drop m space.now.z.at) → ((i : ℕ) → i < c.now.count → Part space.now.s.now space.now.p space.now.z.at c.now.froms c.now.ends c.now.blocks g i) → IfSome t (λ t. Gapped space.now.s.now space.now.p space.now.z.at c.now.froms c.now.ends c.now.blocks c.now.count round t.before t.behind) → Finds (places (λ j. part_met space.now.s.now space.now.funcs.now c.now.froms c.now.ends c.now.blocks c.now.count (env space.now.p space.now.params.at (digits_of space.now.z.at j))) round 0) k result)) }
{
    match t {
        Some(gap) => find_around(space, c, g, gap, round, k),
        None => find_in(space, c, g, round, k),
    }
}
