// The search in all rounds of the variables from the first that a condition names on: what is found in one of them is found in each.
ghost use Rattle.std.specs.Prelude.{◌≡◌, ℕ, ◌-◌, ◌≤◌, ◌<◌, get_or, drop, IfOk, IfErr};
ghost use Rattle.pcrl.specs.Limits.{frame_width, max_conditions};
ghost use Rattle.assignments.specs.Places.{product, digits_of, places, Sizes};
ghost use Rattle.assignments.specs.Conditions.{env, Finds};
ghost use Rattle.assignments.specs.Parting.{part_met, Part, Above};

use crate::gaps::{find_once, gap_of};
use crate::{Conditions, Space, block_size};

// The k-th of all assignments that meet the conditions asked, or how much of k is left: they say the same again after each round.
pub fn find_rounds(
    space: &Space,
    c: &Conditions,
    g: usize,
    round: usize,
    k: u64,
) -> Result<usize, u64>
    requires { (space.now.p ≤ frame_width) × (((i : ℕ) → space.now.p ≤ i → get_or space.now.params.at i 0 ≡ 0) × ((c.now.count ≤ max_conditions) × (Sizes space.now.z.at × ((round ≤ 65536) × ((0 < round) × ((0 < g) × (g ≤ 65536))))))) }
    ensures { IfOk result (λ at. at ≤ 262144) × (IfErr result (λ left. left ≤ k) × ((l low : ℕ) → g ≡ product (drop l space.now.z.at) → round ≡ product (drop (low - space.now.p) space.now.z.at) → ((i : ℕ) → i < c.now.count → Part space.now.s.now space.now.p space.now.z.at c.now.froms c.now.ends c.now.blocks g i) → Above space.now.s.now space.now.p c.now.froms c.now.ends c.now.blocks c.now.count low → Finds (places (λ j. part_met space.now.s.now space.now.funcs.now c.now.froms c.now.ends c.now.blocks c.now.count (env space.now.p space.now.params.at (digits_of space.now.z.at j))) (product space.now.z.at) 0) k result)) }
{
    let total = block_size(space.z, 0);
    let t = gap_of(space.s, space.p, space.z, c, g, round);
    let left = match find_once(space, c, g, t, round, k) {
        Ok(at) => return Ok(at),
        Err(left) => left,
    };
    let m = k - left;
    if m == 0 {
        return Err(left);
    }
    if round == total {
        return Err(left);
    }
    let q = k / m;
    let rounds = (total / round) as u64;
    if rounds <= q {
        return Err(k - m * rounds);
    }
    let i = k % m;
    let at = find_once(space, c, g, t, round, i)?;
    Ok((q as usize) * round + at)
}
