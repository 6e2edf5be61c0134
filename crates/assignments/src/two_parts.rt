// The conditions in two parts, which are searched apart.
ghost use Rattle.std.specs.Prelude.{◌≡◌, List, ℕ, ◌+◌, ◌-◌, ◌≤◌, ◌<◌, length, get_or, drop, IfSome};
ghost use Rattle.pcrl.specs.Limits.{frame_width, max_variables, max_conditions};
ghost use Rattle.assignments.specs.Places.{product, digits_of, places, Sizes};
ghost use Rattle.assignments.specs.Conditions.{env, met, Ready, Finds};
ghost use Rattle.assignments.specs.Parting.{Apart};

use crate::gaps::term_low;
use crate::one_part::find_in;
use crate::rounds::find_rounds;
use crate::{Conditions, Parts, PerSum, Space, block_size, grain, wide_block};
use limits::{MAX_CONDITIONS, VARIABLES};

// The conditions in two parts: blocks of the early ones, which are of b assignments at least, and of the late ones; 0 for a condition that is not of the part.
// `grain`: the early ones change only between blocks of it; `low`: the late ones name no sum variable before it. No parts, if that is below level l.
fn parted(s: &[u8], p: usize, c: &Conditions, b: usize, total: usize, l: usize) -> Option<Parts>
    requires { (p ≤ frame_width) × ((c.now.count ≤ max_conditions) × ((0 < b) × ((0 < total) × ((total ≤ 65536) × (l ≤ max_variables))))) }
    ensures { IfSome result (λ t. ((0 < t.grain) × (t.grain ≤ 65536)) × ((sizes : List ℕ) (reach low : ℕ) → Sizes sizes → length sizes ≡ max_variables → total ≡ product sizes → b ≡ product (drop l sizes) → ((i : ℕ) → i < c.now.count → Ready s.now p sizes c.now.froms c.now.ends c.now.blocks reach low i) → Apart s.now p sizes c.now.froms c.now.ends c.now.blocks c.now.count t)) }
{
    let mut early = [0u32; MAX_CONDITIONS];
    let mut late = [0u32; MAX_CONDITIONS];
    let mut grain = total;
    let mut low: usize = VARIABLES;
    for i in 0..c.count {
        let d = c.blocks[i];
        let w = wide_block(d);
        if w < b {
            late[i] = d;
            low = low.min(term_low(s, c.froms[i], c.ends[i], p));
        } else {
            early[i] = d;
            grain = grain.min(w);
        }
    }
    let apart = p + l <= low;
    if apart {
        return Some(Parts {
            early: early,
            late: late,
            grain: grain,
            low: low,
        });
    }
    None
}

// The conditions parted at level l, unless all are early or all are late.
fn apart_at(
    s: &[u8],
    p: usize,
    sizes: PerSum,
    c: &Conditions,
    g: usize,
    low: usize,
    l: usize,
) -> Option<Parts>
    requires { (p ≤ frame_width) × ((c.now.count ≤ max_conditions) × (Sizes sizes.at × (l ≤ max_variables))) }
    ensures { IfSome result (λ t. ((0 < t.grain) × (t.grain ≤ 65536)) × ((reach low : ℕ) → ((i : ℕ) → i < c.now.count → Ready s.now p sizes.at c.now.froms c.now.ends c.now.blocks reach low i) → Apart s.now p sizes.at c.now.froms c.now.ends c.now.blocks c.now.count t)) }
{
    let b = block_size(sizes, l);
    if low < p + l {
        if g < b {
            return parted(s, p, c, b, block_size(sizes, 0), l);
        }
    }
    None
}

// The conditions parted where they come apart, in the middle if they do there.
pub fn split(
    s: &[u8],
    p: usize,
    sizes: PerSum,
    c: &Conditions,
    g: usize,
    low: usize,
) -> Option<Parts>
    requires { (p ≤ frame_width) × ((c.now.count ≤ max_conditions) × Sizes sizes.at) }
    ensures { IfSome result (λ t. ((0 < t.grain) × (t.grain ≤ 65536)) × ((reach low : ℕ) → ((i : ℕ) → i < c.now.count → Ready s.now p sizes.at c.now.froms c.now.ends c.now.blocks reach low i) → Apart s.now p sizes.at c.now.froms c.now.ends c.now.blocks c.now.count t)) }
{
    let x = apart_at(s, p, sizes, c, g, low, 2);
    if x.is_some() {
        return x;
    }
    let y = apart_at(s, p, sizes, c, g, low, 3);
    if y.is_some() {
        return y;
    }
    apart_at(s, p, sizes, c, g, low, 1)
}

// The k-th assignment that meets the conditions of both parts: each block that the early ones accept has in it what the late ones accept of one.
pub fn find_parted(
    space: &Space,
    c: &Conditions,
    t: Parts,
    g: usize,
    round: usize,
    k: u64,
) -> Result<usize, u64>
    requires { (space.now.p ≤ frame_width) × (((i : ℕ) → space.now.p ≤ i → get_or space.now.params.at i 0 ≡ 0) × ((c.now.count ≤ max_conditions) × (Sizes space.now.z.at × ((round ≤ 65536) × ((0 < round) × ((0 < g) × ((g ≤ 65536) × ((0 < t.grain) × (t.grain ≤ 65536))))))))) }
    ensures { (blocks : List ℕ) (reach low : ℕ) → g ≡ product (drop (reach - space.now.p) space.now.z.at) → round ≡ product (drop (low - space.now.p) space.now.z.at) → ((i : ℕ) → i < c.now.count → Ready space.now.s.now space.now.p space.now.z.at c.now.froms c.now.ends blocks reach low i) → Apart space.now.s.now space.now.p space.now.z.at c.now.froms c.now.ends blocks c.now.count t → Finds (places (λ j. met space.now.s.now space.now.funcs.now c.now.froms c.now.ends c.now.count (env space.now.p space.now.params.at (digits_of space.now.z.at j))) (product space.now.z.at) 0) k result }
{
    // one copy of the conditions, with the blocks of the part that is searched
    let mut part = *c;
    let late = t.late;
    part.blocks = late;
    let d = t.grain;
    let b = grain(space.z, t.low, space.p);
    let w = b as u64;
    let total = block_size(space.z, 0) as u64;
    // More is asked for than there is, so what is left says how many are met.
    let left = match find_in(space, &part, g, b, w) {
        Ok(_) => return Err(k),
        Err(left) => left,
    };
    let m = w - left;
    if m == 0 {
        return Err(k);
    }
    let q = (k / m).min(total) * w;
    let early = t.early;
    part.blocks = early;
    match find_rounds(space, &part, d, round, q) {
        Ok(first) => {
            part.blocks = late;
            let at = find_in(space, &part, g, b, k % m)?;
            Ok(first + at)
        }
        Err(rest) => Err(k - (q - rest) / w * m),
    }
}
