// The search in a strip of rows: blocks for pairs of values of two variables, evaluated at once as lanes. Lane i is the block of g assignments from j + i * g on.
ghost use Rattle.std.specs.Prelude.{◌≡◌, List, Bool, true, false, ℕ, ◌+◌, ◌*◌, ◌≤◌, ◌<◌, ltb, length, get_or, IfSome, IfOk, IfErr};
ghost use Rattle.pcrl.specs.Limits.{frame_width, max_conditions};
ghost use Rattle.evaluation.specs.Run.{pick};
ghost use Rattle.evaluation.specs.Rows.{lane_count, lane_env, Marked, Zeros};
ghost use Rattle.assignments.specs.Places.{digits_of, places, Sizes};
ghost use Rattle.assignments.specs.Conditions.{env, holds, all_below, Finds};
ghost use Rattle.assignments.specs.Parting.{Standing, part_met, Part};
ghost use Rattle.assignments.specs.Lanes.{inner, Sifted, RowMet, Strip, Lent, Rowed, Came};

use crate::in_rows::narrow;
use crate::one_part::{next, test};
use crate::{Conditions, Reached, Space, block_size, environment, values, wide_block};
use elements::wide;
use evaluation::lanes::LANES;

// Of the lanes that are kept, those in which a condition holds, if it is asked and its block is less than w: false only if there are none; or they are not known.
fn row_tried(
    s: &[u8],
    funcs: &[u16],
    e: &[u8],
    u: usize,
    v: usize,
    slow: &[u8],
    fast: &[u8],
    lanes: usize,
    from: usize,
    end: usize,
    block: u32,
    w: u32,
    some: bool,
    rows: &mut [u8],
    marks: &mut [u8],
    met: &mut [u8],
) -> Option<bool>
    requires { Lent rows.old marks.old slow.now fast.now met.old × (lanes ≤ lane_count) }
    ensures { from + 1 ≤ end → end ≤ length s.now → u < length e.now → v < length e.now → Marked rows.old marks.old → Zeros rows.old → Marked rows.new marks.new × (Zeros rows.new × IfSome result (λ left. (some ≡ false → (i : ℕ) → i < lanes → get_or met.old i 0 ≡ 0) → Sifted lanes (λ i. pick (ltb block w) (pick (ltb 0 block) (holds s.now funcs.now (lane_env e.now u v slow.now fast.now i) from end) true) true) met.old met.new left)) }
{
    if !some {
        return Some(some);
    }
    if block == 0 {
        return Some(some);
    }
    if w <= block {
        return Some(some);
    }
    if s.len() <= from {
        return None;
    }
    evaluation::rows::row_holds(
        s,
        funcs,
        e,
        u,
        v,
        slow,
        fast,
        lanes,
        from + 1,
        end,
        s[from],
        rows,
        marks,
        met,
    )
}

// Of all lanes, those in which all conditions hold that are asked and whose blocks are less than w: false only if there are none; or they are not known.
fn row_test(
    s: &[u8],
    funcs: &[u16],
    e: &[u8],
    u: usize,
    v: usize,
    slow: &[u8],
    fast: &[u8],
    lanes: usize,
    c: &Conditions,
    w: u32,
    rows: &mut [u8],
    marks: &mut [u8],
    met: &mut [u8],
) -> Option<bool>
    requires { (c.now.count ≤ max_conditions) × (Lent rows.old marks.old slow.now fast.now met.old × (lanes ≤ lane_count)) }
    ensures { ((i : ℕ) → i < c.now.count → Standing s.now c.now.froms c.now.ends i) → u < length e.now → v < length e.now → Marked rows.old marks.old → Zeros rows.old → Marked rows.new marks.new × (Zeros rows.new × (((i : ℕ) → i < lanes → get_or met.old i 0 ≡ 1) → IfSome result (λ left. RowMet lanes (λ i. inner s.now funcs.now c.now.froms c.now.ends c.now.blocks w (lane_env e.now u v slow.now fast.now i)) c.now.count met.new left))) }
{
    let mut some = true;
    for i in 0..c.count {
        some = row_tried(
            s,
            funcs,
            e,
            u,
            v,
            slow,
            fast,
            lanes,
            c.froms[i],
            c.ends[i],
            c.blocks[i],
            w,
            some,
            rows,
            marks,
            met,
        )?;
    }
    Some(some)
}

// The k-th of the assignments in a row of blocks of g from j on: those of the lanes that are kept.
fn in_row(lanes: &[u8], size: usize, g: usize, j: usize, k: u64) -> Result<usize, u64>
    requires { (size ≤ lane_count) × ((lane_count ≤ length lanes.now) × ((g ≤ 65536) × (j < 131072))) }
    ensures { IfOk result (λ at. at ≤ j + size * g) × (IfErr result (λ left. left ≤ k) × ((acc : ℕ → Bool) → ((i x : ℕ) → i < size → j + i * g ≤ x → x < j + i * g + g → acc x ≡ ltb 0 (get_or lanes.now i 0)) → Finds (places acc (size * g) j) k result)) }
{
    let m = g as u64;
    let mut left = k;
    for i in 0..size {
        if lanes[i] != 0 {
            if left < m {
                return Ok(j + i * g + (left as usize));
            }
            left -= m;
        }
    }
    Err(left)
}

// What n lanes have for the two variables, the first one `first` for the slow one; all are kept.
fn strip(slow: &mut [u8], fast: &mut [u8], met: &mut [u8], size: u8, first: u8, n: usize)
    requires { (0 < size) × ((first ≤ 16) × ((n ≤ lane_count) × ((lane_count ≤ length slow.old) × ((lane_count ≤ length fast.old) × (lane_count ≤ length met.old))))) }
    ensures { Strip size first n slow.new fast.new met.new }
{
    let mut x = first;
    let mut y: u8 = 0;
    for i in 0..n {
        slow[i] = x;
        fast[i] = y;
        met[i] = 1;
        if y + 1 < size {
            y += 1;
        } else {
            y = 0;
            x += 1;
        }
    }
}

// How many rows of so many lanes a strip has, where the slow variable goes from `first` up to `count`.
fn rows_in(size: u8, count: u8, first: u8) -> usize
    requires { 0 < size }
    ensures { (result * size ≤ lane_count) × (0 < result → first + result ≤ count) }
{
    if count <= first {
        return 0;
    }
    (LANES / wide(size)).min(wide(count - first))
}

// The search goes on for the lanes of a strip from j on: what is found, or how far it came and how much of k is left there. It goes no further where rows do not serve.
fn in_lanes(
    s: &[u8],
    funcs: &[u16],
    e: &[u8],
    u: usize,
    v: usize,
    size: u8,
    first: u8,
    lanes: usize,
    c: &Conditions,
    b: u32,
    g: usize,
    j: usize,
    to: usize,
    k: u64,
    rows: &mut [u8],
    marks: &mut [u8],
    slow: &mut [u8],
    fast: &mut [u8],
    met: &mut [u8],
) -> Result<usize, Reached>
    requires { ((j < to) × ((to ≤ 131072) × (g ≤ 65536))) × (((0 < size) × ((first ≤ 16) × (lanes ≤ lane_count))) × ((c.now.count ≤ max_conditions) × Lent rows.old marks.old slow.old fast.old met.old)) }
    ensures { IfOk result (λ at. at ≤ to) × (IfErr result (λ r. j ≤ r.at) × (IfErr result (λ r. r.left ≤ k) × (((i : ℕ) → i < c.now.count → Standing s.now c.now.froms c.now.ends i) → u < length e.now → v < length e.now → Marked rows.old marks.old → Zeros rows.old → Marked rows.new marks.new × (Zeros rows.new × ((acc : ℕ → Bool) → ((sl fa me : List ℕ) → Strip size first lanes sl fa me → (i x : ℕ) → i < lanes → j + i * g ≤ x → x < j + i * g + g → acc x ≡ all_below c.now.count (inner s.now funcs.now c.now.froms c.now.ends c.now.blocks b (lane_env e.now u v sl fa i))) → Came acc to j k result))))) }
{
    if to - j < lanes * g {
        return Err(Reached { at: j, left: k });
    }
    strip(slow, fast, met, size, first, lanes);
    let some = row_test(s, funcs, e, u, v, slow, fast, lanes, c, b, rows, marks, met);
    if some.is_none() {
        return Err(Reached { at: j, left: k });
    }
    match in_row(met, lanes, g, j, k) {
        Ok(at) => Ok(at),
        Err(left) => Err(Reached {
            at: j + lanes * g,
            left: left,
        }),
    }
}

// The same for a strip that begins with assignment j, or past a block that the conditions shut out.
fn in_strip(
    space: &Space,
    c: &Conditions,
    g: usize,
    l: usize,
    u: usize,
    w: usize,
    j: usize,
    to: usize,
    k: u64,
    rows: &mut [u8],
    marks: &mut [u8],
    slow: &mut [u8],
    fast: &mut [u8],
    met: &mut [u8],
) -> Result<usize, Reached>
    requires { ((space.now.p ≤ frame_width) × (((i : ℕ) → space.now.p ≤ i → get_or space.now.params.at i 0 ≡ 0) × ((c.now.count ≤ max_conditions) × (Sizes space.now.z.at × ((to ≤ 131072) × ((0 < g) × (g ≤ 65536))))))) × ((j < to) × (Rowed space.now.z.at l u g w × Lent rows.old marks.old slow.old fast.old met.old)) }
    ensures { IfOk result (λ at. at ≤ to) × (IfErr result (λ r. j ≤ r.at) × (IfErr result (λ r. r.left ≤ k) × (((i : ℕ) → i < c.now.count → Part space.now.s.now space.now.p space.now.z.at c.now.froms c.now.ends c.now.blocks g i) → Marked rows.old marks.old → Zeros rows.old → Marked rows.new marks.new × (Zeros rows.new × Came (λ j. part_met space.now.s.now space.now.funcs.now c.now.froms c.now.ends c.now.blocks c.now.count (env space.now.p space.now.params.at (digits_of space.now.z.at j))) to j k result)))) }
{
    if j % w != 0 {
        return Err(Reached { at: j, left: k });
    }
    let b = narrow(block_size(space.z, u));
    let e = environment(space.params, space.p, values(space.z, j));
    let a = e.at;
    let d = test(space.s, space.funcs, &a, c, b - 1);
    if b <= d {
        let at = next(j, wide_block(d));
        return Err(Reached { at: at, left: k });
    }
    let z = space.z;
    let sizes = z.at;
    let size = sizes[l];
    let first = a[space.p + u];
    let m = rows_in(size, sizes[u], first);
    if m == 0 {
        return Err(Reached { at: j, left: k });
    }
    in_lanes(
        space.s,
        space.funcs,
        &a,
        space.p + u,
        space.p + l,
        size,
        first,
        m * wide(size),
        c,
        b,
        g,
        j,
        to,
        k,
        rows,
        marks,
        slow,
        fast,
        met,
    )
}

// The same for one strip after another, up to `to`.
pub fn by_strips(
    space: &Space,
    c: &Conditions,
    g: usize,
    l: usize,
    u: usize,
    w: usize,
    from: usize,
    to: usize,
    k: u64,
    rows: &mut [u8],
    marks: &mut [u8],
    slow: &mut [u8],
    fast: &mut [u8],
    met: &mut [u8],
) -> Result<usize, Reached>
    requires { ((space.now.p ≤ frame_width) × (((i : ℕ) → space.now.p ≤ i → get_or space.now.params.at i 0 ≡ 0) × ((c.now.count ≤ max_conditions) × (Sizes space.now.z.at × ((to ≤ 131072) × ((0 < g) × (g ≤ 65536))))))) × (Rowed space.now.z.at l u g w × Lent rows.old marks.old slow.old fast.old met.old) }
    ensures { IfOk result (λ at. at ≤ to) × (IfErr result (λ r. from ≤ r.at) × (IfErr result (λ r. r.left ≤ k) × (((i : ℕ) → i < c.now.count → Part space.now.s.now space.now.p space.now.z.at c.now.froms c.now.ends c.now.blocks g i) → Marked rows.old marks.old → Zeros rows.old → Came (λ j. part_met space.now.s.now space.now.funcs.now c.now.froms c.now.ends c.now.blocks c.now.count (env space.now.p space.now.params.at (digits_of space.now.z.at j))) to from k result))) }
{
    let mut j = from;
    let mut left = k;
    while j < to {
        let r = match in_strip(
            space, c, g, l, u, w, j, to, left, rows, marks, slow, fast, met,
        ) {
            Ok(at) => return Ok(at),
            Err(r) => r,
        };
        if r.at <= j {
            return Err(r);
        }
        left = r.left;
        j = r.at;
    }
    Err(Reached { at: j, left: left })
}
