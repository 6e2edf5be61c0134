#![tactic(auto)]
// Stacks in lent bytes, a frame behind another: question 15, and the top frame replaced by the calls of a step.
ghost use Rattle.std.specs.Prelude.{◌≡◌, ◌++◌, ℕ, ◌+◌, ◌-◌, ◌*◌, ◌/◌, ◌<◌, ◌≤◌, length, get_or, take, drop, set, replicate};
ghost use Rattle.pcrl.specs.Limits.{frame_width, stack_limit};
ghost use Rattle.pcrl.specs.Table.{Table};
ghost use Rattle.pcrl.specs.Right.{RightTable};
ghost use Rattle.pcrl.specs.Stack.{zero_frame, RightFrame, RightFrames, frames_of, stack_of};
ghost use Rattle.pcrl.specs.Answers.{start_stack};
ghost use Rattle.laws.specs.Says.{Says};
ghost use Rattle.tables.specs.Indexed.{Indexed};
ghost use Rattle.stacks.specs.Lent.{frame_bytes, frame_at, frames_at, frames_in, stack_bytes};
ghost use Rattle.stacks.specs.Fitting.{FitsAt, Fitting};
ghost use Rattle.stacks.specs.Known.{Known};

use elements::{cell, peek, wide};
use limits::{MAX_FUNCTIONS, STACK_LIMIT};

// "A frame is an equation number and four values": its bytes.
pub const FRAME: usize = 5;

pub const LIMIT: usize = STACK_LIMIT;

// Bytes of all frames.
pub const BYTES: usize = 320;

// Does the value v fit at place i of a frame whose equation's parameters have these sorts?
fn fits(sizes: &[u16], sorts: &[u8], i: usize, v: u8) -> bool
    ensures { Says result (FitsAt sizes.now sorts.now i v) }
{
    if i < sorts.len() {
        return wide(v) < cell(sizes, wide(sorts[i]));
    }
    v == 0
}

fn fitting(sizes: &[u16], sorts: &[u8], values: &[u8]) -> bool
    ensures { Says result (Fitting sizes.now sorts.now values.now) }
{
    if values.len() < sorts.len() {
        return false;
    }
    for i in 0..values.len() {
        if !fits(sizes, sorts, i, values[i]) {
            return false;
        }
    }
    true
}

// "each used frame an equation with values in its sorts, all unused values .. zero"
fn right_frame(s: &[u8], sizes: &[u16], params: &[u16], f: &[u8]) -> bool
    requires { length f.now ≡ frame_bytes frame_width }
    ensures { (T : Table) → Known T s.now sizes.now params.now → Says result (RightFrame frame_width T (frame_at frame_width f.now 0)) }
{
    let e = wide(f[0]);
    if params.len() <= e {
        return false;
    }
    fitting(sizes, terms::list_at(s, cell(params, e)), &f[1..])
}

// "all unused .. frames zero": are these bytes? The loop has one way out, so that the compiler tests many at once.
fn zeros(s: &[u8]) -> bool
    ensures { Says result ((k : ℕ) → k < length s.now → get_or s.now k 0 ≡ 0) }
{
    let mut good = true;
    for x in s {
        good = good & (*x == 0);
    }
    good
}

// n elements from a place on, or as many as there are.
pub fn part<T: Copy>(s: &[T], at: usize, n: usize) -> &[T]
    ensures { result.now ≡ take n (drop at s.now) }
{
    let from = at.min(s.len());
    let rest = &s[from..];
    let count = n.min(rest.len());
    &rest[..count]
}

// Question 15.
pub fn right_frames(s: &[u8], index: tables::Index, frames: &[u8], depth: usize) -> bool
    ensures { (T : Table) → Indexed T s.now index → Says result (RightFrames frame_width stack_limit T (frames_in frame_width frames.now) depth) }
{
    if frames.len() / FRAME != STACK_LIMIT {
        return false;
    }
    if STACK_LIMIT < depth {
        return false;
    }
    let funcs = index.funcs;
    let sizes = part(&funcs, MAX_FUNCTIONS, index.sort_count);
    let places = index.params;
    let params = part(&places, 0, index.equations);
    let unused = depth * FRAME;
    if !zeros(&frames[unused..BYTES]) {
        return false;
    }
    for i in 0..depth {
        let at = i * FRAME;
        let end = at + FRAME;
        if !right_frame(s, sizes, params, &frames[at..end]) {
            return false;
        }
    }
    true
}

// Frame i becomes frame j of others.
pub fn put(frames: &mut [u8], i: usize, others: &[u8], j: usize)
    requires { ((i + 1) * frame_bytes frame_width ≤ length frames.old) × ((j + 1) * frame_bytes frame_width ≤ length others.now) }
    ensures { frames_in frame_width frames.new ≡ set (frames_in frame_width frames.old) i (frame_at frame_width others.now (j * frame_bytes frame_width)) }
{
    let to = i * FRAME;
    let from = j * FRAME;
    frames[to..to + FRAME].copy_from_slice(&others[from..from + FRAME]);
}

// The top frame is replaced by the first n of others, the first of them on top.
pub fn replace(frames: &mut [u8], depth: usize, others: &[u8], n: usize)
    requires { (length frames.old ≡ stack_bytes) × ((0 < depth) × ((depth ≤ stack_limit) × ((depth + n ≤ stack_limit + 1) × (n * frame_bytes frame_width ≤ length others.now)))) }
    ensures { drop depth (frames_in frame_width frames.old) ≡ replicate (stack_limit - depth) (zero_frame frame_width) → frames_in frame_width frames.new ≡ frames_of frame_width stack_limit (frames_at frame_width n others.now ++ drop 1 (stack_of (frames_in frame_width frames.old) depth)) }
{
    let zeros = [0u8; FRAME];
    put(frames, depth - 1, &zeros, 0);
    for i in 0..n {
        put(frames, depth - 1 + (n - 1 - i), others, i);
    }
}

// The bytes, and zeros behind them.
fn spread(bytes: &[u8], out: &mut [u8])
    ensures { (i : ℕ) → i < length out.old → get_or out.new i 0 ≡ get_or bytes.now i 0 }
{
    for i in 0..out.len() {
        out[i] = peek(bytes, i);
    }
}

// The stack with which the table starts.
pub fn start(s: &[u8], index: tables::Index, frames: &mut [u8])
    requires { length frames.old ≡ stack_bytes }
    ensures { (T : Table) → RightTable T → Indexed T s.now index → frames_in frame_width frames.new ≡ frames_of frame_width stack_limit (start_stack frame_width T) }
{
    let at = index.start;
    let places = index.params;
    let params = terms::list_at(s, cell(&places, wide(peek(s, at))));
    spread(part(s, at, 1 + params.len()), frames);
}
