#![tactic(auto)]
// The lent stack as a mutable slice of frame structs: taken out by value, in bytes, and put back.
ghost use Rattle.std.specs.Prelude.{◌≡◌, ◌+◌, ◌*◌, ◌≤◌, length, set};
ghost use Rattle.pcrl.specs.Limits.{frame_width};
ghost use Rattle.stacks.specs.Lent.{frame_bytes, frame_at, frames_in, stack_bytes};
ghost use Rattle.frames.specs.Lists.{no_frames, over, taken, frame_of, lent_frames};

use limits::{FRAME_WIDTH, STACK_LIMIT};
use stacks::FRAME;

// "A frame is an equation number and four values, spare ones 0."
#[repr(C)]
#[derive(Clone, Copy)]
pub struct LentFrame {
    pub equation: u8,
    pub values: [u8; FRAME_WIDTH],
}

// 64 frames by value.
#[derive(Clone, Copy)]
pub struct Stack {
    pub frames: [LentFrame; STACK_LIMIT],
}

// How many frames change places, and with which.
#[derive(Clone, Copy)]
pub struct Ready {
    pub count: usize,
    pub stack: Stack,
}

pub fn empty() -> Stack
    ensures { result.frames ≡ no_frames }
{
    Stack {
        frames: [LentFrame {
            equation: 0,
            values: [0; FRAME_WIDTH],
        }; STACK_LIMIT],
    }
}

// The first n frames of the slice and of the stack change places.
pub fn exchange(fs: &mut [LentFrame], n: usize, s: Stack) -> Stack
    requires { (n ≤ length fs.old) × (n ≤ 64) }
    ensures { (result.frames ≡ over n fs.old s.frames) × (fs.new ≡ over n s.frames fs.old) }
{
    let mut t = s.frames;
    fs[..n].swap_with_slice(&mut t[..n]);
    Stack { frames: t }
}

// How many frames to take out of a slice of n, and an empty stack to put in.
pub fn prepare(n: usize) -> Ready
    ensures { (result.count ≡ taken n) × (result.stack.frames ≡ no_frames) }
{
    Ready {
        count: if n == STACK_LIMIT { STACK_LIMIT } else { 0 },
        stack: empty(),
    }
}

// Frame i of the bytes becomes f.
fn put(bytes: &mut [u8], i: usize, f: LentFrame)
    requires { (i + 1) * frame_bytes frame_width ≤ length bytes.old }
    ensures { frames_in frame_width bytes.new ≡ set (frames_in frame_width bytes.old) i (frame_of f) }
{
    let v = f.values;
    let own = [f.equation, v[0], v[1], v[2], v[3]];
    stacks::put(bytes, i, &own, 0);
}

// Frame i of the bytes.
fn at(bytes: &[u8], i: usize) -> LentFrame
    requires { (i + 1) * frame_bytes frame_width ≤ length bytes.now }
    ensures { frame_of result ≡ frame_at frame_width bytes.now (i * frame_bytes frame_width) }
{
    let a = i * FRAME;
    LentFrame {
        equation: bytes[a],
        values: [bytes[a + 1], bytes[a + 2], bytes[a + 3], bytes[a + 4]],
    }
}

// The frames of a stack in bytes.
pub fn to_bytes(s: Stack, bytes: &mut [u8])
    requires { length bytes.old ≡ stack_bytes }
    ensures { frames_in frame_width bytes.new ≡ lent_frames s.frames }
{
    for i in 0..STACK_LIMIT {
        let f = s.frames[i];
        put(bytes, i, f);
    }
}

pub fn from_bytes(bytes: &[u8]) -> Stack
    requires { length bytes.now ≡ stack_bytes }
    ensures { lent_frames result.frames ≡ frames_in frame_width bytes.now }
{
    let mut t = empty();
    for i in 0..STACK_LIMIT {
        let f = at(bytes, i);
        t.frames[i] = f;
    }
    t
}
