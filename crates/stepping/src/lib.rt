#![tactic(auto)]
// Stepping from a table file, on lent bytes that hold frames: start a stack, ask for a step, ask a list. Any bytes whatever are taken.
ghost use Rattle.std.specs.Prelude.{◌≡◌, List, [], ◌∷◌, ℕ, ◌≤◌, length, replicate};
ghost use Rattle.pcrl.specs.Limits.{frame_width};
ghost use Rattle.pcrl.specs.Stack.{Frame};
ghost use Rattle.pcrl.specs.Answers.{table_checked};
ghost use Rattle.stacks.specs.Lent.{frames_in};
ghost use Rattle.asking.specs.Encoding.{answer_bytes};
ghost use Rattle.stepping.specs.Promises.{HasRoom, Loads, StartIs, QuestionIs, AllAsked, ListIs};

use asking::ANSWER;
use blocks::{BLOCK_STREAM, MAX_STREAM, SHORT_FILE, SHORT_STREAM};
use refusals::Refusal;
use stacks::{BYTES, FRAME, LIMIT};

// A file's stream stands in an array of the stack, of 1, 8, 32, 64 or 128 blocks as the file needs. That of one block stands in the frame of
// the operation. The longer ones stand in `start_many` and `ask_all_many`, which are never laid into it: a file of one block does not take the
// stack of a long one. Among themselves they save the time to clear the longest.
pub const ONE_FILE: usize = 512;

const FILE_32: usize = 32 * ONE_FILE;

const STREAM_32: usize = 32 * BLOCK_STREAM;

const FILE_64: usize = 64 * ONE_FILE;

const STREAM_64: usize = 64 * BLOCK_STREAM;

// How long the stream is, and where its parts stand.
#[derive(Clone, Copy)]
pub struct Loaded {
    pub count: usize,
    pub index: tables::Index,
}

// Questions 12 to 14, where there is room for the file's stream.
pub fn load(file: &[u8], stream: &mut [u8]) -> Result<Loaded, Refusal>
    requires { HasRoom file.now (length stream.old) }
    ensures { Loads (table_checked file.now) stream.new result }
{
    let count = blocks::read_file(file, stream)?;
    let Some(index) = tables::read_table(&stream[0..count]) else {
        return Err(Refusal::NoTable);
    };
    Ok(Loaded {
        count: count,
        index: index,
    })
}

fn start_in(file: &[u8], stream: &mut [u8], frames: &mut [u8]) -> Result<usize, Refusal>
    requires { HasRoom file.now (length stream.old) }
    ensures { (d : ℕ) → StartIs file.now (frames_in frame_width frames.old) d result (frames_in frame_width frames.new) }
{
    let f = load(file, stream)?;
    if frames.len() / FRAME != LIMIT {
        return Err(Refusal::WrongStack);
    }
    stacks::start(&stream[0..f.count], f.index, &mut frames[0..BYTES]);
    Ok(1)
}

// By a stream of N bytes.
fn start_by<const N: usize>(file: &[u8], frames: &mut [u8]) -> Result<usize, Refusal>
    requires { HasRoom file.now N }
    ensures { (d : ℕ) → StartIs file.now (frames_in frame_width frames.old) d result (frames_in frame_width frames.new) }
{
    let mut stream = [0u8; N];
    start_in(file, &mut stream, frames)
}

// For a file of more than one block; the check of a file is the other caller.
#[inline(never)]
pub fn start_many(file: &[u8], frames: &mut [u8]) -> Result<usize, Refusal>
    ensures { (d : ℕ) → StartIs file.now (frames_in frame_width frames.old) d result (frames_in frame_width frames.new) }
{
    if file.len() <= SHORT_FILE {
        return start_by::<SHORT_STREAM>(file, frames);
    }
    if file.len() <= FILE_32 {
        return start_by::<STREAM_32>(file, frames);
    }
    if file.len() <= FILE_64 {
        return start_by::<STREAM_64>(file, frames);
    }
    start_by::<MAX_STREAM>(file, frames)
}

// Start a stack: questions 12 to 14, and of 15 that 64 frames are lent. The depth is then 1.
pub fn start(file: &[u8], frames: &mut [u8]) -> Result<usize, Refusal>
    ensures { (d : ℕ) → StartIs file.now (frames_in frame_width frames.old) d result (frames_in frame_width frames.new) }
{
    if file.len() <= ONE_FILE {
        return start_by::<BLOCK_STREAM>(file, frames);
    }
    start_many(file, frames)
}

fn ask_all_in(
    file: &[u8],
    stream: &mut [u8],
    frames: &mut [u8],
    depth: usize,
    ks: &[u64],
    out: &mut [u8],
) -> Result<usize, Refusal>
    requires { HasRoom file.now (length stream.old) }
    ensures { ListIs file.now (frames_in frame_width frames.old) depth ks.now out.old result (frames_in frame_width frames.new) out.new }
{
    let f = load(file, stream)?;
    if !stacks::right_frames(&stream[0..f.count], f.index, frames, depth) {
        return Err(Refusal::WrongStack);
    }
    let count = ks.len().min(out.len() / ANSWER);
    let last = asking::ask_each(
        &stream[0..f.count],
        f.index,
        &mut frames[0..BYTES],
        depth,
        &ks[0..count],
        out,
    );
    Ok(last)
}

// By a stream of N bytes.
fn ask_all_by<const N: usize>(
    file: &[u8],
    frames: &mut [u8],
    depth: usize,
    ks: &[u64],
    out: &mut [u8],
) -> Result<usize, Refusal>
    requires { HasRoom file.now N }
    ensures { ListIs file.now (frames_in frame_width frames.old) depth ks.now out.old result (frames_in frame_width frames.new) out.new }
{
    let mut stream = [0u8; N];
    ask_all_in(file, &mut stream, frames, depth, ks, out)
}

// For a file of more than one block.
#[inline(never)]
fn ask_all_many(
    file: &[u8],
    frames: &mut [u8],
    depth: usize,
    ks: &[u64],
    out: &mut [u8],
) -> Result<usize, Refusal>
    ensures { ListIs file.now (frames_in frame_width frames.old) depth ks.now out.old result (frames_in frame_width frames.new) out.new }
{
    if file.len() <= SHORT_FILE {
        return ask_all_by::<SHORT_STREAM>(file, frames, depth, ks, out);
    }
    if file.len() <= FILE_32 {
        return ask_all_by::<STREAM_32>(file, frames, depth, ks, out);
    }
    if file.len() <= FILE_64 {
        return ask_all_by::<STREAM_64>(file, frames, depth, ks, out);
    }
    ask_all_by::<MAX_STREAM>(file, frames, depth, ks, out)
}

// Ask a list: questions 12 to 15 once, then each question in turn, as many as there is room for answers.
pub fn ask_all(
    file: &[u8],
    frames: &mut [u8],
    depth: usize,
    ks: &[u64],
    out: &mut [u8],
) -> Result<usize, Refusal>
    ensures { ListIs file.now (frames_in frame_width frames.old) depth ks.now out.old result (frames_in frame_width frames.new) out.new }
{
    if file.len() <= ONE_FILE {
        return ask_all_by::<BLOCK_STREAM>(file, frames, depth, ks, out);
    }
    ask_all_many(file, frames, depth, ks, out)
}

// The answer to a list of one question as that question's: a refusal by 16 is returned alone.
fn told(
    answer: Result<usize, Refusal>,
    bytes: [u8; 72],
    out: &mut [u8; 72],
) -> Result<usize, Refusal>
    ensures { (file : List ℕ) (fs new : List Frame) (d k : ℕ) → AllAsked file fs d (k ∷ []) (replicate answer_bytes 0) answer new bytes → QuestionIs file fs d k out.old result new out.new }
{
    let depth = answer?;
    if bytes[0] == u8::from(Refusal::TooDeep) {
        return Err(Refusal::TooDeep);
    }
    *out = bytes;
    Ok(depth)
}

// Ask for step k, a list of one question: questions 12 to 16.
pub fn ask(
    file: &[u8],
    frames: &mut [u8],
    depth: usize,
    k: u64,
    out: &mut [u8; 72],
) -> Result<usize, Refusal>
    ensures { QuestionIs file.now (frames_in frame_width frames.old) depth k out.old result (frames_in frame_width frames.new) out.new }
{
    let ks = [k];
    let mut bytes = [0u8; ANSWER];
    let answer = ask_all(file, frames, depth, &ks, &mut bytes);
    told(answer, bytes, out)
}
