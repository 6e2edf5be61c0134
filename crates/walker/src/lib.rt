#![tactic(auto)]
// The walk: step 0 up to 8 times, and its text, from a table file and from a sheet.
ghost use Rattle.std.specs.Prelude.{◌≡◌, ◌++◌, ◌%◌, ◌<◌, ◌≤◌, MatchOption, length, take};
ghost use Rattle.pcrl.specs.Limits.{frame_width, stack_limit, max_stream};
ghost use Rattle.pcrl.specs.Table.{Table};
ghost use Rattle.pcrl.specs.Right.{RightTable};
ghost use Rattle.pcrl.specs.Stack.{RightFrames, frames_of};
ghost use Rattle.pcrl.specs.Answers.{table_checked, start_stack};
ghost use Rattle.pcrl.specs.Text.{decimal, bytes};
ghost use Rattle.pcrl.specs.Walk.{walk_steps, text_line, walk_lines, walk_made, walk_text, step_line};
ghost use Rattle.pcrl.specs.Blocks.{max_file};
ghost use Rattle.tables.specs.Indexed.{Indexed};
ghost use Rattle.stacks.specs.Lent.{frames_in, stack_bytes};
ghost use Rattle.asking.specs.Replies.{AskIs, depth_after, label_told};
ghost use Rattle.refusals.specs.Numbers.{number_of};
ghost use Rattle.stepping.specs.Promises.{HasRoom};
ghost use Rattle.texts.specs.Wrote.{Wrote};
ghost use Rattle.walker.specs.Moves.{moved_by};

use asking::{Step, Told};
use blocks::{BLOCK_STREAM, MAX_FILE, SHORT_FILE, SHORT_STREAM};
use elements::wide;
use limits::MAX_STREAM;
use refusals::Refusal;
use stacks::BYTES;
use stepping::ONE_FILE;

// "takes step 0 up to 8 times"
const STEPS: usize = 8;

// No text of a walk is longer: 8 lines of 29 bytes and a closing word.
const TEXT_LIMIT: usize = 238;

// Tables of sheets of up to so many bytes mostly fit a file of one block, and a short file.
const ONE_SHEET: usize = 64;

const SHORT_SHEET: usize = 512;

// "A walk holds its depth, its steps taken and its last answer."
#[derive(Clone, Copy)]
pub struct Walk {
    pub depth: usize,
    pub taken: usize,
    pub last: Told,
}

// The text of a walk, at the front.
#[derive(Clone, Copy)]
pub struct Text {
    pub bytes: [u8; TEXT_LIMIT],
    pub length: usize,
}

// The walk after an answer: a step counts, and gives the new depth.
fn moved(w: Walk, r: Told) -> Walk
    ensures { result ≡ moved_by w r }
{
    let Told::Stepped(step) = r else {
        return Walk { last: r, ..w };
    };
    if STEPS <= w.taken {
        return Walk { last: r, ..w };
    }
    Walk {
        depth: step.depth,
        taken: w.taken + 1,
        last: r,
    }
}

// A walk that is lent is changed after a step.
fn advance(w: &mut Walk, r: Told)
    ensures { w.new ≡ moved_by w.old r }
{
    *w = moved(*w, r);
}

// The walk after a step: lent, changed and handed on.
fn stepped(w: Walk, r: Told) -> Walk
    ensures { result ≡ moved_by w r }
{
    let mut x = w;
    advance(&mut x, r);
    x
}

// The line of a step.
fn put_step(out: &mut [u8], at: usize, i: usize, s: &[u8], index: tables::Index, r: Step) -> usize
    requires { at ≤ length out.old }
    ensures { (result ≤ length out.old) × ((T : Table) → Indexed T s.now index → Wrote out.old at (step_line (i % 256) (label_told T.sig r) (r.depth % 256)) out.new result) }
{
    let n = wide(r.arity).min(r.values.len());
    texts::put_line(out, at, i, s, index, r.action, &r.values[..n], r.depth)
}

// Asked for step 0.
fn ask_first(s: &[u8], index: tables::Index, frames: &mut [u8], depth: usize) -> Told
    requires { (length s.now ≤ max_stream) × ((length frames.old ≡ stack_bytes) × (depth ≤ stack_limit)) }
    ensures { (depth_after depth result ≤ stack_limit) × ((T : Table) → RightTable T → Indexed T s.now index → RightFrames frame_width stack_limit T (frames_in frame_width frames.old) depth → AskIs T (frames_in frame_width frames.old) depth 0 result (frames_in frame_width frames.new)) }
{
    asking::ask(
        s,
        &index.funcs,
        &index.acts,
        &index.params,
        &index.rows,
        frames,
        depth,
        0,
    )
}

// The lines of a walk from frames that hold the start, and how long they are.
fn put_walk(s: &[u8], index: tables::Index, frames: &mut [u8], out: &mut [u8]) -> usize
    requires { (length s.now ≤ max_stream) × (length frames.old ≡ stack_bytes) }
    ensures { (T : Table) → RightTable T → Indexed T s.now index → frames_in frame_width frames.old ≡ frames_of frame_width stack_limit (start_stack frame_width T) → Wrote out.old 0 (walk_lines T walk_steps 1 (start_stack frame_width T)) out.new result }
{
    let mut w = Walk {
        depth: 1,
        taken: 0,
        last: Told::Ended,
    };
    let mut at = 0;
    for i in 0..STEPS {
        let r = ask_first(s, index, frames, w.depth);
        match r {
            Told::Ended => return texts::put_bytes(out, at, b"ended\n"),
            Told::Nothing => return texts::put_bytes(out, at, b"stuck\n"),
            Told::TooDeep => return texts::put_bytes(out, at, b"stuck\n"),
            Told::Stepped(step) => {
                at = put_step(out, at, i + 1, s, index, step);
                w = stepped(w, r);
            }
        }
    }
    if w.depth == 0 {
        return texts::put_bytes(out, at, b"ended\n");
    }
    texts::put_bytes(out, at, b"more\n")
}

// "only `refused` and the number"
fn put_refused(out: &mut [u8], r: Refusal) -> usize
    ensures { Wrote out.old 0 (text_line (bytes "refused " ++ decimal (number_of r))) out.new result }
{
    let a = texts::put_bytes(out, 0, b"refused ");
    let b = texts::put_value(out, a, u8::from(r));
    texts::put_byte(out, b, b'\n')
}

fn walk_in(file: &[u8], stream: &mut [u8], out: &mut [u8]) -> usize
    requires { HasRoom file.now (length stream.old) }
    ensures { Wrote out.old 0 (walk_made (table_checked file.now)) out.new result }
{
    match stepping::load(file, stream) {
        Err(r) => put_refused(out, r),
        Ok(f) => {
            let s = &stream[..f.count];
            let mut frames = [0u8; BYTES];
            stacks::start(s, f.index, &mut frames);
            put_walk(s, f.index, &mut frames, out)
        }
    }
}

// By a stream of N bytes.
fn walk_by<const N: usize>(file: &[u8], out: &mut [u8]) -> usize
    requires { HasRoom file.now N }
    ensures { Wrote out.old 0 (walk_made (table_checked file.now)) out.new result }
{
    let mut stream = [0u8; N];
    walk_in(file, &mut stream, out)
}

// The text of the walk by a table file, as far as there is room for it, and how long that is.
pub fn walk_table(file: &[u8], out: &mut [u8]) -> usize
    ensures { Wrote out.old 0 (walk_made (table_checked file.now)) out.new result }
{
    if file.len() <= ONE_FILE {
        return walk_by::<BLOCK_STREAM>(file, out);
    }
    if file.len() <= SHORT_FILE {
        return walk_by::<SHORT_STREAM>(file, out);
    }
    walk_by::<MAX_STREAM>(file, out)
}

// The text of the walk of a sheet's bytes, as far as there is room for it, and how long that is; or the lent file has no room for the table.
fn walk_made(sheet: &[u8], file: &mut [u8], out: &mut [u8]) -> Option<usize>
    ensures { MatchOption result ((out.new ≡ out.old) × (length file.old < max_file)) (λ n. Wrote out.old 0 (walk_text sheet.now) out.new n) }
{
    match making::make_table(sheet, &mut *file) {
        Ok(n) => Some(walk_table(&file[..n], out)),
        Err(r) => match r {
            Refusal::NoRoom => None,
            _ => Some(put_refused(out, r)),
        },
    }
}

// By a file of N bytes. To clear a long one takes longer than to walk by the table of a short sheet.
fn walk_through<const N: usize>(sheet: &[u8], out: &mut [u8]) -> Option<usize>
    requires { N ≤ max_file }
    ensures { MatchOption result ((out.new ≡ out.old) × (N < max_file)) (λ n. Wrote out.old 0 (walk_text sheet.now) out.new n) }
{
    let mut file = [0u8; N];
    walk_made(sheet, &mut file, out)
}

// By the longest file, which has room for every table.
fn walk_by_long(sheet: &[u8], out: &mut [u8]) -> usize
    ensures { Wrote out.old 0 (walk_text sheet.now) out.new result }
{
    match walk_through::<MAX_FILE>(sheet, out) {
        Some(n) => n,
        None => 0,
    }
}

// The text of the walk of a sheet's bytes, as far as there is room for it, and how long that is; by a short file first, if the sheet is short.
fn walk_by_two(sheet: &[u8], out: &mut [u8]) -> usize
    ensures { Wrote out.old 0 (walk_text sheet.now) out.new result }
{
    if SHORT_SHEET < sheet.len() {
        return walk_by_long(sheet, out);
    }
    match walk_through::<SHORT_FILE>(sheet, out) {
        Some(n) => n,
        None => walk_by_long(sheet, out),
    }
}

// The same, for a very short sheet by a file of one block first.
pub fn walk_sheet(sheet: &[u8], out: &mut [u8]) -> usize
    ensures { Wrote out.old 0 (walk_text sheet.now) out.new result }
{
    if ONE_SHEET < sheet.len() {
        return walk_by_two(sheet, out);
    }
    match walk_through::<ONE_FILE>(sheet, out) {
        Some(n) => n,
        None => walk_by_two(sheet, out),
    }
}

// The whole text of the walk of a sheet's bytes.
pub fn walk_text(sheet: &[u8]) -> Text
    ensures { take result.length result.bytes ≡ walk_text sheet.now }
{
    let mut bytes = [0u8; TEXT_LIMIT];
    let n = walk_sheet(sheet, &mut bytes);
    Text {
        bytes: bytes,
        length: n,
    }
}
