#![tactic(auto)]
// The public operations. Each takes any bytes whatever and asks nothing of its caller. `wizbratel_c` exports them to C.
ghost use Rattle.std.specs.Prelude.{◌≡◌, List, ℕ, ◌≤◌, length};
ghost use Rattle.refusals.specs.Numbers.{number_in};
ghost use Rattle.stepping.specs.Promises.{StartIs, QuestionIs, ListIs, depth_left};
ghost use Rattle.frames.specs.declared.LentFrame.{LentFrame};
ghost use Rattle.frames.specs.Lists.{over, taken, lent_frames};
ghost use Rattle.wizbratel.specs.Tables.{MakePromise, PrintPromise};
ghost use Rattle.wizbratel.specs.Promises.{CheckPromise, CheckTablePromise, StartPromise, AskPromise, AskAllPromise, WalkPromise};

use asking::ANSWER;
use refusals::{Refusal, number};
use stacks::{BYTES, FRAME};

// What an operation on frames by value leaves: the stack, and the depth or the question that refused.
#[derive(Clone, Copy)]
struct Left {
    stack: frames::Stack,
    answer: Result<usize, Refusal>,
}

// Check a sheet, questions 1 to 10: the number of the first that fails, or 0. So it is accepted exactly if its table can be made.
pub fn wizbratel_check_sheet(sheet: &[u8]) -> u8
    ensures { CheckPromise sheet.now result }
{
    number(making::check_sheet(sheet))
}

// Make a table, questions 1 to 11: the number of the first that fails, or 0. The file's blocks stand over the front of the lent
// output, and `written` is their length; after a refusal both are as they were.
pub fn wizbratel_make_table(sheet: &[u8], out: &mut [u8], written: &mut usize) -> u8
    ensures { MakePromise sheet.now out.old written.old result out.new written.new }
{
    let made = making::make_table(sheet, out);
    report(made, written)
}

// Print a table, questions 12 to 14, 17 and 11: the number of the first that fails, or 0. The text of a sheet that has the table stands over
// the front of the lent output, and `written` is its length; after a refusal both are as they were.
pub fn wizbratel_print_table(file: &[u8], out: &mut [u8], written: &mut usize) -> u8
    ensures { PrintPromise file.now out.old written.old result out.new written.new }
{
    let printed = printer::delivery::print_table(file, out);
    report(printed, written)
}

// Check a table, questions 12 to 14: the number of the first that fails, or 0.
pub fn wizbratel_check_table(file: &[u8]) -> u8
    ensures { CheckTablePromise file.now result }
{
    number(files::check_file(file))
}

// Start a stack, questions 12 to 14, and of 15 that 64 frames are lent: the number of the first that fails, or 0. The table's start
// stands in the first frame, and the depth is 1; after a refusal both are as they were.
pub fn wizbratel_start(file: &[u8], frames: &mut [frames::LentFrame], depth: &mut usize) -> u8
    ensures { StartPromise file.now frames.old depth.old result frames.new depth.new }
{
    let p = frames::prepare(frames.len());
    let old = frames::exchange(&mut *frames, p.count, p.stack);
    let begun = start_stack(file, p.count, old);
    frames::exchange(&mut *frames, p.count, begun.stack);
    report(begun.answer, depth)
}

// Ask for step k, questions 12 to 16: the number of the first that fails, or 0. The answer stands in the lent bytes, and the frames and
// the depth are those of the stack after it; after a refusal all are as they were.
pub fn wizbratel_ask(
    file: &[u8],
    frames: &mut [frames::LentFrame],
    depth: &mut usize,
    k: u64,
    answer: &mut [u8; ANSWER],
) -> u8
    ensures { AskPromise file.now frames.old depth.old k answer.old result frames.new depth.new answer.new }
{
    let p = frames::prepare(frames.len());
    let old = frames::exchange(&mut *frames, p.count, p.stack);
    let told = ask_stack(file, p.count, *depth, k, answer, old);
    frames::exchange(&mut *frames, p.count, told.stack);
    report(told.answer, depth)
}

// Ask a list, questions 12 to 15 once, and then each question in turn, as many as there is room for answers of 72 bytes: the number of the
// first that fails, or 0. After a refusal all is as it was.
pub fn wizbratel_ask_all(
    file: &[u8],
    frames: &mut [frames::LentFrame],
    depth: &mut usize,
    questions: &[u64],
    answers: &mut [u8],
) -> u8
    ensures { AskAllPromise file.now frames.old depth.old questions.now answers.old result frames.new depth.new answers.new }
{
    let p = frames::prepare(frames.len());
    let old = frames::exchange(&mut *frames, p.count, p.stack);
    let all = ask_all_stack(file, p.count, *depth, questions, answers, old);
    frames::exchange(&mut *frames, p.count, all.stack);
    report(all.answer, depth)
}

// The walk of a sheet: its text over the front of the lent output, as far as there is room, and how many bytes that are; what is behind
// them is as it was. No text is longer than 238 bytes (walker, Short).
pub fn wizbratel_walk(sheet: &[u8], out: &mut [u8]) -> usize
    ensures { WalkPromise sheet.now out.old result out.new }
{
    walker::walk_sheet(sheet, out)
}

// The number of the question that refused, or 0 and the count that is lent changes.
fn report(answer: Result<usize, Refusal>, count: &mut usize) -> u8
    ensures { (result ≡ number_in answer) × (count.new ≡ depth_left count.old answer) }
{
    if let Ok(n) = answer {
        *count = n;
    }
    number(answer)
}

// A start on frames by value, of which `count` are lent, 64 or none.
fn start_stack(file: &[u8], count: usize, s: frames::Stack) -> Left
    requires { count ≤ 64 }
    ensures { (xs : List LentFrame) (d : ℕ) → count ≡ taken (length xs) → over count xs s.frames ≡ s.frames → StartIs file.now (lent_frames xs) d result.answer (lent_frames (over count result.stack.frames xs)) }
{
    let mut bytes = [0u8; BYTES];
    frames::to_bytes(s, &mut bytes);
    let depth = stepping::start(file, &mut bytes[0..count * FRAME]);
    let begun = frames::from_bytes(&bytes);
    Left {
        stack: begun,
        answer: depth,
    }
}

// A question on frames by value.
fn ask_stack(
    file: &[u8],
    count: usize,
    depth: usize,
    k: u64,
    out: &mut [u8; ANSWER],
    s: frames::Stack,
) -> Left
    requires { count ≤ 64 }
    ensures { (xs : List LentFrame) → count ≡ taken (length xs) → over count xs s.frames ≡ s.frames → QuestionIs file.now (lent_frames xs) depth k out.old result.answer (lent_frames (over count result.stack.frames xs)) out.new }
{
    let mut bytes = [0u8; BYTES];
    frames::to_bytes(s, &mut bytes);
    let told = stepping::ask(file, &mut bytes[0..count * FRAME], depth, k, out);
    let left = frames::from_bytes(&bytes);
    Left {
        stack: left,
        answer: told,
    }
}

// A list of questions on frames by value.
fn ask_all_stack(
    file: &[u8],
    count: usize,
    depth: usize,
    ks: &[u64],
    out: &mut [u8],
    s: frames::Stack,
) -> Left
    requires { count ≤ 64 }
    ensures { (xs : List LentFrame) → count ≡ taken (length xs) → over count xs s.frames ≡ s.frames → ListIs file.now (lent_frames xs) depth ks.now out.old result.answer (lent_frames (over count result.stack.frames xs)) out.new }
{
    let mut bytes = [0u8; BYTES];
    frames::to_bytes(s, &mut bytes);
    let all = stepping::ask_all(file, &mut bytes[0..count * FRAME], depth, ks, out);
    let last = frames::from_bytes(&bytes);
    Left {
        stack: last,
        answer: all,
    }
}
