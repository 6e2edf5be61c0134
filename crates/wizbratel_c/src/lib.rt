#![tactic(auto)]
// The public operations as C calls them: each is that of `wizbratel`, with its promise.
ghost use Rattle.wizbratel.specs.Tables.{MakePromise, PrintPromise};
ghost use Rattle.wizbratel.specs.Promises.{CheckPromise, CheckTablePromise, StartPromise, AskPromise, AskAllPromise, WalkPromise};

use asking::ANSWER;

// Check a sheet, questions 1 to 10: the number of the first that fails, or 0. So it is accepted exactly if its table can be made.
#[unsafe(no_mangle)]
pub extern "C" fn wizbratel_check_sheet(sheet: &[u8]) -> u8
    ensures { CheckPromise sheet.now result }
{
    wizbratel::wizbratel_check_sheet(sheet)
}

// Make a table, questions 1 to 11: the number of the first that fails, or 0. The file's blocks stand over the front of the lent
// output, and `written` is their length; after a refusal both are as they were.
#[unsafe(no_mangle)]
pub extern "C" fn wizbratel_make_table(sheet: &[u8], out: &mut [u8], written: &mut usize) -> u8
    ensures { MakePromise sheet.now out.old written.old result out.new written.new }
{
    wizbratel::wizbratel_make_table(sheet, out, written)
}

// Print a table, questions 12 to 14, 17 and 11: the number of the first that fails, or 0. The text of a sheet that has the table stands over
// the front of the lent output, and `written` is its length; after a refusal both are as they were.
#[unsafe(no_mangle)]
pub extern "C" fn wizbratel_print_table(file: &[u8], out: &mut [u8], written: &mut usize) -> u8
    ensures { PrintPromise file.now out.old written.old result out.new written.new }
{
    wizbratel::wizbratel_print_table(file, out, written)
}

// Check a table, questions 12 to 14: the number of the first that fails, or 0.
#[unsafe(no_mangle)]
pub extern "C" fn wizbratel_check_table(file: &[u8]) -> u8
    ensures { CheckTablePromise file.now result }
{
    wizbratel::wizbratel_check_table(file)
}

// Start a stack, questions 12 to 14, and of 15 that 64 frames are lent: the number of the first that fails, or 0. The table's start
// stands in the first frame, and the depth is 1; after a refusal both are as they were.
#[unsafe(no_mangle)]
pub extern "C" fn wizbratel_start(
    file: &[u8],
    frames: &mut [frames::LentFrame],
    depth: &mut usize,
) -> u8
    ensures { StartPromise file.now frames.old depth.old result frames.new depth.new }
{
    wizbratel::wizbratel_start(file, frames, depth)
}

// Ask for step k, questions 12 to 16: the number of the first that fails, or 0. The answer stands in the lent bytes, and the frames and
// the depth are those of the stack after it; after a refusal all are as they were.
#[unsafe(no_mangle)]
pub extern "C" fn wizbratel_ask(
    file: &[u8],
    frames: &mut [frames::LentFrame],
    depth: &mut usize,
    k: u64,
    answer: &mut [u8; ANSWER],
) -> u8
    ensures { AskPromise file.now frames.old depth.old k answer.old result frames.new depth.new answer.new }
{
    wizbratel::wizbratel_ask(file, frames, depth, k, answer)
}

// Ask a list, questions 12 to 15 once, and then each question in turn, as many as there is room for answers of 72 bytes: the number of the
// first that fails, or 0. After a refusal all is as it was.
#[unsafe(no_mangle)]
pub extern "C" fn wizbratel_ask_all(
    file: &[u8],
    frames: &mut [frames::LentFrame],
    depth: &mut usize,
    questions: &[u64],
    answers: &mut [u8],
) -> u8
    ensures { AskAllPromise file.now frames.old depth.old questions.now answers.old result frames.new depth.new answers.new }
{
    wizbratel::wizbratel_ask_all(file, frames, depth, questions, answers)
}

// The walk of a sheet: its text over the front of the lent output, as far as there is room, and how many bytes that are; what is behind
// them is as it was. No text is longer than 238 bytes (walker, Short).
#[unsafe(no_mangle)]
pub extern "C" fn wizbratel_walk(sheet: &[u8], out: &mut [u8]) -> usize
    ensures { WalkPromise sheet.now out.old result out.new }
{
    wizbratel::wizbratel_walk(sheet, out)
}
