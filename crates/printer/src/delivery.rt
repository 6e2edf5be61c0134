// Print a table, from any bytes: questions 12 to 14, 17 and 11.
ghost use Rattle.std.specs.Prelude.{◌≡◌, ◌≤◌, T, length, take};
ghost use Rattle.pcrl.specs.Tests.{distinct};
ghost use Rattle.pcrl.specs.Table.{Table};
ghost use Rattle.pcrl.specs.Right.{RightTable};
ghost use Rattle.pcrl.specs.Printer.{taken, table_text};
ghost use Rattle.pcrl.specs.Answers.{output_after, text_printed, table_printed};
ghost use Rattle.laws.specs.Says.{Says};
ghost use Rattle.stepping.specs.Promises.{HasRoom};
ghost use Rattle.printer.specs.Printing.{text_room, TokensApart, Prints};

use crate::put_sheet;
use crate::watch::apart;
use blocks::{SHORT_FILE, SHORT_STREAM};
use limits::{MAX_BYTES, MAX_PROCESSES, MAX_STREAM};
use refusals::Refusal;

// One byte more than a sheet has.
const TEXT: usize = MAX_BYTES + 1;

// Does a text pass questions 1 to 4, with no `==` over two values among its tokens?
fn tokens_apart(text: &[u8]) -> bool
    ensures { Says result (TokensApart text.now) }
{
    let mut cells = [0u16; MAX_BYTES];
    let Ok(n) = lexer::lex(text, &mut cells) else {
        return false;
    };
    apart(&cells[..n])
}

// Questions 17 and 11 on the text of a table with n equations, where no sort has the name of an action; of the text so much was written as there is room for one byte more than a
// sheet has. (Of questions 1 to 8 only 1, 3, 4, 6 for the count of processes, 7 for a sort with an action's name and 8 for `==` over two
// values can fail on such a text: printing, TextFits.)
fn deliver(text: &[u8], n: usize, out: &mut [u8]) -> Result<usize, Refusal>
    ensures { (U : Table) → RightTable U → text.now ≡ take text_room (table_text U) → n ≡ length U.equations → T (distinct (taken U.sig)) → Prints (text_printed U (length out.old)) result × (out.new ≡ output_after (text_printed U (length out.old)) out.old) }
{
    let m = text.len();
    if MAX_BYTES < m {
        return Err(Refusal::NoText);
    }
    if MAX_PROCESSES < n {
        return Err(Refusal::NoText);
    }
    if !tokens_apart(text) {
        return Err(Refusal::NoText);
    }
    if out.len() < m {
        return Err(Refusal::NoRoom);
    }
    texts::put_bytes(out, 0, text);
    Ok(m)
}

// Questions 12 to 14, 17 and 11, over an array lent for the stream.
fn print_in(file: &[u8], stream: &mut [u8], out: &mut [u8]) -> Result<usize, Refusal>
    requires { HasRoom file.now (length stream.old) }
    ensures answer { Prints (table_printed file.now (length out.old)) result }
    ensures written { out.new ≡ output_after (table_printed file.now (length out.old)) out.old }
{
    let f = stepping::load(file, stream)?;
    let mut text = [0u8; TEXT];
    let Ok(m) = put_sheet(&stream[..f.count], f.index, &mut text) else {
        return Err(Refusal::NoText);
    };
    deliver(&text[..m], f.index.equations, out)
}

// By a stream of N bytes.
fn print_by<const N: usize>(file: &[u8], out: &mut [u8]) -> Result<usize, Refusal>
    requires { HasRoom file.now N }
    ensures answer { Prints (table_printed file.now (length out.old)) result }
    ensures written { out.new ≡ output_after (table_printed file.now (length out.old)) out.old }
{
    let mut stream = [0u8; N];
    print_in(file, &mut stream, out)
}

// Print a table: the text of a sheet that has it over the front of the lent output.
pub fn print_table(file: &[u8], out: &mut [u8]) -> Result<usize, Refusal>
    ensures answer { Prints (table_printed file.now (length out.old)) result }
    ensures written { out.new ≡ output_after (table_printed file.now (length out.old)) out.old }
{
    if file.len() <= SHORT_FILE {
        return print_by::<SHORT_STREAM>(file, out);
    }
    print_by::<MAX_STREAM>(file, out)
}
