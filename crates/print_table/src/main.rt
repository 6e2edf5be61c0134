#![tactic(auto)]
// Reads a table file from standard input and writes the text of a sheet that has it to standard output; or, where a question fails, nothing
// there, and `refused` and the number of the first of questions 12 to 14 and 17 that fails to standard error.
use std::io;

fn main(rt: HostRuntime) -> io::Result<()> {
    // one byte more than the longest file: a longer one is cut there and refused by 12 all the same
    let mut file = [0u8; 65537];
    let n = streams::read_front(&mut rt.reader(), &mut file)?;
    let mut text = [0u8; 4096];
    match printer::delivery::print_table(&file[..n], &mut text) {
        Ok(m) => streams::write_front(&mut io::writer(&rt), &text, m),
        Err(refusal) => {
            let r = u8::from(refusal);
            eprintln!(rt; "refused {r}")
        }
    }
}
