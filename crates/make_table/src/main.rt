#![tactic(auto)]
// Reads a sheet from standard input and writes its table file to standard output; or, where a question fails, nothing there,
// and `refused` and the number of the first of questions 1 to 10 that fails to standard error.
use std::io;

fn main(rt: HostRuntime) -> io::Result<()> {
    // more than the longest sheet: of a longer input the front is enough
    let mut sheet = [0u8; 65536];
    let n = streams::read_front(&mut rt.reader(), &mut sheet)?;
    // as long as the longest file
    let mut file = [0u8; 65536];
    match making::make_table(&sheet[..n], &mut file) {
        Ok(length) => streams::write_front(&mut io::writer(&rt), &file, length),
        Err(r) => {
            let question = u8::from(r);
            eprintln!(rt; "refused {question}")
        }
    }
}
