#![tactic(auto)]
// Reads a sheet from standard input and writes `accepted`, or `refused` and the number of the first of questions 1 to 10 that fails.
use std::io;

fn main(rt: HostRuntime) -> io::Result<()> {
    // more than the longest sheet: of a longer input the front is enough
    let mut sheet = [0u8; 65536];
    let n = streams::read_front(&mut rt.reader(), &mut sheet)?;
    match making::check_sheet(&sheet[..n]) {
        Ok(()) => println!(rt; "accepted"),
        Err(r) => {
            let question = u8::from(r);
            println!(rt; "refused {question}")
        }
    }
}
