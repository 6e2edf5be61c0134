#![tactic(auto)]
// Reads a sheet from standard input and writes its walk: the first step up to 8 times, or `refused` and the number.
use std::io;

fn main(rt: HostRuntime) -> io::Result<()> {
    // more than the longest sheet: of a longer input the front is enough
    let mut sheet = [0u8; 65536];
    let n = streams::read_front(&mut rt.reader(), &mut sheet)?;
    let t = walker::walk_text(&sheet[..n]);
    let text = t.bytes;
    streams::write_front(&mut io::writer(&rt), &text, t.length)
}
