#![tactic(auto)]
// What the programs read and write: the front of a stream, as much as there is room for, and the front of a buffer.
ghost use Rattle.std.specs.Prelude.{◌≤◌, length, take, IfOk, OnOk};
ghost use Rattle.std.specs.Io.KnownBytes.{Appends};

use std::io;
use std::io::{Read, Write};

// Reads until the buffer is full or the stream ends: how many bytes stand at its front.
pub fn read_front<R: Read>(reader: &mut R, buf: &mut [u8]) -> io::Result<usize>
    ensures { IfOk result (λ n. n ≤ length buf.new) }
{
    let mut done = 0;
    while done < buf.len() {
        let n = reader.read(&mut buf[done..])?;
        if n == 0 {
            return Ok(done);
        }
        done += n;
    }
    Ok(done)
}

// Writes the first n bytes of a buffer, or all of a shorter one.
pub fn write_front<W: Write>(writer: &mut W, buf: &[u8], n: usize) -> io::Result<()>
    ensures { OnOk result (Appends (W.contents writer.old) (W.contents writer.new) (take n buf.now)) }
{
    let end = n.min(buf.len());
    writer.write_all(&buf[..end])
}
