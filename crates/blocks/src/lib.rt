#![tactic(auto)]
// A stream written to blocks of 512 bytes, and a file's blocks checked and its stream handed on: questions 11 to 13.
pub mod crc;
mod shifts;

ghost use Rattle.std.specs.Prelude.{◌≡◌, ◌++◌, ◌+◌, ◌*◌, ◌/◌, ◌%◌, ◌≤◌, ◌<◌, min, length, take, drop, replicate};
ghost use Rattle.pcrl.specs.Limits.{max_stream};
ghost use Rattle.pcrl.specs.Tests.{Between};
ghost use Rattle.pcrl.specs.Blocks.{block_bytes, block_stream, low_first, high_first, block as block_of, blocks_for, file_of_stream, max_file, RightLength};
ghost use Rattle.pcrl.specs.Answers.{stream_filed, output_after, stream_read};
ghost use Rattle.laws.specs.Says.{Says};
ghost use Rattle.blocks.specs.Answers.{Filed, Hands, Opens};

use refusals::Refusal;

// "Each 512 bytes: number and block count, two bytes each; 506 stream bytes; CRC-16"
const BLOCK: usize = 512;

pub const BLOCK_STREAM: usize = 506;

// The stream bytes stand from byte 4 to byte 510, and the check behind them, high byte first.
const STREAM_START: usize = 4;

const STREAM_END: usize = 510;

const CHECK_HIGH: usize = 510;

const CHECK_LOW: usize = 511;

// 128 blocks, and their stream.
pub const MAX_FILE: usize = 65536;

pub const MAX_STREAM: usize = limits::MAX_STREAM;

// 8 blocks, and their stream: a short file takes a short array.
pub const SHORT_FILE: usize = 4096;

pub const SHORT_STREAM: usize = 4048;

// Zeros over a whole slice.
pub fn fill(s: &mut [u8])
    ensures { s.new ≡ replicate (length s.old) 0 }
{
    s.fill(0);
}

// Bytes over as many. By a loop: the language's copy would need memmove, which the archive for C does without.
fn copy(s: &mut [u8], t: &[u8])
    requires { length s.old ≡ length t.now }
    ensures { s.new ≡ t.now }
{
    for i in 0..t.len() {
        s[i] = t[i];
    }
}

// "number (from 0) and block count, two bytes each, low first"
fn head(h: &mut [u8], number: usize, count: usize)
    requires { length h.old ≡ 4 }
    ensures { h.new ≡ low_first number ++ low_first count }
{
    h[0] = (number % 256) as u8;
    h[1] = (number / 256 % 256) as u8;
    h[2] = (count % 256) as u8;
    h[3] = (count / 256 % 256) as u8;
}

// "high byte first"
fn tail(t: &mut [u8], x: u16)
    requires { length t.old ≡ 2 }
    ensures { t.new ≡ high_first x }
{
    t[0] = (x / 256 % 256) as u8;
    t[1] = (x % 256) as u8;
}

// One block: the rest of it is filled with zeros from the end of its stream bytes on.
fn write_block(block: &mut [u8], number: usize, count: usize, stream: &[u8])
    requires { (length block.old ≡ block_bytes) × (length stream.now ≤ block_stream) }
    ensures { block.new ≡ block_of number count stream.now }
{
    head(&mut block[0..STREAM_START], number, count);
    let at = STREAM_START + stream.len();
    copy(&mut block[STREAM_START..at], stream);
    fill(&mut block[at..STREAM_END]);
    let x = crc::crc16(&block[0..STREAM_END]);
    tail(&mut block[STREAM_END..BLOCK], x);
}

// All blocks of a stream over the front of the lent bytes.
fn write_blocks(stream: &[u8], out: &mut [u8], count: usize)
    requires { (length stream.now ≤ max_stream) × (count ≡ blocks_for (length stream.now)) × (count * block_bytes ≤ length out.old) }
    ensures { out.new ≡ file_of_stream stream.now ++ drop (length (file_of_stream stream.now)) out.old }
{
    for i in 0..count {
        let from = i * BLOCK_STREAM;
        let to = (from + BLOCK_STREAM).min(stream.len());
        let at = i * BLOCK;
        let end = at + BLOCK;
        write_block(&mut out[at..end], i, count, &stream[from..to]);
    }
}

// 11: "The lent output long enough for its blocks?" Else how many bytes were written.
// A refusal alters nothing, and beyond the blocks nothing is touched.
pub fn write_file(stream: &[u8], out: &mut [u8]) -> Result<usize, Refusal>
    requires { length stream.now ≤ max_stream }
    ensures answer { Filed (stream_filed stream.now (length out.old)) result }
    ensures written { out.new ≡ output_after (stream_filed stream.now (length out.old)) out.old }
{
    let count = (stream.len() + (BLOCK_STREAM - 1)) / BLOCK_STREAM;
    let size = count * BLOCK;
    if out.len() < size {
        return Err(Refusal::NoRoom);
    }
    write_blocks(stream, out, count);
    Ok(size)
}

// A number of two bytes.
fn pair(low: u8, high: u8) -> u16
    ensures { result ≡ low + high * 256 }
{
    (low as u16) + (high as u16) * 256
}

// Is it the block that is written with its own stream bytes?
fn right_block(block: &[u8], number: usize, count: usize) -> bool
    requires { (length block.now ≡ block_bytes) × (number < 65536) × (count < 65536) }
    ensures { Says result (block.now ≡ block_of number count (take block_stream (drop 4 block.now))) }
{
    if pair(block[0], block[1]) as usize != number {
        return false;
    }
    if pair(block[2], block[3]) as usize != count {
        return false;
    }
    crc::crc16(&block[0..STREAM_END]) == pair(block[CHECK_LOW], block[CHECK_HIGH])
}

// 13: "each block's number, block count and check right?"
// The stream is copied out of the blocks once, since stepping reads it at many places.
fn read_blocks(file: &[u8], out: &mut [u8]) -> bool
    requires { RightLength file.now × (length file.now / block_bytes * block_stream ≤ length out.old) }
    ensures { Hands result file.now out.old out.new }
{
    let count = file.len() / BLOCK;
    for i in 0..count {
        let at = i * BLOCK;
        let end = at + BLOCK;
        let block = &file[at..end];
        if !right_block(block, i, count) {
            return false;
        }
        let to = i * BLOCK_STREAM;
        let till = to + BLOCK_STREAM;
        copy(&mut out[to..till], &block[STREAM_START..STREAM_END]);
    }
    true
}

// "length 512 to 65,536 and a multiple of 512?"
fn right_length(n: usize) -> bool
    ensures { Says result (Between block_bytes max_file n × (n % block_bytes ≡ 0)) }
{
    if n < BLOCK {
        return false;
    }
    if MAX_FILE < n {
        return false;
    }
    n % BLOCK == 0
}

// Questions 12 and 13, put to any bytes; of a file that is too long none is read. Else how many bytes the stream has.
pub fn read_file(file: &[u8], out: &mut [u8]) -> Result<usize, Refusal>
    requires { min (length file.now / block_bytes * block_stream) max_stream ≤ length out.old }
    ensures { Opens (stream_read file.now) result out.new }
{
    if !right_length(file.len()) {
        return Err(Refusal::NoFile);
    }
    if !read_blocks(file, out) {
        return Err(Refusal::WrongBlock);
    }
    Ok(file.len() / BLOCK * BLOCK_STREAM)
}
