// CRC-16: polynomial hex 1021, start FFFF, nothing reflected or inverted.
ghost use Rattle.std.specs.Prelude.{◌≡◌, true, ℕ, ◌+◌, ◌-◌, ◌%◌, ◌≤◌, ◌<◌, length, get_or};
ghost use Rattle.pcrl.specs.Blocks.{crc};
ghost use Rattle.blocks.specs.Halves.{halves};

use crate::shifts::{
    FEW_HIGH, FEW_LOW, MANY_HIGH, MANY_LOW, SHIFTED, SHIFTED_EIGHT, SHIFTED_FIVE, SHIFTED_FOUR,
    SHIFTED_SEVEN, SHIFTED_SIX, SHIFTED_THRICE, SHIFTED_TWICE,
};

// An entry by a byte's two halves.
fn entry(t: &[u16; 32], b: u16) -> u16
    requires { b < 256 }
    ensures { result ≡ halves t.now b }
{
    t[(b / 16) as usize] ^ t[(16 + b % 16) as usize]
}

// The entry of byte i of s.
fn entry_at(t: &[u16; 32], s: &[u8], i: usize) -> u16
    requires { i < length s.now }
    ensures { result ≡ halves t.now (get_or s.now i 0) }
{
    entry(t, s[i] as u16)
}

const GROUP: usize = 8;

// The check of a run of bytes, eight bytes at a time: by the tables a register's two bytes, and the bytes that come after them, are
// shifted independently.
fn crc_bytes(s: &[u8]) -> u16
    ensures { result ≡ crc s.now }
{
    let once = SHIFTED;
    let twice = SHIFTED_TWICE;
    let thrice = SHIFTED_THRICE;
    let four = SHIFTED_FOUR;
    let five = SHIFTED_FIVE;
    let six = SHIFTED_SIX;
    let seven = SHIFTED_SEVEN;
    let eight = SHIFTED_EIGHT;
    let mut x: u16 = 0xffff;
    let groups = s.len() / GROUP;
    for k in 0..groups {
        let i = k * GROUP;
        let top = (x / 256) ^ (s[i] as u16);
        let low = (x % 256) ^ (s[i + 1] as u16);
        let last = entry_at(&thrice, s, i + 5)
            ^ (entry_at(&twice, s, i + 6) ^ entry_at(&once, s, i + 7));
        let rest = entry_at(&six, s, i + 2)
            ^ (entry_at(&five, s, i + 3) ^ (entry_at(&four, s, i + 4) ^ last));
        x = (entry(&eight, top) ^ entry(&seven, low)) ^ rest;
    }
    for i in groups * GROUP..s.len() {
        let top = (x / 256) ^ (s[i] as u16);
        x = (x % 256 * 256) ^ entry(&once, top);
    }
    x
}

// How many zeros are passed at once, first many, then a few.
const MANY: usize = 160;

const FEW: usize = 32;

// Are the bytes from `at` on zeros, a few? The loop has one way out, so that the compiler tests many bytes at once.
fn zeros_at(s: &[u8], at: usize) -> bool
    requires { at + 32 ≤ length s.now }
    ensures { result ≡ true → (k : ℕ) → at ≤ k → k < at + 32 → get_or s.now k 0 ≡ 0 }
{
    let mut good = true;
    for i in 0..FEW {
        good = good & (s[at + i] == 0);
    }
    good
}

// Where the zeros at the end begin that are passed at once. The loop goes down, and ends where it has come to: no range says that plainer.
fn before_zeros(s: &[u8]) -> usize
    ensures { (result ≤ length s.now) × ((length s.now - result) % 32 ≡ 0) × ((k : ℕ) → result ≤ k → get_or s.now k 0 ≡ 0) }
{
    let mut n = s.len();
    while FEW <= n {
        if !zeros_at(s, n - FEW) {
            return n;
        }
        n -= FEW;
    }
    n
}

// The check of a run of bytes: zeros at its end are passed many at a time.
pub fn crc16(s: &[u8]) -> u16
    ensures { result ≡ crc s.now }
{
    let many_high = MANY_HIGH;
    let many_low = MANY_LOW;
    let few_high = FEW_HIGH;
    let few_low = FEW_LOW;
    let start = before_zeros(s);
    let zeros = s.len() - start;
    let mut x = crc_bytes(&s[..start]);
    for _ in 0..zeros / MANY {
        x = entry(&many_high, x / 256) ^ entry(&many_low, x % 256);
    }
    for _ in 0..zeros % MANY / FEW {
        x = entry(&few_high, x / 256) ^ entry(&few_low, x % 256);
    }
    x
}
