#![tactic(auto)]
// Elements of slices, 0 past the end; numbers made wider and narrower.
ghost use Rattle.std.specs.Prelude.{◌≡◌, refl, ℕ, ◌%◌, ◌<◌, get_or};

// Numbers that a byte, and a cell of 16 bits, can hold.
pub const BYTE_LIMIT: usize = 256;

pub const CELL_LIMIT: usize = 65536;

// A number as slices hold it, of 8, 16 or 32 bits.
pub trait Number: Copy {
    // What it counts; a bound above all of them; what stands past a slice's end.
    ghost value: { Self → ℕ };

    ghost bound: { ℕ };

    ghost none: { Self };

    // What stands past the end, which counts 0.
    fn zero() -> Self
        ensures { result ≡ none };

    // Made wider, to count with or as a place.
    fn wide(self) -> usize
        ensures { (result ≡ value self) × (result < bound) };

    ghost none_counts_zero: { value none ≡ 0 };
}

impl Number for u8 {
    ghost value = { λ x. x };

    ghost bound = { 256 };

    ghost none = { 0 };

    fn zero() -> u8 {
        0
    }

    fn wide(self) -> usize {
        usize::from(self)
    }

    ghost none_counts_zero = { refl };
}

impl Number for u16 {
    ghost value = { λ x. x };

    ghost bound = { 65536 };

    ghost none = { 0 };

    fn zero() -> u16 {
        0
    }

    fn wide(self) -> usize {
        usize::from(self)
    }

    ghost none_counts_zero = { refl };
}

impl Number for u32 {
    ghost value = { λ x. x };

    ghost bound = { 4294967296 };

    ghost none = { 0 };

    fn zero() -> u32 {
        0
    }

    fn wide(self) -> usize {
        self as usize
    }

    ghost none_counts_zero = { refl };
}

// An element of a slice, 0 past its end.
pub fn peek<T: Number>(s: &[T], i: usize) -> T
    ensures { result ≡ get_or s.now i T.none }
{
    if i < s.len() { s[i] } else { T::zero() }
}

// An element as a number to count with, or as a place.
pub fn cell<T: Number>(s: &[T], i: usize) -> usize
    ensures { (result ≡ T.value (get_or s.now i T.none)) × (result < T.bound) }
{
    peek(s, i).wide()
}

// A number made wider, to count with or as a place.
pub fn wide<T: Number>(x: T) -> usize
    ensures { (result ≡ T.value x) × (result < T.bound) }
{
    x.wide()
}

// The lowest eight bits.
pub fn low(n: usize) -> u8
    ensures { result ≡ n % 256 }
{
    (n % BYTE_LIMIT) as u8
}

// A number that fits a cell; 0 for a larger one.
pub fn short(n: usize) -> u16
    ensures { n < 65536 → result ≡ n }
{
    u16::try_from(n).unwrap_or(0)
}
