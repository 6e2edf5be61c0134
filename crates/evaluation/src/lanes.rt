// One row of up to 128 values, a lane for each pair of values of two variables, made of others lane by lane.
ghost use Rattle.std.specs.Prelude.{ℕ, ◌+◌, ◌-◌, ◌*◌, ◌≤◌, ◌<◌, length, get_or};
ghost use Rattle.evaluation.specs.Run.{operator_code, operator_worth};
ghost use Rattle.evaluation.specs.Rows.{lane_count, row_count, row_room, mark_room, lane, RowPut, Putting, Marked};

use crate::{operator_worth, row};
use elements::{peek, wide};

// The most lanes of a row.
pub const LANES: usize = 128;

// Rows of values, as many as a term of 31 nodes needs; behind them stand three rows of zeros.
pub const ROWS: usize = 17;

// A mark for each, and all rows.
pub const MARK_ROOM: usize = ROWS + 3;

pub const ROW_ROOM: usize = MARK_ROOM * LANES;

// So many lanes are looked up in one go.
const PART: usize = 16;

// Row d is b.
pub fn fill(rows: &mut [u8], d: usize, b: u8)
    requires { (d < row_count) × (row_room ≤ length rows.old) }
    ensures { RowPut lane_count rows.old d (λ i. b) rows.new }
{
    let r = d * LANES;
    rows[r..r + LANES].fill(b);
}

// Row d is what each lane has for a variable.
pub fn copy(from: &[u8], rows: &mut [u8], d: usize)
    requires { (lane_count ≤ length from.now) × ((d < row_count) × (row_room ≤ length rows.old)) }
    ensures { RowPut lane_count rows.old d (λ i. get_or from.now i 0) rows.new }
{
    let r = d * LANES;
    rows[r..r + LANES].copy_from_slice(&from[..LANES]);
}

// No lane of row t is higher.
fn highest(rows: &[u8], t: usize) -> u8
    requires { (t ≤ 19) × (row_room ≤ length rows.now) }
    ensures { (i : ℕ) → i < lane_count → lane rows.now t i ≤ result }
{
    let x = t * LANES;
    let mut m: u8 = 0;
    for i in 0..LANES {
        m = m.max(rows[x + i]);
    }
    m
}

// Row d is what a function of one argument, whose values stand from q on, makes of row t.
fn one(s: &[u8], q: usize, rows: &mut [u8], t: usize, d: usize, n: usize)
    requires { (q < 262144) × ((t ≤ 18) × ((d < row_count) × ((row_room ≤ length rows.old) × (n ≤ lane_count)))) }
    ensures { RowPut n rows.old d (λ i. get_or s.now (q + lane rows.old t i) 0) rows.new }
{
    let x = t * LANES;
    let r = d * LANES;
    for i in 0..n {
        rows[r + i] = peek(s, q + wide(rows[x + i]));
    }
}

// The same where all places that the row names are in the stream: a loop of its own, since a test of each place would slow it.
fn one_inside(s: &[u8], q: usize, rows: &mut [u8], t: usize, d: usize, n: usize)
    requires { ((i : ℕ) → i < lane_count → q + lane rows.old t i < length s.now) × ((q < 262144) × ((t ≤ 18) × ((d < row_count) × ((row_room ≤ length rows.old) × (n ≤ lane_count))))) }
    ensures { RowPut n rows.old d (λ i. get_or s.now (q + lane rows.old t i) 0) rows.new }
{
    let x = t * LANES;
    let r = d * LANES;
    for i in 0..n {
        rows[r + i] = s[q + wide(rows[x + i])];
    }
}

// Row d is what a function of two arguments makes of rows t and t + 1: its values stand in rows of the given length.
fn two(s: &[u8], q: usize, width: u8, rows: &mut [u8], t: usize, d: usize, n: usize)
    requires { (q < 131072) × ((t ≤ row_count) × ((d < row_count) × ((row_room ≤ length rows.old) × (n ≤ lane_count)))) }
    ensures { RowPut n rows.old d (λ i. get_or s.now (q + (lane rows.old t i * width + lane rows.old (t + 1) i)) 0) rows.new }
{
    let x = t * LANES;
    let y = x + LANES;
    let r = d * LANES;
    for i in 0..n {
        rows[r + i] = peek(s, q + row(rows[x + i], width, rows[y + i]));
    }
}

// The same for the lanes from k on where all places are in the stream: no test, and the places first, so that the compiler makes them 8 at a time.
fn two_part(s: &[u8], q: usize, width: u8, rows: &mut [u8], t: usize, d: usize, k: usize)
    requires { ((i : ℕ) → k ≤ i → i < k + 16 → q + (lane rows.old t i * width + lane rows.old (t + 1) i) < length s.now) × ((k + 16 ≤ lane_count) × ((q < 131072) × ((t ≤ row_count) × ((d < row_count) × (row_room ≤ length rows.old))))) }
    ensures { Putting rows.old d (λ i. get_or s.now (q + (lane rows.old t i * width + lane rows.old (t + 1) i)) 0) k (k + 16) rows.new }
{
    let x = t * LANES + k;
    let y = x + LANES;
    let r = d * LANES + k;
    let mut at = [0u16; 16];
    for i in 0..PART {
        at[i] = row(rows[x + i], width, rows[y + i]) as u16;
    }
    for j in 0..PART {
        rows[r + j] = s[q + (at[j] as usize)];
    }
}

// The same for all lanes.
fn two_inside(s: &[u8], q: usize, width: u8, rows: &mut [u8], t: usize, d: usize, n: usize)
    requires { ((i : ℕ) → i < lane_count → q + (lane rows.old t i * width + lane rows.old (t + 1) i) < length s.now) × ((q < 131072) × ((t ≤ row_count) × ((d < row_count) × ((row_room ≤ length rows.old) × (n ≤ lane_count))))) }
    ensures { RowPut n rows.old d (λ i. get_or s.now (q + (lane rows.old t i * width + lane rows.old (t + 1) i)) 0) rows.new }
{
    for i in (0..n).step_by(PART) {
        two_part(s, q, width, rows, t, d, i);
    }
}

// Row d is what an operator makes of the rows from t on.
pub fn operator(c: usize, rows: &mut [u8], t: usize, d: usize)
    requires { (operator_code ≤ c) × ((t ≤ row_count) × ((d < row_count) × (row_room ≤ length rows.old))) }
    ensures { RowPut lane_count rows.old d (λ i. operator_worth (c - operator_code) (lane rows.old t i) (lane rows.old (t + 1) i) (lane rows.old (t + 2) i)) rows.new }
{
    let x = t * LANES;
    let y = x + LANES;
    let z = y + LANES;
    let r = d * LANES;
    for i in 0..LANES {
        rows[r + i] = operator_worth(c, rows[x + i], rows[y + i], rows[z + i]);
    }
}

// The same as `one`, with one value where all of row t are the same.
pub fn unary(s: &[u8], q: usize, rows: &mut [u8], marks: &mut [u8], t: usize, d: usize, n: usize)
    requires { (q < 262144) × ((t ≤ 18) × ((d < row_count) × ((row_room ≤ length rows.old) × ((mark_room ≤ length marks.old) × (n ≤ lane_count))))) }
    ensures { Marked rows.old marks.old → RowPut n rows.old d (λ i. get_or s.now (q + lane rows.old t i) 0) rows.new × Marked rows.new marks.new }
{
    if marks[t] == 0 {
        let x = rows[t * LANES];
        fill(rows, d, peek(s, q + wide(x)));
        marks[d] = 0;
        return;
    }
    marks[d] = 1;
    if q + wide(highest(rows, t)) < s.len() {
        one_inside(s, q, rows, t, d, n);
        return;
    }
    one(s, q, rows, t, d, n);
}

// The same as `two`, with one row of the function's values where all of row t are the same.
pub fn binary(
    s: &[u8],
    q: usize,
    width: u8,
    rows: &mut [u8],
    marks: &mut [u8],
    t: usize,
    d: usize,
    n: usize,
)
    requires { (q < 65541) × ((t ≤ row_count) × ((d < row_count) × ((row_room ≤ length rows.old) × ((mark_room ≤ length marks.old) × (n ≤ lane_count))))) }
    ensures { Marked rows.old marks.old → RowPut n rows.old d (λ i. get_or s.now (q + (lane rows.old t i * width + lane rows.old (t + 1) i)) 0) rows.new × Marked rows.new marks.new }
{
    if marks[t] == 0 {
        let x = rows[t * LANES];
        unary(s, q + row(x, width, 0), rows, marks, t + 1, d, n);
        return;
    }
    marks[d] = 1;
    if q + row(highest(rows, t), width, highest(rows, t + 1)) < s.len() {
        two_inside(s, q, width, rows, t, d, n);
        return;
    }
    two(s, q, width, rows, t, d, n);
}
