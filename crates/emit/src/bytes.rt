// Bytes put one behind another into a lent array: the next free place, or none where there was no room.
ghost use Rattle.std.specs.Prelude.{◌≡◌, [], ◌∷◌, ◌+◌, get_or};
ghost use Rattle.emit.specs.Putting.{Puts};
ghost use Rattle.emit.specs.Bytes.{part, row_bytes};

use elements::cell;

// One byte; the next free place.
pub fn put(out: &mut [u8], w: usize, b: u8) -> Option<usize>
    ensures { Puts (b ∷ []) w out.old result out.new }
{
    if w >= out.len() {
        return None;
    }
    out[w] = b;
    Some(w + 1)
}

// The element i behind place a, 0 past the end.
fn element(s: &[u8], a: usize, i: usize) -> u8
    ensures { result ≡ get_or s.now (a + i) 0 }
{
    if a < s.len() {
        if i < s.len() - a {
            return s[a + i];
        }
    }
    0
}

// n elements from place a on.
pub fn copy(s: &[u8], a: usize, n: usize, out: &mut [u8], w: usize) -> Option<usize>
    ensures { Puts (part s.now a n) w out.old result out.new }
{
    let mut v = w;
    for i in 0..n {
        v = put(out, v, element(s, a, i))?;
    }
    Some(v)
}

// A row that begins with its count.
pub fn put_row(row: &[u8], p: usize, out: &mut [u8], w: usize) -> Option<usize>
    ensures { Puts (row_bytes row.now p) w out.old result out.new }
{
    copy(row, p, cell(row, p) + 1, out, w)
}
