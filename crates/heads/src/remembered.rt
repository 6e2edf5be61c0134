// What is found from a place on, remembered in some cells.
ghost use Rattle.std.specs.Prelude.{◌≡◌, true, ◌<◌, length, IfSome};
ghost use Rattle.heads.specs.Memory.{entry_cells, entries, memory_room, Finds, found, entry_at, Remembers, EntryPut, Fitting, FoundFor};

use counting::Counted;
use elements::{CELL_LIMIT, cell, short};

// Where the walk comes to, the new equations passed, and the count of the first part there, that stands at `next`; the cells looked at.
#[derive(Clone, Copy)]
pub struct Arrival {
    pub at: usize,
    pub own: usize,
    pub next: usize,
    pub a: Counted,
    pub work: usize,
}

// The cells of an entry, and how many entries there are.
const ENTRY: usize = 9;

pub const ENTRIES: usize = 64;

pub const REMEMBERED: usize = ENTRIES * ENTRY;

// What takes less than this is not remembered.
pub const WORK: usize = 64;

// The entry for a place, a row of counts and a number of heads.
pub fn find(l: &[u16], p: usize, base: usize, heads: usize) -> Option<usize>
    ensures { IfSome result (λ r. (r < entries) × FoundFor l.now r p base heads) }
{
    for i in 0..ENTRIES {
        let k = ENTRY * i;
        let h = cell(l, k + 2);
        if h == 0 {
            return None;
        }
        if cell(l, k) == p && cell(l, k + 1) == base && h == heads {
            return Some(i);
        }
    }
    None
}

pub fn found_at(l: &[u16], i: usize) -> Arrival
    requires { i < entries }
    ensures { result ≡ found (entry_at l.now i) }
{
    let k = ENTRY * i;
    let a = Counted {
        next: cell(l, k + 6),
        heads: cell(l, k + 7),
        own: cell(l, k + 8),
    };
    Arrival {
        at: cell(l, k + 3),
        own: cell(l, k + 4),
        next: cell(l, k + 5),
        a,
        work: 0,
    }
}

// The first entry that is empty; else one of them.
fn free(l: &[u16], p: usize) -> usize
    ensures { result < entries }
{
    for i in 0..ENTRIES {
        if cell(l, ENTRY * i + 2) == 0 {
            return i;
        }
    }
    p / 3 % ENTRIES
}

fn put_entry(l: &mut [u16], i: usize, e: &[u16])
    requires { (i < entries) × (length l.old ≡ memory_room) × (length e.now ≡ entry_cells) }
    ensures { EntryPut l.old i e.now l.new }
{
    let k = ENTRY * i;
    for j in 0..ENTRY {
        l[k + j] = e[j];
    }
}

fn fits(p: usize, base: usize, heads: usize, f: Arrival) -> bool
    ensures { result ≡ true → Fitting p base heads f }
{
    p < CELL_LIMIT
        && base < CELL_LIMIT
        && heads < CELL_LIMIT
        && f.at < CELL_LIMIT
        && f.own < CELL_LIMIT
        && f.next < CELL_LIMIT
        && f.a.next < CELL_LIMIT
        && f.a.heads < CELL_LIMIT
        && f.a.own < CELL_LIMIT
}

// What was found is remembered.
pub fn remember(
    cells: &[u16],
    counts: &[u16],
    l: &mut [u16],
    p: usize,
    base: usize,
    heads: usize,
    f: Arrival,
)
    requires { Remembers cells.now counts.now l.old × Finds cells.now counts.now base heads p f }
    ensures { Remembers cells.now counts.now l.new }
{
    if fits(p, base, heads, f) {
        let i = free(l, p);
        let e = [
            short(p),
            short(base),
            short(heads),
            short(f.at),
            short(f.own),
            short(f.next),
            short(f.a.next),
            short(f.a.heads),
            short(f.a.own),
        ];
        put_entry(l, i, &e);
    }
}
