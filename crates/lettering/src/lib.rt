#![tactic(auto)]
// The names that sorts, functions, processes and variables get: those of sorts are the table's own, the others a letter, repeated, and an index.
ghost use Rattle.std.specs.Prelude.{◌≡◌, false, ◌+◌, ◌*◌, ◌≤◌, ◌<◌, min, max, eqb, length, get_or};
ghost use Rattle.pcrl.specs.Limits.{max_sorts, max_stream};
ghost use Rattle.pcrl.specs.Tokens.{run};
ghost use Rattle.pcrl.specs.Letters.{longest_run};
ghost use Rattle.pcrl.specs.Table.{Table};
ghost use Rattle.pcrl.specs.Right.{RightTable};
ghost use Rattle.tables.specs.Indexed.{Indexed};
ghost use Rattle.texts.specs.Wrote.{Wrote};
ghost use Rattle.lettering.specs.SortNames.{name_cell, CellsIn, ShortNames, NamesIn};
ghost use Rattle.lettering.specs.Named.{named_by, lettered_by, sort_by, names_at, cells, cell_of, older_by, name_by, once_more, Lettered};

use elements::{cell, low, peek, wide};
use limits::{MAX_SORT_NAME, MAX_SORTS};
use tables::Index;
use texts::{put_byte, put_bytes, put_decimal, put_run};

// A sort's name and its length before it.
pub const NAME_CELL: usize = MAX_SORT_NAME + 1;

const NAMES: usize = MAX_SORTS * NAME_CELL;

// Where the cells of the sorts' names stand.
pub const CELLS: [u16; MAX_SORTS] = [0, 19, 38, 57, 76, 95, 114, 133];

// Where it stands behind the cells how many times a letter is repeated.
pub const FUNCS: usize = NAMES;

pub const PROCS: usize = NAMES + 1;

pub const VARS: usize = NAMES + 2;

const LETTERS: usize = NAMES + 3;

// How many times a letter stands at the front of a name.
fn front_run(name: &[u8], b: u8) -> usize
    ensures { (result ≡ run (eqb b) name.now) × (result ≤ length name.now) }
{
    for i in 0..name.len() {
        if name[i] != b {
            return i;
        }
    }
    name.len()
}

// The longest run of a letter at the front of n names that stand at places.
fn longest_run(s: &[u8], places: &[u16], n: usize, b: u8) -> usize
    requires { length s.now ≤ max_stream }
    ensures { (result ≤ max_stream) × (result ≡ longest_run b (names_at s.now places.now n)) }
{
    let mut most: usize = 0;
    for i in 0..n {
        let r = front_run(terms::list_at(s, cell(places, i)), b);
        most = most.max(r);
    }
    most
}

// A letter n times and an index.
fn put_letters(out: &mut [u8], at: usize, b: u8, n: usize, i: usize) -> usize
    requires { at ≤ length out.old }
    ensures { Wrote out.old at (named_by b n i) out.new result }
{
    let p = put_run(out, at, b, n);
    put_decimal(out, p, i)
}

// A cell: a name's length and the name.
pub fn put_cell(out: &mut [u8], at: usize, name: &[u8]) -> usize
    requires { at ≤ length out.old }
    ensures { Wrote out.old at (cell_of name.now) out.new result }
{
    let p = put_byte(out, at, low(name.len()));
    put_bytes(out, p, name)
}

// The cell of a sort whose name does not stand in the stream: Bool, or the letter s, n times, and the sort's number.
fn put_older(out: &mut [u8], at: usize, n: usize, d: usize) -> usize
    requires { (at ≤ length out.old) × ((n < 255) × (d < 10)) }
    ensures { Wrote out.old at (cell_of (older_by n d)) out.new result }
{
    if d == 0 {
        return put_cell(out, at, b"Bool");
    }
    let p = put_byte(out, at, low(n + 1));
    put_letters(out, p, b's', n, d)
}

// The cell of sort d: its name stands one byte behind p, if names stand in the stream.
fn put_one(out: &mut [u8], s: &[u8], p: usize, named: bool, n: usize, d: usize) -> usize
    requires { (name_cell * d ≤ length out.old) × ((n < 255) × ((d < 10) × (p < 65536))) }
    ensures { Wrote out.old (name_cell * d) (cell_of (name_by named s.now p n d)) out.new result }
{
    let at = NAME_CELL * d;
    if named {
        return put_cell(out, at, terms::list_at(s, p + 1));
    }
    put_older(out, at, n, d)
}

// The cells of all sorts.
fn put_names(out: &mut [u8], s: &[u8], sorts: &[u16], named: bool, count: usize, n: usize)
    requires { (152 ≤ length out.old) × (n < 255) }
    ensures out_len_unchanged { length out.new ≡ length out.old }
    ensures cells_in { ShortNames (λ D. name_by named s.now (get_or sorts.now D 0) n D) (min count max_sorts) → CellsIn (λ D. name_by named s.now (get_or sorts.now D 0) n D) (min count max_sorts) out.new }
{
    let m = count.min(MAX_SORTS);
    for d in 0..m {
        put_one(out, s, cell(sorts, d), named, n, d);
    }
}

// How many times the letter of sorts is repeated where their names do not stand in the stream: as few times as leave no name of n actions
// that begins with that run.
fn sort_letters(s: &[u8], acts: &[u16], n: usize, named: bool) -> usize
    requires { length s.now ≤ max_stream }
    ensures { (result < 255) × (named ≡ false → result ≡ once_more (longest_run 115 (names_at s.now acts.now n))) }
{
    if named {
        return 0;
    }
    longest_run(s, acts, n, b's').min(MAX_SORT_NAME) + 1
}

// The names of a table's sorts, each in its cell, whether they stand in its stream or not.
pub fn names_of(s: &[u8], index: Index) -> [u8; NAMES]
    requires { length s.now ≤ max_stream }
    ensures { (T : Table) → RightTable T → Indexed T s.now index → NamesIn T.sig result }
{
    let mut at = [0u8; NAMES];
    let n = sort_letters(s, &index.acts, index.actions, index.named);
    put_names(&mut at, s, &index.sorts, index.named, index.sort_count, n);
    at
}

// A letter repeated as few times as leave no name of n actions and of m sorts that begins with that run.
fn repeated(s: &[u8], acts: &[u16], n: usize, names: &[u8], m: usize, b: u8) -> u8
    requires { (length s.now ≤ max_stream) × (length names.now ≤ max_stream) }
    ensures { result ≡ once_more (max (longest_run b (names_at names.now cells m)) (longest_run b (names_at s.now acts.now n))) }
{
    let x = longest_run(names, &CELLS, m, b);
    let y = longest_run(s, acts, n, b);
    low(x.max(y).min(MAX_SORT_NAME) + 1)
}

// The names of a table's sorts, each in its cell, and behind them how many times each letter is repeated.
pub fn letters_of(s: &[u8], index: Index) -> [u8; LETTERS]
    requires { length s.now ≤ max_stream }
    ensures { (T : Table) → RightTable T → Indexed T s.now index → Lettered T.sig result }
{
    let mut at = [0u8; LETTERS];
    let k = index.actions;
    let m = index.sort_count;
    let n = sort_letters(s, &index.acts, k, index.named);
    put_names(&mut at, s, &index.sorts, index.named, m, n);
    let f = repeated(s, &index.acts, k, &at, m, b'f');
    let p = repeated(s, &index.acts, k, &at, m, b'p');
    let v = repeated(s, &index.acts, k, &at, m, b'v');
    at[FUNCS] = f;
    at[PROCS] = p;
    at[VARS] = v;
    at
}

// A letter as many times as the byte at k says, and an index.
pub fn put_name(out: &mut [u8], at: usize, l: &[u8], b: u8, k: usize, i: usize) -> usize
    requires { at ≤ length out.old }
    ensures { Wrote out.old at (lettered_by l.now b k i) out.new result }
{
    put_letters(out, at, b, wide(peek(l, k)), i)
}

// The name of a sort.
pub fn put_sort(out: &mut [u8], at: usize, l: &[u8], d: u8) -> usize
    requires { at ≤ length out.old }
    ensures { Wrote out.old at (sort_by l.now d) out.new result }
{
    put_bytes(out, at, terms::list_at(l, NAME_CELL * wide(d)))
}
