// Names with their keys: a name is looked up by its key, and compared byte by byte only with those that have it.
ghost use Rattle.std.specs.Prelude.{◌≡◌, ◌++◌, ◌+◌, ◌≤◌, ◌<◌, IfSome, length, take, get_or};
ghost use Rattle.pcrl.specs.Names.{number_of};
ghost use Rattle.laws.specs.Says.{Says};
ghost use Rattle.names.specs.NameCells.{name_at, found};
ghost use Rattle.names.specs.NameKeys.{mix, key_of, Keyed, names_from};
ghost use Rattle.names.specs.NameKinds.{total_of, sorts_in, funcs_in, acts_in, procs_in};
ghost use Rattle.names.specs.NameList.{max_names, list_cells, names_in, nexts_in, firsts_in, kinds_in, KeyedNames};

use crate::find::{first_byte, is_bool, letter, same_run};
use crate::{
    ACT_COUNT, Digest, FIRST_NEXT, FIRST_PLACE, FUNC_COUNT, KEYS, Kinds, PROC_COUNT, SORT_COUNT,
};
use elements::{cell, low, short, wide};

// The key of a name that goes on with the byte b.
fn mixed(k: u8, b: u8) -> u8
    ensures { result ≡ mix k b }
{
    low(wide(k) * 31 + wide(b))
}

// The key of the name of cell c, and how many bytes it has.
fn key(s: &[u8], c: u16) -> Digest
    ensures { (result.key ≡ key_of (name_at s.now c)) × (result.length ≡ length (name_at s.now c)) }
{
    let p = first_byte(c);
    let mut k: u8 = 0;
    for e in p..s.len() {
        let b = letter(s[e]);
        if b == 0 {
            return Digest {
                key: k,
                length: e - p,
            };
        }
        k = mixed(k, b);
    }
    Digest {
        key: k,
        length: s.len().saturating_sub(p),
    }
}

// The names that lines declare, so many of each kind, for each the next one with its key, these numbers and the first name of each key.
pub fn put_names(s: &[u8], names: &[u16], kinds: Kinds, declared: &mut [u16])
    requires { (total_of kinds ≤ length names.now) × (total_of kinds ≤ max_names) × (length declared.old ≡ list_cells) }
    ensures keyed { KeyedNames s.now declared.new }
    ensures kinds { kinds_in declared.new ≡ kinds }
    ensures names { take (total_of kinds) (names_in declared.new) ≡ take (total_of kinds) names.now }
{
    let n = kinds.sorts + kinds.funcs + kinds.acts + kinds.procs;
    // where no name has a key, its first name stands behind all names
    for j in 0..KEYS {
        declared[FIRST_PLACE + j] = short(n);
    }
    // the last name first: the first of its key so far is the next one after it
    for i in (0..n).rev() {
        let d = key(s, names[i]);
        let p = FIRST_PLACE + wide(d.key);
        declared[i] = names[i];
        declared[FIRST_NEXT + i] = declared[p];
        declared[p] = short(i);
    }
    declared[SORT_COUNT] = short(kinds.sorts);
    declared[FUNC_COUNT] = short(kinds.funcs);
    declared[ACT_COUNT] = short(kinds.acts);
    declared[PROC_COUNT] = short(kinds.procs);
}

// How many declared names there are.
pub fn total(declared: &[u16]) -> usize
    ensures { result ≡ total_of (kinds_in declared.now) }
{
    let sorts = cell(declared, SORT_COUNT);
    let funcs = cell(declared, FUNC_COUNT);
    let acts = cell(declared, ACT_COUNT);
    sorts + funcs + acts + cell(declared, PROC_COUNT)
}

// Is the name at place i that of cell c, of l bytes, and not before lo?
fn found_at(s: &[u8], declared: &[u16], lo: usize, i: usize, c: u16, l: usize) -> bool
    requires { (i < max_names) × (i < length declared.now) × (l ≡ length (name_at s.now c)) }
    ensures { Says result ((lo ≤ i) × (name_at s.now c ≡ name_at s.now (get_or (names_in declared.now) i 0))) }
{
    if i < lo {
        return false;
    }
    same_run(s, c, l, declared[i])
}

// Which of the names from lo on is that of cell c, counted from 0. Those with its key are gone through.
pub fn number_in(s: &[u8], declared: &[u16], lo: usize, count: usize, c: u16) -> Option<usize>
    requires { Keyed s.now (names_in declared.now) (nexts_in declared.now) (firsts_in declared.now) (lo + count) }
    ensures most { IfSome result (λ i. i < count) }
    ensures number { result ≡ found (number_of (name_at s.now c) (names_from s.now (names_in declared.now) lo count)) }
{
    let end = lo + count;
    let d = key(s, c);
    let l = d.length;
    let mut i = cell(declared, FIRST_PLACE + wide(d.key));
    while i < end {
        if found_at(s, declared, lo, i, c, l) {
            return Some(i - lo);
        }
        i = wide(declared[FIRST_NEXT + i]);
    }
    None
}

// The number of the sort, Bool's is 0.
pub fn sort_in(s: &[u8], declared: &[u16], c: u16) -> Option<usize>
    requires { KeyedNames s.now declared.now }
    ensures most { IfSome result (λ d. d ≤ (kinds_in declared.now).sorts) }
    ensures number { result ≡ found (number_of (name_at s.now c) (sorts_in s.now (names_in declared.now) (kinds_in declared.now))) }
{
    if is_bool(s, c) {
        return Some(0);
    }
    let i = number_in(s, declared, 0, cell(declared, SORT_COUNT), c)?;
    Some(i + 1)
}

// The number of the function.
pub fn func_in(s: &[u8], declared: &[u16], c: u16) -> Option<usize>
    requires { KeyedNames s.now declared.now }
    ensures most { IfSome result (λ f. f < (kinds_in declared.now).funcs) }
    ensures number { result ≡ found (number_of (name_at s.now c) (funcs_in s.now (names_in declared.now) (kinds_in declared.now))) }
{
    let lo = cell(declared, SORT_COUNT);
    number_in(s, declared, lo, cell(declared, FUNC_COUNT), c)
}

// The number of the action, or of the process behind all actions.
pub fn part_in(s: &[u8], declared: &[u16], c: u16) -> Option<usize>
    requires { KeyedNames s.now declared.now }
    ensures most { IfSome result (λ i. i < (kinds_in declared.now).acts + (kinds_in declared.now).procs) }
    ensures number { result ≡ found (number_of (name_at s.now c) (acts_in s.now (names_in declared.now) (kinds_in declared.now) ++ procs_in s.now (names_in declared.now) (kinds_in declared.now))) }
{
    let lo = cell(declared, SORT_COUNT) + cell(declared, FUNC_COUNT);
    let many = cell(declared, ACT_COUNT) + cell(declared, PROC_COUNT);
    number_in(s, declared, lo, many, c)
}

// The number of the process.
pub fn proc_in(s: &[u8], declared: &[u16], c: u16) -> Option<usize>
    requires { KeyedNames s.now declared.now }
    ensures most { IfSome result (λ k. k < (kinds_in declared.now).procs) }
    ensures number { result ≡ found (number_of (name_at s.now c) (procs_in s.now (names_in declared.now) (kinds_in declared.now))) }
{
    let lo = cell(declared, SORT_COUNT) + cell(declared, FUNC_COUNT) + cell(declared, ACT_COUNT);
    number_in(s, declared, lo, cell(declared, PROC_COUNT), c)
}
