#![tactic(auto)]
// The signature of a table's stream: sorts, functions, actions, and where each of them stands.
ghost use Rattle.std.specs.Prelude.{◌≡◌, List, map, ℕ, ◌≤◌, ◌<◌, length, get_or, take, drop, MatchOption, IfSome, OnSome};
ghost use Rattle.std.proofs.Math.Option as R;
ghost use Rattle.pcrl.specs.Limits.{max_sorts, max_functions, max_actions, max_arity};
ghost use Rattle.pcrl.specs.Tests.{Between, between?, at_most?, below?};
ghost use Rattle.pcrl.specs.Reader.{missing, found, one, times, counted};
ghost use Rattle.pcrl.specs.Sorts as values;
ghost use Rattle.laws.specs.Says.{Says};
ghost use Rattle.pcrl.specs.Stream.{names_code, encode_sort, encode_func, encode_action};
ghost use Rattle.pcrl.specs.Decode.{read_sizes, read_sort, read_all_sorts, read_func, read_action, read_sig};
ghost use Rattle.terms.specs.Ends.{rests, ended};
ghost use Rattle.terms.specs.Laid.{Laid};
ghost use Rattle.signature.specs.Reading.{BoolAt, names_there, SortsRead, SigRead};

use elements::{cell, peek, wide};
use limits::{MAX_ACTIONS, MAX_FUNCTIONS, MAX_SIZE, MAX_SORTS, NAMES_CODE};

const SORTS: u8 = limits::MAX_SORTS as u8;

const BOOL_SIZE: u8 = limits::BOOL_SIZE as u8;

const ARITY: u8 = limits::MAX_ARITY as u8;

// Where functions and actions end, and how many there are.
#[derive(Clone, Copy)]
pub struct Signed {
    pub at: usize,
    pub funcs: usize,
    pub acts: usize,
}

// "count and sizes of sorts, Bool's 2 first"
fn read_sizes(s: &[u8], at: usize) -> Option<usize>
    ensures { rests (read_sizes (drop at s.now)) ≡ ended s.now result }
{
    let end = terms::read_list(s, at, 1, SORTS, 1, MAX_SIZE + 1)?;
    if peek(terms::list_at(s, at), 0) != BOOL_SIZE {
        return None;
    }
    Some(end)
}

// #104: "The stream gives each sort a name length and name after its size"
fn read_sort(s: &[u8], at: usize) -> Option<usize>
    ensures { (rests (read_sort (drop at s.now)) ≡ ended s.now result) × OnSome result (at < length s.now) }
{
    terms::number_at(s, at, 1, MAX_SIZE + 1)?;
    action_names::read_sort_name(s, at + 1)
}

// The sorts with their names; where each stands goes into sorts. Functions and actions below are read alike, each by its own reader: one
// function for all three would take the reader as a closure, which the C library's code may not call.
fn read_named(s: &[u8], at: usize, sorts: &mut [u16]) -> Option<usize>
    requires { (max_sorts ≤ length sorts.old) × (length s.now < 65536) }
    ensures { Laid (counted (between? 1 max_sorts) read_sort (drop at s.now)) encode_sort s.now result (take (get_or s.now at 0) sorts.new) × OnSome result (Between 1 max_sorts (get_or s.now at 0)) }
{
    let n = terms::number_at(s, at, 1, MAX_SORTS + 1)?;
    let mut i = at + 1;
    for k in 0..n {
        let next = read_sort(s, i)?;
        sorts[k] = i as u16;
        i = next;
    }
    Some(i)
}

// The sizes of the sorts that stand at places.
fn copy_sizes(s: &[u8], sorts: &[u16], sizes: &mut [u8])
    requires { length sorts.now ≤ length sizes.old }
    ensures { take (length sorts.now) sizes.new ≡ map (λ p. get_or s.now p 0) sorts.now }
{
    // by an index, since two slices are gone over
    for k in 0..sorts.len() {
        sizes[k] = peek(s, cell(sorts, k));
    }
}

// "Bool first": is the sort at the place of size 2 and named Bool?
fn bool_at(s: &[u8], at: usize) -> bool
    requires { at < 65536 }
    ensures { Says result (BoolAt s.now at) }
{
    if peek(s, at) != BOOL_SIZE {
        return false;
    }
    terms::list_at(s, at + 1) == b"Bool".as_slice()
}

// Where the sorts end, how many there are, and whether their names stand there.
#[derive(Clone, Copy)]
pub struct SortList {
    pub at: usize,
    pub count: usize,
    pub named: bool,
}

// The sorts with their names, behind hex F2: their sizes, and where each stands.
fn read_with_names(s: &[u8], sizes: &mut [u8], sorts: &mut [u16]) -> Option<SortList>
    requires { (max_sorts ≤ length sizes.old) × ((max_sorts ≤ length sorts.old) × (length s.now < 65536)) }
    ensures { (get_or s.now 0 0 ≡ names_code → SortsRead s.now sizes.new sorts.new result) × IfSome result (λ r. r.count ≤ max_sorts) }
{
    let at = read_named(s, 1, sorts)?;
    if !bool_at(s, cell(sorts, 0)) {
        return None;
    }
    let count = wide(peek(s, 1));
    if !action_names::distinct(s, &sorts[..count], 1) {
        return None;
    }
    copy_sizes(s, &sorts[..count], sizes);
    Some(SortList {
        at,
        count,
        named: true,
    })
}

// The sorts without their names: their sizes.
fn read_without_names(s: &[u8], sizes: &mut [u8]) -> Option<SortList>
    requires { max_sorts ≤ length sizes.old }
    ensures { ((get_or s.now 0 0 ≡ names_code → ⊥) → (sorts : List ℕ) → SortsRead s.now sizes.new sorts result) × IfSome result (λ r. r.count ≤ max_sorts) }
{
    let at = read_sizes(s, 0)?;
    let list = terms::list_at(s, 0);
    let count = list.len();
    sizes[..count].copy_from_slice(list);
    Some(SortList {
        at,
        count,
        named: false,
    })
}

// "starts with hex F2"; "Tables without hex F2 are still read": the sizes of the sorts, and where each stands if its name does.
fn read_sorts(s: &[u8], sizes: &mut [u8], sorts: &mut [u16]) -> Option<SortList>
    requires { (max_sorts ≤ length sizes.old) × ((max_sorts ≤ length sorts.old) × (length s.now < 65536)) }
    ensures { SortsRead s.now sizes.new sorts.new result × IfSome result (λ r. r.count ≤ max_sorts) }
{
    if peek(s, 0) == NAMES_CODE {
        return read_with_names(s, sizes, sorts);
    }
    read_without_names(s, sizes)
}

// How many values a function of one or two sorts has.
fn volume(sizes: &[u8], sorts: &[u8]) -> usize
    ensures { Between 1 max_arity (length sorts.now) → result ≡ values.volume sizes.now sorts.now }
{
    let a = wide(peek(sizes, wide(peek(sorts, 0))));
    if sorts.len() == 1 {
        return a;
    }
    a * wide(peek(sizes, wide(peek(sorts, 1))))
}

// n values below a limit.
fn read_values(s: &[u8], at: usize, n: usize, limit: u8) -> Option<usize>
    ensures { rests (times (one (below? limit)) n (drop at s.now)) ≡ ended s.now result }
{
    let mut i = at;
    for _ in 0..n {
        terms::number_at(s, i, 0, wide(limit))?;
        i += 1;
    }
    Some(i)
}

// "each arity, sorts, result, values"
fn read_func(s: &[u8], sizes: &[u8], at: usize) -> Option<usize>
    ensures { (rests (read_func sizes.now (drop at s.now)) ≡ ended s.now result) × OnSome result (at < length s.now) }
{
    let i = terms::read_list(s, at, 1, ARITY, 0, sizes.len())?;
    let d = terms::number_at(s, i, 0, sizes.len())?;
    let n = volume(sizes, terms::list_at(s, at));
    read_values(s, i + 1, n, sizes[d])
}

// The functions; where each stands goes into funcs.
fn read_funcs(s: &[u8], sizes: &[u8], at: usize, funcs: &mut [u16]) -> Option<usize>
    requires { (max_functions ≤ length funcs.old) × (length s.now < 65536) }
    ensures { Laid (counted (at_most? max_functions) (read_func sizes.now) (drop at s.now)) encode_func s.now result (take (get_or s.now at 0) funcs.new) × OnSome result (get_or s.now at 0 ≤ max_functions) }
{
    let n = terms::number_at(s, at, 0, MAX_FUNCTIONS + 1)?;
    let mut i = at + 1;
    for k in 0..n {
        let next = read_func(s, sizes, i)?;
        funcs[k] = i as u16;
        i = next;
    }
    Some(i)
}

// "each name length, name, arity, sorts"
fn read_action(s: &[u8], sizes: &[u8], at: usize) -> Option<usize>
    ensures { (rests (read_action sizes.now (drop at s.now)) ≡ ended s.now result) × OnSome result (at < length s.now) }
{
    let sorts = action_names::read_name(s, at)?;
    terms::read_list(s, sorts, 0, ARITY, 0, sizes.len())
}

// The actions; where each stands goes into acts.
fn read_acts(s: &[u8], sizes: &[u8], at: usize, acts: &mut [u16]) -> Option<usize>
    requires { (max_actions ≤ length acts.old) × (length s.now < 65536) }
    ensures { Laid (counted (at_most? max_actions) (read_action sizes.now) (drop at s.now)) encode_action s.now result (take (get_or s.now at 0) acts.new) × OnSome result (get_or s.now at 0 ≤ max_actions) }
{
    let n = terms::number_at(s, at, 0, MAX_ACTIONS + 1)?;
    let mut i = at + 1;
    for k in 0..n {
        let next = read_action(s, sizes, i)?;
        acts[k] = i as u16;
        i = next;
    }
    Some(i)
}

// "count of functions .. count of actions", behind the sorts of these sizes.
fn read_declared(
    s: &[u8],
    sizes: &[u8],
    at: usize,
    funcs: &mut [u16],
    acts: &mut [u16],
) -> Option<Signed>
    requires { (max_functions ≤ length funcs.old) × ((max_actions ≤ length acts.old) × (length s.now < 65536)) }
    ensures { ((o : R.Option (List (List ℕ))) → read_all_sorts s.now ≡ found (sizes.now, o) (drop at s.now) → MatchOption result (read_sig s.now ≡ missing) (λ r. SigRead o s.now r.at sizes.now (take r.funcs funcs.new) (take r.acts acts.new))) × IfSome result (λ r. (r.funcs ≤ max_functions) × (r.acts ≤ max_actions)) }
{
    let i = read_funcs(s, sizes, at, funcs)?;
    let end = read_acts(s, sizes, i, acts)?;
    let n = wide(peek(s, i));
    if !action_names::distinct(s, &acts[..n], 0) {
        return None;
    }
    Some(Signed {
        at: end,
        funcs: wide(peek(s, at)),
        acts: n,
    })
}

// Where the signature ends; how many sorts there are and whether their names stand there, how many functions and actions.
#[derive(Clone, Copy)]
pub struct Whole {
    pub at: usize,
    pub sorts: usize,
    pub named: bool,
    pub funcs: usize,
    pub acts: usize,
}

// "count and sizes of sorts .. count of functions .. count of actions", from the start of the stream.
pub fn read_sig(
    s: &[u8],
    sizes: &mut [u8],
    sorts: &mut [u16],
    funcs: &mut [u16],
    acts: &mut [u16],
) -> Option<Whole>
    requires { (max_sorts ≤ length sizes.old) × ((max_sorts ≤ length sorts.old) × ((max_functions ≤ length funcs.old) × ((max_actions ≤ length acts.old) × (length s.now < 65536)))) }
    ensures { MatchOption result (read_sig s.now ≡ missing) (λ r. SigRead (names_there r.named s.now (take r.sorts sorts.new)) s.now r.at (take r.sorts sizes.new) (take r.funcs funcs.new) (take r.acts acts.new)) × IfSome result (λ r. (r.sorts ≤ max_sorts) × ((r.funcs ≤ max_functions) × (r.acts ≤ max_actions))) }
{
    let z = read_sorts(s, sizes, sorts)?;
    let d = read_declared(s, &sizes[..z.count], z.at, funcs, acts)?;
    Some(Whole {
        at: d.at,
        sorts: z.count,
        named: z.named,
        funcs: d.funcs,
        acts: d.acts,
    })
}
