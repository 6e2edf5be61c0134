// Question 9: circles at the head. Sets of processes are the bits of a u32.
ghost use Rattle.std.specs.Prelude.{◌≡◌, List, ℕ, ◌≤◌, ◌<◌, eqb, length};
ghost use Rattle.pcrl.specs.Limits.{max_processes};
ghost use Rattle.pcrl.specs.Sheet.{Sheet};
ghost use Rattle.pcrl.specs.Tests.{and, or};
ghost use Rattle.pcrl.specs.Circles.{guarded};
ghost use Rattle.nodes.specs.Bits.{set_width, bit};
ghost use Rattle.nodes.specs.Held.{HeldProcs};
ghost use Rattle.checker.specs.Circles.{WithCall, HeadsAt, SetsAt, AllPassed, NextRound, PassedAfter, SetOf, numbers_below};

use elements::cell;
use limits::MAX_PROCESSES;
use nodes::{CALL, MAX_SCOPE, Outline, SEQ, node_at, skip, with_bit};

// The processes at the head of a term, and the place after the term.
#[derive(Clone, Copy)]
pub struct Heads {
    pub set: u32,
    pub next: usize,
}

// A call at the head is its process, no other node is one; a set has as many numbers as those of variables.
fn with_call(set: u32, kind: usize, number: usize) -> u32
    ensures { WithCall set kind number result }
{
    if kind != CALL {
        return set;
    }
    if number >= MAX_SCOPE {
        return set;
    }
    with_bit(set, number)
}

fn union(a: u32, b: u32) -> u32
    ensures { (i : ℕ) → bit i result ≡ or (bit i a) (bit i b) }
{
    a | b
}

// "The head is a sequence's first part, looked for inside sums, brackets and each side of `+` and of a conditional."
pub fn heads_of(cells: &[u16], at: usize) -> Heads
    ensures at_le_next { at ≤ result.next }
    ensures heads_at { HeadsAt cells.now at result }
{
    let mut p = at;
    let mut need: usize = 1;
    let mut set: u32 = 0;
    while need > 0 {
        if p >= cells.len() {
            return Heads { set, next: p };
        }
        let d = node_at(cells, p);
        if d.kind == SEQ {
            let first = heads_of(cells, d.next);
            let after = skip(cells, first.next);
            set = union(set, first.set);
            need -= 1;
            p = after.next;
            continue;
        }
        set = with_call(set, d.kind, d.number);
        need = need - 1 + d.kids;
        p = d.next;
    }
    Heads { set, next: p }
}

// The processes at the head of each of the first n right sides.
pub fn head_sets(cells: &[u16], starts: &[u16], n: usize) -> [u32; MAX_PROCESSES]
    requires { n ≤ max_processes }
    ensures of_len { length result ≡ max_processes }
    ensures sets_at { SetsAt cells.now starts.now n result }
{
    let mut sets = [0u32; MAX_PROCESSES];
    for k in 0..n {
        let r = heads_of(cells, cell(starts, k));
        sets[k] = r.set;
    }
    sets
}

// Have all processes of a set passed?
fn all_passed(heads: u32, passed: u32) -> bool
    ensures { AllPassed heads passed result }
{
    heads | passed == passed
}

fn with_if(set: u32, k: usize, passes: bool) -> u32
    requires { k < set_width }
    ensures { (i : ℕ) → bit i result ≡ or (bit i set) (and passes (eqb i k)) }
{
    if passes {
        return with_bit(set, k);
    }
    set
}

// A process passes one round later than all the processes at its head.
fn next_round(sets: &[u32], procs: usize, passed: u32) -> u32
    requires { (procs ≤ max_processes) × (length sets.now ≡ max_processes) }
    ensures { NextRound sets.now procs passed result }
{
    let mut r: u32 = 0;
    for k in 0..procs {
        let passes = all_passed(sets[k], passed);
        r = with_if(r, k, passes);
    }
    r
}

// As many rounds as there are processes.
fn passed_after(sets: &[u32], procs: usize) -> u32
    requires { (procs ≤ max_processes) × (length sets.now ≡ max_processes) }
    ensures { PassedAfter sets.now procs result }
{
    let mut passed: u32 = 0;
    for _ in 0..procs {
        passed = next_round(sets, procs, passed);
    }
    passed
}

fn all_processes(procs: usize) -> u32
    requires { procs ≤ max_processes }
    ensures { SetOf result (numbers_below procs) }
{
    let mut r: u32 = 0;
    for k in 0..procs {
        r = with_bit(r, k);
    }
    r
}

// 9: "No circle of written processes, each standing at the head of the previous one's right side?"
pub fn guarded_sheet(cells: &[u16], starts: &[u16], n: Outline) -> bool
    ensures { (H : Sheet) (procs : List ℕ) → HeldProcs H procs cells.now starts.now n → result ≡ guarded H }
{
    if n.procs > MAX_PROCESSES {
        return false;
    }
    let sets = head_sets(cells, starts, n.procs);
    let passed = passed_after(&sets, n.procs);
    all_passed(all_processes(n.procs), passed)
}
