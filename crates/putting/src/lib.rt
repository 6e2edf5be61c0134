#![tactic(auto)]
// Data terms of the cells written as stream bytes, with the terms in slots put for their variables.
ghost use Rattle.std.specs.Prelude.{◌≡◌, ◌+◌, ◌*◌, ◌≤◌, ◌<◌, length, drop, take, IfSome};
ghost use Rattle.std.proofs.Math.Seq.{paste};
ghost use Rattle.pcrl.specs.Limits.{max_nodes};
ghost use Rattle.nodes.specs.Layout.{cell_limit, byte_limit};
ghost use Rattle.laws.specs.TermLength.{max_term};
ghost use Rattle.putting.specs.Slots.{slot_width};
ghost use Rattle.putting.specs.Puts.{Shares, NodePut, Puts, PutsAll, SlotPut, BytePut, Fills};

use elements::{BYTE_LIMIT, cell};
use limits::{FUNCTION_CODE, MAX_NODES, MAX_TERM};

// A slot: how many nodes a term has, how many bytes, the bytes.
pub const SLOT: usize = 2 + MAX_TERM;

// The mark of a term with too many nodes.
const LONG: u8 = 255;

// `==` and its sort are two bytes.
const EQUAL_CODE: u8 = limits::EQUAL_CODE as u8;

// How many nodes and bytes a node comes to.
#[derive(Clone, Copy)]
pub struct Share {
    pub nodes: usize,
    pub bytes: usize,
}

// A term written: its nodes, the place behind its bytes, and the one behind its cells.
#[derive(Clone, Copy)]
pub struct TermPut {
    pub nodes: usize,
    pub w: usize,
    pub next: usize,
}

// So many bytes of one slice, from a place on, put into another.
pub fn copy(s: &[u8], from: usize, l: usize, out: &mut [u8], w: usize)
    requires { (from + l ≤ length s.now) × (w + l ≤ length out.old) }
    ensures { out.new ≡ paste out.old w (drop from s.now) l }
{
    // byte by byte: the language's copy would need memmove, which the archive for C does without
    for j in 0..l {
        out[w + j] = s[from + j];
    }
}

// What one node comes to: a variable to the term in its slot.
fn share_of(slots: &[u8], n: usize, tag: usize, number: usize) -> Share
    requires { number < cell_limit }
    ensures nodes_lt_byte_limit { (result.nodes < byte_limit) × (result.bytes < byte_limit) }
    ensures shares { Shares slots.now n tag number result }
{
    if tag != nodes::VARIABLE {
        if number >= nodes::EQUAL {
            return Share { nodes: 1, bytes: 2 };
        }
        return Share { nodes: 1, bytes: 1 };
    }
    let k = cell(slots, SLOT * number);
    let l = cell(slots, SLOT * number + 1);
    Share { nodes: k, bytes: l }
}

// A node's l bytes.
fn put_node(slots: &[u8], n: usize, tag: usize, number: usize, l: usize, out: &mut [u8], v: usize)
    requires { (number < cell_limit) × (l < byte_limit) × (v + l ≤ length out.old) × (slot_width * n ≤ length slots.now) }
    ensures out_unchanged { take v out.new ≡ take v out.old }
    ensures node_put { NodePut slots.now n tag number l v out.old out.new }
{
    if l == 0 {
        return;
    }
    if tag == nodes::VALUE {
        out[v] = (number % BYTE_LIMIT) as u8;
        return;
    }
    if tag == nodes::FUNCTION {
        if l > 1 {
            out[v] = EQUAL_CODE;
            out[v + 1] = (number % BYTE_LIMIT) as u8;
            return;
        }
        out[v] = ((FUNCTION_CODE + number) % BYTE_LIMIT) as u8;
        return;
    }
    let from = SLOT * number + 2;
    if from + l > slots.len() {
        return;
    }
    // most often: a variable, or a value
    if l == 1 {
        out[v] = slots[from];
        return;
    }
    copy(slots, from, l, out, v);
}

// A data term written from w on: a loop over what is left of it. None: it has too many nodes.
pub fn put_term(
    cells: &[u16],
    at: usize,
    slots: &[u8],
    n: usize,
    out: &mut [u8],
    w: usize,
) -> Option<TermPut>
    requires { (w + max_term ≤ length out.old) × (slot_width * n ≤ length slots.now) }
    ensures w_le_w { IfSome result (λ r. (w ≤ r.w) × (r.w ≤ w + max_term) × (r.nodes ≤ max_nodes)) }
    ensures out_unchanged { take w out.new ≡ take w out.old }
    ensures puts { Puts cells.now at slots.now n w out.old result out.new }
{
    let mut p = at;
    let mut need: usize = 1;
    let mut k: usize = 0;
    let mut v = w;
    while need > 0 {
        if p >= cells.len() {
            return None;
        }
        let d = nodes::data_at(cells, p);
        let s = share_of(slots, n, d.tag, d.number);
        if k + s.nodes + need > MAX_NODES + 1 {
            return None;
        }
        let end = v + s.bytes;
        if end > w + MAX_TERM {
            return None;
        }
        put_node(slots, n, d.tag, d.number, s.bytes, out, v);
        k += s.nodes;
        v = end;
        need = need - 1 + d.kids;
        p = d.next;
    }
    Some(TermPut {
        nodes: k,
        w: v,
        next: p,
    })
}

// Some data terms, one behind another: the place behind them. None: one has too many nodes.
pub fn put_terms(
    cells: &[u16],
    at: usize,
    count: usize,
    slots: &[u8],
    n: usize,
    out: &mut [u8],
    w: usize,
) -> Option<usize>
    requires { (w + max_term * count ≤ length out.old) × (slot_width * n ≤ length slots.now) }
    ensures w_le_w { IfSome result (λ v. (w ≤ v) × (v ≤ w + max_term * count)) }
    ensures out_unchanged { take w out.new ≡ take w out.old }
    ensures puts_all { PutsAll cells.now at count slots.now n w out.old result out.new }
{
    let mut p = at;
    let mut v = w;
    for _ in 0..count {
        let r = put_term(cells, p, slots, n, out, v)?;
        p = r.next;
        v = r.w;
    }
    Some(v)
}

// A term of one byte in slot n.
pub fn put_byte(slots: &mut [u8], n: usize, x: u8)
    requires { slot_width * n + slot_width ≤ length slots.old }
    ensures { BytePut slots.old n x slots.new }
{
    let b = SLOT * n;
    slots[b] = 1;
    slots[b + 1] = 1;
    slots[b + 2] = x;
}

// A term in slot j: the place behind its cells. A term with too many nodes is only marked.
fn put_slot(cells: &[u16], at: usize, slots: &[u8], n: usize, out: &mut [u8], j: usize) -> usize
    requires { (slot_width * j + slot_width ≤ length out.old) × (slot_width * n ≤ length slots.now) }
    ensures out_unchanged { take (slot_width * j) out.new ≡ take (slot_width * j) out.old }
    ensures slot_put { SlotPut cells.now at slots.now n out.new (slot_width * j) result }
{
    let b = SLOT * j;
    let Some(r) = put_term(cells, at, slots, n, out, b + 2) else {
        out[b] = LONG;
        return nodes::skip_data(cells, at, 1);
    };
    out[b] = r.nodes as u8;
    out[b + 1] = (r.w - (b + 2)) as u8;
    r.next
}

// Some data terms, each in a slot of its own.
pub fn put_slots(cells: &[u16], at: usize, count: usize, slots: &[u8], n: usize, out: &mut [u8])
    requires { (slot_width * count ≤ length out.old) × (slot_width * n ≤ length slots.now) }
    ensures { Fills cells.now at count slots.now n out.new }
{
    let mut p = at;
    for j in 0..count {
        p = put_slot(cells, p, slots, n, out, j);
    }
}
