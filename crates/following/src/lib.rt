#![tactic(auto)]
// The calls of what stands after a first part, written as stream bytes.
ghost use Rattle.std.specs.Prelude.{◌≡◌, ◌+◌, ◌*◌, ◌≤◌, ◌<◌, length, take, drop, IfSome};
ghost use Rattle.pcrl.specs.Limits.{max_calls, frame_width};
ghost use Rattle.nodes.specs.Layout.{byte_limit};
ghost use Rattle.nodes.specs.Scoped.{max_scope};
ghost use Rattle.laws.specs.TermLength.{max_term};
ghost use Rattle.putting.specs.Slots.{slot_width};
ghost use Rattle.following.specs.Follows.{call_bytes, calls_room, OnePut, MarkedPut, CallPut, CallsPut, Pushes};

use elements::{BYTE_LIMIT, cell};
use limits::{FRAME_WIDTH, MAX_CALLS, MAX_NODES, MAX_TERM};

// The most bytes of a call, and of all calls of a summand.
const CALL: usize = 1 + FRAME_WIDTH * MAX_TERM;

pub const CALLS: usize = MAX_CALLS * CALL;

// Calls written one behind another: the place behind them, and how many they are.
#[derive(Clone, Copy)]
pub struct Calls {
    pub w: usize,
    pub n: usize,
}

// Where the calls of a summand begin, and how many they are.
#[derive(Clone, Copy)]
pub struct Pushed {
    pub top: usize,
    pub n: usize,
}

// A number of equations, and some more: right below 256.
pub fn later(c: usize, more: usize) -> usize
    requires { c < byte_limit }
    ensures { (result < byte_limit) × (c + more < byte_limit → result ≡ c + more) }
{
    (c + more % BYTE_LIMIT) % BYTE_LIMIT
}

// The term in slot i, if it is no longer than a term may be: the place behind it.
fn put_one(slots: &[u8], i: usize, out: &mut [u8], w: usize) -> Option<usize>
    requires { (i < max_scope) × (slot_width * i + slot_width ≤ length slots.now) × (w + max_term ≤ length out.old) }
    ensures w_le_w { IfSome result (λ v. (w ≤ v) × (v ≤ w + max_term)) }
    ensures out_unchanged { take w out.new ≡ take w out.old }
    ensures one_put { OnePut slots.now i w out.old result out.new }
{
    let k = cell(slots, putting::SLOT * i);
    if k > MAX_NODES {
        return None;
    }
    let l = cell(slots, putting::SLOT * i + 1);
    if l > MAX_TERM {
        return None;
    }
    putting::copy(slots, putting::SLOT * i + 2, l, out, w);
    Some(w + l)
}

// The terms in the marked slots, "trailing zeros the next one". None: one is too long, or they are too many for a call.
fn put_marked(m: u32, slots: &[u8], n: usize, out: &mut [u8], w: usize) -> Option<usize>
    requires { (n ≤ max_scope) × (slot_width * n ≤ length slots.now) × (w + max_term * frame_width ≤ length out.old) }
    ensures w_le_w { IfSome result (λ v. (w ≤ v) × (v ≤ w + max_term * frame_width)) }
    ensures out_unchanged { take w out.new ≡ take w out.old }
    ensures marked_put { MarkedPut m slots.now n w out.old result out.new }
{
    let mut rest = m;
    let mut at: usize = 0;
    let mut k: usize = 0;
    let mut v = w;
    while rest != 0 {
        let t = u32::trailing_zeros(rest);
        let i = at + (t as usize);
        if i >= n {
            return Some(v);
        }
        if k >= FRAME_WIDTH {
            return None;
        }
        v = put_one(slots, i, out, v)?;
        rest = (rest >> t) / 2;
        at = i + 1;
        k += 1;
    }
    Some(v)
}

// The call of one part: a call of a process as it stands, or of the part's new equation c.
fn put_call(
    cells: &[u16],
    at: usize,
    c: usize,
    slots: &[u8],
    n: usize,
    out: &mut [u8],
    w: usize,
) -> Option<usize>
    requires { (at < length cells.now) × (c < byte_limit) × (n ≤ max_scope) × (slot_width * n ≤ length slots.now) × (w + call_bytes ≤ length out.old) }
    ensures w_le_w { IfSome result (λ v. (w ≤ v) × (v ≤ w + call_bytes)) }
    ensures out_unchanged { take w out.new ≡ take w out.old }
    ensures call_put { CallPut cells.now at c slots.now n w out.old result out.new }
{
    let d = nodes::node_at(cells, at);
    if d.kind == nodes::CALL {
        let count = d.datas;
        if count > FRAME_WIDTH {
            return None;
        }
        out[w] = (d.number % BYTE_LIMIT) as u8;
        return putting::put_terms(cells, d.terms, count, slots, n, out, w + 1);
    }
    let m = marking::marks(cells, at, n);
    out[w] = c as u8;
    put_marked(m, slots, n, out, w + 1)
}

// The calls of a term that stands after a first part: a loop over its parts, however the sequences are nested.
// None: one is too long, or they are more than `most`.
fn put_calls(
    cells: &[u16],
    at: usize,
    c: usize,
    slots: &[u8],
    n: usize,
    most: usize,
    out: &mut [u8],
) -> Option<Calls>
    requires { (c < byte_limit) × (n ≤ max_scope) × (slot_width * n ≤ length slots.now) × (most ≤ max_calls) × (calls_room ≤ length out.old) }
    ensures n_le_most { IfSome result (λ r. (r.n ≤ most) × (r.w ≤ call_bytes * r.n)) }
    ensures calls_put { CallsPut cells.now at c slots.now n most 0 out.old result out.new }
{
    let mut p = at;
    let mut need: usize = 1;
    let mut k: usize = 0;
    let mut e = c;
    let mut v: usize = 0;
    while need > 0 {
        if p >= cells.len() {
            return None;
        }
        let d = nodes::node_at(cells, p);
        if d.kind == nodes::SEQ {
            need += 1;
            p = d.next;
            continue;
        }
        if k >= most {
            return None;
        }
        let end = put_call(cells, p, e, slots, n, out, v)?;
        // the last part: where it ends does not matter
        if need == 1 {
            return Some(Calls { w: end, n: k + 1 });
        }
        let s = nodes::skip(cells, p);
        v = end;
        e = later(e, s.own);
        need -= 1;
        k += 1;
        p = s.next;
    }
    Some(Calls { w: v, n: k })
}

// The calls of a term put before those that stand from top on. What is written comes by way of the slice `after`.
// None: one is too long, or they are too many.
pub fn push_calls(
    cells: &[u16],
    at: usize,
    c: usize,
    slots: &[u8],
    n: usize,
    after: &mut [u8],
    calls: &mut [u8],
    top: usize,
    nk: usize,
) -> Option<Pushed>
    requires { (c < byte_limit) × (n ≤ max_scope) × (slot_width * n ≤ length slots.now) × (nk ≤ max_calls) × (calls_room ≤ length after.old) × (top ≤ length calls.old) × (calls_room ≤ top + call_bytes * nk) }
    ensures n_le_max_calls { IfSome result (λ r. (r.n ≤ max_calls) × (r.top ≤ length calls.old) × (calls_room ≤ r.top + call_bytes * r.n)) }
    ensures pushes { Pushes cells.now at c slots.now n nk calls.old top result calls.new }
    ensures top_le_top { IfSome result (λ r. r.top ≤ top) × (drop top calls.new ≡ drop top calls.old) }
{
    let r = put_calls(cells, at, c, slots, n, MAX_CALLS - nk, after)?;
    let l = r.w;
    putting::copy(after, 0, l, calls, top - l);
    Some(Pushed {
        top: top - l,
        n: nk + r.n,
    })
}
