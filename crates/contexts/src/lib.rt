#![tactic(auto)]
// A term whose heads are written, in its context; steps down into it, and the summand of an action in its context.
ghost use Rattle.std.specs.Prelude.{◌≡◌, List, ◌∷◌, ℕ, ◌+◌, ◌*◌, ◌≤◌, ◌<◌, length, take, drop, IfSome, IfOk};
ghost use Rattle.pcrl.specs.Limits.{max_variables, max_calls};
ghost use Rattle.nodes.specs.Layout.{byte_limit, atom_kind, seq_kind};
ghost use Rattle.nodes.specs.Scoped.{max_scope};
ghost use Rattle.nodes.specs.Views.{On, Views};
ghost use Rattle.putting.specs.Slots.{slot_width, Adds};
ghost use Rattle.following.specs.Follows.{call_bytes, calls_room};
ghost use Rattle.contexts.specs.Spots.{cond_bytes, conds_room, variable_limit, arrays, Bound, wanted_of};
ghost use Rattle.contexts.specs.Steps.{VariablePut, call_room, terms_room, act_code, SumDown, RestAt, SeqDown, StepDown, SideDown, CallDown, Stays, Emits};

use elements::{BYTE_LIMIT, cell};
use limits::{FRAME_WIDTH, MAX_ARITY, MAX_CONDITIONS, MAX_TERM, MAX_VARIABLES, TAU, VARIABLE_CODE};
use nodes::Node;
use putting::SLOT;
use refusals::Refusal;

// Room for the conditions of a summand, for the terms of an action, and for the slots of a process that is called.
pub const CONDITIONS: usize = MAX_CONDITIONS * (1 + MAX_TERM);

pub const TERMS: usize = MAX_ARITY * MAX_TERM;

pub const MINE: usize = (FRAME_WIDTH + MAX_VARIABLES) * SLOT;

// Where the walk stands: at which node, how many calls may be followed; how many slots there are, the numbers of the next variable
// and of the first new equation; how many sum variables, conditions and calls stand around it, where the conditions end and the
// calls begin. A step down answers None where no head further down has the limits.
#[derive(Clone, Copy)]
pub struct Spot {
    pub at: usize,
    pub fuel: usize,
    pub n: usize,
    pub m: usize,
    pub c: usize,
    pub nv: usize,
    pub nc: usize,
    pub lc: usize,
    pub nk: usize,
    pub top: usize,
}

// One side of a choice or a conditional, and the number of its first new equation.
#[derive(Clone, Copy)]
pub struct Side {
    pub second: bool,
    pub at: usize,
    pub c: usize,
}

// The variable m in slot n.
fn put_variable(slots: &mut [u8], n: usize, m: usize)
    requires { (slot_width * n + slot_width ≤ length slots.old) × (m < 200) }
    ensures { VariablePut slots.old n m slots.new }
{
    putting::put_byte(slots, n, (VARIABLE_CODE + m) as u8);
}

// What is wanted of the condition on a side: the yes part stands first.
fn wanted(second: bool) -> u8
    ensures { result ≡ wanted_of second }
{
    if second { 0 } else { 1 }
}

// Under a sum: its variable gets a slot.
fn down_sum(d: Node, s: Spot, slots: &mut [u8], vars: &mut [u8]) -> Option<Spot>
    requires { (slot_width * (s.n + max_variables) ≤ length slots.old + slot_width * s.nv) × (max_variables ≤ length vars.old) × (s.m ≤ variable_limit + s.nv) }
    ensures stays { IfSome result (Stays s) }
    ensures fuel_value { IfSome result (λ r. (r.fuel ≡ s.fuel) × (r.at ≡ d.next)) }
    ensures sum_down { SumDown d s slots.old vars.old result slots.new vars.new }
{
    let n = s.n;
    let nv = s.nv;
    if nv >= MAX_VARIABLES {
        return None;
    }
    if n >= nodes::MAX_SCOPE {
        return None;
    }
    put_variable(slots, n, s.m);
    vars[nv] = (d.number % BYTE_LIMIT) as u8;
    Some(Spot {
        at: d.next,
        n: n + 1,
        m: s.m + 1,
        nv: nv + 1,
        ..s
    })
}

// Into a side of a choice: a condition is added.
pub fn down_side(
    cells: &[u16],
    d: Node,
    s: Spot,
    e: Side,
    slots: &[u8],
    conds: &mut [u8],
) -> Option<Spot>
    requires { (s.lc ≤ cond_bytes * s.nc) × (conds_room ≤ length conds.old) × (slot_width * s.n ≤ length slots.now) }
    ensures stays { IfSome result (λ r. e.c < byte_limit → Stays s r) }
    ensures fuel_value { IfSome result (λ r. (r.fuel ≡ s.fuel) × (r.at ≡ e.at)) }
    ensures side_down { SideDown cells.now d s e slots.now conds.old result conds.new }
{
    if d.kind != nodes::COND {
        return Some(Spot {
            at: e.at,
            c: e.c,
            ..s
        });
    }
    if s.nc >= MAX_CONDITIONS {
        return None;
    }
    conds[s.lc] = wanted(e.second);
    let r = putting::put_term(cells, d.terms, slots, s.n, conds, s.lc + 1)?;
    Some(Spot {
        at: e.at,
        c: e.c,
        nc: s.nc + 1,
        lc: r.w,
        ..s
    })
}

// Into the first part of a sequence: the calls of the rest, that stands at e, are added.
fn down_seq(
    cells: &[u16],
    d: Node,
    s: Spot,
    e: Side,
    slots: &[u8],
    after: &mut [u8],
    calls: &mut [u8],
) -> Option<Spot>
    requires { (e.c < byte_limit) × (s.n ≤ max_scope) × (slot_width * s.n ≤ length slots.now) × (s.nk ≤ max_calls) × (calls_room ≤ length after.old) × (s.top ≤ length calls.old) × (calls_room ≤ s.top + call_bytes * s.nk) }
    ensures bound { IfSome result (λ r. (ls : ℕ) → Bound (length calls.old) ls s → Bound (length calls.old) ls r) }
    ensures fuel_value { IfSome result (λ r. (r.fuel ≡ s.fuel) × (r.at ≡ d.next)) }
    ensures seq_down { SeqDown cells.now d s e slots.now calls.old result calls.new }
{
    let r = following::push_calls(cells, e.at, e.c, slots, s.n, after, calls, s.top, s.nk)?;
    Some(Spot {
        at: d.next,
        nk: r.n,
        top: r.top,
        ..s
    })
}

// Into the right side of a process: its arguments come into slots of their own.
pub fn down_call(
    cells: &[u16],
    starts: &[u16],
    firsts: &[u8],
    d: Node,
    s: Spot,
    slots: &[u8],
    mine: &mut [u8],
) -> Option<Spot>
    requires { (slot_width * s.n ≤ length slots.now) × (call_room ≤ length mine.old) }
    ensures fuel_value { IfSome result (λ r. (s.fuel ≡ r.fuel + 1) × ((lk ls : ℕ) → Bound lk ls s → Bound lk call_room r)) }
    ensures call_down { CallDown cells.now starts.now firsts.now d s slots.now result mine.new }
{
    let count = d.datas;
    if s.fuel == 0 {
        return None;
    }
    if count > FRAME_WIDTH {
        return None;
    }
    putting::put_slots(cells, d.terms, count, slots, s.n, mine);
    let at = cell(starts, d.number);
    let c = cell(firsts, d.number);
    Some(Spot {
        at,
        fuel: s.fuel - 1,
        n: count,
        c,
        ..s
    })
}

// One step down from a node that is no action, no call and no choice; e is where the rest of a sequence stands.
pub fn step(
    cells: &[u16],
    d: Node,
    s: Spot,
    e: Side,
    slots: &mut [u8],
    vars: &mut [u8],
    after: &mut [u8],
    calls: &mut [u8],
) -> Option<Spot>
    requires place { (s.at < length cells.now) × On s.at d × Views cells.now s.at d × Bound (length calls.old) (length slots.old) s }
    requires rooms { (max_variables ≤ length vars.old) × (calls_room ≤ length after.old) × (e.c < byte_limit) × (d.kind ≡ seq_kind → RestAt cells.now d.next s e) }
    ensures bound { IfSome result (Bound (length calls.old) (length slots.old)) }
    ensures fuel_value { IfSome result (λ r. (r.fuel ≡ s.fuel) × (s.at < r.at)) }
    ensures step_down { (conds : List ℕ) → StepDown cells.now d s (arrays slots.old vars.old conds calls.old) result (arrays slots.new vars.new conds calls.new) }
{
    if d.kind == nodes::SUM {
        return down_sum(d, s, slots, vars);
    }
    if d.kind == nodes::SEQ {
        return down_seq(cells, d, s, e, slots, after, calls);
    }
    None
}

// A byte, and l bytes of a slice.
fn piece(b: u8, s: &[u8], from: usize, l: usize, out: &mut [u8], w: usize) -> usize
    requires { (from + l ≤ length s.now) × (w + 1 + l ≤ length out.old) }
    ensures value { result ≡ w + 1 + l }
    ensures adds { Adds (b ∷ take l (drop from s.now)) w out.old result out.new }
{
    out[w] = b;
    putting::copy(s, from, l, out, w + 1);
    w + 1 + l
}

// "hex FF for tau"
fn code_of(number: usize) -> u8
    ensures { result ≡ act_code number }
{
    if number == 0 {
        return TAU;
    }
    ((number - 1) % BYTE_LIMIT) as u8
}

// The summand of an action's head in its context: the place behind it.
pub fn emit(
    cells: &[u16],
    d: Node,
    s: Spot,
    slots: &[u8],
    vars: &[u8],
    conds: &[u8],
    terms: &mut [u8],
    calls: &[u8],
    out: &mut [u8],
    w: usize,
) -> Result<usize, Refusal>
    requires bound { Bound (length calls.now) (length slots.now) s × (d.kind ≡ atom_kind) × Views cells.now s.at d }
    requires rooms { (max_variables ≤ length vars.now) × (conds_room ≤ length conds.now) × (terms_room ≤ length terms.old) × (length calls.now ≤ calls_room) × (w ≤ length out.old) }
    ensures w_le_w { IfOk result (λ v. (w ≤ v) × (v ≤ length out.old)) }
    ensures emits { Emits cells.now s (arrays slots.now vars.now conds.now calls.now) w out.old result out.new }
{
    let count = d.datas;
    if count > MAX_ARITY {
        return Err(Refusal::NotWithin);
    }
    let Some(la) = putting::put_terms(cells, d.terms, count, slots, s.n, terms, 0) else {
        return Err(Refusal::NotWithin);
    };
    let nv = s.nv;
    let lc = s.lc;
    let top = s.top;
    let lk = calls.len() - top;
    if out.len() - w < 4 + nv + lc + la + lk {
        return Err(Refusal::NoRoom);
    }
    let w1 = piece(nv as u8, vars, 0, nv, out, w);
    let w2 = piece(s.nc as u8, conds, 0, lc, out, w1);
    let w3 = piece(code_of(d.number), terms, 0, la, out, w2);
    let w4 = piece(s.nk as u8, calls, top, lk, out, w3);
    Ok(w4)
}
