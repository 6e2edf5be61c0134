#![tactic(auto)]
// Step k of an equation, found in the stream: its label, and the frames of its calls.
ghost use Rattle.std.specs.Prelude.{◌≡◌, List, [], ◌++◌, map, ℕ, ◌+◌, ◌-◌, ◌*◌, ◌≤◌, ◌<◌, max, Ok, length, get_or, take, drop};
ghost use Rattle.std.proofs.Math.ListN.{get_elem?};
ghost use Rattle.pcrl.specs.Limits.{max_stream, max_arity, max_calls, frame_width};
ghost use Rattle.pcrl.specs.Tests.{Every, Each};
ghost use Rattle.pcrl.specs.Reader.{all};
ghost use Rattle.pcrl.specs.Sheet.{Data, Act, Sig, takes_of};
ghost use Rattle.pcrl.specs.Sorts.{IsAct};
ghost use Rattle.pcrl.specs.Values.{eval};
ghost use Rattle.pcrl.specs.Table.{Summand, Table, equation};
ghost use Rattle.pcrl.specs.Stream.{variable_code, encode_data, encode_list, encode_act, encode_call, encode_summand};
ghost use Rattle.pcrl.specs.Label.{label};
ghost use Rattle.evaluation.specs.Known.{KnownTerms};
ghost use Rattle.assignments.specs.Places.{Sizes};
ghost use Rattle.pcrl.specs.Right.{RightTerm, RightCall};
ghost use Rattle.pcrl.specs.Stack.{InSorts};
ghost use Rattle.pcrl.specs.Steps.{call_frame, fired};
ghost use Rattle.firing.specs.Known.{Valued, KnownParts, AtRow, KnownTable};
ghost use Rattle.firing.specs.Seeks.{Seeks};
ghost use Rattle.firing.specs.Fires.{frame_bytes, listing, act_of, InBounds, Gives, Fires};

use assignments::{PerSum, PerVariable};
use elements::{cell, peek, wide};
use limits::{MAX_ARITY, MAX_CALLS};
use stacks::FRAME;

pub const TAU: u8 = limits::TAU;

const ARITY: u8 = limits::MAX_ARITY as u8;

const WIDTH: u8 = limits::FRAME_WIDTH as u8;

// A step: the action's number and its values; how many calls there are.
#[derive(Clone, Copy)]
pub struct Fired {
    pub action: u8,
    pub values: [u8; MAX_ARITY],
    pub arity: u8,
    pub calls: usize,
}

// The values of n terms that stand one behind another; the answer is where they end.
fn terms_at(s: &[u8], funcs: &[u16], e: &[u8], at: usize, n: usize, out: &mut [u8]) -> usize
    requires { (length s.now ≤ max_stream) × (n ≤ length out.old) }
    ensures { (result ≤ max at (length s.now)) × ((length out.new ≡ length out.old) × ((S : Sig) (Γ vs Ds : List ℕ) (ds : List Data) (rest : List ℕ) → Valued S s.now funcs.now e.now Γ vs → Each (RightTerm S Γ) Ds ds → length ds ≡ n → drop at s.now ≡ all encode_data ds ++ rest → (out.new ≡ map (eval S vs) ds ++ drop n out.old) × (drop result s.now ≡ rest))) }
{
    let mut a = at;
    for i in 0..n {
        let end = evaluation::skip(s, funcs, a, 1);
        out[i] = evaluation::value(s, funcs, e, a, end);
        a = end;
    }
    a
}

// How many parameters the equation with this number has.
fn parameters(s: &[u8], params: &[u16], e: usize) -> u8
    ensures { (result ≤ frame_width) × ((S : Sig) (Ps : List (List ℕ)) (acts : List ℕ) → KnownParts S Ps s.now acts params.now → e < length Ps → result ≡ length (get_or Ps e [])) }
{
    let n = peek(s, cell(params, e));
    n.min(WIDTH)
}

// How many values the action with this number, or tau, has.
fn action_arity(s: &[u8], acts: &[u16], b: u8) -> u8
    ensures { (result ≤ max_arity) × ((S : Sig) (Ps : List (List ℕ)) (params : List ℕ) → KnownParts S Ps s.now acts.now params → IsAct S (act_of b) → result ≡ length (takes_of S (act_of b))) }
{
    if b == TAU {
        return 0;
    }
    let p = cell(acts, wide(b));
    let n = peek(s, p + 1 + wide(peek(s, p)));
    n.min(ARITY)
}

// The frame of a call: its equation, and a value for each of its parameters; the answer is where the call ends.
fn frame_at(s: &[u8], funcs: &[u16], params: &[u16], e: &[u8], at: usize, out: &mut [u8]) -> usize
    requires { (length s.now ≤ max_stream) × ((at ≤ max_stream * 4) × (length out.old ≡ 1 + frame_width)) }
    ensures { (result ≤ max (at + 1) (length s.now)) × ((length out.new ≡ length out.old) × ((S : Sig) (Ps : List (List ℕ)) (acts Γ vs : List ℕ) (c : ℕ × List Data) (rest : List ℕ) → Valued S s.now funcs.now e.now Γ vs → KnownParts S Ps s.now acts params.now → RightCall S Ps Γ c → drop at s.now ≡ encode_call c ++ rest → (out.new ≡ frame_bytes (call_frame frame_width S vs c)) × (drop result s.now ≡ rest))) }
{
    let b = peek(s, at);
    let n = wide(parameters(s, params, wide(b)));
    out.fill(0);
    out[0] = b;
    terms_at(s, funcs, e, at + 1, n, &mut out[1..FRAME])
}

// The frames of n calls, one behind another.
fn frames_at(
    s: &[u8],
    funcs: &[u16],
    params: &[u16],
    e: &[u8],
    at: usize,
    n: usize,
    made: &mut [u8],
)
    requires { (length s.now ≤ max_stream) × ((at ≤ max_stream * 3) × ((n ≤ max_calls) × (max_calls * (1 + frame_width) ≤ length made.old))) }
    ensures { (length made.new ≡ length made.old) × ((S : Sig) (Ps : List (List ℕ)) (acts Γ vs : List ℕ) (cs : List (ℕ × List Data)) (rest : List ℕ) → Valued S s.now funcs.now e.now Γ vs → KnownParts S Ps s.now acts params.now → Every (RightCall S Ps Γ) cs → length cs ≡ n → drop at s.now ≡ all encode_call cs ++ rest → made.new ≡ all frame_bytes (map (call_frame frame_width S vs) cs) ++ drop (length (all frame_bytes (map (call_frame frame_width S vs) cs))) made.old) }
{
    let mut a = at;
    for i in 0..n {
        let b = i * FRAME;
        let t = b + FRAME;
        a = frame_at(s, funcs, params, e, a, &mut made[b..t]);
    }
}

// Where a summand ends whose label stands at a place.
fn past(s: &[u8], funcs: &[u16], acts: &[u16], params: &[u16], at: usize) -> usize
    requires { (length s.now ≤ max_stream) × (at ≤ max_stream * 3) }
    ensures { (result ≤ length s.now) × ((S : Sig) (Ps : List (List ℕ)) (Γ : List ℕ) (a : Act) (ts : List Data) (cs : List (ℕ × List Data)) (rest : List ℕ) → KnownTerms S s.now funcs.now → length Γ ≤ variable_code → KnownParts S Ps s.now acts.now params.now → IsAct S a → Each (RightTerm S Γ) (takes_of S a) ts → Every (RightCall S Ps Γ) cs → length cs ≤ max_calls → drop at s.now ≡ encode_act a ++ (all encode_data ts ++ (encode_list encode_call cs ++ rest)) → drop result s.now ≡ rest) }
{
    let m = evaluation::skip(s, funcs, at + 1, action_arity(s, acts, peek(s, at)));
    let n = wide(peek(s, m)).min(MAX_CALLS);
    let mut a = m + 1;
    for i in 0..n {
        let k = parameters(s, params, wide(peek(s, a)));
        a = evaluation::skip(s, funcs, a + 1, k);
    }
    a.min(s.len())
}

// The values of p parameters, and zeros behind them.
fn first_values(params: &[u8], p: usize) -> PerVariable
    requires { p ≤ frame_width }
    ensures { (length result.at ≡ 8) × (((i : ℕ) → i < p → get_or result.at i 0 ≡ get_or params.now i 0) × ((i : ℕ) → p ≤ i → get_or result.at i 0 ≡ 0)) }
{
    let mut a = [0u8; 8];
    for i in 0..p {
        a[i] = peek(params, i);
    }
    PerVariable { at: a }
}

// The step that a summand gives whose label stands at a place, where the variables have the values e.
fn fire_at(
    s: &[u8],
    funcs: &[u16],
    acts: &[u16],
    params: &[u16],
    e: &[u8],
    at: usize,
    made: &mut [u8],
) -> Fired
    requires { (length s.now ≤ max_stream) × ((at ≤ max_stream * 2 + 64) × (max_calls * (1 + frame_width) ≤ length made.old)) }
    ensures { InBounds (Ok result) made.old made.new × ((S : Sig) (Ps : List (List ℕ)) (Γ vs : List ℕ) (a : Act) (ts : List Data) (cs : List (ℕ × List Data)) (rest : List ℕ) → Valued S s.now funcs.now e.now Γ vs → KnownParts S Ps s.now acts.now params.now → IsAct S a → Each (RightTerm S Γ) (takes_of S a) ts → Every (RightCall S Ps Γ) cs → length cs ≤ max_calls → drop at s.now ≡ encode_act a ++ (all encode_data ts ++ (encode_list encode_call cs ++ rest)) → Gives S (label S a (map (eval S vs) ts)) (map (call_frame frame_width S vs) cs) result made.old made.new) }
{
    let b = peek(s, at);
    let n = action_arity(s, acts, b);
    let mut v = [0u8; MAX_ARITY];
    let m = terms_at(s, funcs, e, at + 1, wide(n), &mut v);
    let k = wide(peek(s, m)).min(MAX_CALLS);
    frames_at(s, funcs, params, e, m + 1, k, made);
    Fired {
        action: b,
        values: v,
        arity: n,
        calls: k,
    }
}

// An assignment by its number, or how much of k is left; and where the conditions end.
#[derive(Clone, Copy)]
struct Sought {
    found: Result<usize, u64>,
    end: usize,
}

// The k-th assignment that meets the conditions whose count stands at a place. Where there are none, nothing is opened.
fn seek(
    s: &[u8],
    funcs: &[u16],
    first: PerVariable,
    p: usize,
    at: usize,
    z: PerSum,
    k: u64,
) -> Sought
    requires { (length s.now ≤ max_stream) × ((p ≤ frame_width) × (((i : ℕ) → p ≤ i → get_or first.at i 0 ≡ 0) × ((at ≤ max_stream + max_stream) × Sizes z.at))) }
    ensures { (result.end ≤ max_stream + max_stream + 16) × Seeks s.now funcs.now first.at p z.at at k result }
{
    if peek(s, at) == 0 {
        Sought {
            found: assignments::find_any(z, k),
            end: at + 1,
        }
    } else {
        let c = opening::conditions(s, funcs, at, p, z);
        Sought {
            found: assignments::find(s, funcs, first, p, z, &c, k),
            end: c.end,
        }
    }
}

// Step k of the summands whose count stands at a place, where the first p variables have their values; or how many steps there are.
fn fire_rows(
    s: &[u8],
    funcs: &[u16],
    acts: &[u16],
    params: &[u16],
    first: PerVariable,
    p: usize,
    row: usize,
    k: u64,
    made: &mut [u8],
) -> Result<Fired, u64>
    requires { (length s.now ≤ max_stream) × ((p ≤ frame_width) × (((i : ℕ) → p ≤ i → get_or first.at i 0 ≡ 0) × ((row < 65536) × (max_calls * (1 + frame_width) ≤ length made.old)))) }
    ensures { InBounds result made.old made.new × ((S : Sig) (Ps : List (List ℕ)) (Δ vs : List ℕ) (hs : List Summand) (rest : List ℕ) → AtRow S Ps s.now funcs.now acts.now params.now Δ vs hs → take p first.at ≡ vs → drop row s.now ≡ encode_list encode_summand hs ++ rest → Fires S (get_elem? (all (fired frame_width S vs) hs) k) (length (all (fired frame_width S vs) hs)) result made.old made.new) }
{
    let n = wide(peek(s, row));
    let mut at = (row + 1).min(s.len());
    let mut left = k;
    for i in 0..n {
        let z = opening::sizes(s, funcs, at);
        let f = seek(s, funcs, first, p, at + 1 + wide(peek(s, at)), z, left);
        left = match f.found {
            Ok(j) => {
                let e = assignments::environment(first, p, assignments::values(z, j));
                let a = e.at;
                return Ok(fire_at(s, funcs, acts, params, &a, f.end, made));
            }
            Err(rest) => rest,
        };
        at = past(s, funcs, acts, params, f.end);
    }
    Err(k.saturating_sub(left))
}

// STEP k OF EQUATION e, WHERE ITS PARAMETERS HAVE THE GIVEN VALUES, OR HOW MANY STEPS THERE ARE.
pub fn fire(
    s: &[u8],
    funcs: &[u16],
    acts: &[u16],
    places: &[u16],
    rows: &[u16],
    e: usize,
    params: &[u8],
    k: u64,
    made: &mut [u8],
) -> Result<Fired, u64>
    requires { (length s.now ≤ max_stream) × (max_calls * (1 + frame_width) ≤ length made.old) }
    ensures { InBounds result made.old made.new × ((T : Table) (vs : List ℕ) → KnownTable T s.now funcs.now acts.now places.now rows.now → e < length T.equations → InSorts T.sig (equation T e).params vs → take (length vs) params.now ≡ vs → Fires T.sig (get_elem? (listing T e vs) k) (length (listing T e vs)) result made.old made.new) }
{
    let p = wide(parameters(s, places, e));
    let first = first_values(params, p);
    let row = cell(rows, e);
    fire_rows(s, funcs, acts, places, first, p, row, k, made)
}
