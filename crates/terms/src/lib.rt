#![tactic(auto)]
// Data terms of a table's stream, and counted lists of numbers: each function says where its piece ends.
ghost use Rattle.std.specs.Prelude.{◌≡◌, List, ◌∷◌, ◌++◌, ℕ, ◌+◌, ◌-◌, ◌≤◌, ◌<◌, length, get_or, drop, MatchOption, IfSome};
ghost use Rattle.pcrl.specs.Sheet.{Sig};
ghost use Rattle.pcrl.specs.Reader.{found, each};
ghost use Rattle.pcrl.specs.Decode.{Node, node_of, read_node, Fits, wants, read_term};
ghost use Rattle.laws.specs.Says.{Says};
ghost use Rattle.terms.specs.Stands.{KnownData, list_at, size_in};
ghost use Rattle.terms.specs.Ends.{rests, ended};
ghost use Rattle.terms.specs.Fitting.{NextFits};
ghost use Rattle.terms.specs.Numbers.{NumberAt, read_list, ListEnds};

use elements::{cell, low, peek, wide};
use limits::{
    AND_CODE, EQUAL_CODE, FUNCTION_CODE, MAX_FUNCTIONS, MAX_NODES, NOT_CODE, OR_CODE, VARIABLE_CODE,
};

// The codes of a term's nodes: values, then variables, then functions, then operators.
pub const VARIABLE: usize = VARIABLE_CODE;

pub const FUNCTION: usize = FUNCTION_CODE;

pub const NOT: usize = NOT_CODE;

pub const EQUAL: usize = EQUAL_CODE;

pub const AND: usize = AND_CODE;

const BOOL_SORT: u8 = limits::BOOL as u8;

// Sorts that are expected at once, at the most: one at first, and one more with each node.
const WANTED: usize = limits::MAX_NODES + 1;

// The size of a sort: the sizes stand behind the places of the functions.
pub fn size_of(funcs: &[u16], d: u8) -> u8
    ensures { result ≡ size_in funcs.now d }
{
    low(cell(funcs, MAX_FUNCTIONS + wide(d)))
}

// The numbers of the counted list that stands at p.
pub fn list_at(s: &[u8], p: usize) -> &[u8]
    ensures { result.now ≡ list_at s.now p }
{
    if s.len() <= p {
        return &s[0..0];
    }
    let b = p + 1;
    let e = b + wide(s[p]);
    if s.len() < e {
        return &s[b..];
    }
    &s[b..e]
}

// One more sort is expected, before those that stand from top on; the answer is where it stands.
fn push(sorts: &mut [u8], top: usize, v: u8) -> usize
    requires { (0 < top) × (top ≤ length sorts.old) }
    ensures { (drop result sorts.new ≡ v ∷ drop top sorts.old) × (result ≡ top - 1) }
{
    let t = top - 1;
    sorts[t] = v;
    t
}

// May this byte of a term stand where the sort d is expected? It is a node by itself and no operator.
fn fits(s: &[u8], sizes: &[u8], funcs: &[u16], scope: &[u8], b: u8, d: u8) -> bool
    requires { b < 0x60 }
    ensures { (S : Sig) → KnownData S s.now sizes.now funcs.now → Says result (Fits S scope.now d (node_of b)) }
{
    let n = wide(b);
    if n < VARIABLE_CODE {
        return b < peek(sizes, wide(d));
    }
    if n < FUNCTION_CODE {
        let i = n - VARIABLE_CODE;
        if i < scope.len() {
            return scope[i] == d;
        }
        return false;
    }
    let f = n - FUNCTION_CODE;
    if f < funcs.len() {
        let p = cell(funcs, f);
        return peek(s, p + 1 + wide(peek(s, p))) == d;
    }
    false
}

// The sorts that are expected after the byte b, where those from top on are expected before it; the answer is where they stand.
fn after(sorts: &mut [u8], top: usize, s: &[u8], funcs: &[u16], b: u8) -> usize
    requires { (b < 0x60) × (0 < top) × (top < length sorts.old) }
    ensures { ((S : Sig) (Γ sizes : List ℕ) (D : ℕ) → KnownData S s.now sizes funcs.now → Fits S Γ D (node_of b) → drop result sorts.new ≡ wants S Γ (node_of b) ++ drop (top + 1) sorts.old) × ((top ≤ result + 1) × (result ≤ length sorts.old)) }
{
    let rest = top + 1;
    let n = wide(b);
    if n < FUNCTION_CODE {
        return rest;
    }
    let p = cell(funcs, n - FUNCTION_CODE);
    let x = peek(s, p + 1);
    if peek(s, p) == 1 {
        return push(sorts, rest, x);
    }
    let t = push(sorts, rest, peek(s, p + 2));
    push(sorts, t, x)
}

// May the operator at i stand where the sort d is expected? It gives Bool.
fn operator_fits(s: &[u8], sizes: &[u8], i: usize, d: u8) -> bool
    requires { (i < length s.now) × (0x60 ≤ get_or s.now i 0) }
    ensures { (S : Sig) (Γ : List ℕ) → sizes.now ≡ S.sorts → Says result (NextFits S Γ d (drop i s.now)) }
{
    let n = wide(s[i]);
    if n == EQUAL_CODE {
        let j = i + 1;
        if s.len() <= j {
            return false;
        }
        if sizes.len() <= wide(s[j]) {
            return false;
        }
        return d == BOOL_SORT;
    }
    if OR_CODE < n {
        return false;
    }
    d == BOOL_SORT
}

// The sorts that are expected after the operator at i.
fn operands(sorts: &mut [u8], top: usize, s: &[u8], i: usize) -> usize
    requires { (i < length s.now) × (0x60 ≤ get_or s.now i 0) × (0 < top) × (top < length sorts.old) }
    ensures { ((S : Sig) (Γ : List ℕ) (D : ℕ) (k : NextFits S Γ D (drop i s.now)) → drop result sorts.new ≡ wants S Γ k.node ++ drop (top + 1) sorts.old) × ((top ≤ result + 1) × (result ≤ length sorts.old)) }
{
    let rest = top + 1;
    let n = wide(s[i]);
    if n == NOT_CODE {
        return push(sorts, rest, BOOL_SORT);
    }
    if n == EQUAL_CODE {
        let d = peek(s, i + 1);
        let t = push(sorts, rest, d);
        return push(sorts, t, d);
    }
    let t = push(sorts, rest, BOOL_SORT);
    push(sorts, t, BOOL_SORT)
}

// Where the operator at i ends: behind `==` a byte for its sort follows.
fn past(s: &[u8], i: usize) -> usize
    requires { i < length s.now }
    ensures { (x : Node) (ys : List ℕ) → read_node (drop i s.now) ≡ found x ys → drop result s.now ≡ ys }
{
    let j = i + 1;
    if wide(s[i]) == EQUAL_CODE {
        if j < s.len() {
            return j + 1;
        }
    }
    j
}

// A term of the given sort.
pub fn read_term(
    s: &[u8],
    sizes: &[u8],
    funcs: &[u16],
    scope: &[u8],
    at: usize,
    sort: u8,
) -> Option<usize>
    ensures { (S : Sig) → KnownData S s.now sizes.now funcs.now → rests (read_term S scope.now sort (drop at s.now)) ≡ ended s.now result }
{
    let mut sorts = [sort; WANTED];
    let mut top = WANTED - 1;
    let mut i = at;
    let mut left = MAX_NODES;
    while top < WANTED {
        if left == 0 {
            return None;
        }
        if s.len() <= i {
            return None;
        }
        left -= 1;
        let b = s[i];
        let d = sorts[top];
        if wide(b) < NOT_CODE {
            if !fits(s, sizes, funcs, scope, b, d) {
                return None;
            }
            top = after(&mut sorts, top, s, funcs, b);
            i += 1;
            continue;
        }
        if !operator_fits(s, sizes, i, d) {
            return None;
        }
        top = operands(&mut sorts, top, s, i);
        i = past(s, i);
    }
    Some(i)
}

// A term for each of the given sorts.
pub fn read_terms(
    s: &[u8],
    sizes: &[u8],
    funcs: &[u16],
    scope: &[u8],
    sorts: &[u8],
    at: usize,
) -> Option<usize>
    ensures { (S : Sig) → KnownData S s.now sizes.now funcs.now → rests (each (read_term S scope.now) sorts.now (drop at s.now)) ≡ ended s.now result }
{
    let mut i = at;
    for d in sorts {
        i = read_term(s, sizes, funcs, scope, i, *d)?;
    }
    Some(i)
}

// The number that stands at a place, from low to below limit.
pub fn number_at(s: &[u8], at: usize, low: usize, limit: usize) -> Option<usize>
    ensures { MatchOption result (NumberAt s.now at low limit → ⊥) (λ n. (n ≡ get_or s.now at 0) × NumberAt s.now at low limit) }
{
    if s.len() <= at {
        return None;
    }
    let n = wide(s[at]);
    if n < low {
        return None;
    }
    if limit <= n {
        return None;
    }
    Some(n)
}

// A counted list: from least to most numbers, each from low to below limit.
pub fn read_list(s: &[u8], at: usize, least: u8, most: u8, low: u8, limit: usize) -> Option<usize>
    ensures { (rests (read_list least most low limit (drop at s.now)) ≡ ended s.now result) × IfSome result (λ end. ListEnds s.now at most end) }
{
    let n = number_at(s, at, wide(least), wide(most) + 1)?;
    let end = at + 1 + n;
    for i in at + 1..end {
        number_at(s, i, wide(low), limit)?;
    }
    Some(end)
}
