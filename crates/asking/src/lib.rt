#![tactic(auto)]
// Step questions put to the frames of a table that is known: one, and a list of them in turn.
ghost use Rattle.std.specs.Prelude.{◌≡◌, [], ◌∷◌, ◌++◌, map, ◌*◌, ◌%◌, ◌<◌, ◌≤◌, min, length, get_or};
ghost use Rattle.pcrl.specs.Limits.{frame_width, stack_limit, max_stream, max_name, max_sort_name};
ghost use Rattle.pcrl.specs.Sheet.{Sig, no_action, sort_name};
ghost use Rattle.pcrl.specs.Table.{Table};
ghost use Rattle.pcrl.specs.Records.{filled, name_field};
ghost use Rattle.pcrl.specs.Right.{AreSorts, RightTable};
ghost use Rattle.pcrl.specs.Stack.{RightFrames};
ghost use Rattle.tables.specs.Indexed.{Indexed};
ghost use Rattle.firing.specs.Known.{KnownTable, ActsAt};
ghost use Rattle.stacks.specs.Lent.{frames_in, stack_bytes};
ghost use Rattle.lettering.specs.SortNames.{NamesIn};
ghost use Rattle.asking.specs.Encoding.{answer_bytes, encode_answer};
ghost use Rattle.asking.specs.Replies.{AskIs, AllIs, answer_told, depth_after, step_told};

use elements::{cell, low, peek, wide};
use firing::TAU;
use lettering::{NAME_CELL, put_cell};
use limits::{MAX_CALLS, MAX_NAME, MAX_SORT_NAME};
use refusals::Refusal;
use stacks::{FRAME, LIMIT};

// Bytes of the frames of 8 calls.
const MADE: usize = MAX_CALLS * FRAME;

// Bytes of an answer.
pub const ANSWER: usize = 72;

// Where the name of a step's action stands, and those of its sorts: each has a length before it, and a zero byte behind it at least.
const NAME: usize = 5;

const FIRST_SORT: usize = NAME + MAX_NAME + 2;

const SECOND_SORT: usize = FIRST_SORT + MAX_SORT_NAME + 2;

// The kinds of answers in bytes, but for refusals.
const ENDED: u8 = 0;

const NONE: u8 = 1;

const STEPPED: u8 = 2;

// A step: the action's byte, its values, and the depth after it.
#[derive(Clone, Copy, Debug, PartialEq, Eq)]
pub struct Step {
    pub action: u8,
    pub arity: u8,
    pub values: [u8; 2],
    pub depth: usize,
}

// An answer: there is no frame, no step k, or this step, or question 16 refuses it.
#[derive(Clone, Copy, Debug, PartialEq, Eq)]
pub enum Told {
    Ended,
    Nothing,
    Stepped(Step),
    TooDeep,
}

// The depth after an answer: that of its step, or as it was.
pub fn depth_after(depth: usize, told: Told) -> usize
    ensures { result ≡ depth_after depth told }
{
    match told {
        Told::Stepped(step) => step.depth,
        _ => depth,
    }
}

// "Asked for step k (from 0)"
pub fn ask(
    s: &[u8],
    funcs: &[u16],
    acts: &[u16],
    params: &[u16],
    rows: &[u16],
    frames: &mut [u8],
    depth: usize,
    k: u64,
) -> Told
    requires { (length s.now ≤ max_stream) × ((length frames.old ≡ stack_bytes) × (depth ≤ stack_limit)) }
    ensures { (depth_after depth result ≤ stack_limit) × ((T : Table) → KnownTable T s.now funcs.now acts.now params.now rows.now → RightFrames frame_width stack_limit T (frames_in frame_width frames.old) depth → AskIs T (frames_in frame_width frames.old) depth k result (frames_in frame_width frames.new)) }
{
    if depth == 0 {
        return Told::Ended;
    }
    let top = (depth - 1) * FRAME;
    let e = wide(frames[top]);
    let sorts = terms::list_at(s, cell(params, e));
    let n = sorts.len();
    let mut made = [0u8; MADE];
    let Ok(f) = firing::fire(
        s,
        funcs,
        acts,
        params,
        rows,
        e,
        stacks::part(&frames[0..], top + 1, n),
        k,
        &mut made,
    ) else {
        return Told::Nothing;
    };
    let left = depth - 1 + f.calls;
    if LIMIT < left {
        return Told::TooDeep;
    }
    stacks::replace(frames, depth, &made, f.calls);
    let values = f.values;
    Told::Stepped(Step {
        action: f.action,
        arity: f.arity,
        values: values,
        depth: left,
    })
}

// A kind, and zeros behind it.
fn encode_kind(kind: u8) -> [u8; ANSWER]
    ensures { result ≡ filled answer_bytes (kind ∷ []) }
{
    let mut bytes = [0u8; ANSWER];
    bytes[0] = kind;
    bytes
}

// A step: the new depth, how many values, two values, the action's name, the names of its sorts, and zeros behind them. The last name is
// written first, so that each stands in zeros.
fn encode_step(
    depth: usize,
    count: u8,
    v: u8,
    w: u8,
    name: &[u8],
    first: &[u8],
    second: &[u8],
) -> [u8; ANSWER]
    ensures { length name.now ≤ max_name → length first.now ≤ max_sort_name → length second.now ≤ max_sort_name → result ≡ filled answer_bytes (2 ∷ depth % 256 ∷ count ∷ v ∷ w ∷ (name_field max_name name.now ++ (name_field max_sort_name first.now ++ name_field max_sort_name second.now))) }
{
    let mut bytes = [0u8; ANSWER];
    put_cell(&mut bytes, SECOND_SORT, second);
    put_cell(&mut bytes, FIRST_SORT, first);
    put_cell(&mut bytes, NAME, name);
    let head = [STEPPED, low(depth), count, v, w];
    texts::put_bytes(&mut bytes, 0, &head);
    bytes
}

// Value i where it is there, and else 0.
fn value(arity: u8, i: u8, v: u8) -> u8
    ensures { (i < arity → result ≡ v) × (arity ≤ i → result ≡ 0) }
{
    if i < arity { v } else { 0 }
}

// The sorts of an action, by where the actions stand and how many there are.
fn sorts_of<'a>(s: &'a [u8], acts: &[u16], actions: usize, action: u8) -> &'a [u8]
    ensures { (S : Sig) → ActsAt S s.now acts.now actions → result.now ≡ (get_or S.acts action no_action).takes }
{
    let a = wide(action);
    if actions <= a {
        return &s[0..0];
    }
    let p = cell(acts, a);
    terms::list_at(s, p + 1 + wide(peek(s, p)))
}

// The name of sort i of some sorts, empty where there are fewer.
fn sort_name<'a>(names: &'a [u8], sorts: &[u8], i: usize) -> &'a [u8]
    ensures { (S : Sig) → NamesIn S names.now → AreSorts S.sorts sorts.now → result.now ≡ get_or (map (sort_name S) sorts.now) i [] }
{
    if sorts.len() <= i {
        return &names[0..0];
    }
    terms::list_at(names, NAME_CELL * wide(sorts[i]))
}

// A step in 72 bytes; the names of the sorts stand in their cells.
fn encode_label(s: &[u8], acts: &[u16], actions: usize, names: &[u8], step: Step) -> [u8; ANSWER]
    ensures { (T : Table) → RightTable T → ActsAt T.sig s.now acts.now actions → NamesIn T.sig names.now → step.depth ≤ stack_limit → result ≡ encode_answer (step_told T.sig step) }
{
    if step.action == TAU {
        return encode_step(step.depth, 0, 0, 0, b"tau", &names[0..0], &names[0..0]);
    }
    let v = value(step.arity, 0, step.values[0]);
    let w = value(step.arity, 1, step.values[1]);
    let sorts = sorts_of(s, acts, actions, step.action);
    encode_step(
        step.depth,
        step.arity.min(2),
        v,
        w,
        texts::name(s, acts, actions, step.action),
        sort_name(names, sorts, 0),
        sort_name(names, sorts, 1),
    )
}

// An answer in 72 bytes.
pub fn encode(s: &[u8], acts: &[u16], actions: usize, names: &[u8], told: Told) -> [u8; ANSWER]
    ensures { (T : Table) → RightTable T → ActsAt T.sig s.now acts.now actions → NamesIn T.sig names.now → depth_after 0 told ≤ stack_limit → result ≡ encode_answer (answer_told T.sig told) }
{
    match told {
        Told::Ended => encode_kind(ENDED),
        Told::Nothing => encode_kind(NONE),
        Told::Stepped(step) => encode_label(s, acts, actions, names, step),
        Told::TooDeep => encode_kind(u8::from(Refusal::TooDeep)),
    }
}

// The questions ks in turn, "each question gets the frames and depth that the last one left": an answer for each, and the last depth.
pub fn ask_each(
    s: &[u8],
    index: tables::Index,
    frames: &mut [u8],
    depth: usize,
    ks: &[u64],
    out: &mut [u8],
) -> usize
    requires { (length s.now ≤ max_stream) × ((length frames.old ≡ stack_bytes) × ((depth ≤ stack_limit) × (answer_bytes * length ks.now ≤ length out.old))) }
    ensures { (T : Table) → RightTable T → Indexed T s.now index → RightFrames frame_width stack_limit T (frames_in frame_width frames.old) depth → AllIs T (frames_in frame_width frames.old) depth ks.now out.old out.new (frames_in frame_width frames.new) result }
{
    let funcs = index.funcs;
    let acts = index.acts;
    let params = index.params;
    let rows = index.rows;
    let actions = index.actions;
    let names = lettering::names_of(s, index);
    let mut d = depth;
    for i in 0..ks.len() {
        let told = ask(s, &funcs, &acts, &params, &rows, frames, d, ks[i]);
        let bytes = encode(s, &acts, actions, &names, told);
        let at = i * ANSWER;
        let end = at + ANSWER;
        out[at..end].copy_from_slice(&bytes);
        d = depth_after(d, told);
    }
    d
}
