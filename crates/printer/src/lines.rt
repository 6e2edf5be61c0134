// The lines of processes and init as text, read from the stream.
ghost use Rattle.std.specs.Prelude.{◌≡◌, List, ℕ, ◌≤◌, ◌<◌, length};
ghost use Rattle.pcrl.specs.Limits.{max_stream};
ghost use Rattle.pcrl.specs.Table.{Table, equation};
ghost use Rattle.pcrl.specs.Stream.{encode_start};
ghost use Rattle.pcrl.specs.Printer.{numbered};
ghost use Rattle.rendering.specs.Texts.{bracketed_text, concat, proc_line_text, init_line_text};
ghost use Rattle.terms.specs.Stands.{Stands};
ghost use Rattle.texts.specs.Wrote.{Wrote};
ghost use Rattle.lettering.specs.Named.{Lettered};
ghost use Rattle.firing.specs.Known.{KnownTable};
ghost use Rattle.printer.specs.Lines.{param_by, proc_head_by};

use clauses::put_right;
use declarations::bytes_at;
use elements::{cell, peek, wide};
use lettering::{PROCS, VARS, put_name, put_sort};
use texts::{put_bracketed, put_byte, put_bytes};

// "`v:sort`"
fn put_param(out: &mut [u8], at: usize, l: &[u8], i: usize, d: u8) -> usize
    requires { at ≤ length out.old }
    ensures { Wrote out.old at (param_by l.now i d) out.new result }
{
    let a = put_name(out, at, l, b'v', VARS, i);
    let b = put_byte(out, a, b':');
    put_sort(out, b, l, d)
}

// Nothing, or "bracketed `v:sort` by commas".
fn put_params(sorts: &[u8], l: &[u8], out: &mut [u8], at: usize) -> usize
    requires { at ≤ length out.old }
    ensures { Wrote out.old at (bracketed_text (numbered (param_by l.now) 0 sorts.now)) out.new result }
{
    if sorts.len() == 0 {
        return at;
    }
    let a = put_byte(out, at, b'(');
    let mut p = put_param(out, a, l, 0, sorts[0]);
    for i in 1..sorts.len() {
        let q = put_byte(out, p, b',');
        p = put_param(out, q, l, i, sorts[i]);
    }
    put_byte(out, p, b')')
}

// "`proc` name, or name with bracketed `v:sort` by commas, `=`"
fn put_proc_head(sorts: &[u8], e: usize, l: &[u8], out: &mut [u8], at: usize) -> usize
    requires { at ≤ length out.old }
    ensures { Wrote out.old at (proc_head_by l.now e sorts.now) out.new result }
{
    let a = put_bytes(out, at, b"proc ");
    let b = put_name(out, a, l, b'p', PROCS, e);
    let c = put_params(sorts, l, out, b);
    put_byte(out, c, b'=')
}

// Equation e: "`proc` name, or name with bracketed `v:sort` by commas, `=` a choice".
fn put_proc(
    s: &[u8],
    funcs: &[u16],
    acts: &[u16],
    params: &[u16],
    rows: &[u16],
    e: usize,
    l: &[u8],
    out: &mut [u8],
    at: usize,
) -> usize
    requires { (at ≤ length out.old) × (length s.now ≤ max_stream) }
    ensures upper_bound { (result ≤ length out.old) × (length out.new ≡ length out.old) }
    ensures wrote { (T : Table) → KnownTable T s.now funcs.now acts.now params.now rows.now → Lettered T.sig l.now → e < length T.equations → Wrote out.old at (proc_line_text T.sig e (equation T e)) out.new result }
{
    let sorts = terms::list_at(s, cell(params, e));
    let n = sorts.len().min(255);
    let a = put_proc_head(sorts, e, l, out, at);
    let b = put_right(s, funcs, acts, params, l, cell(rows, e), n, out, a);
    put_byte(out, b, b';')
}

// The lines of all equations, in order.
pub fn put_procs(
    s: &[u8],
    funcs: &[u16],
    acts: &[u16],
    params: &[u16],
    rows: &[u16],
    n: usize,
    l: &[u8],
    out: &mut [u8],
    at: usize,
) -> usize
    requires { (at ≤ length out.old) × (length s.now ≤ max_stream) }
    ensures upper_bound { (result ≤ length out.old) × (length out.new ≡ length out.old) }
    ensures wrote { (T : Table) → KnownTable T s.now funcs.now acts.now params.now rows.now → Lettered T.sig l.now → n ≡ length T.equations → Wrote out.old at (concat (numbered (proc_line_text T.sig) 0 T.equations)) out.new result }
{
    let mut p = at;
    for e in 0..n {
        p = put_proc(s, funcs, acts, params, rows, e, l, out, p);
    }
    p
}

// "`init` a call": the start that stands at a place.
pub fn put_init(s: &[u8], params: &[u16], from: usize, l: &[u8], out: &mut [u8], at: usize) -> usize
    requires { (at ≤ length out.old) × ((length s.now ≤ max_stream) × (from ≤ max_stream)) }
    ensures upper_bound { (result ≤ length out.old) × (length out.new ≡ length out.old) }
    ensures wrote { (T : Table) (funcs acts rows : List ℕ) → KnownTable T s.now funcs acts params.now rows → Lettered T.sig l.now → Stands s.now from (encode_start T.start) → Wrote out.old at (init_line_text T.sig T.start) out.new result }
{
    let e = wide(peek(s, from));
    let n = wide(peek(s, cell(params, e)));
    let vs = bytes_at(s, from + 1, n);
    let a = put_bytes(out, at, b"init ");
    let b = put_name(out, a, l, b'p', PROCS, e);
    let c = put_bracketed(out, b, vs);
    put_byte(out, c, b';')
}
