#![tactic(auto)]
// A table as the text of a sheet: its stream is gone through once, and each part is written as it is met.
ghost use Rattle.std.specs.Prelude.{◌≡◌, ◌≤◌, T, MatchResult, length};
ghost use Rattle.pcrl.specs.Limits.{max_stream};
ghost use Rattle.pcrl.specs.Tests.{distinct};
ghost use Rattle.pcrl.specs.Table.{Table};
ghost use Rattle.pcrl.specs.Right.{RightTable};
ghost use Rattle.pcrl.specs.Printer.{taken, table_text};
ghost use Rattle.laws.specs.Says.{Says};
ghost use Rattle.tables.specs.Indexed.{Indexed};
ghost use Rattle.texts.specs.Wrote.{Wrote};
ghost use Rattle.lettering.specs.Named.{Lettered};

pub mod delivery; // from any bytes
pub mod lines; // lines of processes, and init
pub mod unlike; // a sort with the name of an action
pub mod watch; // `==` over two values

use lettering::CELLS;
use tables::Index;

// The whole text, as far as there is room; the answer is where it ends.
fn put_text(s: &[u8], index: Index, l: &[u8], out: &mut [u8]) -> usize
    requires { length s.now ≤ max_stream }
    ensures upper_bound { (result ≤ length out.old) × (length out.new ≡ length out.old) }
    ensures wrote { (U : Table) → RightTable U → Indexed U s.now index → Lettered U.sig l.now → Wrote out.old 0 (table_text U) out.new result }
{
    let a = declarations::put_sorts(&index.funcs, index.sort_count, l, out, 0);
    let b = declarations::put_funcs(s, &index.funcs, index.functions, l, out, a);
    let c = declarations::put_acts(s, &index.acts, index.actions, l, out, b);
    let d = lines::put_procs(
        s,
        &index.funcs,
        &index.acts,
        &index.params,
        &index.rows,
        index.equations,
        l,
        out,
        c,
    );
    lines::put_init(s, &index.params, index.start.min(s.len()), l, out, d)
}

// "Every declared name new": has no sort the name of an action? (Names of sorts are distinct, and so are those of actions.)
fn sorts_free(s: &[u8], index: Index, l: &[u8]) -> bool
    ensures { (U : Table) → RightTable U → Indexed U s.now index → Lettered U.sig l.now → Says result (T (distinct (taken U.sig))) }
{
    unlike::none_there(s, &index.acts, index.actions, l, &CELLS, index.sort_count)
}

// The whole text, as far as there is room, and where it ends: as an error where a sort has the name of an action.
pub fn put_sheet(s: &[u8], index: Index, out: &mut [u8]) -> Result<usize, usize>
    requires { length s.now ≤ max_stream }
    ensures at_in_bounds { MatchResult result (λ n. n ≤ length out.old) (λ n. n ≤ length out.old) × (length out.new ≡ length out.old) }
    ensures wrote { (U : Table) → RightTable U → Indexed U s.now index → MatchResult result (λ n. T (distinct (taken U.sig)) × Wrote out.old 0 (table_text U) out.new n) (λ n. (¬ (T (distinct (taken U.sig)))) × Wrote out.old 0 (table_text U) out.new n) }
{
    let l = lettering::letters_of(s, index);
    let end = put_text(s, index, &l, out);
    if !sorts_free(s, index, &l) {
        return Err(end);
    }
    Ok(end)
}
