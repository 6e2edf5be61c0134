// Question 7: "Every declared name new (Bool is taken), each variable unlike all declared names and all variables in scope,
// each used name of the kind its place needs? Processes may be used before their line."
ghost use Rattle.std.specs.Prelude.{◌<◌, length};
ghost use Rattle.nodes.specs.Layout.{cell_limit};
ghost use Rattle.sheets.specs.Resolving.{FewLines, LinesResolve, FewFound, FoundResolve};

use crate::SheetRows;
use crate::processes::processes;
use crate::scopes::put_results;
use crate::signature::signature;
use elements::wide;
use names::fresh::{all_new, declared_names};
use names::keys::put_names;
use names::{DECLARED_CELLS, Kinds, MAX_NAMES};
use nodes::Outline;
use parser::Lines;
use resolver::SCOPE_CELLS;
use resolver::entry::init;

// The lines of each kind stand at these places, init at `at`. None: some name is not as it must be.
fn resolve_lines(
    s: &[u8],
    raw: &[u16],
    sorts: &[u16],
    funcs: &[u16],
    acts: &[u16],
    procs: &[u16],
    at: usize,
    values: &mut [u8],
    out: &mut [u16],
) -> Option<SheetRows>
    requires { FewLines raw.now sorts.now funcs.now acts.now procs.now × (at < length raw.now) × (length values.old < cell_limit) × (length out.old < cell_limit) }
    ensures { LinesResolve s.now raw.now sorts.now funcs.now acts.now procs.now at values.new out.new result }
{
    let mut names = [0u16; MAX_NAMES];
    declared_names(raw, sorts, funcs, acts, procs, &mut names);
    let kinds = Kinds {
        sorts: sorts.len(),
        funcs: funcs.len(),
        acts: acts.len(),
        procs: procs.len(),
    };
    let mut declared = [0u16; DECLARED_CELLS];
    put_names(s, &names, kinds, &mut declared);
    if !all_new(s, &declared) {
        return None;
    }
    let a = signature(s, raw, sorts, funcs, acts, values)?;
    let func_bytes = a.funcs;
    let b = processes(s, raw, procs, &declared, &func_bytes, out)?;
    let mut scope = [0u16; SCOPE_CELLS];
    put_results(&func_bytes, &mut scope);
    init(s, raw, &declared, &scope, at, out, b.w)?;
    let sizes = a.sizes;
    let places = a.places;
    let act_bytes = a.acts;
    let proc_bytes = b.procs;
    let starts = b.starts;
    Some(SheetRows {
        sizes: sizes,
        funcs: func_bytes,
        places: places,
        acts: act_bytes,
        procs: proc_bytes,
        starts: starts,
        names: names,
        outline: Outline {
            sorts: sorts.len() + 1,
            funcs: funcs.len(),
            acts: acts.len(),
            procs: procs.len(),
            init: b.w,
        },
    })
}

// 7, put to all lines, which stand in the raw tree where `lines` says.
pub fn resolve(
    s: &[u8],
    raw: &[u16],
    lines: Lines,
    values: &mut [u8],
    out: &mut [u16],
) -> Option<SheetRows>
    requires { FewFound lines raw.now × (length values.old < cell_limit) × (length out.old < cell_limit) }
    ensures { FoundResolve s.now raw.now lines values.new out.new result }
{
    let sorts = lines.sorts;
    let funcs = lines.funcs;
    let acts = lines.acts;
    let procs = lines.procs;
    let a = lines.sort_count;
    let b = lines.func_count;
    let c = lines.act_count;
    let d = lines.proc_count;
    resolve_lines(
        s,
        raw,
        &sorts[0..a],
        &funcs[0..b],
        &acts[0..c],
        &procs[0..d],
        wide(lines.init),
        values,
        out,
    )
}
