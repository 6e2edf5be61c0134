// Question 7 on the lines of processes.
ghost use Rattle.std.specs.Prelude.{◌*◌, ◌≤◌, ◌<◌, length};
ghost use Rattle.pcrl.specs.Limits.{frame_width, max_functions, max_processes};
ghost use Rattle.nodes.specs.Layout.{cell_limit};
ghost use Rattle.nodes.specs.Held.{func_width};
ghost use Rattle.names.specs.NameList.{names_in, kinds_in};
ghost use Rattle.sheets.specs.Resolving.{FewNames, ProcessRead, ProcessesRead};

use crate::scopes::{put_results, put_sorts};
use crate::{PROC_ROWS, ProcRows};
use elements::{short, wide};
use limits::MAX_PROCESSES;
use names::rows::param_row;
use nodes::PROC_ROW;
use parser::Step;
use resolver::SCOPE_CELLS;
use resolver::entry::right_side;

// The process whose line stands at `at`: the row of its parameters, the cells of its right side behind w. None: some name is not as it must be.
fn process(
    s: &[u8],
    raw: &[u16],
    declared: &[u16],
    funcs: &[u8],
    at: usize,
    row: &mut [u8],
    out: &mut [u16],
    w: usize,
) -> Option<Step>
    requires { FewNames s.now raw.now declared.now × (func_width * max_functions ≤ length funcs.now) × (at < cell_limit) × (frame_width < length row.old) }
    ensures { ProcessRead s.now raw.now (names_in declared.now) (kinds_in declared.now) funcs.now at row.new w out.old result out.new }
{
    let mut scope = [0u16; SCOPE_CELLS];
    let a = param_row(s, raw, declared, at + 2, row, &mut scope)?;
    put_results(funcs, &mut scope);
    put_sorts(row, a.count, &mut scope);
    right_side(s, raw, declared, &mut scope, a.count, a.at, out, w)
}

// All processes, one after another, if every name in them is as it must be.
pub fn processes(
    s: &[u8],
    raw: &[u16],
    procs: &[u16],
    declared: &[u16],
    funcs: &[u8],
    out: &mut [u16],
) -> Option<ProcRows>
    requires { FewNames s.now raw.now declared.now × (func_width * max_functions ≤ length funcs.now) × (length procs.now ≤ max_processes) × (length out.old < cell_limit) }
    ensures { ProcessesRead s.now raw.now procs.now (names_in declared.now) (kinds_in declared.now) funcs.now result out.new }
{
    let mut rows = [0u8; PROC_ROWS];
    let mut starts = [0u16; MAX_PROCESSES];
    let mut w: usize = 0;
    for k in 0..procs.len() {
        starts[k] = short(w);
        let at = PROC_ROW * k;
        let r = process(
            s,
            raw,
            declared,
            funcs,
            wide(procs[k]),
            &mut rows[at..at + PROC_ROW],
            out,
            w,
        )?;
        w = r.w;
    }
    Some(ProcRows {
        procs: rows,
        starts: starts,
        w: w,
    })
}
