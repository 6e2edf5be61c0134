#![tactic(auto, using(laws::specs::Places::get_or_positive))]
// Question 5: the tokens of a sheet to the cells of its tree, in prefix order (specs/Cells.antt).
ghost use Rattle.std.specs.Prelude.{List, map, ℕ, ◌*◌, ◌≤◌, ◌<◌, length};
ghost use Rattle.pcrl.specs.Grammar.{parse};
ghost use Rattle.lexer.specs.Cells.{cell_token};
ghost use Rattle.parser.specs.Reading.{Few};
ghost use Rattle.parser.specs.Parses.{Parses};

pub mod codes; // the numbers of tags
pub mod cells; // one token, one cell
pub mod data; // data terms
pub mod process; // choices, conditionals, sequences and parts
pub mod sheet; // the lines of a sheet

use cells::expect;
use elements::short;
use limits::{MAX_ACTIONS, MAX_FUNCTIONS, MAX_PROCESSES, MAX_SORTS};
use sheet::{init_line, lines_of};

// A place among the tokens and the next free cell.
#[derive(Clone, Copy)]
pub struct Step {
    pub at: usize,
    pub w: usize,
}

// A place among the tokens, the next free cell, and how many lines were counted.
#[derive(Clone, Copy)]
pub struct Run {
    pub at: usize,
    pub w: usize,
    pub count: usize,
}

// How many lines of each kind there are, and where in the cells each stands, of as many as there may be: arrays with counts (fixed memory).
#[derive(Clone, Copy)]
pub struct Lines {
    pub sorts: [u16; MAX_SORTS],
    pub funcs: [u16; MAX_FUNCTIONS],
    pub acts: [u16; MAX_ACTIONS],
    pub procs: [u16; MAX_PROCESSES],
    pub sort_count: usize,
    pub func_count: usize,
    pub act_count: usize,
    pub proc_count: usize,
    pub init: u16,
}

// How many cells the tree takes, and where its lines stand.
#[derive(Clone, Copy)]
pub struct Parsed {
    pub used: usize,
    pub lines: Lines,
}

// 5: "The form above?" Three cells a token are room enough.
pub fn parse(toks: &[u16], out: &mut [u16]) -> Option<Parsed>
    requires { (3 * length toks.now ≤ length out.old) × (length out.old < 65536) × Few toks.now }
    ensures { (s : List ℕ) → Parses (parse (map (cell_token s) toks.now)) s result out.new }
{
    let mut sorts = [0u16; MAX_SORTS];
    let mut funcs = [0u16; MAX_FUNCTIONS];
    let mut acts = [0u16; MAX_ACTIONS];
    let mut procs = [0u16; MAX_PROCESSES];
    let a = lines_of(lexer::SORT, toks, 0, out, 0, &mut sorts, 0)?;
    let b = lines_of(lexer::FUNC, toks, a.at, out, a.w, &mut funcs, 0)?;
    let c = lines_of(lexer::ACT, toks, b.at, out, b.w, &mut acts, 0)?;
    let d = lines_of(lexer::PROC, toks, c.at, out, c.w, &mut procs, 0)?;
    // "at least one proc"
    if d.count == 0 {
        return None;
    }
    let i = expect(toks, d.at, lexer::INIT)?;
    let e = init_line(toks, i, out, d.w)?;
    let end = expect(toks, e.at, lexer::SEMICOLON)?;
    if end != toks.len() {
        return None;
    }
    Some(Parsed {
        used: e.w,
        lines: Lines {
            sorts,
            funcs,
            acts,
            procs,
            sort_count: a.count,
            func_count: b.count,
            act_count: c.count,
            proc_count: d.count,
            init: short(d.w),
        },
    })
}
