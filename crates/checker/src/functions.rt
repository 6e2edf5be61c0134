// "function values complete and in range"
ghost use Rattle.std.specs.Prelude.{◌*◌, ◌≤◌, ◌<◌};
ghost use Rattle.pcrl.specs.Limits.{max_functions};
ghost use Rattle.nodes.specs.Layout.{cell_limit};
ghost use Rattle.nodes.specs.Held.{func_width};
ghost use Rattle.checker.specs.Sorts.{VolumeIs, AllBelow, CompleteSays, FunctionsSay};

use crate::arguments::size_of;
use elements::cell;
use nodes::{FUNC_ROW, GIVES, Outline};

// How many values a function has, of one or two sorts.
pub fn volume(funcs: &[u8], f: usize, sizes: &[u8], sorts: usize) -> usize
    requires { f < cell_limit }
    ensures upper_bound { result < cell_limit }
    ensures volume_is { VolumeIs funcs.now (func_width * f) sizes.now sorts result }
{
    let start = FUNC_ROW * f;
    let first = size_of(sizes, sorts, cell(funcs, start + 1));
    if cell(funcs, start) < 2 {
        return first;
    }
    first * size_of(sizes, sorts, cell(funcs, start + 2))
}

// Are all values from one place up to another below a size?
pub fn all_below(values: &[u8], from: usize, to: usize, size: usize) -> bool
    ensures { AllBelow values.now from to size result }
{
    for i in from..to {
        if cell(values, i) >= size {
            return false;
        }
    }
    true
}

// "function values complete and in range"
pub fn complete(
    funcs: &[u8],
    f: usize,
    values: &[u8],
    places: &[u16],
    sizes: &[u8],
    sorts: usize,
) -> bool
    requires { f < cell_limit }
    ensures { CompleteSays funcs.now f values.now places.now sizes.now sorts result }
{
    let from = cell(places, f);
    let to = cell(places, f + 1);
    if from + volume(funcs, f, sizes, sorts) != to {
        return false;
    }
    let gives = cell(funcs, FUNC_ROW * f + GIVES);
    all_below(values, from, to, size_of(sizes, sorts, gives))
}

// "function values complete and in range", of all functions.
pub fn functions_complete(
    funcs: &[u8],
    values: &[u8],
    places: &[u16],
    sizes: &[u8],
    n: Outline,
) -> bool
    requires { n.funcs ≤ max_functions }
    ensures { FunctionsSay funcs.now values.now places.now sizes.now n result }
{
    for f in 0..n.funcs {
        if !complete(funcs, f, values, places, sizes, n.sorts) {
            return false;
        }
    }
    true
}
