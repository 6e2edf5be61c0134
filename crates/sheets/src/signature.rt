// Question 7 on the lines of sorts, functions and actions.
ghost use Rattle.std.specs.Prelude.{◌≤◌, ◌<◌, length};
ghost use Rattle.pcrl.specs.Limits.{max_sorts, max_functions, max_actions};
ghost use Rattle.nodes.specs.Layout.{cell_limit};
ghost use Rattle.sheets.specs.Resolving.{SignatureRead};

use crate::{ACT_ROWS, FUNC_ROWS, PLACES, SigRows};
use limits::MAX_SORTS;
use names::rows::{act_rows, func_rows};

// The rows of sorts, functions and actions, from their lines, if every name in them is known.
pub fn signature(
    s: &[u8],
    raw: &[u16],
    sorts: &[u16],
    funcs: &[u16],
    acts: &[u16],
    values: &mut [u8],
) -> Option<SigRows>
    requires { (length sorts.now < max_sorts) × (length funcs.now ≤ max_functions) × (length acts.now ≤ max_actions) × (length values.old < cell_limit) }
    ensures { SignatureRead s.now raw.now sorts.now funcs.now acts.now values.new result }
{
    let mut sizes = [0u8; MAX_SORTS];
    let mut func_bytes = [0u8; FUNC_ROWS];
    let mut places = [0u16; PLACES];
    let mut act_bytes = [0u8; ACT_ROWS];
    names::rows::sizes(raw, sorts, &mut sizes);
    if !func_rows(s, raw, sorts, funcs, &mut func_bytes, values, &mut places) {
        return None;
    }
    if !act_rows(s, raw, sorts, acts, &mut act_bytes) {
        return None;
    }
    Some(SigRows {
        sizes: sizes,
        funcs: func_bytes,
        places: places,
        acts: act_bytes,
    })
}
