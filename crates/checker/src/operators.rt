// Operators: functions that every sheet has. Each takes data of one sort, and gives Bool.
ghost use Rattle.std.specs.Prelude.{◌≤◌, ◌<◌, IfSome};
ghost use Rattle.nodes.specs.Layout.{cell_limit};
ghost use Rattle.checker.specs.Sorts.{OperatorSays, TakesBools, BoolsAt};

use elements::CELL_LIMIT;
use limits::BOOL;
use nodes::{AND, Datum, EQUAL, FUNCTION, NOT, OR, data_at};

// An operator: how many data it takes, and of which sort.
#[derive(Clone, Copy)]
pub struct Operator {
    pub count: usize,
    pub sort: usize,
}

// The operator of a number that is no written function's, if there is one: `==` stands only at a sort that the sheet has.
pub fn operator_of(number: usize, sorts: usize) -> Option<Operator>
    ensures { OperatorSays number sorts result }
{
    if number >= EQUAL {
        let sort = number - EQUAL;
        if sort >= sorts {
            return None;
        }
        return Some(Operator { count: 2, sort });
    }
    if number == NOT {
        return Some(Operator {
            count: 1,
            sort: BOOL,
        });
    }
    if number == AND || number == OR {
        return Some(Operator {
            count: 2,
            sort: BOOL,
        });
    }
    None
}

// How many Bools a node takes, if it is `!`, `/\` or `\/` with all its arguments.
pub fn bools(d: Datum) -> Option<usize>
    ensures upper_bound { IfSome result (λ r. (0 < r) × (r ≤ 2)) }
    ensures takes_bools { IfSome result (TakesBools d) }
{
    if d.number < NOT {
        return None;
    }
    if d.tag != FUNCTION {
        return None;
    }
    if d.number == NOT && d.kids == 1 {
        return Some(1);
    }
    if d.kids != 2 {
        return None;
    }
    if d.number == AND || d.number == OR {
        return Some(2);
    }
    None
}

// Where a run of operators ends, and how many data terms behind it they take.
#[derive(Clone, Copy)]
pub struct OperatorRun {
    pub count: usize,
    pub next: usize,
}

// `/\` and `\/` group to the left, so their operators stand together, before all that they take. What a run takes is looked at once,
// behind it: to go from each operator over its first argument would be quadratic.
pub fn run_of(cells: &[u16], at: usize, count: usize) -> OperatorRun
    requires { (1 ≤ count) × (count ≤ cell_limit) }
    ensures at_le_next { (at ≤ result.next) × (result.count ≤ cell_limit) }
    ensures bools_at { BoolsAt cells.now at count result.next result.count }
{
    let mut p = at;
    let mut left = count;
    while left < CELL_LIMIT {
        if p >= cells.len() {
            return OperatorRun {
                count: left,
                next: p,
            };
        }
        let d = data_at(cells, p);
        let Some(takes) = bools(d) else {
            return OperatorRun {
                count: left,
                next: p,
            };
        };
        left = left - 1 + takes;
        p = d.next;
    }
    OperatorRun {
        count: left,
        next: p,
    }
}
