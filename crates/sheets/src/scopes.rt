// The lent scope of the resolver: what the functions give, and the sorts of parameters.
ghost use Rattle.std.specs.Prelude.{◌≡◌, ◌+◌, ◌*◌, ◌≤◌, ◌<◌, length};
ghost use Rattle.pcrl.specs.Limits.{max_functions};
ghost use Rattle.nodes.specs.Scoped.{max_scope};
ghost use Rattle.nodes.specs.Held.{func_width};
ghost use Rattle.resolver.specs.Sorting.{scope_cells};
ghost use Rattle.sheets.specs.ScopePuts.{SortsPut, ResultsPut};

use limits::MAX_FUNCTIONS;
use nodes::{FUNC_ROW, GIVES};
use resolver::{FIRST_RESULT, FIRST_SORT};

// The sorts that functions give, from their rows; those of rows that are not used do not matter.
pub fn put_results(funcs: &[u8], scope: &mut [u16])
    requires { (func_width * max_functions ≤ length funcs.now) × (length scope.old ≡ scope_cells) }
    ensures { ResultsPut funcs.now scope.old scope.new }
{
    for f in 0..MAX_FUNCTIONS {
        scope[FIRST_RESULT + f] = u16::from(funcs[FUNC_ROW * f + GIVES]);
    }
}

// The sorts of n parameters, from their row.
pub fn put_sorts(row: &[u8], n: usize, scope: &mut [u16])
    requires { (n < length row.now) × (n ≤ max_scope) × (length scope.old ≡ scope_cells) }
    ensures { SortsPut row.now n scope.old scope.new }
{
    for i in 0..n {
        scope[FIRST_SORT + i] = u16::from(row[1 + i]);
    }
}
