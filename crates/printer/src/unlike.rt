// Names that stand at places, compared with others.
ghost use Rattle.pcrl.specs.Tests.{Every};
ghost use Rattle.laws.specs.Says.{Says};
ghost use Rattle.theory.specs.Distinct.{Unlike};
ghost use Rattle.lettering.specs.Named.{names_at};

use elements::cell;
use terms::list_at;

// Is a name none of n names?
fn other(name: &[u8], s: &[u8], places: &[u16], n: usize) -> bool
    ensures { Says result (Every (Unlike name.now) (names_at s.now places.now n)) }
{
    for i in 0..n {
        if name == list_at(s, cell(places, i)) {
            return false;
        }
    }
    true
}

// Is none of m names, which stand in cells, one of n names in the stream?
pub fn none_there(s: &[u8], places: &[u16], n: usize, names: &[u8], cells: &[u16], m: usize) -> bool
    ensures { Says result (Every (λ x. Every (Unlike x) (names_at s.now places.now n)) (names_at names.now cells.now m)) }
{
    for d in 0..m {
        if !other(list_at(names, cell(cells, d)), s, places, n) {
            return false;
        }
    }
    true
}
