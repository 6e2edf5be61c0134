// The slots of an equation whose variables are its parameters.
ghost use Rattle.std.specs.Prelude.{◌≡◌, [], ◌∷◌, ◌+◌, ◌*◌, ◌≤◌, ◌<◌, length};
ghost use Rattle.nodes.specs.Scoped.{max_scope};
ghost use Rattle.pcrl.specs.Parts.{as_params};
ghost use Rattle.pcrl.specs.Stream.{encode_data};
ghost use Rattle.nodes.specs.Bits.{odd};
ghost use Rattle.marking.specs.Marks.{bits};
ghost use Rattle.putting.specs.Slots.{Slots};
ghost use Rattle.heads.specs.Writing.{slots_room, param_of};

use limits::{MAX_VARIABLES, VARIABLE_CODE};
use putting::SLOT;

// Room for a slot for each variable that can be in scope, and for one for each that a summand adds.
pub const SLOTS: usize = (nodes::MAX_SCOPE + MAX_VARIABLES) * SLOT;

// The byte of a variable that is the parameter k, or of one that is none.
fn param_code(marked: u32, k: usize) -> u8
    requires { (marked < 2) × (k ≤ max_scope) }
    ensures { encode_data (param_of (odd marked) k) ≡ result ∷ [] }
{
    if marked == 0 {
        return 0;
    }
    (VARIABLE_CODE + k) as u8
}

// The slots of an equation whose marked variables are its parameters.
pub fn put_params(slots: &mut [u8], m: u32, n: usize)
    requires { (n ≤ max_scope) × (slots_room ≤ length slots.old) }
    ensures { Slots (as_params (bits n m) 0) slots.new n }
{
    let mut rest = m;
    let mut k: usize = 0;
    for i in 0..n {
        let b = rest % 2;
        putting::put_byte(slots, i, param_code(b, k));
        k += b as usize;
        rest = rest / 2;
    }
}
