// "The new equation has as many parameters as are marked, in that order."
ghost use Rattle.std.specs.Prelude.{◌≡◌, length};
ghost use Rattle.pcrl.specs.Parts.{marked};
ghost use Rattle.pcrl.specs.Stream.{encode_numbers};
ghost use Rattle.nodes.specs.Scoped.{max_scope};
ghost use Rattle.marking.specs.Marks.{bits};
ghost use Rattle.emit.specs.Putting.{Puts};

use elements::{low, peek, wide};
use emit::bytes::put;
use marking::many;

// The count of the marked variables, and their sorts: the lowest mark is the next one.
pub fn put_params(m: u32, sorts: &[u8], out: &mut [u8], w: usize) -> Option<usize>
    requires { length sorts.now ≡ max_scope }
    ensures { Puts (encode_numbers (marked (bits max_scope m) sorts.now)) w out.old result out.new }
{
    let mut v = put(out, w, low(many(m)))?;
    let mut rest = m;
    let mut at: usize = 0;
    while rest != 0 {
        let t = u32::trailing_zeros(rest);
        v = put(out, v, peek(sorts, at + wide(t)))?;
        rest = (rest >> t) / 2;
        at = at + wide(t) + 1;
    }
    Some(v)
}
