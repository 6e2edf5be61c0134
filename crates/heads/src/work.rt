// What a walk over heads works in, lent by its caller.
ghost use Rattle.std.specs.Prelude.{length};
ghost use Rattle.heads.specs.Progress.{Rooms};

// The variables, conditions and calls around a walk, the calls of one part, the second sides that wait, and what is remembered. A walk
// writes in them and exchanges none. What is only read is named first (`let vars = &mut *work.vars;`): lent straight out of a Work it
// counts as written, and a proof knows its length alone.
#[derive(Drop)]
pub struct Work<'a> {
    pub vars: &'a mut [u8],
    pub conds: &'a mut [u8],
    pub after: &'a mut [u8],
    pub calls: &'a mut [u8],
    pub later: &'a mut [u16],
    pub remembered: &'a mut [u16],
    pub ghost rooms: { Rooms (length vars.now) (length conds.now) (length after.now) (length calls.now) },
}
