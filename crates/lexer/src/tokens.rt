// Question 3: the tokens of a sheet.
ghost use Rattle.std.specs.Prelude.{◌≤◌, length, IfOk};
ghost use Rattle.pcrl.specs.Limits.{max_bytes};
ghost use Rattle.pcrl.specs.Result.{accepted, question_of};
ghost use Rattle.pcrl.specs.Tokens as T;
ghost use Rattle.lexer.specs.Cells.{Lexes};

use crate::bytes::Cursor;
use crate::token::token_at;
use refusals::Refusal;

// One after another, into the front of out: how many there are.
pub fn tokens(sheet: &[u8], out: &mut [u16]) -> Result<usize, Refusal>
    requires { (length sheet.now ≤ max_bytes) × (length sheet.now ≤ length out.old) }
    ensures count_in_bounds { IfOk result (λ n. n ≤ length sheet.now) }
    ensures lexes { Lexes (question_of 3 (T.tokens sheet.now) accepted) sheet.now result out.new }
{
    let mut cursor = Cursor { at: 0 };
    let mut n: usize = 0;
    loop {
        cursor = cursor.skip(sheet);
        let at = cursor.at;
        if sheet.len() <= at {
            return Ok(n);
        }
        let Some(t) = token_at(sheet, at) else {
            return Err(Refusal::NoToken);
        };
        out[n] = t.cell;
        n += 1;
        cursor = cursor.past(t.len);
    }
}
