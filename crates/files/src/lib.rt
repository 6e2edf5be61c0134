#![tactic(auto)]
// Questions 12 to 14 of any bytes whatever.
ghost use Rattle.std.specs.Prelude.{◌≡◌, ◌≤◌, length};
ghost use Rattle.pcrl.specs.Result.{refusal};
ghost use Rattle.pcrl.specs.Answers.{table_checked};
ghost use Rattle.refusals.specs.Numbers.{number_in};
ghost use Rattle.stepping.specs.Promises.{HasRoom};

use blocks::BLOCK_STREAM;
use refusals::Refusal;
use stepping::ONE_FILE;

// What alone refuses a start on the frames of a right file, where no frames are lent.
const NO_FRAMES: Refusal = Refusal::WrongStack;

// Where there is room for the file's stream.
fn check_table(file: &[u8], stream: &mut [u8]) -> Result<(), Refusal>
    requires { HasRoom file.now (length stream.old) }
    ensures { number_in result ≡ refusal (table_checked file.now) }
{
    let count = blocks::read_file(file, stream)?;
    match tables::read_table(&stream[0..count]) {
        Some(_) => Ok(()),
        None => Err(Refusal::NoTable),
    }
}

fn check_one(file: &[u8]) -> Result<(), Refusal>
    requires { length file.now ≤ 512 }
    ensures { number_in result ≡ refusal (table_checked file.now) }
{
    let mut stream = [0u8; BLOCK_STREAM];
    check_table(file, &mut stream)
}

// The first question that fails, if one does. A file of several blocks is right where a start lacks nothing but frames: so both share the
// long arrays.
pub fn check_file(file: &[u8]) -> Result<(), Refusal>
    ensures { number_in result ≡ refusal (table_checked file.now) }
{
    if file.len() <= ONE_FILE {
        return check_one(file);
    }
    let mut none = [0u8; 1];
    match stepping::start_many(file, &mut none) {
        Ok(_) => Ok(()),
        Err(refusal) => {
            if refusal == NO_FRAMES {
                return Ok(());
            }
            Err(refusal)
        }
    }
}
