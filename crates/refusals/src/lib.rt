#![tactic(auto)]
// What a question's no says, and its number.
ghost use Rattle.std.specs.Prelude.{◌≡◌};
ghost use Rattle.refusals.specs.Numbers.{number_of, number_in};

// The questions that can be answered with no, in the order of their numbers.
#[derive(Clone, Copy, Debug, PartialEq, Eq)]
pub enum Refusal {
    // of a sheet
    TooLong = 1,
    NotText = 2,
    NoToken = 3,
    TooOpen = 4,
    NoSheet = 5,
    TooMany = 6,
    NoName = 7,
    NotSorted = 8,
    NotGuarded = 9,
    NotWithin = 10,
    NoRoom = 11,
    // of a table file
    NoFile = 12,
    WrongBlock = 13,
    NoTable = 14,
    // of a stack
    WrongStack = 15,
    TooDeep = 16,
    // of a printed text
    NoText = 17,
}

impl From<Refusal> for u8 {
    ghost from_gives = { λ r n. n ≡ number_of r };

    fn from(r: Refusal) -> u8 {
        r as u8
    }
}

// The number of the question that refused, or 0.
pub fn number<T: Copy>(answer: Result<T, Refusal>) -> u8
    ensures { result ≡ number_in answer }
{
    match answer {
        Ok(_) => 0,
        Err(r) => u8::from(r),
    }
}
