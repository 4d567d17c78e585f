ghost use Rattle.std.specs.Prelude.{◌≡◌, Some};
ghost use Rattle.chain.specs.Refusals.{number_of, place_of, words_of};

use std::error::Error;
use std::fmt;

// Why a call was refused. The place is a byte of a chain file or a state; where there is none it is 0.
#[derive(Clone, Copy, Debug, PartialEq, Eq, Hash)]
pub enum Refusal {
    BadContents(u32),
    BadNumbers(u32),
    BadMark(u32),
    BadRow(u32),
    BadSum(u32),
    BadGrid,
    BadField,
    InUse,
    NoBox,
    NotOpen,
    BadCut,
    Full,
    NoState,
    BadPasses,
    ShortBuffer,
    BadLength,
    BadNumber(u32),
    BadChance(u32),
    BadBound(u32),
    BadSteps(u32),
    BadStart,
    TooLong,
    BadLine,
}

impl Refusal {
    // The number by which the refusal is known outside.
    pub fn number(&self) -> u8
        ensures { result ≡ number_of self.now }
    {
        match self {
            Refusal::BadContents(_) => 1,
            Refusal::BadNumbers(_) => 2,
            Refusal::BadMark(_) => 3,
            Refusal::BadRow(_) => 4,
            Refusal::BadSum(_) => 5,
            Refusal::BadGrid => 6,
            Refusal::BadField => 7,
            Refusal::InUse => 8,
            Refusal::NoBox => 9,
            Refusal::NotOpen => 10,
            Refusal::BadCut => 11,
            Refusal::Full => 12,
            Refusal::NoState => 13,
            Refusal::BadPasses => 14,
            Refusal::ShortBuffer => 15,
            Refusal::BadLength => 16,
            Refusal::BadNumber(_) => 17,
            Refusal::BadChance(_) => 18,
            Refusal::BadBound(_) => 19,
            Refusal::BadSteps(_) => 20,
            Refusal::BadStart => 21,
            Refusal::TooLong => 22,
            Refusal::BadLine => 23,
        }
    }

    // The byte or the state at fault, or 0.
    pub fn place(&self) -> u32
        ensures { result ≡ place_of self.now }
    {
        match self {
            Refusal::BadContents(byte) => *byte,
            Refusal::BadNumbers(byte) => *byte,
            Refusal::BadMark(byte) => *byte,
            Refusal::BadRow(byte) => *byte,
            Refusal::BadSum(byte) => *byte,
            Refusal::BadNumber(state) => *state,
            Refusal::BadChance(state) => *state,
            Refusal::BadBound(state) => *state,
            Refusal::BadSteps(state) => *state,
            _ => 0,
        }
    }
}

impl fmt::Display for Refusal {
    ghost output = { λ e. Some (words_of e) };

    fn fmt<W: fmt::Write>(&self, f: &mut fmt::Formatter<W>) -> fmt::Result {
        write!(f, "refused {} {}", self.number(), self.place())
    }
}

impl Error for Refusal {}
