// A refusal's number and place, and what the documents say of it.
ghost use Rattle.std.specs.Prelude.{◌≡◌};
ghost use Rattle.rules.specs.Answers.{answer_of, refusal_number, refusal_place, refusal_answer, outer_number, coding_error_number, reason_number};
ghost use Rattle.rules.specs.Block.{silence};

use super::{CodingError, Misfit, OuterError, Reason, Receipt, Refusal};
use std::error::Error;
use std::fmt;

impl Refusal {
    pub fn number(self) -> u32
        ensures { result ≡ refusal_number self }
    {
        match self {
            Refusal::EndsInField => 1,
            Refusal::WrongTag => 2,
            Refusal::WrongLength => 3,
            Refusal::EndsBetweenFields => 5,
            Refusal::WrongData => 6,
            Refusal::WrongCells => 7,
            Refusal::OutsideGrid => 8,
            Refusal::TooManyLost => 9,
            Refusal::NoCodeword => 10,
            Refusal::PastEnd => 16,
            Refusal::Unfinished => 17,
            Refusal::UnequalGrids => 18,
            Refusal::FullTotal => 19,
            Refusal::NoSuchState => 22,
            Refusal::Disagreement => 23,
            Refusal::Mask(_) => 40,
            Refusal::Level(_) => 41,
            Refusal::Mode(_) => 42,
            Refusal::K(_) => 43,
            Refusal::Seed(_) => 44,
            Refusal::Floor(_) => 45,
            Refusal::Twins(_) => 46,
        }
    }

    // Zero where the refusal names no fault of the profile.
    pub fn place(self) -> usize
        ensures { result ≡ refusal_place self }
    {
        match self {
            Refusal::Mask(at)
            | Refusal::Level(at)
            | Refusal::Mode(at)
            | Refusal::K(at)
            | Refusal::Seed(at)
            | Refusal::Floor(at) => at,
            Refusal::Twins(slot) => slot,
            _ => 0,
        }
    }
}

// The number of how a call ended: 0 where it is done.
pub fn number_of<T: Drop>(ended: Result<T, Refusal>) -> u32
    ensures { result ≡ (answer_of ended).number }
{
    match ended {
        Ok(_) => 0,
        Err(refusal) => refusal.number(),
    }
}

// The words of each number.
impl fmt::Display for Refusal {
    fn fmt<W: fmt::Write>(&self, f: &mut fmt::Formatter<W>) -> fmt::Result {
        f.write_str(match self {
            Refusal::EndsInField => "profile ends inside a field",
            Refusal::WrongTag => "tag other than the one due",
            Refusal::WrongLength => "declared length wrong",
            Refusal::EndsBetweenFields => "profile ends between fields with one due",
            Refusal::WrongData => "the data isn't 122 x K bytes",
            Refusal::WrongCells => "the cells aren't 4096 x 8 bytes a symbol",
            Refusal::OutsideGrid => "symbol number outside the grid",
            Refusal::TooManyLost => "more than r packets lost",
            Refusal::NoCodeword =>
                "in some column no codeword agrees with all packets that aren't lost",
            Refusal::PastEnd => "the piece reaches past the grid's end",
            Refusal::Unfinished => "the last cell has not come yet",
            Refusal::UnequalGrids => "the two grids aren't of one length",
            Refusal::FullTotal => "a total would pass 2^64 - 1",
            Refusal::NoSuchState => "a state that no feeding with this profile leaves",
            Refusal::Disagreement =>
                "the lost mask and the reasons disagree, or a reason is unknown",
            Refusal::Mask(_) => "a mask is outside its range",
            Refusal::Level(_) => "the level is outside its range",
            Refusal::Mode(_) => "the mode is outside its range",
            Refusal::K(_) => "K is outside its range",
            Refusal::Seed(_) => "a seed is outside its range",
            Refusal::Floor(_) => "the floor is outside its range",
            Refusal::Twins(_) => "two slots of one symbol have the same seed and the same mask",
        })
    }
}

impl Error for Refusal {}

// A refusal, and nothing else.
impl From<Refusal> for Receipt {
    ghost from_gives = { λ e a. a ≡ silence (refusal_answer e) };

    fn from(refusal: Refusal) -> Receipt {
        Receipt {
            number: refusal.number(),
            place: refusal.place(),
            lost: 0,
            reasons: [0u8; 16],
        }
    }
}

impl OuterError {
    pub fn number(self) -> u32
        ensures { result ≡ outer_number self }
    {
        match self {
            OuterError::BadK => 43,
            OuterError::BadLength => 6,
            OuterError::TooManyLost => 9,
            OuterError::NoCodeword => 10,
        }
    }
}

impl CodingError {
    pub fn number(self) -> u32
        ensures { result ≡ coding_error_number self }
    {
        match self {
            CodingError::WrongMode => 42,
            CodingError::WrongLength => 6,
        }
    }
}

// A block that was built is of the right length, and its K was tested: the places of those two are nobody's.
impl From<OuterError> for Refusal {
    ghost from_gives = { λ e r. refusal_number r ≡ outer_number e };

    fn from(e: OuterError) -> Refusal {
        match e {
            OuterError::BadK => Refusal::K(0),
            OuterError::BadLength => Refusal::WrongData,
            OuterError::TooManyLost => Refusal::TooManyLost,
            OuterError::NoCodeword => Refusal::NoCodeword,
        }
    }
}

impl Reason {
    // As a receipt gives it.
    pub fn number(self) -> u8
        ensures { result ≡ reason_number self }
    {
        match self {
            Reason::Marked => 11,
            Reason::Doubtful => 12,
            Reason::CheckWord => 13,
            Reason::Reserved => 14,
            Reason::Coded => 15,
        }
    }
}

impl fmt::Display for Misfit {
    fn fmt<W: fmt::Write>(&self, f: &mut fmt::Formatter<W>) -> fmt::Result {
        f.write_str("a list is not of the length that it should have")
    }
}

impl Error for Misfit {}
