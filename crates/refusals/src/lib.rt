// Why a call is refused: one enum for all calls, and the numbers that C and stored answers have for it.
#![tactic(auto)]

ghost use Rattle.std.specs.Prelude.{◌≡◌, ◌<◌};
ghost use Rattle.refusals.specs.Numbers.{number_of, refusal_of};

use std::error::Error;
use std::fmt;

/// Where a call is not refused.
pub const ACCEPTED: u32 = 0;

/// The variants lie in the order of their numbers, which is the order in which most calls test them.
#[derive(Clone, Copy, Debug, PartialEq, Eq)]
pub enum Refusal {
    TableTooShort = 1,
    RectangleNotValid = 2,
    NumberTooLarge = 3,
    ClauseCount = 4,
    ClauseNotValid = 5,
    TableNotSound = 6,
    AlreadyStanding = 7,
    AnswerTooShort = 8,
    PointCount = 10,
    CoordinateTooLarge = 11,
    OutOfRange = 13,
    NoPieces = 14,
}

impl Refusal {
    pub fn number(self) -> u32
        ensures number { result ≡ number_of self }
        ensures some { 0 < result }
    {
        self as u32
    }
}

impl fmt::Display for Refusal {
    fn fmt<W: fmt::Write>(&self, f: &mut fmt::Formatter<W>) -> fmt::Result {
        f.write_str(match self {
            Refusal::TableTooShort => "the table slice is shorter than a table",
            Refusal::RectangleNotValid => "the rectangle is not valid",
            Refusal::NumberTooLarge => "the piece number is above 1,023",
            Refusal::ClauseCount => "a query has 1 to 8 clauses",
            Refusal::ClauseNotValid => "a clause names no relation, or one above 39",
            Refusal::TableNotSound => "the table is not sound",
            Refusal::AlreadyStanding => "the piece number stands in the table already",
            Refusal::AnswerTooShort => "the answer slice is too short",
            Refusal::PointCount => "an outline has 3 to 64 points of two words each",
            Refusal::CoordinateTooLarge => "a coordinate is above 1,000,000",
            Refusal::OutOfRange => "the point or the allowance is out of range",
            Refusal::NoPieces => "the table has no pieces",
        })
    }
}

impl Error for Refusal {}

/// The number that C and stored answers have for what a call returns: zero means accepted.
pub fn refusal_of<T>(answer: &Result<T, Refusal>) -> u32
    ensures { result ≡ refusal_of answer.now }
{
    match answer {
        Ok(_) => ACCEPTED,
        Err(refusal) => refusal.number(),
    }
}
