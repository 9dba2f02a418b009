// Why a call is refused: the causes of document 01's table and of the requests after it, in the order of their numbers.
ghost use Rattle.std.specs.Prelude.{◌≡◌};
ghost use Rattle.geo.specs.Refusal.{number};

use std::error::Error;
use std::fmt;

#[derive(Clone, Copy, Debug, PartialEq, Eq)]
pub enum Refusal {
    NotWhole,
    TooMany,
    BadFile,
    BadCommand,
    BadNumber,
    BadTolerance,
    NoSuch,
    TooMuch,
    NoRoom,
    Closed,
    NotDrawable,
    OldTicket,
    FullSession,
    BadText,
}

// The number by which C and the programs tell a cause; 0 is none's.
impl From<Refusal> for u32 {
    ghost from_gives = { λ cause n. n ≡ number cause };

    fn from(cause: Refusal) -> u32 {
        match cause {
            Refusal::NotWhole => 1,
            Refusal::TooMany => 2,
            Refusal::BadFile => 3,
            Refusal::BadCommand => 4,
            Refusal::BadNumber => 5,
            Refusal::BadTolerance => 6,
            Refusal::NoSuch => 7,
            Refusal::TooMuch => 8,
            Refusal::NoRoom => 9,
            Refusal::Closed => 10,
            Refusal::NotDrawable => 11,
            Refusal::OldTicket => 12,
            Refusal::FullSession => 13,
            Refusal::BadText => 14,
        }
    }
}

impl fmt::Display for Refusal {
    fn fmt<W: fmt::Write>(&self, f: &mut fmt::Formatter<W>) -> fmt::Result {
        f.write_str(match self {
            Refusal::NotWhole => "a list that is not whole points or commands, or too short a file",
            Refusal::TooMany =>
                "too many points, commands, laps or bytes, or a count out of bounds",
            Refusal::BadFile => "a wrong mark or table",
            Refusal::BadCommand => "a command that is not formed, or a Move where none may stand",
            Refusal::BadNumber => "a number out of the domain",
            Refusal::BadTolerance => "a tolerance out of the domain",
            Refusal::NoSuch => "no such lap or point",
            Refusal::TooMuch => "more commands at most than 800",
            Refusal::NoRoom => "an output that may be too small",
            Refusal::Closed => "a thinner that is closed",
            Refusal::NotDrawable => "an Arc that cannot be drawn",
            Refusal::OldTicket => "a ticket of another edit number",
            Refusal::FullSession => "a session with no edit number left",
            Refusal::BadText => "path data that breaks its rules",
        })
    }
}

impl Error for Refusal {}
