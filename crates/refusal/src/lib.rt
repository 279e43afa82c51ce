// Why a call, a record or a file is refused. Every refusal has a row: its number in the table of refusals that the
// formats and the printed lines use (docs/RULES.md). A call tests its rows from the lowest up and answers the first that fits.
#![tactic(auto)]

ghost use Rattle.std.specs.Prelude.{◌≡◌, Some};
ghost use Rattle.refusal.specs.Rows.{row};
ghost use Rattle.refusal.specs.Words.{in_words};

use std::error::Error;
use std::fmt;

#[derive(Clone, Copy, PartialEq, Eq, Debug)]
pub enum Refusal {
    // The input ends inside a record.
    Truncated = 1,
    // A record of a kind or length that this file does not have.
    NotARecord = 2,
    // A value that its field does not have, or an unused field that is not 0.
    NotListed = 3,
    // A name of something (a message, a strand, a channel) that is not there.
    NotThere = 4,
    // A name of something that has not the sort asked for.
    WrongSort = 5,
    // What is to be entered stands already.
    StandsAlready = 6,
    // What is to be removed does not stand.
    DoesNotStand = 7,
    // One more than a limit allows.
    OverLimit = 8,
    // A buffer is shorter than what is to be written.
    BufferShort = 9,
    // A role that is not well formed.
    RoleNotWellFormed = 10,
}

impl Refusal {
    // The refusal in words, which `Display` writes. (By hand: a derived `Display` promises no text.)
    pub fn words(self) -> &'static str
        ensures { result.now ≡ in_words self }
    {
        match self {
            Refusal::Truncated => "the input ends inside this record",
            Refusal::NotARecord => "no record of this kind and length belongs in this file",
            Refusal::NotListed =>
                "a field holds a value that is not listed, or should be 0 and is not",
            Refusal::NotThere => "a field names something that is not there",
            Refusal::WrongSort => "a field names something of the wrong sort",
            Refusal::StandsAlready => "it stands already",
            Refusal::DoesNotStand => "it does not stand",
            Refusal::OverLimit => "a limit would be passed",
            Refusal::BufferShort => "the buffer is too short",
            Refusal::RoleNotWellFormed => "the role is not well formed",
        }
    }
}

// The refusal's number in the table.
impl From<Refusal> for u8 {
    ghost from_gives = { λ refusal number. number ≡ row refusal };

    fn from(refusal: Refusal) -> u8 {
        refusal as u8
    }
}

impl fmt::Display for Refusal {
    ghost output = { λ refusal. Some (in_words refusal) };

    fn fmt<W: fmt::Write>(&self, f: &mut fmt::Formatter<W>) -> fmt::Result {
        f.write_str(self.words())
    }
}

impl Error for Refusal {}
