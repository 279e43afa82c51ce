// The kinds of assumption by number.
ghost use Rattle.std.specs.Prelude.{◌≡◌};
ghost use Rattle.assumption.specs.Assumption.{kind_number, kind_of};
ghost use Rattle.assumption.specs.Kinds.{KindListed};

use crate::assumption::{Assumption, Kind};
use refusal::Refusal;

// The kind with a number; the kinds are 1 to 4.
impl TryFrom<u16> for Kind {
    type Error = Refusal;

    ghost try_from_gives = { KindListed };

    fn try_from(number: u16) -> Result<Kind, Refusal> {
        match number {
            1 => Ok(Kind::NonOriginating),
            2 => Ok(Kind::UniquelyOriginating),
            3 => Ok(Kind::Authenticated),
            4 => Ok(Kind::Confidential),
            _ => Err(Refusal::NotListed),
        }
    }
}

// The kind's number.
impl From<Kind> for u16 {
    ghost from_gives = { λ kind number. number ≡ kind_number kind };

    fn from(kind: Kind) -> u16 {
        kind as u16
    }
}

impl Assumption {
    // The kind of the assumption.
    pub fn kind(self) -> Kind
        ensures { result ≡ kind_of self }
    {
        match self {
            Assumption::NonOriginating(_) => Kind::NonOriginating,
            Assumption::UniquelyOriginating(..) => Kind::UniquelyOriginating,
            Assumption::Authenticated(_) => Kind::Authenticated,
            Assumption::Confidential(_) => Kind::Confidential,
        }
    }
}
