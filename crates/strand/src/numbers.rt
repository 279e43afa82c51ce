// Signs, ways and channels by number.
ghost use Rattle.std.specs.Prelude.{◌≡◌, ◌<◌, ◌≤◌, true, false, MatchOption};
ghost use Rattle.strand.specs.Event.{SignListed, channel_limit, is_channel, sign_number, way_at, way_number};

use crate::event::{Sign, Way};
use refusal::Refusal;

// Channels are numbered from 1 to this.
pub const CHANNEL_LIMIT: u16 = 64;

// The channel with this number.
pub fn channel(number: u16) -> Option<u16>
    ensures { MatchOption result (is_channel number ≡ false) (λ c. (is_channel number ≡ true) × (c ≡ number)) }
{
    if number == 0 || number > CHANNEL_LIMIT {
        return None;
    }
    Some(number)
}

// The sign with this number.
impl TryFrom<u16> for Sign {
    type Error = Refusal;

    ghost try_from_gives = { SignListed };

    fn try_from(number: u16) -> Result<Self, Refusal> {
        match number {
            0 => Ok(Sign::Receives),
            1 => Ok(Sign::Transmits),
            _ => Err(Refusal::NotListed),
        }
    }
}

// The sign's number.
impl From<Sign> for u16 {
    ghost from_gives = { λ sign number. number ≡ sign_number sign };

    fn from(sign: Sign) -> u16 {
        sign as u16
    }
}

impl Way {
    // The way with this number: 0 is plain, the others are channels. (An `Option` and no `TryFrom`: a way over 64 is not
    // there, like any other look-up that finds nothing, a rule of the project.)
    pub fn listed(number: u16) -> Option<Way>
        ensures { MatchOption result (channel_limit < number) (λ w. (number ≤ channel_limit) × (way_number w ≡ number) × (w ≡ way_at number)) }
    {
        match number {
            0 => Some(Way::Plain),
            _ => channel(number).map(Way::Channel),
        }
    }
}

// The way's number.
impl From<Way> for u16 {
    ghost from_gives = { λ way number. number ≡ way_number way };

    fn from(way: Way) -> u16 {
        match way {
            Way::Plain => 0,
            Way::Channel(number) => number,
        }
    }
}
