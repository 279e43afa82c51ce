// The kinds of records: an enum, so that their numbers have names.
ghost use Rattle.handin.specs.Calls.{Listed};

use refusal::Refusal;

#[derive(Clone, Copy)]
pub(crate) enum Kind {
    Enter,
    Open,
    Add,
    Draw,
    Assume,
    Strike,
    Release,
}

// The kind with this number; the kinds are 1 to 7.
impl TryFrom<u16> for Kind {
    type Error = Refusal;

    ghost try_from_gives = { Listed };

    fn try_from(number: u16) -> Result<Self, Refusal> {
        match number {
            1 => Ok(Kind::Enter),
            2 => Ok(Kind::Open),
            3 => Ok(Kind::Add),
            4 => Ok(Kind::Draw),
            5 => Ok(Kind::Assume),
            6 => Ok(Kind::Strike),
            7 => Ok(Kind::Release),
            _ => Err(Refusal::NotARecord),
        }
    }
}
