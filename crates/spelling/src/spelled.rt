// A message of the table, spelled: A0, S0, D0 and T0 for keys, data and tags, A0^-1 for an inverse, (x, y) for a pair,
// {x}_k for an encryption.
ghost use Rattle.std.specs.Prelude.{◌≡◌, Some};
ghost use Rattle.message.specs.Table.{messages_of};
ghost use Rattle.spelling.specs.Spelled.{spelled};

use message::stored::{Operation, Sort, Stored};
use message::table::Messages;
use std::fmt;
use std::fmt::Display;

// The message with this number, of those in the table.
#[derive(Clone, Copy)]
pub struct Spelled<'a> {
    pub messages: &'a Messages,
    pub number: u16,
}

impl<'a> Spelled<'a> {
    // Another message of the same table.
    fn part(self, number: u16) -> Spelled<'a>
        ensures messages { result.messages.now ≡ self.entry.messages.now }
        ensures number { result.number ≡ number }
    {
        Spelled { number, ..self }
    }
}

impl fmt::Display for Spelled<'_> {
    ghost output = { λ s. Some (spelled (messages_of s.messages.now) s.number) };

    fn fmt<W: fmt::Write>(&self, f: &mut fmt::Formatter<W>) -> fmt::Result {
        let Some(stored) = self.messages.get(self.number) else {
            return Ok(());
        };
        // (Here and not in the arms, where the proof did not close.)
        let letter = stored.sort().map_or('T', Sort::letter);
        match stored {
            Stored::Symbol(_, n) => write!(f, "{letter}{n}"),
            Stored::Inverse(n) => write!(f, "{letter}{n}^-1"),
            Stored::Compound(Operation::Pair, x, y) => {
                f.write_str("(")?;
                self.part(x).fmt(f)?;
                f.write_str(", ")?;
                self.part(y).fmt(f)?;
                f.write_str(")")
            }
            Stored::Compound(_, content, key) => {
                f.write_str("{")?;
                self.part(content).fmt(f)?;
                f.write_str("}_")?;
                self.part(key).fmt(f)
            }
        }
    }
}
