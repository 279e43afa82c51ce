// Whether a message of the table is carried by another.
ghost use Rattle.std.specs.Prelude.{◌<◌, length};
ghost use Rattle.message.specs.Carried.{CarriedBy, Tells};
ghost use Rattle.message.specs.Meaning.{at};
ghost use Rattle.message.specs.Table.{messages_of};

use crate::stored::{Operation, Stored};
use crate::table::Messages;

impl Messages {
    // Whether the message `outer` carries the message `inner`; nothing where one of them is not there.
    pub fn carried(&self, inner: u16, outer: u16) -> Option<bool>
        ensures { CarriedBy (messages_of self.now) inner outer result }
    {
        self.get(inner)?;
        self.get(outer)?;
        Some(self.is_carried(inner, outer))
    }

    // The same of numbers that are there: the look-up's `else` is never taken.
    #[tactic(auto, using(crate::proofs::Carries::tells_inside))]
    fn is_carried(&self, inner: u16, outer: u16) -> bool
        requires inner { inner < length (messages_of self.now) }
        requires outer { outer < length (messages_of self.now) }
        ensures { Tells (at (messages_of self.now) inner) (at (messages_of self.now) outer) result }
    {
        if inner == outer {
            return true;
        }
        let Some(stored) = self.get(outer) else {
            return false;
        };
        match stored {
            Stored::Symbol(..) | Stored::Inverse(_) => false,
            Stored::Compound(Operation::Pair, x, y) => {
                self.is_carried(inner, x) || self.is_carried(inner, y)
            }
            Stored::Compound(Operation::AsymmetricEncryption, content, _)
            | Stored::Compound(Operation::SymmetricEncryption, content, _) => {
                self.is_carried(inner, content)
            }
        }
    }
}
