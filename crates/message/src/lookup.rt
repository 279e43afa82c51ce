// Reading a table: its length, what stands at a number, and the number of what is stored already.
ghost use Rattle.std.specs.Prelude.{◌≡◌, ◌≤◌, length, MatchOption};
ghost use Rattle.message.specs.Meaning.{reach, value};
ghost use Rattle.message.specs.Resolve.{Found};
ghost use Rattle.message.specs.Table.{Holds, Numbered, Sizes, Stands, messages_of};

use crate::stored::{Entry, Stored};
use crate::table::Messages;

impl Messages {
    // How many messages stand.
    pub fn len(&self) -> usize
        ensures count { result ≡ length (messages_of self.now) }
        ensures numbered { Numbered (messages_of self.now) }
    {
        self.entries.len()
    }

    // The message with this number. The parts of a compound have smaller numbers.
    pub fn get(&self, number: u16) -> Option<Stored>
        ensures { MatchOption result (length (messages_of self.now) ≤ number) (Stands (messages_of self.now) number) }
    {
        self.entry(number).map(|entry| entry.stored)
    }

    // The size of the message with this number.
    pub fn size(&self, number: u16) -> Option<u16>
        ensures { MatchOption result (length (messages_of self.now) ≤ number) (Sizes (messages_of self.now) number) }
    {
        self.entry(number).map(|entry| entry.size)
    }

    // The entry with this number.
    #[tactic(auto, using(crate::proofs::Held::looked_up))]
    pub(crate) fn entry(&self, number: u16) -> Option<Entry>
        ensures { MatchOption result (length (messages_of self.now) ≤ number) (Holds (messages_of self.now) number) }
    {
        self.entries.as_slice().get(usize::from(number)).copied()
    }

    // The number of the message that the entry stores.
    pub(crate) fn find(&self, entry: Entry) -> Option<u16>
        requires { reach entry.stored ≤ length (messages_of self.now) }
        ensures { Found (messages_of self.now) (value (messages_of self.now) entry.stored) result }
    {
        self.entries.place(&entry).map(|number| number as u16)
    }
}
