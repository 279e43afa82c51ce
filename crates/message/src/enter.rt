// A new table, and entering messages into it. The memory is taken when the table is made; entering takes none.
ghost use Rattle.std.specs.Prelude.{◌≡◌, ℕ, ◌<◌, length, IfOk, ◌≢◌};
ghost use Rattle.message.specs.Enter.{Entered};
ghost use Rattle.message.specs.Meaning.{at, value};
ghost use Rattle.message.specs.Resolve.{Admitted, Fits};
ghost use Rattle.message.specs.Table.{Begins, memory_of, messages_of};

use crate::stored::Entry;
use crate::table::Messages;
use listing::Listing;
use refusal::Refusal;
use std::alloc::{AllocError, Global};

impl Messages {
    // A table with no message and room for all that it can ever hold.
    pub fn new(heap: Global) -> Result<Messages, AllocError>
        ensures { IfOk result Begins }
    {
        let entries = Listing::new(heap)?;
        Ok(Messages { entries })
    }

    // The number of the message that the form and its operands name: the old one where an equal message stands. It takes no
    // memory. (Form and operands are numbers, listed or not: a rule of the project.)
    pub fn enter(&mut self, form: u16, x: u16, y: u16) -> Result<u16, Refusal>
        ensures entered { Entered (messages_of self.old) form x y result (messages_of self.new) }
        ensures memory { memory_of self.new ≡ memory_of self.old }
    {
        let entry = self.resolve(form, x, y)?;
        self.admit(entry)
    }

    // The number of this message, which is put at the end if it is new.
    fn admit(&mut self, entry: Entry) -> Result<u16, Refusal>
        requires { Fits (messages_of self.old) entry }
        ensures admitted { Admitted (messages_of self.old) (value (messages_of self.old) entry.stored) result (messages_of self.new) }
        ensures memory { memory_of self.new ≡ memory_of self.old }
    {
        match self.find(entry) {
            Some(number) => Ok(number),
            None => self.append(entry),
        }
    }

    // Puts a new message at the end, if there is room. (Apart from `admit`, to require that it is new.)
    fn append(&mut self, entry: Entry) -> Result<u16, Refusal>
        requires fits { Fits (messages_of self.old) entry }
        requires new { (k : ℕ) → k < length (messages_of self.old) → at (messages_of self.old) k ≢ value (messages_of self.old) entry.stored }
        ensures admitted { Admitted (messages_of self.old) (value (messages_of self.old) entry.stored) result (messages_of self.new) }
        ensures memory { memory_of self.new ≡ memory_of self.old }
    {
        let number = self.entries.push(entry)?;
        Ok(number as u16)
    }
}
