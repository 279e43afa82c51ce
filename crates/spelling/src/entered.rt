// What a call that enters a message did.
ghost use Rattle.std.specs.Prelude.{◌≡◌, Some};
ghost use Rattle.message.specs.Table.{messages_of};
ghost use Rattle.spelling.specs.Entering.{again, entered};

use crate::spelled::Spelled;
use message::table::Messages;
use std::fmt;

// The message that was entered under this number, in the table after the call, which had `before` messages before it.
#[derive(Clone, Copy)]
pub struct Entered<'a> {
    pub messages: &'a Messages,
    pub before: usize,
    pub number: u16,
}

impl Entered<'_> {
    // What is said where the message stood before the call.
    fn again(&self) -> &'static str
        ensures { result.now ≡ again self.now.before self.now.number }
    {
        if usize::from(self.number) < self.before {
            ", entered before"
        } else {
            ""
        }
    }
}

impl fmt::Display for Entered<'_> {
    ghost output = { λ e. Some (entered (messages_of e.messages.now) e.before e.number) };

    fn fmt<W: fmt::Write>(&self, f: &mut fmt::Formatter<W>) -> fmt::Result {
        let number = self.number;
        let message = Spelled {
            messages: self.messages,
            number,
        };
        let again = self.again();
        write!(f, "message {number} is {message}{again}")
    }
}
