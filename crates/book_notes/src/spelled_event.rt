// An event in words, its message spelled.
use crate::naming::OnWay;
use message::table::Messages;
use spelling::spelled::Spelled;
use std::fmt;
use strand::event::{Event, Sign};

#[derive(Clone, Copy)]
pub struct SpelledEvent<'a> {
    pub messages: &'a Messages,
    pub event: Event,
}

impl fmt::Display for SpelledEvent<'_> {
    fn fmt<W: fmt::Write>(&self, f: &mut fmt::Formatter<W>) -> fmt::Result {
        let message = Spelled {
            messages: self.messages,
            number: self.event.message,
        };
        let on = OnWay(self.event.way.into());
        match self.event.sign {
            Sign::Receives => write!(f, "receives {message}{on}"),
            Sign::Transmits => write!(f, "transmits {message}{on}"),
        }
    }
}
