// What assumptions claim, in words: a subject, and a property of it.
use crate::naming::NamedNode;
use assumption::assumption::{Assumption, Kind};
use message::table::Messages;
use spelling::spelled::Spelled;
use std::fmt;
use strand::strand::Node;

// What an assumption is about, by number. (No `Result`: neither is the failure of the other.)
#[derive(Clone, Copy)]
pub enum Subject {
    Message(u16),
    Channel(u16),
}

impl From<Assumption> for Subject {
    fn from(assumption: Assumption) -> Subject {
        match assumption {
            Assumption::NonOriginating(value) | Assumption::UniquelyOriginating(value, _) => {
                Subject::Message(value)
            }
            Assumption::Authenticated(channel) | Assumption::Confidential(channel) => {
                Subject::Channel(channel)
            }
        }
    }
}

impl fmt::Display for Subject {
    fn fmt<W: fmt::Write>(&self, f: &mut fmt::Formatter<W>) -> fmt::Result {
        match *self {
            Subject::Message(number) => write!(f, "message {number}"),
            Subject::Channel(number) => write!(f, "channel {number}"),
        }
    }
}

// What an assumption says of its subject.
#[derive(Clone, Copy)]
pub struct Property(pub Assumption);

impl fmt::Display for Property {
    fn fmt<W: fmt::Write>(&self, f: &mut fmt::Formatter<W>) -> fmt::Result {
        match self.0 {
            Assumption::NonOriginating(_) => f.write_str("originates nowhere"),
            Assumption::UniquelyOriginating(_, origin) => {
                let origin = NamedNode(origin);
                write!(f, "originates only at {origin}")
            }
            Assumption::Authenticated(_) => f.write_str("is authenticated"),
            Assumption::Confidential(_) => f.write_str("is confidential"),
        }
    }
}

// An assumption, its subject by number.
#[derive(Clone, Copy)]
pub struct Claim(pub Assumption);

impl fmt::Display for Claim {
    fn fmt<W: fmt::Write>(&self, f: &mut fmt::Formatter<W>) -> fmt::Result {
        let subject = Subject::from(self.0);
        let property = Property(self.0);
        write!(f, "{subject} {property}")
    }
}

// An assumption, its message spelled if it is about one.
#[derive(Clone, Copy)]
pub struct SpelledClaim<'a> {
    pub messages: &'a Messages,
    pub assumption: Assumption,
}

impl fmt::Display for SpelledClaim<'_> {
    fn fmt<W: fmt::Write>(&self, f: &mut fmt::Formatter<W>) -> fmt::Result {
        let property = Property(self.assumption);
        match Subject::from(self.assumption) {
            Subject::Message(number) => {
                let value = Spelled {
                    messages: self.messages,
                    number,
                };
                write!(f, "{value} {property}")
            }
            channel => write!(f, "{channel} {property}"),
        }
    }
}

// The fields of a call that assumes or releases. (Numbers: a call with one that is not listed is printed too.)
#[derive(Clone, Copy)]
pub struct Supposition {
    pub kind: u16,
    pub value: u16,
    pub origin: Node,
}

impl Supposition {
    // What the fields claim, if the kind is listed and the fields that it does not use are 0.
    pub(crate) fn claim(self) -> Option<Claim> {
        let Supposition {
            kind,
            value,
            origin,
        } = self;
        let assumption = match (Kind::try_from(kind).ok()?, origin) {
            (Kind::NonOriginating, (0, 0)) => Assumption::NonOriginating(value),
            (Kind::UniquelyOriginating, _) => Assumption::UniquelyOriginating(value, origin),
            (Kind::Authenticated, (0, 0)) => Assumption::Authenticated(value),
            (Kind::Confidential, (0, 0)) => Assumption::Confidential(value),
            _ => return None,
        };
        Some(Claim(assumption))
    }
}

impl fmt::Display for Supposition {
    // By the numbers.
    fn fmt<W: fmt::Write>(&self, f: &mut fmt::Formatter<W>) -> fmt::Result {
        let Supposition { kind, value, .. } = *self;
        let (strand, index) = self.origin;
        write!(
            f,
            "kind {kind}, value {value}, strand {strand}, index {index}"
        )
    }
}
