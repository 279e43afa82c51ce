// What a call that was not refused did, in words.
use crate::naming::NamedNode;
use crate::spelled_event::SpelledEvent;
use book::book::Book;
use handin::call::Call;
use spelling::entered::Entered;
use std::fmt;
use std::fmt::Display;
use strand::strand::Node;

#[derive(Clone, Copy)]
pub struct Reply<'a> {
    // The book after the call, and how many messages it had before.
    pub book: &'a Book,
    pub before: usize,
    pub call: Call,
    pub number: u16,
}

impl fmt::Display for Reply<'_> {
    fn fmt<W: fmt::Write>(&self, f: &mut fmt::Formatter<W>) -> fmt::Result {
        let number = self.number;
        match self.call {
            Call::Enter { .. } => {
                let entered = Entered {
                    messages: self.book.messages(),
                    before: self.before,
                    number,
                };
                entered.fmt(f)
            }
            Call::Open => write!(f, "strand {number}"),
            Call::Add { strand, .. } => {
                let added = Added {
                    book: self.book,
                    node: (strand, number),
                };
                added.fmt(f)
            }
            Call::Draw { .. } => write!(f, "arrow {number}"),
            Call::Assume { .. } => write!(f, "assumption {number}"),
            Call::Strike { .. } => write!(f, "it was arrow {number}"),
            Call::Release { .. } => write!(f, "it was assumption {number}"),
        }
    }
}

// The event that was added to the book at this node.
#[derive(Clone, Copy)]
pub struct Added<'a> {
    pub book: &'a Book,
    pub node: Node,
}

impl fmt::Display for Added<'_> {
    fn fmt<W: fmt::Write>(&self, f: &mut fmt::Formatter<W>) -> fmt::Result {
        let (strand, index) = self.node;
        let Some(trace) = self.book.trace(strand) else {
            return Ok(());
        };
        let Some(event) = trace.events.get(usize::from(index)).copied() else {
            return Ok(());
        };
        let messages = trace.messages;
        let event = SpelledEvent { messages, event };
        let node = NamedNode(self.node);
        write!(f, "node {node} {event}")
    }
}
