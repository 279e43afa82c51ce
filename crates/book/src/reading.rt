// Reading a book: what stands in it.
ghost use Rattle.std.specs.Prelude.{◌≡◌, ◌<◌, ◌≤◌, length, MatchOption};
ghost use Rattle.message.specs.Table.{messages_of};
ghost use Rattle.strand.specs.Node.{strand_limit};
ghost use Rattle.bundle.specs.Arrow.{arrow_limit};
ghost use Rattle.assumption.specs.Assumption.{assumption_limit};
ghost use Rattle.book.specs.Held.{entries};
ghost use Rattle.book.specs.Reads.{Joins, Lends, Supposes};

use crate::book::Book;
use assumption::assumption::Assumption;
use bundle::arrow::Arrow;
use message::table::Messages;
use strand::trace::Trace;

impl Book {
    // The messages, by number.
    pub fn messages(&self) -> &Messages
        ensures { messages_of result.now ≡ (entries self.now).messages }
    {
        &self.messages
    }

    // How many strands stand.
    pub fn strand_count(&self) -> usize
        ensures count { result ≡ length (entries self.now).strands }
        ensures few { result ≤ strand_limit }
    {
        self.strands.len()
    }

    // The trace of the strand with this number.
    pub fn trace(&self, strand: u16) -> Option<Trace<'_>>
        ensures { MatchOption result (length (entries self.now).strands ≤ strand) (Lends (entries self.now) strand) }
    {
        let events = self.strands.events(strand)?;
        let messages = &self.messages;
        Some(Trace { messages, events })
    }

    // The arrows, by position. None stands twice.
    pub fn arrows(&self) -> &[Arrow]
        ensures arrows { Joins (entries self.now) result.now }
        ensures few { length result.now ≤ arrow_limit }
    {
        self.arrows.as_slice()
    }

    // The assumptions, by position, each with its value's number among the messages. None stands twice.
    pub fn assumptions(&self) -> &[Assumption]
        ensures assumptions { Supposes (entries self.now) result.now }
        ensures few { length result.now ≤ assumption_limit }
    {
        self.assumptions.as_slice()
    }
}
