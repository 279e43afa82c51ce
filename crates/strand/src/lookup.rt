// Reading the strands: how many there are, the events of one, and the event at a node.
ghost use Rattle.std.specs.Prelude.{◌≡◌, ℕ, ◌<◌, ◌≤◌, length, MatchOption};
ghost use Rattle.strand.specs.Node.{event_at, event_limit, strand_at, strand_limit};
ghost use Rattle.strand.specs.Strands.{strands_of};

use crate::event::Event;
use crate::strand::{Node, Strands};
use arrayvec::ArrayVec;

impl Strands {
    // How many strands there are.
    pub fn len(&self) -> usize
        ensures count { result ≡ length (strands_of self.now) }
        ensures few { (length (strands_of self.now) ≤ strand_limit) × ((s : ℕ) → length (strand_at (strands_of self.now) s) ≤ event_limit) }
    {
        self.strands.len()
    }

    // The events of the strand with this number, in order.
    pub fn events(&self, strand: u16) -> Option<&[Event]>
        ensures { MatchOption result (length (strands_of self.now) ≤ strand) (λ es. (strand < length (strands_of self.now)) × (es.now ≡ strand_at (strands_of self.now) strand)) }
    {
        self.strands
            .get(usize::from(strand))
            .map(ArrayVec::as_slice)
    }

    // The event at a node.
    pub fn event(&self, node: Node) -> Option<Event>
        ensures { result ≡ event_at (strands_of self.now) node }
    {
        self.events(node.0)?.get(usize::from(node.1)).copied()
    }
}
