// Assumptions and their kinds.
use strand::strand::Node;

// How many assumptions a book holds at most.
pub const ASSUMPTION_LIMIT: usize = 256;

#[derive(Clone, Copy, PartialEq, Eq, Debug)]
pub enum Kind {
    NonOriginating = 1,
    UniquelyOriginating = 2,
    Authenticated = 3,
    Confidential = 4,
}

// What is assumed: that a basic value originates on no strand, or at this node and on no other strand; that no outsider
// sends on a channel, or receives from it. A book holds the value by its number in the table; in what stands it is
// the message itself.
#[derive(Clone, Copy, PartialEq, Eq, Debug)]
pub enum Assumption<V = u16> {
    NonOriginating(V),
    UniquelyOriginating(V, Node),
    Authenticated(u16),
    Confidential(u16),
}
