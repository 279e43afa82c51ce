// An arrow from one node to another.
use strand::strand::Node;

// How many arrows a book holds at most.
pub const ARROW_LIMIT: usize = 1024;

#[derive(Clone, Copy, PartialEq, Eq, Debug)]
pub struct Arrow {
    pub from: Node,
    pub to: Node,
}
