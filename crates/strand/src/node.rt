// Nodes: when two of them are one, and their codes.
ghost use Rattle.std.specs.Prelude.{◌≡◌, ℕ, ◌<◌, MatchOption};
ghost use Rattle.strand.specs.Node.{Codes, InRange, code as code_of, event_limit, same_node};

use crate::strand::{EVENT_LIMIT, Node, STRAND_LIMIT};

// Whether two nodes are one: their `==`, in the word of the specs, which no derive names.
pub fn is_same(m: Node, n: Node) -> bool
    ensures { result ≡ same_node m n }
{
    m == n
}

// The code of a node whose strand number and index are below the limits.
pub fn code(node: Node) -> Option<u16>
    ensures code { MatchOption result (InRange node → ⊥) (λ c. InRange node × (c ≡ code_of node)) }
    ensures codes { Codes }
{
    let strand = usize::from(node.0);
    let index = usize::from(node.1);
    if strand >= STRAND_LIMIT || index >= EVENT_LIMIT {
        return None;
    }
    Some((strand * EVENT_LIMIT + index) as u16)
}

// The node with this code.
pub fn node(code: u16) -> Node
    ensures { (result.1 < event_limit) × (code_of result ≡ code) × ((n : ℕ × ℕ) → InRange n → code_of n ≡ code → n ≡ result) }
{
    let limit = EVENT_LIMIT as u16;
    (code / limit, code % limit)
}
