// The strands of a book, each with room for all the events that it may have.
ghost use Rattle.std.specs.Prelude.{ℕ, ◌≤◌, [], map, length, vec_len, vec_capacity, slice_index_or};
ghost use Rattle.strand.specs.Node.{event_limit, strand_limit};

use crate::event::Event;
use arrayvec::ArrayVec;

// How many strands a book holds at most.
pub const STRAND_LIMIT: usize = 64;

// How many events a strand has at most.
pub const EVENT_LIMIT: usize = 16;

// A strand's number and an event's index on it.
pub type Node = (u16, u16);

#[derive(Drop)]
pub struct Strands {
    pub(crate) strands: Vec<ArrayVec<Event, EVENT_LIMIT>>,
    // The memory for all strands is there, and no more of them than the limit. (A vector and no `Listing`: a
    // `get_mut` there, for events added to a strand where it stands, would serve here alone, and its contract is longer.)
    ghost room: { strand_limit ≤ vec_capacity strands },
    ghost few: { vec_len strands ≤ strand_limit },
    // No strand has more events than the limit.
    ghost short: { (n : ℕ) → length (slice_index_or (map (λ s. s.items) strands.items) n []) ≤ event_limit },
}
