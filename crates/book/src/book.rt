// What stands: the messages, strands, arrows and assumptions of a run.
ghost use Rattle.std.specs.Prelude.{nat_eq};
ghost use Rattle.message.specs.Table.{messages_of};
ghost use Rattle.strand.specs.Strands.{strands_of};
ghost use Rattle.listing.specs.Held.{entries_of};
ghost use Rattle.listing.specs.Place.{Once};
ghost use Rattle.bundle.specs.Arrow.{same_arrow};
ghost use Rattle.assumption.specs.Assumption.{ValuesWithin, same_by};
ghost use Rattle.book.specs.Within.{EventsWithin};

use assumption::assumption::{ASSUMPTION_LIMIT, Assumption};
use bundle::arrow::{ARROW_LIMIT, Arrow};
use listing::Listing;
use message::table::Messages;
use strand::strand::Strands;

#[derive(Drop)]
pub struct Book {
    pub(crate) messages: Messages,
    pub(crate) strands: Strands,
    pub(crate) arrows: Listing<Arrow, ARROW_LIMIT>,
    pub(crate) assumptions: Listing<Assumption, ASSUMPTION_LIMIT>,
    // Events and assumptions have numbers of messages that stand.
    ghost events_within: { EventsWithin (messages_of messages) (strands_of strands) },
    ghost values_within: { ValuesWithin (messages_of messages) (entries_of assumptions) },
    // No arrow and no assumption stands twice.
    ghost arrows_once: { Once same_arrow (entries_of arrows) },
    ghost assumptions_once: { Once (same_by nat_eq) (entries_of assumptions) },
}
