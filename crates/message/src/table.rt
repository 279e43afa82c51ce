// The table of messages: each message once, by number, in order of first entry, its parts before it.
ghost use Rattle.std.specs.Prelude.{◌≡◌, length};
ghost use Rattle.listing.specs.Held.{entries_of};
ghost use Rattle.message.specs.Meaning.{Distinct, InOrder, Sized, Small, WellSorted, meanings};

use crate::stored::Entry;
use listing::Listing;

// How many messages a table holds at most.
pub const MESSAGE_LIMIT: usize = 1024;

// How large a message may be.
pub const SIZE_LIMIT: u16 = 255;

#[derive(Drop)]
pub struct Messages {
    pub(crate) entries: Listing<Entry, MESSAGE_LIMIT>,
    // An entry for each message, its parts before it and its size with it.
    ghost counted: { length (entries_of entries) ≡ length (meanings (entries_of entries)) },
    ghost ordered: { InOrder (entries_of entries) },
    ghost sized: { Sized (entries_of entries) },
    // No message is too large, stands twice, or has a key of another sort than its encryption's.
    ghost small: { Small (meanings (entries_of entries)) },
    ghost once: { Distinct (meanings (entries_of entries)) },
    ghost sorted: { WellSorted (meanings (entries_of entries)) },
}
