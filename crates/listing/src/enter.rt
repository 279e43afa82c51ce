// A new listing, and putting entries in and taking them out. The memory is taken when the listing is made; entering
// takes none.
ghost use Rattle.std.specs.Prelude.{◌≡◌, ◌<◌, [], length, IfOk};
ghost use Rattle.std.specs.List.{remove};
ghost use Rattle.listing.specs.Held.{entries_of, memory_of};
ghost use Rattle.listing.specs.Listing.{Appended, Pushed, Removed};

use crate::listing::Listing;
use crate::same::Same;
use refusal::Refusal;
use std::alloc::{AllocError, Global};

impl<T, const LIMIT: usize> Listing<T, LIMIT> {
    // A listing with no entry and room for all that it can ever hold.
    pub fn new(heap: Global) -> Result<Listing<T, LIMIT>, AllocError>
        ensures { IfOk result (λ l. entries_of l ≡ []) }
    {
        let entries = Vec::with_capacity(heap, LIMIT)?;
        Ok(Listing { entries })
    }
}

impl<T: Copy, const LIMIT: usize> Listing<T, LIMIT> {
    // Puts an entry at the end, whether or not it stands, and answers its place.
    pub fn push(&mut self, entry: T) -> Result<usize, Refusal>
        ensures pushed { Pushed LIMIT (entries_of self.old) entry result (entries_of self.new) }
        ensures memory { memory_of self.new ≡ memory_of self.old }
    {
        let end = self.entries.len();
        if end >= LIMIT {
            return Err(Refusal::OverLimit);
        }
        self.entries.push_reserved(entry);
        Ok(end)
    }
}

impl<T: Same + Copy, const LIMIT: usize> Listing<T, LIMIT> {
    // Puts an entry that does not stand yet at the end, and answers its place.
    pub fn append(&mut self, entry: T) -> Result<usize, Refusal>
        ensures appended { Appended T.Same.same LIMIT (entries_of self.old) entry result (entries_of self.new) }
        ensures memory { memory_of self.new ≡ memory_of self.old }
    {
        if self.place(&entry).is_some() {
            return Err(Refusal::StandsAlready);
        }
        self.push(entry)
    }

    // Takes an entry out, and answers where it stood. Those behind it move up.
    pub fn remove(&mut self, entry: &T) -> Result<usize, Refusal>
        ensures removed { Removed T.Same.same (entries_of self.old) entry.now result (entries_of self.new) }
        ensures memory { memory_of self.new ≡ memory_of self.old }
    {
        let place = self.place(entry).ok_or(Refusal::DoesNotStand)?;
        self.take_out(place);
        Ok(place)
    }

    // Takes the entry at this place out. (Not inlined: beside the search for the place, the compiler would carry what the
    // move of those behind it needs through every turn of the search.)
    #[inline(never)]
    fn take_out(&mut self, place: usize)
        requires { place < length (entries_of self.old) }
        ensures taken { entries_of self.new ≡ remove (entries_of self.old) place }
        ensures memory { memory_of self.new ≡ memory_of self.old }
    {
        self.entries.remove(place);
    }
}
