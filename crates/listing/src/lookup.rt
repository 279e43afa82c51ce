// Reading a listing: its length, its entries, and the place of an entry.
ghost use Rattle.std.specs.Prelude.{◌≡◌, ◌≤◌, length, position};
ghost use Rattle.listing.specs.Held.{entries_of};

use crate::listing::Listing;
use crate::same::Same;

impl<T, const LIMIT: usize> Listing<T, LIMIT> {
    // How many entries stand.
    pub fn len(&self) -> usize
        ensures count { result ≡ length (entries_of self.now) }
        ensures few { length (entries_of self.now) ≤ LIMIT }
    {
        self.entries.len()
    }

    // The entries in the order in which they came.
    pub fn as_slice(&self) -> &[T]
        ensures { result.now ≡ entries_of self.now }
    {
        self.entries.as_slice()
    }
}

impl<T: Same, const LIMIT: usize> Listing<T, LIMIT> {
    // Where this entry stands, if it does.
    pub fn place(&self, entry: &T) -> Option<usize>
        ensures { result ≡ position (λ held. T.Same.same held entry.now) (entries_of self.now) }
    {
        self.entries.iter().position(|held| held.is_same(entry))
    }
}
