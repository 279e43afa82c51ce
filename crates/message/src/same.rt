// When two entries are of one message: when they store the same. The size follows from what is stored.
use crate::stored::{Entry, Stored};
use listing::Same;

impl Same for Entry {
    ghost same = { λ a b. ⟦<Stored as PartialEq>⟧.eq a.stored b.stored };

    fn is_same(&self, other: &Entry) -> bool {
        self.stored == other.stored
    }
}
