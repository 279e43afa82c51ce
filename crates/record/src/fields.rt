// The fields of a record's body.
ghost use Rattle.record.specs.Fields.{FieldsOf};

use super::Record;
use crate::number::number;
use std::array;

impl Record<'_> {
    // The body as N fields; `None` where its length is another.
    pub fn fields<const N: usize>(&self) -> Option<[u16; N]>
        ensures { FieldsOf self.now.body.now N result }
    {
        let (pairs, _) = self.body.as_chunks::<2>();
        // (The odd byte is asked for beside the count, and not by a pattern before it: so the compiler makes one test of both.)
        if self.body.len() % 2 != 0 || pairs.len() != N {
            return None;
        }
        Some(array::from_fn(|i| number(pairs[i])))
    }
}
