// Reading the records of an input one by one.
ghost use Rattle.record.specs.Reads.{Answered};

use super::{Reader, Record};
use crate::number::number;
use refusal::Refusal;

// The length of a record's head.
const HEAD: usize = 4;

impl<'a> Reader<'a> {
    // The next record, or `None` at the end of the input. (No `Iterator`: a program needs the place also where no record is
    // handed out, and what each further call answers is defined.)
    pub fn next(&mut self) -> Result<Option<Record<'a>>, Refusal>
        ensures { Answered self.old result self.new }
    {
        let left = &self.input[self.place..];
        if left.is_empty() {
            return Ok(None);
        }
        let [length_low, length_high, kind_low, kind_high, rest @ ..] = left else {
            return Err(Refusal::Truncated);
        };
        let length = number([*length_low, *length_high]);
        let kind = number([*kind_low, *kind_high]);
        let body = rest.get(..usize::from(length)).ok_or(Refusal::Truncated)?;
        let place = self.place;
        self.place += HEAD + body.len();
        Ok(Some(Record { place, kind, body }))
    }
}
