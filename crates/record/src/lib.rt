// A file is a sequence of records, one after the other. A record is a head of four bytes and a body: two bytes for the
// body's length, two for the record's kind, then the body. Each number has sixteen bits, its low byte first.
#![tactic(auto)]

ghost use Rattle.std.specs.Prelude.{◌≤◌, length};

mod fields;
mod number;
mod opening;
mod reading;
#[cfg(test)]
mod tests;

// A record, where it stands in the input.
#[derive(Clone, Copy)]
pub struct Record<'a> {
    // The byte of the input at which the record begins.
    pub place: usize,
    // A number of the format; which kinds there are is each file's own affair.
    pub kind: u16,
    // The bytes after the record's head.
    pub body: &'a [u8],
}

// Hands out the records of an input, from the first on.
#[derive(Drop)]
pub struct Reader<'a> {
    input: &'a [u8],
    // The byte of the input at which the next record begins.
    place: usize,
    ghost within: { place ≤ length input.now },
}
