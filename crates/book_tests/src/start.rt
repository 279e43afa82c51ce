// Books that the tests begin with, and the numbers of forms, signs, ways and kinds.
use book::book::Book;
use std::alloc::Global;
use std::test::Fail;

// Forms of messages.
pub(crate) const ASYMMETRIC_KEY: u16 = 1;

pub(crate) const DATUM: u16 = 3;

pub(crate) const TAG: u16 = 4;

pub(crate) const INVERSE: u16 = 5;

pub(crate) const PAIR: u16 = 6;

// Signs and ways of events.
pub(crate) const RECEIVES: u16 = 0;

pub(crate) const TRANSMITS: u16 = 1;

pub(crate) const PLAIN: u16 = 0;

// Kinds of assumptions.
pub(crate) const NON_ORIGINATING: u16 = 1;

pub(crate) const UNIQUELY_ORIGINATING: u16 = 2;

pub(crate) const AUTHENTICATED: u16 = 3;

pub(crate) const CONFIDENTIAL: u16 = 4;

// For what a test does not assert itself.
pub(crate) fn check(holds: bool) -> Result<(), Fail> {
    if holds {
        Ok(())
    } else {
        Err(Fail::new("not as it should be"))
    }
}

// Message 0 is a datum and message 1 a tag. Each of this many strands transmits the datum once.
pub(crate) fn book_of(heap: Global, strands: u16) -> Result<Book, Fail> {
    let mut book = Book::new(heap)?;
    check(book.enter(DATUM, 0, 0)? == 0)?;
    check(book.enter(TAG, 0, 0)? == 1)?;
    for strand in 0..strands {
        check(book.open()? == strand)?;
        check(book.add(strand, TRANSMITS, PLAIN, 0)? == 0)?;
    }
    Ok(book)
}
