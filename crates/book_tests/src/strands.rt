// Strands, their events, and messages entered beside them.
use crate::start::{DATUM, PAIR, PLAIN, RECEIVES, TRANSMITS, book_of, check};
use book::book::Book;
use message::stored::{Stored, Symbol};
use refusal::Refusal;
use std::test::Fail;
use strand::event::{Event, Sign, Way};

// Strand 0 of `book_of` has one event, which transmits message 0.
const FIRST: Event = Event {
    sign: Sign::Transmits,
    way: Way::Plain,
    message: 0,
};

#[test]
fn strand_0_of_a_new_book_is_not_there(rt: HostRuntime) -> Result<(), Fail> {
    let mut book = Book::new(rt.alloc())?;
    assert_eq!(rt; book.enter(DATUM, 0, 0)?, 0);
    assert_eq!(rt; book.add(0, TRANSMITS, PLAIN, 0), Err(Refusal::NotThere));
    assert_eq!(rt; book.strand_count(), 0);
    assert!(rt; book.trace(0).is_none());
    Ok(())
}

#[test]
fn events_come_in_order_on_their_own_strand(rt: HostRuntime) -> Result<(), Fail> {
    let mut book = book_of(rt.alloc(), 2)?;
    assert_eq!(rt; book.add(0, RECEIVES, 64, 1)?, 1);
    let events = book.trace(0).ok_or("no strand 0")?.events;
    let second = Event {
        sign: Sign::Receives,
        way: Way::Channel(64),
        message: 1,
    };
    assert_eq!(rt; events, &[FIRST, second][..]);
    let others = book.trace(1).ok_or("no strand 1")?.events;
    assert_eq!(rt; others, &[FIRST][..]);
    Ok(())
}

#[test]
fn a_refused_add_leaves_the_strand_as_it_was(rt: HostRuntime) -> Result<(), Fail> {
    let mut book = book_of(rt.alloc(), 1)?;
    assert_eq!(rt; book.add(0, 2, PLAIN, 0), Err(Refusal::NotListed));
    assert_eq!(rt; book.add(0, TRANSMITS, 65, 0), Err(Refusal::NotThere));
    assert_eq!(rt; book.add(0, TRANSMITS, PLAIN, 2), Err(Refusal::NotThere));
    let events = book.trace(0).ok_or("no strand 0")?.events;
    assert_eq!(rt; events, &[FIRST][..]);
    Ok(())
}

#[test]
fn a_sign_that_is_not_listed_comes_before_a_strand_that_is_not_there(
    rt: HostRuntime,
) -> Result<(), Fail> {
    let mut book = book_of(rt.alloc(), 1)?;
    assert_eq!(rt; book.add(7, 2, 65, 9), Err(Refusal::NotListed));
    assert_eq!(rt; book.add(7, 1, 65, 9), Err(Refusal::NotThere));
    Ok(())
}

// 16 times 4096 is 0 in sixteen bits.
#[test]
fn strand_4096_is_not_strand_0(rt: HostRuntime) -> Result<(), Fail> {
    let mut book = book_of(rt.alloc(), 1)?;
    assert_eq!(rt; book.add(4096, TRANSMITS, PLAIN, 0), Err(Refusal::NotThere));
    assert_eq!(rt; book.draw((4096, 0), (0, 0)), Err(Refusal::NotThere));
    assert_eq!(rt; book.draw((0, 0), (4096, 0)), Err(Refusal::NotThere));
    assert!(rt; book.trace(4096).is_none());
    assert_eq!(rt; book.trace(0).ok_or("no strand 0")?.events.len(), 1);
    Ok(())
}

#[test]
fn entering_messages_leaves_a_trace_as_it_was(rt: HostRuntime) -> Result<(), Fail> {
    let mut book = book_of(rt.alloc(), 1)?;
    check_trace(&book)?;
    assert_eq!(rt; book.enter(PAIR, 0, 1)?, 2);
    assert_eq!(rt; book.enter(DATUM, 5, 0)?, 3);
    check_trace(&book)
}

// The trace of strand 0 is the event that transmits the datum with the number 0.
fn check_trace(book: &Book) -> Result<(), Fail> {
    let trace = book.trace(0).ok_or("no strand 0")?;
    check(trace.events == &[FIRST][..])?;
    check(trace.messages.get(0) == Some(Stored::Symbol(Symbol::Datum, 0)))?;
    check(trace.origin(0)? == Some(0))
}
