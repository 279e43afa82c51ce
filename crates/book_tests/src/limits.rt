// Books with as much as they hold.
use crate::start::{AUTHENTICATED, CONFIDENTIAL, DATUM, NON_ORIGINATING, PLAIN, RECEIVES, book_of};
use assumption::assumption::ASSUMPTION_LIMIT;
use book::book::Book;
use bundle::arrow::ARROW_LIMIT;
use refusal::Refusal;
use std::alloc::Global;
use std::test::Fail;
use strand::numbers::CHANNEL_LIMIT;
use strand::strand::EVENT_LIMIT;

#[test]
fn the_64th_strand_gets_63_and_a_65th_is_over_the_limit(rt: HostRuntime) -> Result<(), Fail> {
    let mut book = book_of(rt.alloc(), 63)?;
    assert_eq!(rt; book.open()?, 63);
    assert_eq!(rt; book.open(), Err(Refusal::OverLimit));
    assert_eq!(rt; book.strand_count(), 64);
    Ok(())
}

#[test]
fn a_17th_event_is_over_the_limit_and_16_stay(rt: HostRuntime) -> Result<(), Fail> {
    let mut book = book_of(rt.alloc(), 1)?;
    for index in 1..EVENT_LIMIT as u16 {
        assert_eq!(rt; book.add(0, RECEIVES, PLAIN, 0)?, index);
    }
    assert_eq!(rt; book.add(0, RECEIVES, PLAIN, 1), Err(Refusal::OverLimit));
    let events = book.trace(0).ok_or("no strand 0")?.events;
    assert_eq!(rt; events.len(), EVENT_LIMIT);
    let last = events.get(15).ok_or("no last event")?;
    assert_eq!(rt; last.message, 0);
    Ok(())
}

// From each of 16 nodes an arrow to each of 64 nodes: as many as a book holds.
#[test]
fn an_arrow_that_stands_comes_before_the_limit(rt: HostRuntime) -> Result<(), Fail> {
    let mut book = book_of(rt.alloc(), 64)?;
    for from in 0..16 {
        for to in 0..64 {
            let _ = book.draw((from, 0), (to, 0))?;
        }
    }
    assert_eq!(rt; book.arrows().len(), ARROW_LIMIT);
    assert_eq!(rt; book.draw((15, 0), (63, 0)), Err(Refusal::StandsAlready));
    assert_eq!(rt; book.draw((16, 0), (63, 0)), Err(Refusal::OverLimit));
    assert_eq!(rt; book.strike((15, 0), (63, 0))?, 1023);
    assert_eq!(rt; book.draw((16, 0), (63, 0))?, 1023);
    Ok(())
}

#[test]
fn an_assumption_that_stands_comes_before_the_limit(rt: HostRuntime) -> Result<(), Fail> {
    let mut book = full_of_assumptions(rt.alloc())?;
    assert_eq!(rt; book.assumptions().len(), ASSUMPTION_LIMIT);
    assert_eq!(rt;
        book.assume(CONFIDENTIAL, 64, (0, 0)),
        Err(Refusal::StandsAlready)
    );
    assert_eq!(rt;
        book.assume(NON_ORIGINATING, 127, (0, 0)),
        Err(Refusal::StandsAlready)
    );
    Ok(())
}

#[test]
fn a_257th_assumption_is_over_the_limit(rt: HostRuntime) -> Result<(), Fail> {
    let mut book = full_of_assumptions(rt.alloc())?;
    let value = book.enter(DATUM, 128, 0)?;
    assert_eq!(rt;
        book.assume(NON_ORIGINATING, value, (0, 0)),
        Err(Refusal::OverLimit)
    );
    assert_eq!(rt; book.assumptions().len(), ASSUMPTION_LIMIT);
    assert_eq!(rt; book.release(NON_ORIGINATING, 127, (0, 0))?, 255);
    assert_eq!(rt; book.assume(NON_ORIGINATING, value, (0, 0))?, 255);
    Ok(())
}

// Two assumptions on each of the 64 channels, and one on each of 128 data.
fn full_of_assumptions(heap: Global) -> Result<Book, Fail> {
    let mut book = Book::new(heap)?;
    for channel in 1..=CHANNEL_LIMIT {
        let _ = book.assume(AUTHENTICATED, channel, (0, 0))?;
        let _ = book.assume(CONFIDENTIAL, channel, (0, 0))?;
    }
    for number in 0..128 {
        let datum = book.enter(DATUM, number, 0)?;
        let _ = book.assume(NON_ORIGINATING, datum, (0, 0))?;
    }
    Ok(book)
}
