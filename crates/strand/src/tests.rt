// Small strands and traces.
use crate::event::{Event, Sign, Way};
use crate::node::{code, node};
use crate::strand::{EVENT_LIMIT, Strands};
use crate::trace::Trace;
use message::table::Messages;
use refusal::Refusal;
use std::test::Fail;

// The form of a datum, and that of a pair.
const DATUM: u16 = 3;

const PAIR: u16 = 6;

fn received(message: u16) -> Event {
    Event {
        sign: Sign::Receives,
        way: Way::Plain,
        message,
    }
}

fn sent(message: u16) -> Event {
    Event {
        sign: Sign::Transmits,
        way: Way::Plain,
        message,
    }
}

#[test]
fn the_64th_strand_gets_63_and_a_65th_is_refused(rt: HostRuntime) -> Result<(), Fail> {
    let mut strands = Strands::new(rt.alloc())?;
    for _ in 0..63 {
        let _ = strands.open()?;
    }
    assert_eq!(rt; strands.open()?, 63);
    assert_eq!(rt; strands.open(), Err(Refusal::OverLimit));
    assert_eq!(rt; strands.len(), 64);
    Ok(())
}

#[test]
fn a_17th_event_is_refused(rt: HostRuntime) -> Result<(), Fail> {
    let mut strands = Strands::new(rt.alloc())?;
    assert_eq!(rt; strands.open()?, 0);
    for _ in 0..EVENT_LIMIT - 1 {
        let _ = strands.add(0, received(7))?;
    }
    assert_eq!(rt; strands.add(0, sent(8))?, 15);
    assert_eq!(rt; strands.add(0, sent(9)), Err(Refusal::OverLimit));
    let last = strands.event((0, 15)).ok_or("no last event")?;
    assert_eq!(rt; last.message, 8);
    assert!(rt; strands.event((0, 16)).is_none());
    Ok(())
}

#[test]
fn a_strand_that_is_not_there_gets_no_event(rt: HostRuntime) -> Result<(), Fail> {
    let mut strands = Strands::new(rt.alloc())?;
    assert_eq!(rt; strands.add(0, sent(0)), Err(Refusal::NotThere));
    assert!(rt; strands.events(0).is_none());
    Ok(())
}

#[test]
fn codes_and_nodes(rt: HostRuntime) {
    assert_eq!(rt; code((1, 0)), Some(16));
    assert_eq!(rt; code((0, 16)), None);
    assert_eq!(rt; code((64, 0)), None);
    assert_eq!(rt; code((63, 15)), Some(1023));
    assert_eq!(rt; node(1023), (63, 15));
}

// A datum, and a pair that carries it.
#[test]
fn a_value_received_first_does_not_originate(rt: HostRuntime) -> Result<(), Fail> {
    let mut messages = Messages::new(rt.alloc())?;
    let value = messages.enter(DATUM, 0, 0)?;
    let pair = messages.enter(PAIR, value, value)?;
    assert_eq!(rt;
        origin(&messages, &[sent(pair), received(value)], value)?,
        Some(0)
    );
    assert_eq!(rt;
        origin(&messages, &[received(pair), sent(value)], value)?,
        None
    );
    assert_eq!(rt;
        origin(&messages, &[received(value), sent(pair)], pair)?,
        Some(1)
    );
    assert_eq!(rt;
        origin(&messages, &[sent(value)], 2),
        Err(Refusal::NotThere)
    );
    Ok(())
}

// Where the value originates on the trace with these events.
fn origin<'a>(
    messages: &'a Messages,
    events: &'a [Event],
    value: u16,
) -> Result<Option<u16>, Refusal> {
    if events.len() > EVENT_LIMIT {
        return Err(Refusal::OverLimit);
    }
    if events
        .iter()
        .any(|event| event.message as usize >= messages.len())
    {
        return Err(Refusal::NotThere);
    }
    Trace { messages, events }.origin(value)
}
