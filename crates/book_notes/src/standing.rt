// What stands in a book, printed part by part.
use crate::claim::SpelledClaim;
use crate::naming::{Ends, NamedNode};
use crate::spelled_event::SpelledEvent;
use assumption::assumption::Assumption;
use book::book::Book;
use bundle::arrow::Arrow;
use message::table::Messages;
use spelling::spelled::Spelled;
use std::io;
use strand::trace::Trace;

pub(crate) fn print(rt: &impl Print, book: &Book) -> io::Result<()> {
    println!(rt; "\nWhat stands:")?;
    messages(rt, book.messages())?;
    strands(rt, book)?;
    arrows(rt, book.arrows())?;
    assumptions(rt, book.messages(), book.assumptions())
}

fn messages(rt: &impl Print, messages: &Messages) -> io::Result<()> {
    if messages.len() == 0 {
        return println!(rt; "no messages");
    }
    // Messages are named by number: a table lends no list of them.
    for number in 0..messages.len() as u16 {
        let message = Spelled { messages, number };
        println!(rt; "message {number} is {message}")?;
    }
    Ok(())
}

fn strands(rt: &impl Print, book: &Book) -> io::Result<()> {
    if book.strand_count() == 0 {
        return println!(rt; "no strands");
    }
    // Strands too: a book lends one trace at a time.
    for number in 0..book.strand_count() as u16 {
        if let Some(trace) = book.trace(number) {
            println!(rt; "strand {number}")?;
            events(rt, number, trace)?;
        }
    }
    Ok(())
}

fn events(rt: &impl Print, strand: u16, trace: Trace<'_>) -> io::Result<()> {
    if trace.events.is_empty() {
        return println!(rt; "  no events");
    }
    let messages = trace.messages;
    for (index, &event) in trace.events.iter().enumerate() {
        let node = NamedNode((strand, index as u16));
        let event = SpelledEvent { messages, event };
        println!(rt; "  {node} {event}")?;
    }
    Ok(())
}

fn arrows(rt: &impl Print, arrows: &[Arrow]) -> io::Result<()> {
    if arrows.is_empty() {
        return println!(rt; "no arrows");
    }
    for (position, &arrow) in arrows.iter().enumerate() {
        let ends = Ends(arrow);
        println!(rt; "arrow {position} {ends}")?;
    }
    Ok(())
}

fn assumptions(rt: &impl Print, messages: &Messages, assumptions: &[Assumption]) -> io::Result<()> {
    if assumptions.is_empty() {
        return println!(rt; "no assumptions");
    }
    for (position, &assumption) in assumptions.iter().enumerate() {
        let claim = SpelledClaim {
            messages,
            assumption,
        };
        println!(rt; "assumption {position}: {claim}")?;
    }
    Ok(())
}
