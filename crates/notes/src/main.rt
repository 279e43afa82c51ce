// Reads records of calls from standard input and prints a line for each: where the record begins, the call in words, and
// the reply. A record that is cut short, or that is no call's, ends the reading.
#![tactic(auto)]

mod call;

use message::table::Messages;
use record::Reader;
use spelling::entered::Entered;
use spelling::entering::Entering;
use spelling::refused::Refused;
use spelling::source::input;
use std::io;

// Makes the call, and prints it with its reply.
fn answer(
    rt: &impl Print,
    messages: &mut Messages,
    place: usize,
    call: Entering,
) -> io::Result<()> {
    let Entering { form, x, y } = call;
    let before = messages.len();
    match messages.enter(form, x, y) {
        Ok(number) => {
            let entered = Entered {
                messages,
                before,
                number,
            };
            println!(rt; "byte {place}: {call}: {entered}")
        }
        Err(refusal) => { println!(rt; "byte {place}: {call}: {}", Refused(refusal)) }
    }
}

// A line for each record, until the input or the reading ends. (A `loop`: the place is taken
// before the record, since it is printed where none comes too. `book_notes` has this loop over its own calls: one function for
// both would take a closure to read, one to answer, and the state that they change.)
fn read(rt: &impl Print, input: &[u8], messages: &mut Messages) -> io::Result<()> {
    let mut reader = Reader::new(input);
    loop {
        let place = reader.place();
        let Some(record) = reader.next().transpose() else {
            return Ok(());
        };
        match record.and_then(|record| call::read(&record)) {
            Ok(call) => answer(rt, messages, place, call)?,
            Err(refusal) => return println!(rt; "byte {place}: {}", Refused(refusal)),
        }
    }
}

fn main(rt: HostRuntime) -> anyhow::Result<()> {
    let bytes = input(rt.alloc(), rt.stdin())?;
    let mut messages = Messages::new(rt.alloc())?;
    read(&rt, bytes.as_slice(), &mut messages)?;
    Ok(())
}
