// Reads records of calls from standard input, makes the calls on a book, and prints a line for each: where the record
// begins, the call in words, and the reply. A record that is cut short, or that is no call's, ends the reading. At the end
// it prints what stands.
#![tactic(auto)]

mod claim;
mod naming;
mod reply;
mod spelled_event;
mod standing;
#[cfg(test)]
mod tests;
mod words;

use book::book::Book;
use handin::call::Call;
use record::Reader;
use reply::Reply;
use spelling::refused::Refused;
use spelling::source::input;
use std::io;
use words::InWords;

// Makes the call, and prints it with its reply.
fn answer(rt: &impl Print, book: &mut Book, place: usize, call: Call) -> io::Result<()> {
    let before = book.messages().len();
    let words = InWords(call);
    match call.make(book) {
        Ok(number) => {
            let reply = Reply {
                book,
                before,
                call,
                number,
            };
            println!(rt; "byte {place}: {words}: {reply}")
        }
        Err(refusal) => { println!(rt; "byte {place}: {words}: {}", Refused(refusal)) }
    }
}

// A line for each record, until the input or the reading ends. (A `loop`: the place is taken
// before the record, since it is printed where none comes too. `notes` has this loop over its own calls: one function for both
// would take a closure to read, one to answer, and the state that they change.)
fn read(rt: &impl Print, input: &[u8], book: &mut Book) -> io::Result<()> {
    let mut reader = Reader::new(input);
    loop {
        let place = reader.place();
        let Some(record) = reader.next().transpose() else {
            return Ok(());
        };
        match record.and_then(|record| Call::read(&record)) {
            Ok(call) => answer(rt, book, place, call)?,
            Err(refusal) => return println!(rt; "byte {place}: {}", Refused(refusal)),
        }
    }
}

fn main(rt: HostRuntime) -> anyhow::Result<()> {
    let bytes = input(rt.alloc(), rt.stdin())?;
    let mut book = Book::new(rt.alloc())?;
    read(&rt, bytes.as_slice(), &mut book)?;
    standing::print(&rt, &book)?;
    Ok(())
}
