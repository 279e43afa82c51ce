// A new book. It takes all the memory that it can ever need.
ghost use Rattle.std.specs.Prelude.{◌≡◌, [], IfOk};
ghost use Rattle.message.specs.Table.{Begins as TableBegins};
ghost use Rattle.strand.specs.Strands.{strands_of};
ghost use Rattle.listing.specs.Held.{entries_of};
ghost use Rattle.book.specs.Held.{Begins};

use crate::book::Book;
use assumption::assumption::{ASSUMPTION_LIMIT, Assumption};
use bundle::arrow::{ARROW_LIMIT, Arrow};
use listing::Listing;
use message::table::Messages;
use std::alloc::{AllocError, Global};
use strand::strand::Strands;

impl Book {
    // A book in which nothing stands yet.
    pub fn new(heap: Global) -> Result<Book, AllocError>
        ensures { IfOk result Begins }
    {
        let messages = Messages::new(heap)?;
        let strands = Strands::new(heap)?;
        let arrows = Listing::new(heap)?;
        let assumptions = Listing::new(heap)?;
        Ok(Book::over(messages, strands, arrows, assumptions))
    }

    // A book of these parts. (Apart from `new`, to require that they are empty.)
    fn over(
        messages: Messages,
        strands: Strands,
        arrows: Listing<Arrow, ARROW_LIMIT>,
        assumptions: Listing<Assumption, ASSUMPTION_LIMIT>,
    ) -> Book
        requires messages { TableBegins messages }
        requires strands { strands_of strands ≡ [] }
        requires arrows { entries_of arrows ≡ [] }
        requires assumptions { entries_of assumptions ≡ [] }
        ensures { Begins result }
    {
        Book {
            messages,
            strands,
            arrows,
            assumptions,
        }
    }
}
