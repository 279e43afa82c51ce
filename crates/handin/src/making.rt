// Making a call on a book.
ghost use Rattle.handin.specs.Made.{Made};

use crate::call::Call;
use book::book::Book;
use refusal::Refusal;

impl Call {
    // What the book answers to the call. (The calls are a closed enum; a closure for each would only name them again.)
    pub fn make(self, book: &mut Book) -> Result<u16, Refusal>
        ensures { Made book.old self result book.new }
    {
        match self {
            Call::Enter { form, x, y } => book.enter(form, x, y),
            Call::Open => book.open(),
            Call::Add {
                strand,
                sign,
                way,
                message,
            } => book.add(strand, sign, way, message),
            Call::Draw { from, to } => book.draw(from, to),
            Call::Assume {
                kind,
                value,
                origin,
            } => book.assume(kind, value, origin),
            Call::Strike { from, to } => book.strike(from, to),
            Call::Release {
                kind,
                value,
                origin,
            } => book.release(kind, value, origin),
        }
    }
}
