// The arguments of `enter`: the message that they name, or the first row that fits them. They come as numbers, each beside
// the others, as the public call takes them, and a `let .. else` gives row 4 where a look-up finds nothing: rules of the
// project.
ghost use Rattle.message.specs.Message.{form_number};
ghost use Rattle.message.specs.Resolve.{Resolves};
ghost use Rattle.message.specs.Table.{messages_of};

use crate::stored::{Entry, Form, Operation, Stored, Symbol};
use crate::table::{Messages, SIZE_LIMIT};
use refusal::Refusal;

impl Messages {
    // An atom or tag, by its own number.
    fn symbol(&self, symbol: Symbol, x: u16, y: u16) -> Result<Entry, Refusal>
        ensures { Resolves (messages_of self.now) (form_number (Form.Symbol symbol)) x y result }
    {
        if y != 0 {
            return Err(Refusal::NotListed);
        }
        Ok(Entry {
            stored: Stored::Symbol(symbol, x),
            size: 1,
        })
    }

    // The inverse of a key: that of an inverse is the key inside.
    fn inverse(&self, x: u16, y: u16) -> Result<Entry, Refusal>
        ensures { Resolves (messages_of self.now) (form_number Form.Inverse) x y result }
    {
        if y != 0 {
            return Err(Refusal::NotListed);
        }
        let Some(key) = self.get(x) else {
            return Err(Refusal::NotThere);
        };
        match key {
            Stored::Symbol(Symbol::AsymmetricKey, n) => Ok(Entry {
                stored: Stored::Inverse(n),
                size: 2,
            }),
            Stored::Inverse(n) => Ok(Entry {
                stored: Stored::Symbol(Symbol::AsymmetricKey, n),
                size: 1,
            }),
            _ => Err(Refusal::WrongSort),
        }
    }

    // Two messages of the table put together.
    fn compound(&self, operation: Operation, x: u16, y: u16) -> Result<Entry, Refusal>
        ensures { Resolves (messages_of self.now) (form_number (Form.Compound operation)) x y result }
    {
        let Some(first) = self.entry(x) else {
            return Err(Refusal::NotThere);
        };
        let Some(second) = self.entry(y) else {
            return Err(Refusal::NotThere);
        };
        if !operation.key_fits(second.stored.sort()) {
            return Err(Refusal::WrongSort);
        }
        let size = 1 + first.size + second.size;
        if size > SIZE_LIMIT {
            return Err(Refusal::OverLimit);
        }
        Ok(Entry {
            stored: Stored::Compound(operation, x, y),
            size,
        })
    }

    // The message that a form and its operands name. (The forms are a closed enum: closures would only name the three
    // steps anew.)
    pub(crate) fn resolve(&self, form: u16, x: u16, y: u16) -> Result<Entry, Refusal>
        ensures { Resolves (messages_of self.now) form x y result }
    {
        match Form::try_from(form)? {
            Form::Symbol(symbol) => self.symbol(symbol, x, y),
            Form::Inverse => self.inverse(x, y),
            Form::Compound(operation) => self.compound(operation, x, y),
        }
    }
}
