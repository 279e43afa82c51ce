// A message as the table holds it: its parts by their numbers.

// What is numbered and has no parts: an atom of one of the three sorts (a key of either kind, a datum), or a tag.
#[derive(Clone, Copy, PartialEq, Eq, Debug)]
pub enum Symbol {
    AsymmetricKey,
    SymmetricKey,
    Datum,
    Tag,
}

// What has two parts. In an encryption the first part is the content and the second the key.
#[derive(Clone, Copy, PartialEq, Eq, Debug)]
pub enum Operation {
    Pair,
    AsymmetricEncryption,
    SymmetricEncryption,
}

// The sorts of basic values. Tags, pairs and encryptions have none.
#[derive(Clone, Copy, PartialEq, Eq, Debug)]
pub enum Sort {
    Asymmetric,
    Symmetric,
    Data,
}

// The forms that a message can have.
#[derive(Clone, Copy, PartialEq, Eq, Debug)]
pub enum Form {
    Symbol(Symbol),
    Inverse,
    Compound(Operation),
}

// A symbol has its own number; an inverse, which is always that of an asymmetric key's atom, has the atom's; the other
// numbers are those of messages in the table. (Numbers and no boxes: a table takes all its memory when it is made, a rule of
// the project, and calls name messages by number.)
#[derive(Clone, Copy, PartialEq, Eq, Debug)]
pub enum Stored {
    Symbol(Symbol, u16),
    Inverse(u16),
    Compound(Operation, u16, u16),
}

// A message with its size.
#[derive(Clone, Copy)]
pub(crate) struct Entry {
    pub stored: Stored,
    pub size: u16,
}
