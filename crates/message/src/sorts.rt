// The sorts of stored messages, and the sort that a key must have.
ghost use Rattle.std.specs.Prelude.{◌≡◌, List};
ghost use Rattle.message.specs.Meaning.{value};
ghost use Rattle.message.specs.Message.{Message as Tree, key_fits, sort_letter, sort_of};

use crate::stored::{Operation, Sort, Stored, Symbol};

impl Stored {
    // The sort of the message, if it is a basic value.
    pub fn sort(self) -> Option<Sort>
        ensures { (ms : List Tree) → result ≡ sort_of (value ms self) }
    {
        match self {
            Stored::Symbol(Symbol::AsymmetricKey, _) => Some(Sort::Asymmetric),
            Stored::Symbol(Symbol::SymmetricKey, _) => Some(Sort::Symmetric),
            Stored::Symbol(Symbol::Datum, _) => Some(Sort::Data),
            Stored::Symbol(Symbol::Tag, _) => None,
            Stored::Inverse(_) => Some(Sort::Asymmetric),
            Stored::Compound(..) => None,
        }
    }
}

impl Sort {
    // The letter of the sort. (A method and no `From`: `char::from(sort)` would not say which character.)
    pub fn letter(self) -> char
        ensures { result ≡ sort_letter self }
    {
        match self {
            Sort::Asymmetric => 'A',
            Sort::Symmetric => 'S',
            Sort::Data => 'D',
        }
    }
}

impl Operation {
    // Whether the second part may be of this sort.
    pub(crate) fn key_fits(self, sort: Option<Sort>) -> bool
        ensures { result ≡ key_fits self sort }
    {
        match self {
            Operation::Pair => true,
            Operation::AsymmetricEncryption => matches!(sort, Some(Sort::Asymmetric)),
            Operation::SymmetricEncryption => matches!(sort, Some(Sort::Symmetric)),
        }
    }
}
