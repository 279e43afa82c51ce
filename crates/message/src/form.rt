// The forms of messages by number.
ghost use Rattle.message.specs.Forms.{FormListed};

use crate::stored::{Form, Operation, Symbol};
use refusal::Refusal;

// The form with a number; the forms are 1 to 8.
impl TryFrom<u16> for Form {
    type Error = Refusal;

    ghost try_from_gives = { FormListed };

    fn try_from(number: u16) -> Result<Form, Refusal> {
        match number {
            1 => Ok(Form::Symbol(Symbol::AsymmetricKey)),
            2 => Ok(Form::Symbol(Symbol::SymmetricKey)),
            3 => Ok(Form::Symbol(Symbol::Datum)),
            4 => Ok(Form::Symbol(Symbol::Tag)),
            5 => Ok(Form::Inverse),
            6 => Ok(Form::Compound(Operation::Pair)),
            7 => Ok(Form::Compound(Operation::AsymmetricEncryption)),
            8 => Ok(Form::Compound(Operation::SymmetricEncryption)),
            _ => Err(Refusal::NotListed),
        }
    }
}
