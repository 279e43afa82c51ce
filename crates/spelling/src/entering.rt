// Calls that enter a message, in words.
ghost use Rattle.std.specs.Prelude.{Some};
ghost use Rattle.spelling.specs.Entering.{entering};

use message::stored::{Form, Operation, Symbol};
use std::fmt;

// The fields of such a call. (Numbers: a call with one that is not listed is printed too.)
#[derive(Clone, Copy)]
pub struct Entering {
    pub form: u16,
    pub x: u16,
    pub y: u16,
}

impl fmt::Display for Entering {
    ghost output = { λ call. Some (entering call.form call.x call.y) };

    // In words where the form is listed and its unused field is 0, and else by the numbers.
    fn fmt<W: fmt::Write>(&self, f: &mut fmt::Formatter<W>) -> fmt::Result {
        let Entering { form, x, y } = *self;
        match (Form::try_from(form), y) {
            (Ok(Form::Symbol(Symbol::AsymmetricKey)), 0) => {
                write!(f, "enter asymmetric key {x}")
            }
            (Ok(Form::Symbol(Symbol::SymmetricKey)), 0) => write!(f, "enter symmetric key {x}"),
            (Ok(Form::Symbol(Symbol::Datum)), 0) => write!(f, "enter data {x}"),
            (Ok(Form::Symbol(Symbol::Tag)), 0) => write!(f, "enter tag {x}"),
            (Ok(Form::Inverse), 0) => write!(f, "enter the inverse of message {x}"),
            (Ok(Form::Compound(Operation::Pair)), _) => {
                write!(f, "enter the pair of messages {x} and {y}")
            }
            (Ok(Form::Compound(Operation::AsymmetricEncryption)), _) => {
                write!(
                    f,
                    "enter the asymmetric encryption of message {x} under message {y}"
                )
            }
            (Ok(Form::Compound(Operation::SymmetricEncryption)), _) => {
                write!(
                    f,
                    "enter the symmetric encryption of message {x} under message {y}"
                )
            }
            _ => write!(f, "enter form {form}, x {x}, y {y}"),
        }
    }
}
