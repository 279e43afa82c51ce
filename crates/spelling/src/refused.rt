// Refusals, with their rows.
ghost use Rattle.std.specs.Prelude.{◌++◌, Some, codes, decimal};
ghost use Rattle.refusal.specs.Rows.{row};
ghost use Rattle.refusal.specs.Words.{in_words};

use refusal::Refusal;
use std::fmt;

// A refusal as it is printed.
#[derive(Clone, Copy)]
pub struct Refused(pub Refusal);

impl fmt::Display for Refused {
    ghost output = { λ r. Some (codes "refused, row " ++ (decimal (row r.0) ++ (codes ": " ++ in_words r.0))) };

    fn fmt<W: fmt::Write>(&self, f: &mut fmt::Formatter<W>) -> fmt::Result {
        let refusal = self.0;
        let row = u8::from(refusal);
        write!(f, "refused, row {row}: {refusal}")
    }
}
