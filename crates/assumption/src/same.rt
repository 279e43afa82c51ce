// When two assumptions are one.
ghost use Rattle.std.specs.Prelude.{nat_eq};
ghost use Rattle.assumption.specs.Assumption.{same_by};

use crate::assumption::Assumption;
use listing::Same;

impl Same for Assumption {
    ghost same = { same_by nat_eq };

    fn is_same(&self, other: &Assumption) -> bool {
        self == other
    }
}
