// When two arrows are one.
ghost use Rattle.bundle.specs.Arrow.{same_arrow};

use crate::arrow::Arrow;
use listing::Same;

impl Same for Arrow {
    ghost same = { same_arrow };

    fn is_same(&self, other: &Arrow) -> bool {
        self == other
    }
}
