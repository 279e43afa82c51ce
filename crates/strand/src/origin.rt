// Where a value originates on a trace.
ghost use Rattle.std.specs.Prelude.{◌<◌, ◌↔◌, length, IsTrue, MatchOption};
ghost use Rattle.message.specs.Carried.{Carried};
ghost use Rattle.message.specs.Meaning.{at};
ghost use Rattle.strand.specs.Lent.{table_of, trace_of};
ghost use Rattle.strand.specs.Origin.{OriginOf};
ghost use Rattle.strand.specs.Seeking.{Decided, Nowhere};
ghost use Rattle.strand.specs.Trace.{OriginatesOnce};

use crate::event::{Event, Sign};
use crate::trace::Trace;
use refusal::Refusal;

impl<'a> Trace<'a> {
    // The index at which the message with this number originates, if it originates on this trace: the first event that
    // carries it is a transmission. (The look-up is taken by `let .. else` into row 4: a rule of the project.)
    #[tactic(auto, using(crate::proofs::Traces::once))]
    pub fn origin(&self, value: u16) -> Result<Option<u16>, Refusal>
        ensures found { OriginOf (table_of self.now) (trace_of self.now) value result }
        ensures once { OriginatesOnce }
    {
        let Some(_) = self.messages.get(value) else {
            return Err(Refusal::NotThere);
        };
        match self.first_carrying(value) {
            Some((index, Sign::Transmits)) => Ok(Some(index)),
            Some((_, Sign::Receives)) | None => Ok(None),
        }
    }

    // The index and the sign of the first event that carries the value. (A `for`: a `find_map` over `enumerate`
    // would say the same in a closure.)
    fn first_carrying(&self, value: u16) -> Option<(u16, Sign)>
        requires { value < length (table_of self.now) }
        ensures decided { MatchOption result
            (Nowhere (trace_of self.now) (at (table_of self.now) value))
            (λ e. Decided (trace_of self.now) (at (table_of self.now) value) e.0 e.1) }
        ensures once { OriginatesOnce }
    {
        for (index, event) in self.events.iter().enumerate() {
            if self.carries(value, event) {
                return Some((index as u16, event.sign));
            }
        }
        None
    }

    // Whether the message of this event carries the value.
    fn carries(&self, value: u16, event: &Event) -> bool
        requires value { value < length (table_of self.now) }
        requires message { event.now.message < length (table_of self.now) }
        ensures { IsTrue result ↔ Carried (at (table_of self.now) value) (at (table_of self.now) event.now.message) }
    {
        self.messages.carried(value, event.message) == Some(true)
    }
}
