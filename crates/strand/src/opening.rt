// New strands, and events put behind the others. The memory is taken when the strands are made; a call takes none.
ghost use Rattle.std.specs.Prelude.{◌≡◌, [], IfOk};
ghost use Rattle.strand.specs.Strands.{Added, Opened, memory_of, strands_of};

use crate::event::Event;
use crate::strand::{STRAND_LIMIT, Strands};
use arrayvec::ArrayVec;
use refusal::Refusal;
use std::alloc::{AllocError, Global};

impl Strands {
    // No strand, and room for all that there can ever be.
    pub fn new(heap: Global) -> Result<Strands, AllocError>
        ensures { IfOk result (λ s. strands_of s ≡ []) }
    {
        let strands = Vec::with_capacity(heap, STRAND_LIMIT)?;
        Ok(Strands { strands })
    }

    // Opens a strand without events. Its number is how many there were.
    pub fn open(&mut self) -> Result<u16, Refusal>
        ensures opened { Opened (strands_of self.old) result (strands_of self.new) }
        ensures memory { memory_of self.new ≡ memory_of self.old }
    {
        let number = self.len();
        if number >= STRAND_LIMIT {
            return Err(Refusal::OverLimit);
        }
        self.strands.push_reserved(ArrayVec::new());
        Ok(number as u16)
    }

    // Adds an event to a strand. Its index is how many the strand had. (The look-up is taken by `let .. else` into row 4: a
    // rule of the project.)
    #[tactic(auto, using(crate::proofs::Rows::added))]
    pub fn add(&mut self, strand: u16, event: Event) -> Result<u16, Refusal>
        ensures added { Added (strands_of self.old) strand event result (strands_of self.new) }
        ensures memory { memory_of self.new ≡ memory_of self.old }
    {
        let Some(events) = self.strands.get_mut(usize::from(strand)) else {
            return Err(Refusal::NotThere);
        };
        let index = events.len();
        events.try_push(event).map_err(|_| Refusal::OverLimit)?;
        Ok(index as u16)
    }
}
