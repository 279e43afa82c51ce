// The calls of a book. Each answers what is defined for what stands and its arguments, changes just what is defined, and
// takes no memory; a refused call changes nothing. Forms, signs, ways and kinds come as numbers, each beside the others: a
// rule of the project, since a call with a number that is not listed is one too, and is refused by its row. By another such
// rule a `let .. else` gives row 4 where a look-up (or `arrow_named`, which is two) finds nothing.
ghost use Rattle.book.specs.Calls.{Add, Assume, Draw, Enter, Open, Release, Strike};
ghost use Rattle.book.specs.Held.{Answered};

use crate::book::Book;
use refusal::Refusal;
use strand::strand::Node;

impl Book {
    // The number of the message that the form and its operands name, which is put at the end if it is new.
    #[tactic(auto, using(crate::proofs::Entered::entering))]
    pub fn enter(&mut self, form: u16, x: u16, y: u16) -> Result<u16, Refusal>
        ensures { Answered self.old (Enter form x y) result self.new }
    {
        self.messages.enter(form, x, y)
    }

    // Opens a strand without events, and answers its number.
    #[tactic(auto, using(crate::proofs::Opened::opening))]
    pub fn open(&mut self) -> Result<u16, Refusal>
        ensures { Answered self.old Open result self.new }
    {
        self.strands.open()
    }

    // Puts an event behind the others of its strand, and answers its index. Sign 1 transmits and sign 0 receives; way 0 is
    // plain, and ways 1 to 64 are channels.
    #[tactic(auto, using(crate::proofs::Added::adding))]
    pub fn add(&mut self, strand: u16, sign: u16, way: u16, message: u16) -> Result<u16, Refusal>
        ensures { Answered self.old (Add strand sign way message) result self.new }
    {
        let event = self.event_named(sign, way, message)?;
        self.strands.add(strand, event)
    }

    // Puts an arrow behind the others, and answers its position.
    #[tactic(auto, using(crate::proofs::Drawn::drawing))]
    pub fn draw(&mut self, from: Node, to: Node) -> Result<u16, Refusal>
        ensures { Answered self.old (Draw from to) result self.new }
    {
        let Some(arrow) = self.arrow_named(from, to) else {
            return Err(Refusal::NotThere);
        };
        Ok(self.arrows.append(arrow)? as u16)
    }

    // Takes an arrow out, and answers the position that it had. Those behind it move up.
    #[tactic(auto, using(crate::proofs::Drawn::striking))]
    pub fn strike(&mut self, from: Node, to: Node) -> Result<u16, Refusal>
        ensures { Answered self.old (Strike from to) result self.new }
    {
        let Some(sought) = self.arrow_named(from, to) else {
            return Err(Refusal::NotThere);
        };
        Ok(self.arrows.remove(&sought)? as u16)
    }

    // Puts an assumption behind the others, and answers its position. Kind 1 is that a basic value originates nowhere, and
    // kind 2 that it originates at its origin and on no other strand; kinds 3 and 4 are that a channel, the value, is
    // authenticated or confidential. In kinds 1, 3 and 4 the origin is (0, 0).
    #[tactic(auto, using(crate::proofs::Assumed::assuming))]
    pub fn assume(&mut self, kind: u16, value: u16, origin: Node) -> Result<u16, Refusal>
        ensures { Answered self.old (Assume kind value origin) result self.new }
    {
        let assumption = self.assumption_named(kind, value, origin)?;
        Ok(self.assumptions.append(assumption)? as u16)
    }

    // Takes an assumption out, and answers the position that it had. Those behind it move up.
    #[tactic(auto, using(crate::proofs::Assumed::releasing))]
    pub fn release(&mut self, kind: u16, value: u16, origin: Node) -> Result<u16, Refusal>
        ensures { Answered self.old (Release kind value origin) result self.new }
    {
        let sought = self.assumption_named(kind, value, origin)?;
        Ok(self.assumptions.remove(&sought)? as u16)
    }
}
