// What the arguments of the calls name, or the row by which they are refused. Arguments come as numbers, each beside the
// others, as the public calls take them, and a `let .. else` gives row 4 where a look-up finds nothing: rules of the
// project.
ghost use Rattle.std.specs.Prelude.{◌≡◌, ◌≢◌, ◌⊎◌, MatchResult};
ghost use Rattle.refusal.specs.Rows.{row};
ghost use Rattle.message.specs.Table.{messages_of};
ghost use Rattle.strand.specs.Strands.{strands_of};
ghost use Rattle.assumption.specs.Assumption.{kind_number};
ghost use Rattle.book.specs.Names.{ArrowNamed, AssumptionNamed, ChannelNamed, EventNamed, ValueNamed};

use crate::book::Book;
use assumption::assumption::{Assumption, Kind};
use bundle::arrow::Arrow;
use refusal::Refusal;
use strand::event::{Event, Sign, Way};
use strand::numbers::channel;
use strand::strand::Node;

impl Book {
    // The event with this sign and way, and the message with this number.
    pub(crate) fn event_named(&self, sign: u16, way: u16, message: u16) -> Result<Event, Refusal>
        ensures { EventNamed (messages_of self.now.messages) sign way message result }
    {
        let sign = Sign::try_from(sign)?;
        let Some(way) = Way::listed(way) else {
            return Err(Refusal::NotThere);
        };
        let Some(_) = self.messages.get(message) else {
            return Err(Refusal::NotThere);
        };
        Ok(Event { sign, way, message })
    }

    // The arrow between two nodes, if both are there.
    pub(crate) fn arrow_named(&self, from: Node, to: Node) -> Option<Arrow>
        ensures { ArrowNamed (strands_of self.now.strands) from to result }
    {
        self.strands.event(from)?;
        self.strands.event(to)?;
        Some(Arrow { from, to })
    }

    // The number, if it is that of a message that is a basic value.
    fn basic_value(&self, value: u16) -> Result<u16, Refusal>
        ensures { ValueNamed (messages_of self.now.messages) value result }
    {
        let Some(stored) = self.messages.get(value) else {
            return Err(Refusal::NotThere);
        };
        stored.sort().ok_or(Refusal::WrongSort)?;
        Ok(value)
    }
}

#[tactic(auto, unfolding(crate::specs::Names::arguments_reply))]
impl Book {
    // The assumption of this kind. (The kinds are a closed enum; a closure for each would only name them again.)
    pub(crate) fn assumption_named(
        &self,
        kind: u16,
        value: u16,
        origin: Node,
    ) -> Result<Assumption, Refusal>
        ensures { AssumptionNamed (messages_of self.now.messages) (strands_of self.now.strands) kind value origin result }
    {
        match Kind::try_from(kind)? {
            Kind::NonOriginating => self.non_originating(value, origin),
            Kind::UniquelyOriginating => self.uniquely_originating(value, origin),
            Kind::Authenticated => channel_named(value, origin).map(Assumption::Authenticated),
            Kind::Confidential => channel_named(value, origin).map(Assumption::Confidential),
        }
    }

    // The assumption that a basic value originates nowhere.
    fn non_originating(&self, value: u16, origin: Node) -> Result<Assumption, Refusal>
        ensures { AssumptionNamed (messages_of self.now.messages) (strands_of self.now.strands) (kind_number Kind.NonOriginating) value origin result }
    {
        no_origin(origin)?;
        let value = self.basic_value(value)?;
        Ok(Assumption::NonOriginating(value))
    }

    // The assumption that a basic value originates at its origin and on no other strand.
    fn uniquely_originating(&self, value: u16, origin: Node) -> Result<Assumption, Refusal>
        ensures { AssumptionNamed (messages_of self.now.messages) (strands_of self.now.strands) (kind_number Kind.UniquelyOriginating) value origin result }
    {
        let Some(_) = self.strands.event(origin) else {
            return Err(Refusal::NotThere);
        };
        let value = self.basic_value(value)?;
        Ok(Assumption::UniquelyOriginating(value, origin))
    }
}

// The channel with this number; no origin is named.
fn channel_named(value: u16, origin: Node) -> Result<u16, Refusal>
    ensures { ChannelNamed value origin result }
{
    no_origin(origin)?;
    let Some(channel) = channel(value) else {
        return Err(Refusal::NotThere);
    };
    Ok(channel)
}

// Where no origin is named, it is given as (0, 0).
fn no_origin(origin: Node) -> Result<(), Refusal>
    ensures { MatchResult result (λ _. (origin.0 ≡ 0) × (origin.1 ≡ 0)) (λ q. (row q ≡ 3) × ((origin.0 ≢ 0) ⊎ (origin.1 ≢ 0))) }
{
    if origin != (0, 0) {
        return Err(Refusal::NotListed);
    }
    Ok(())
}
