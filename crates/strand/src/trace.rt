// The trace of a strand as it is lent: its events over the table that their numbers are of.
ghost use Rattle.std.specs.Prelude.{◌≤◌, length};
ghost use Rattle.message.specs.Table.{messages_of};
ghost use Rattle.strand.specs.Node.{event_limit};
ghost use Rattle.strand.specs.Trace.{Within};

use crate::event::Event;
use message::table::Messages;

#[derive(Clone, Copy)]
pub struct Trace<'a> {
    pub messages: &'a Messages,
    pub events: &'a [Event],
    // Each event's message is in the table.
    ghost within: { Within (messages_of messages.now) events.now },
    // No more of them than a strand has.
    ghost short: { length events.now ≤ event_limit },
}
