// Events: what a strand does at each of its nodes.

// Whether the strand sends the message or gets it.
#[derive(Clone, Copy, PartialEq, Eq, Debug, Default)]
pub enum Sign {
    #[default]
    Receives = 0,
    Transmits = 1,
}

// How the message is sent: plainly, or on the channel with this number. An enum of its own by a rule of the project.
#[derive(Clone, Copy, PartialEq, Eq, Debug, Default)]
pub enum Way {
    #[default]
    Plain,
    Channel(u16),
}

// One event. A book holds the message by its number in the table; in a trace it is the message itself.
// The default stands in the places of a strand that have no event yet.
#[derive(Clone, Copy, PartialEq, Eq, Debug, Default)]
pub struct Event<M = u16> {
    pub sign: Sign,
    pub way: Way,
    pub message: M,
}
