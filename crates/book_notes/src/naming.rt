// Nodes, arrows and ways by their numbers.
use bundle::arrow::Arrow;
use std::fmt;
use strand::strand::Node;

// A node as (strand, index).
#[derive(Clone, Copy)]
pub struct NamedNode(pub Node);

impl fmt::Display for NamedNode {
    fn fmt<W: fmt::Write>(&self, f: &mut fmt::Formatter<W>) -> fmt::Result {
        let (strand, index) = self.0;
        write!(f, "({strand}, {index})")
    }
}

// From where to where an arrow goes.
#[derive(Clone, Copy)]
pub struct Ends(pub Arrow);

impl fmt::Display for Ends {
    fn fmt<W: fmt::Write>(&self, f: &mut fmt::Formatter<W>) -> fmt::Result {
        let from = NamedNode(self.0.from);
        let to = NamedNode(self.0.to);
        write!(f, "from {from} to {to}")
    }
}

// A way by its number, which in a call need not be listed, behind a message: nothing where it is plain.
#[derive(Clone, Copy)]
pub struct OnWay(pub u16);

impl fmt::Display for OnWay {
    fn fmt<W: fmt::Write>(&self, f: &mut fmt::Formatter<W>) -> fmt::Result {
        match self.0 {
            0 => Ok(()),
            channel => write!(f, " on channel {channel}"),
        }
    }
}
