// The calls in words, where their numbers are listed and the fields that they do not use are 0; else by the numbers.
use crate::claim::Supposition;
use crate::naming::{Ends, OnWay};
use bundle::arrow::Arrow;
use handin::call::Call;
use spelling::entering::Entering;
use std::fmt;
use std::fmt::Display;
use strand::event::Sign;

#[derive(Clone, Copy)]
pub struct InWords(pub Call);

impl fmt::Display for InWords {
    fn fmt<W: fmt::Write>(&self, f: &mut fmt::Formatter<W>) -> fmt::Result {
        match self.0 {
            Call::Enter { form, x, y } => Entering { form, x, y }.fmt(f),
            Call::Open => f.write_str("open a strand"),
            Call::Add {
                strand,
                sign,
                way,
                message,
            } => {
                let event = GivenEvent { sign, way, message };
                write!(f, "add to strand {strand}: {event}")
            }
            Call::Draw { from, to } => {
                let ends = Ends(Arrow { from, to });
                write!(f, "draw an arrow {ends}")
            }
            Call::Assume {
                kind,
                value,
                origin,
            } => {
                let supposition = Supposition {
                    kind,
                    value,
                    origin,
                };
                match supposition.claim() {
                    Some(claim) => write!(f, "assume that {claim}"),
                    None => write!(f, "assume {supposition}"),
                }
            }
            Call::Strike { from, to } => {
                let ends = Ends(Arrow { from, to });
                write!(f, "strike the arrow {ends}")
            }
            Call::Release {
                kind,
                value,
                origin,
            } => {
                let supposition = Supposition {
                    kind,
                    value,
                    origin,
                };
                match supposition.claim() {
                    Some(claim) => write!(f, "release the assumption that {claim}"),
                    None => write!(f, "release {supposition}"),
                }
            }
        }
    }
}

// An event as a call gives it. (Numbers: a call with one that is not listed is printed too.)
#[derive(Clone, Copy)]
pub struct GivenEvent {
    pub sign: u16,
    pub way: u16,
    pub message: u16,
}

impl fmt::Display for GivenEvent {
    fn fmt<W: fmt::Write>(&self, f: &mut fmt::Formatter<W>) -> fmt::Result {
        let GivenEvent { sign, way, message } = *self;
        let on = OnWay(way);
        match Sign::try_from(sign) {
            Ok(Sign::Receives) => write!(f, "receive message {message}{on}"),
            Ok(Sign::Transmits) => write!(f, "transmit message {message}{on}"),
            Err(_) => write!(f, "sign {sign}, way {way}, message {message}"),
        }
    }
}
