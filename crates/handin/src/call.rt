// The calls that records stand for.
ghost use Rattle.std.specs.Prelude.{◌≡◌, ◌≢◌, [], ◌∷◌, length, MatchOption};
ghost use Rattle.record.specs.Fields.{flat};
ghost use Rattle.record.specs.Frame.{framed};
ghost use Rattle.handin.specs.Calls.{NoCall, Of, StandsFor, kind_number};

use crate::kind::Kind;
use record::Record;
use refusal::Refusal;
use strand::strand::Node;

// A call with its arguments, numbers as the record gives them: one that is not listed is for the book to refuse by its row.
// (They stand in the variants side by side, as the public calls take them: a rule of the project.)
#[derive(Clone, Copy)]
pub enum Call {
    Enter {
        form: u16,
        x: u16,
        y: u16,
    },
    Open,
    Add {
        strand: u16,
        sign: u16,
        way: u16,
        message: u16,
    },
    Draw {
        from: Node,
        to: Node,
    },
    Assume {
        kind: u16,
        value: u16,
        origin: Node,
    },
    Strike {
        from: Node,
        to: Node,
    },
    Release {
        kind: u16,
        value: u16,
        origin: Node,
    },
}

impl Call {
    // The call of a record. A kind that no call has, or another number of fields than the call's, is no call.
    pub fn read(record: &Record<'_>) -> Result<Call, Refusal>
        ensures { StandsFor (framed «record».now) result }
    {
        let kind = Kind::try_from(record.kind)?;
        Call::of_kind(kind, record).ok_or(Refusal::NotARecord)
    }

    // The call of a record of this kind.
    fn of_kind(kind: Kind, record: &Record<'_>) -> Option<Call>
        requires { kind_number kind ≡ «record».now.kind }
        ensures { MatchOption result (NoCall (framed «record».now)) (Of (framed «record».now)) }
    {
        match kind {
            Kind::Enter => {
                let [form, x, y] = record.fields::<3>()?;
                Some(Call::Enter { form, x, y })
            }
            Kind::Open => {
                let [] = record.fields::<0>()?;
                Some(Call::Open)
            }
            Kind::Add => {
                let [strand, sign, way, message] = record.fields::<4>()?;
                Some(Call::Add {
                    strand,
                    sign,
                    way,
                    message,
                })
            }
            Kind::Draw => {
                let (from, to) = two_nodes(record)?;
                Some(Call::Draw { from, to })
            }
            Kind::Assume => {
                let [kind, value, strand, index] = record.fields::<4>()?;
                Some(Call::Assume {
                    kind,
                    value,
                    origin: (strand, index),
                })
            }
            Kind::Strike => {
                let (from, to) = two_nodes(record)?;
                Some(Call::Strike { from, to })
            }
            Kind::Release => {
                let [kind, value, strand, index] = record.fields::<4>()?;
                Some(Call::Release {
                    kind,
                    value,
                    origin: (strand, index),
                })
            }
        }
    }
}

// The two nodes of a record that has their four fields.
fn two_nodes(record: &Record<'_>) -> Option<(Node, Node)>
    ensures { MatchOption result (length «record».now.body.now ≢ 8) (λ n. «record».now.body.now ≡ flat (n.0.0 ∷ n.0.1 ∷ n.1.0 ∷ n.1.1 ∷ [])) }
{
    let [strand, index, to_strand, to_index] = record.fields::<4>()?;
    Some(((strand, index), (to_strand, to_index)))
}
