// The call that records stand for: the one that this program knows enters a message.
ghost use Rattle.notes.specs.Calls.{StandsFor};
ghost use Rattle.record.specs.Frame.{framed};

use record::Record;
use refusal::Refusal;
use spelling::entering::Entering;

// The kind of a record that enters a message.
const ENTER: u16 = 1;

// The call of a record. Another kind, or another number of fields than the call's, is no call.
pub(crate) fn read(record: &Record<'_>) -> Result<Entering, Refusal>
    ensures { StandsFor (framed «record».now) result }
{
    if record.kind != ENTER {
        return Err(Refusal::NotARecord);
    }
    let [form, x, y] = record.fields::<3>().ok_or(Refusal::NotARecord)?;
    Ok(Entering { form, x, y })
}
