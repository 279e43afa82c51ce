// The numbers of a record, in its head and in its fields.
ghost use Rattle.std.specs.Prelude.{◌≡◌};
ghost use Rattle.record.specs.Frame.{two_bytes};

// The number of two bytes, the low one first: `u16::from_le_bytes` in the word that the proofs of both readers cite.
pub(crate) fn number(bytes: [u8; 2]) -> u16
    ensures { two_bytes result ≡ bytes }
{
    u16::from_le_bytes(bytes)
}
