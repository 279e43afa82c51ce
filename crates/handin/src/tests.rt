// Records that are no call's.
use super::call::Call;
use record::Record;
use refusal::Refusal;
use std::test::Fail;

// Checks that a record of this kind and body is no call's.
fn check_no_call(kind: u16, body: &[u8]) -> Result<(), Fail> {
    let record = Record {
        place: 0,
        kind,
        body,
    };
    match Call::read(&record) {
        Ok(_) => Err(Fail::new("a call")),
        Err(Refusal::NotARecord) => Ok(()),
        Err(_) => Err(Fail::new("another refusal")),
    }
}

#[test]
fn other_kinds_are_no_calls() -> Result<(), Fail> {
    check_no_call(0, &[])?;
    check_no_call(8, &[])?;
    check_no_call(257, &[0; 6])
}

#[test]
fn other_lengths_are_no_calls() -> Result<(), Fail> {
    for kind in 1..8 {
        check_no_call(kind, &[0; 2])?;
        check_no_call(kind, &[0; 7])?;
        check_no_call(kind, &[0; 10])?;
    }
    check_no_call(1, &[0; 8])?;
    check_no_call(3, &[0; 6])
}
