// Small inputs, read to their end.
use super::{Reader, Record};
use refusal::Refusal;
use std::test::Fail;

// A record of kind 3 with the fields 1 and 515, and one of kind 256 with no body.
const TWO: [u8; 12] = [4, 0, 3, 0, 1, 0, 3, 2, 0, 0, 0, 1];

#[test]
fn a_head_cut_short_is_truncated(rt: HostRuntime) -> Result<(), Fail> {
    let mut reader = Reader::new(&[8, 0, 3]);
    match reader.next() {
        Err(refusal) => assert_eq!(rt; refusal, Refusal::Truncated),
        Ok(_) => return Err(Fail::new("a record of three bytes")),
    }
    assert_eq!(rt; reader.place(), 0);
    Ok(())
}

#[test]
fn two_records_then_the_end(rt: HostRuntime) -> Result<(), Fail> {
    let mut reader = Reader::new(&TWO);
    let first = reader.next()?.ok_or("no first record")?;
    assert!(rt; first.place == 0 && first.kind == 3);
    assert_eq!(rt; first.body, &[1, 0, 3, 2][..]);
    let second = reader.next()?.ok_or("no second record")?;
    assert!(rt; second.place == 8 && second.kind == 256);
    assert!(rt; second.body.is_empty());
    assert!(rt; reader.next()?.is_none());
    assert_eq!(rt; reader.place(), 12);
    Ok(())
}

#[test]
fn a_body_as_fields(rt: HostRuntime) -> Result<(), Fail> {
    let record = Record {
        place: 0,
        kind: 3,
        body: &[1, 0, 3, 2],
    };
    let [x, y] = record.fields::<2>().ok_or("not two fields")?;
    assert_eq!(rt; x, 1);
    assert_eq!(rt; y, 515);
    assert!(rt; record.fields::<3>().is_none());
    Ok(())
}
