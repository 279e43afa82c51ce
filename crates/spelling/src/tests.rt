// The limit of the input.
use crate::source::{INPUT_LIMIT, input};
use std::test::Fail;

#[test]
fn input_ends_at_the_limit(rt: HostRuntime) -> Result<(), Fail> {
    let long = vec![in rt.alloc(); 0u8; INPUT_LIMIT as usize + 1]?;
    let read = input(rt.alloc(), long.as_slice())?;
    assert_eq!(rt; read.len(), 40_960);
    Ok(())
}

#[test]
fn what_is_behind_the_limit_is_not_read(rt: HostRuntime) -> Result<(), Fail> {
    let long = vec![in rt.alloc(); 0u8; INPUT_LIMIT as usize + 3]?;
    let mut left = long.as_slice();
    let read = input(rt.alloc(), &mut left)?;
    assert_eq!(rt; read.len(), 40_960);
    assert_eq!(rt; left.len(), 3);
    Ok(())
}
