// Assumptions made and released.
use crate::start::{
    ASYMMETRIC_KEY, AUTHENTICATED, CONFIDENTIAL, DATUM, INVERSE, NON_ORIGINATING,
    UNIQUELY_ORIGINATING, book_of,
};
use assumption::assumption::Assumption;
use refusal::Refusal;
use std::test::Fail;

#[test]
fn what_no_strand_originates_is_a_basic_value(rt: HostRuntime) -> Result<(), Fail> {
    let mut book = book_of(rt.alloc(), 1)?;
    assert_eq!(rt;
        book.assume(NON_ORIGINATING, 1, (0, 0)),
        Err(Refusal::WrongSort)
    );
    assert_eq!(rt;
        book.assume(NON_ORIGINATING, 2, (0, 0)),
        Err(Refusal::NotThere)
    );
    assert_eq!(rt; book.assume(NON_ORIGINATING, 0, (0, 0))?, 0);
    Ok(())
}

#[test]
fn an_origin_is_named_in_kind_2_alone(rt: HostRuntime) -> Result<(), Fail> {
    let mut book = book_of(rt.alloc(), 1)?;
    assert_eq!(rt;
        book.assume(NON_ORIGINATING, 2, (0, 1)),
        Err(Refusal::NotListed)
    );
    assert_eq!(rt;
        book.assume(NON_ORIGINATING, 2, (1, 0)),
        Err(Refusal::NotListed)
    );
    assert_eq!(rt;
        book.assume(AUTHENTICATED, 65, (1, 0)),
        Err(Refusal::NotListed)
    );
    assert_eq!(rt;
        book.assume(CONFIDENTIAL, 65, (0, 1)),
        Err(Refusal::NotListed)
    );
    assert_eq!(rt; book.assume(0, 0, (0, 0)), Err(Refusal::NotListed));
    assert_eq!(rt; book.assume(5, 0, (0, 0)), Err(Refusal::NotListed));
    Ok(())
}

#[test]
fn a_missing_origin_comes_before_a_wrong_sort(rt: HostRuntime) -> Result<(), Fail> {
    let mut book = book_of(rt.alloc(), 1)?;
    assert_eq!(rt;
        book.assume(UNIQUELY_ORIGINATING, 1, (0, 1)),
        Err(Refusal::NotThere)
    );
    assert_eq!(rt;
        book.assume(UNIQUELY_ORIGINATING, 1, (0, 0)),
        Err(Refusal::WrongSort)
    );
    assert_eq!(rt; book.assume(UNIQUELY_ORIGINATING, 0, (0, 0))?, 0);
    Ok(())
}

#[test]
fn channels_are_1_to_64(rt: HostRuntime) -> Result<(), Fail> {
    let mut book = book_of(rt.alloc(), 0)?;
    assert_eq!(rt;
        book.assume(AUTHENTICATED, 0, (0, 0)),
        Err(Refusal::NotThere)
    );
    assert_eq!(rt;
        book.assume(AUTHENTICATED, 65, (0, 0)),
        Err(Refusal::NotThere)
    );
    assert_eq!(rt; book.assume(AUTHENTICATED, 64, (0, 0))?, 0);
    assert_eq!(rt; book.assume(CONFIDENTIAL, 64, (0, 0))?, 1);
    assert_eq!(rt;
        book.assumptions(),
        &[Assumption::Authenticated(64), Assumption::Confidential(64)][..]
    );
    Ok(())
}

#[test]
fn the_inverse_of_a_key_may_be_assumed(rt: HostRuntime) -> Result<(), Fail> {
    let mut book = book_of(rt.alloc(), 0)?;
    let key = book.enter(ASYMMETRIC_KEY, 0, 0)?;
    let inverse = book.enter(INVERSE, key, 0)?;
    assert_eq!(rt; book.assume(NON_ORIGINATING, inverse, (0, 0))?, 0);
    assert_eq!(rt; book.assume(NON_ORIGINATING, key, (0, 0))?, 1);
    Ok(())
}

#[test]
fn equal_messages_entered_twice_are_assumed_once(rt: HostRuntime) -> Result<(), Fail> {
    let mut book = book_of(rt.alloc(), 1)?;
    let once = book.enter(DATUM, 9, 0)?;
    assert_eq!(rt; book.assume(UNIQUELY_ORIGINATING, once, (0, 0))?, 0);
    let again = book.enter(DATUM, 9, 0)?;
    assert_eq!(rt;
        book.assume(UNIQUELY_ORIGINATING, again, (0, 0)),
        Err(Refusal::StandsAlready)
    );
    assert_eq!(rt; book.assumptions().len(), 1);
    Ok(())
}

#[test]
fn one_value_at_two_origins_is_two_assumptions(rt: HostRuntime) -> Result<(), Fail> {
    let mut book = book_of(rt.alloc(), 2)?;
    assert_eq!(rt; book.assume(UNIQUELY_ORIGINATING, 0, (0, 0))?, 0);
    assert_eq!(rt;
        book.release(UNIQUELY_ORIGINATING, 0, (1, 0)),
        Err(Refusal::DoesNotStand)
    );
    assert_eq!(rt; book.assume(UNIQUELY_ORIGINATING, 0, (1, 0))?, 1);
    assert_eq!(rt; book.release(UNIQUELY_ORIGINATING, 0, (1, 0))?, 1);
    assert_eq!(rt;
        book.assumptions(),
        &[Assumption::UniquelyOriginating(0, (0, 0))][..]
    );
    Ok(())
}

#[test]
fn what_was_released_does_not_stand(rt: HostRuntime) -> Result<(), Fail> {
    let mut book = book_of(rt.alloc(), 0)?;
    assert_eq!(rt; book.assume(CONFIDENTIAL, 3, (0, 0))?, 0);
    assert_eq!(rt; book.release(CONFIDENTIAL, 3, (0, 0))?, 0);
    assert_eq!(rt;
        book.release(CONFIDENTIAL, 3, (0, 0)),
        Err(Refusal::DoesNotStand)
    );
    assert_eq!(rt; book.assumptions().len(), 0);
    Ok(())
}

#[test]
fn assumptions_behind_a_released_one_move_up(rt: HostRuntime) -> Result<(), Fail> {
    let mut book = book_of(rt.alloc(), 1)?;
    assert_eq!(rt; book.assume(AUTHENTICATED, 1, (0, 0))?, 0);
    assert_eq!(rt; book.assume(NON_ORIGINATING, 0, (0, 0))?, 1);
    assert_eq!(rt; book.assume(CONFIDENTIAL, 1, (0, 0))?, 2);
    assert_eq!(rt; book.release(NON_ORIGINATING, 0, (0, 0))?, 1);
    assert_eq!(rt;
        book.assumptions(),
        &[Assumption::Authenticated(1), Assumption::Confidential(1)][..]
    );
    assert_eq!(rt; book.assume(NON_ORIGINATING, 0, (0, 0))?, 2);
    assert_eq!(rt; book.release(CONFIDENTIAL, 1, (0, 0))?, 1);
    assert_eq!(rt; book.release(AUTHENTICATED, 1, (0, 0))?, 0);
    Ok(())
}
