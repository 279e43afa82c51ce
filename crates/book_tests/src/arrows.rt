// Arrows drawn and struck.
use crate::start::{PLAIN, RECEIVES, book_of};
use bundle::arrow::Arrow;
use refusal::Refusal;
use std::test::Fail;

#[test]
fn one_arrow_twice_stands_already(rt: HostRuntime) -> Result<(), Fail> {
    let mut book = book_of(rt.alloc(), 2)?;
    assert_eq!(rt; book.draw((0, 0), (1, 0))?, 0);
    assert_eq!(rt; book.draw((0, 0), (1, 0)), Err(Refusal::StandsAlready));
    assert_eq!(rt; book.arrows().len(), 1);
    Ok(())
}

#[test]
fn an_arrow_turned_round_is_another(rt: HostRuntime) -> Result<(), Fail> {
    let mut book = book_of(rt.alloc(), 2)?;
    assert_eq!(rt; book.draw((0, 0), (1, 0))?, 0);
    assert_eq!(rt; book.strike((1, 0), (0, 0)), Err(Refusal::DoesNotStand));
    assert_eq!(rt; book.draw((1, 0), (0, 0))?, 1);
    Ok(())
}

#[test]
fn an_arrow_between_unjoined_nodes_does_not_stand(rt: HostRuntime) -> Result<(), Fail> {
    let mut book = book_of(rt.alloc(), 3)?;
    assert_eq!(rt; book.draw((0, 0), (1, 0))?, 0);
    assert_eq!(rt; book.strike((0, 0), (2, 0)), Err(Refusal::DoesNotStand));
    assert_eq!(rt; book.strike((0, 0), (1, 1)), Err(Refusal::NotThere));
    assert_eq!(rt; book.arrows().len(), 1);
    Ok(())
}

#[test]
fn arrows_behind_a_struck_one_move_up(rt: HostRuntime) -> Result<(), Fail> {
    let mut book = book_of(rt.alloc(), 3)?;
    assert_eq!(rt; book.draw((0, 0), (1, 0))?, 0);
    assert_eq!(rt; book.draw((0, 0), (2, 0))?, 1);
    assert_eq!(rt; book.draw((1, 0), (2, 0))?, 2);
    assert_eq!(rt; book.strike((0, 0), (2, 0))?, 1);
    let first = Arrow {
        from: (0, 0),
        to: (1, 0),
    };
    let last = Arrow {
        from: (1, 0),
        to: (2, 0),
    };
    assert_eq!(rt; book.arrows(), &[first, last][..]);
    assert_eq!(rt; book.strike((1, 0), (2, 0))?, 1);
    assert_eq!(rt; book.strike((0, 0), (1, 0))?, 0);
    assert_eq!(rt; book.draw((0, 0), (2, 0))?, 0);
    Ok(())
}

// Both nodes have the code 16.
#[test]
fn index_16_of_strand_0_is_not_index_0_of_strand_1(rt: HostRuntime) -> Result<(), Fail> {
    let mut book = book_of(rt.alloc(), 2)?;
    for index in 1..16 {
        assert_eq!(rt; book.add(0, RECEIVES, PLAIN, 0)?, index);
    }
    assert_eq!(rt; book.draw((0, 16), (0, 0)), Err(Refusal::NotThere));
    assert_eq!(rt; book.draw((0, 0), (0, 16)), Err(Refusal::NotThere));
    assert_eq!(rt; book.draw((1, 0), (0, 15))?, 0);
    Ok(())
}
