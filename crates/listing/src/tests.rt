// Listings of at most three numbers.
ghost use Rattle.std.specs.Prelude.{nat_eq};

use super::{Listing, Same};
use refusal::Refusal;
use std::test::Fail;

impl Same for u16 {
    ghost same = { nat_eq };

    fn is_same(&self, other: &u16) -> bool {
        *self == *other
    }
}

#[test]
fn entries_keep_their_order(rt: HostRuntime) -> Result<(), Fail> {
    let mut listing = Listing::<u16, 3>::new(rt.alloc())?;
    assert_eq!(rt; listing.len(), 0);
    assert_eq!(rt; listing.append(7)?, 0);
    assert_eq!(rt; listing.append(5)?, 1);
    assert_eq!(rt; listing.append(6)?, 2);
    assert_eq!(rt; listing.as_slice(), &[7, 5, 6][..]);
    Ok(())
}

#[test]
fn one_entry_twice_is_refused(rt: HostRuntime) -> Result<(), Fail> {
    let mut listing = Listing::<u16, 3>::new(rt.alloc())?;
    assert_eq!(rt; listing.append(7)?, 0);
    assert_eq!(rt; listing.append(7), Err(Refusal::StandsAlready));
    assert_eq!(rt; listing.as_slice(), &[7][..]);
    Ok(())
}

#[test]
fn places_after_a_removal_in_the_middle(rt: HostRuntime) -> Result<(), Fail> {
    let mut listing = Listing::<u16, 3>::new(rt.alloc())?;
    listing.append(7)?;
    listing.append(5)?;
    listing.append(6)?;
    assert_eq!(rt; listing.remove(&5)?, 1);
    assert_eq!(rt; listing.remove(&5), Err(Refusal::DoesNotStand));
    assert_eq!(rt; listing.place(&7), Some(0));
    assert_eq!(rt; listing.place(&5), None);
    assert_eq!(rt; listing.place(&6), Some(1));
    assert_eq!(rt; listing.append(5)?, 2);
    Ok(())
}

#[test]
fn a_fourth_of_three_is_over_the_limit(rt: HostRuntime) -> Result<(), Fail> {
    let mut listing = Listing::<u16, 3>::new(rt.alloc())?;
    listing.append(7)?;
    listing.append(5)?;
    listing.append(6)?;
    assert_eq!(rt; listing.append(8), Err(Refusal::OverLimit));
    assert_eq!(rt; listing.append(6), Err(Refusal::StandsAlready));
    assert_eq!(rt; listing.len(), 3);
    Ok(())
}
