// Examples of the table of messages, run. The crate is apart from `message` so that its checks stay short.
#![tactic(auto)]

#[cfg(test)]
mod tests {
    use message::stored::Sort;
    use message::table::{MESSAGE_LIMIT, Messages};
    use refusal::Refusal;
    use std::test::Fail;

    const ASYMMETRIC_KEY: u16 = 1;

    const SYMMETRIC_KEY: u16 = 2;

    const DATUM: u16 = 3;

    const TAG: u16 = 4;

    const INVERSE: u16 = 5;

    const PAIR: u16 = 6;

    const SYMMETRIC_ENCRYPTION: u16 = 8;

    #[test]
    fn the_inverse_of_an_inverse_is_the_key(rt: HostRuntime) -> Result<(), Fail> {
        let mut messages = Messages::new(rt.alloc())?;
        assert_eq!(rt; messages.enter(ASYMMETRIC_KEY, 0, 0)?, 0);
        assert_eq!(rt; messages.enter(INVERSE, 0, 0)?, 1);
        assert_eq!(rt; messages.enter(INVERSE, 1, 0)?, 0);
        Ok(())
    }

    // Pairs of sizes 1 and 1, 3 and 3, up to 127, and of 1 and 2, 3 and 4, up to 128.
    #[test]
    fn a_size_of_255_enters_and_256_does_not(rt: HostRuntime) -> Result<(), Fail> {
        let mut messages = Messages::new(rt.alloc())?;
        let mut odd = messages.enter(ASYMMETRIC_KEY, 0, 0)?;
        let mut even = messages.enter(INVERSE, odd, 0)?;
        for _ in 0..6 {
            let next = messages.enter(PAIR, odd, odd)?;
            even = messages.enter(PAIR, odd, even)?;
            odd = next;
        }
        assert_eq!(rt; messages.size(odd), Some(127));
        assert_eq!(rt; messages.size(even), Some(128));
        let whole = messages.enter(PAIR, odd, odd)?;
        assert_eq!(rt; messages.size(whole), Some(255));
        assert_eq!(rt; messages.enter(PAIR, odd, even), Err(Refusal::OverLimit));
        Ok(())
    }

    #[test]
    fn refused_arguments(rt: HostRuntime) -> Result<(), Fail> {
        let mut messages = Messages::new(rt.alloc())?;
        let tag = messages.enter(TAG, 7, 0)?;
        assert_eq!(rt; messages.enter(9, 0, 0), Err(Refusal::NotListed));
        assert_eq!(rt; messages.enter(INVERSE, tag, 1), Err(Refusal::NotListed));
        assert_eq!(rt; messages.enter(PAIR, tag, 1), Err(Refusal::NotThere));
        assert_eq!(rt; messages.enter(INVERSE, tag, 0), Err(Refusal::WrongSort));
        assert_eq!(rt;
            messages.enter(SYMMETRIC_ENCRYPTION, tag, tag),
            Err(Refusal::WrongSort)
        );
        assert_eq!(rt; messages.len(), 1);
        Ok(())
    }

    #[test]
    fn a_full_table_still_finds_all(rt: HostRuntime) -> Result<(), Fail> {
        let mut messages = Messages::new(rt.alloc())?;
        for n in 0..MESSAGE_LIMIT as u16 {
            assert_eq!(rt; messages.enter(DATUM, n, 0), Ok(n));
        }
        assert_eq!(rt; messages.enter(TAG, 0, 0), Err(Refusal::OverLimit));
        for n in 0..MESSAGE_LIMIT as u16 {
            assert_eq!(rt; messages.enter(DATUM, n, 0), Ok(n));
        }
        assert_eq!(rt; messages.len(), MESSAGE_LIMIT);
        Ok(())
    }

    #[test]
    fn a_key_is_not_carried_by_what_it_encrypts(rt: HostRuntime) -> Result<(), Fail> {
        let mut messages = Messages::new(rt.alloc())?;
        let nonce = messages.enter(DATUM, 0, 0)?;
        let key = messages.enter(SYMMETRIC_KEY, 0, 0)?;
        let sealed = messages.enter(SYMMETRIC_ENCRYPTION, nonce, key)?;
        assert_eq!(rt; messages.carried(nonce, sealed), Some(true));
        assert_eq!(rt; messages.carried(key, sealed), Some(false));
        assert_eq!(rt; messages.carried(key, 3), None);
        let stored = messages.get(key).ok_or("no key")?;
        assert_eq!(rt; stored.sort(), Some(Sort::Symmetric));
        Ok(())
    }
}
