// Calls in words.
use super::words::InWords;
use handin::call::Call;
use std::alloc::Global;
use std::test::Fail;

// Checks how a call is printed.
fn check_words(heap: Global, call: Call, words: &str) -> Result<(), Fail> {
    let call = InWords(call);
    let text = format!(in heap; "{call}")?;
    if text.as_str() == words {
        Ok(())
    } else {
        Err(Fail::new("other words"))
    }
}

#[test]
fn what_is_not_listed_is_shown_by_number(rt: HostRuntime) -> Result<(), Fail> {
    let form = Call::Enter {
        form: 9,
        x: 0,
        y: 0,
    };
    check_words(rt.alloc(), form, "enter form 9, x 0, y 0")?;
    let origin = Call::Assume {
        kind: 3,
        value: 1,
        origin: (0, 2),
    };
    check_words(
        rt.alloc(),
        origin,
        "assume kind 3, value 1, strand 0, index 2",
    )?;
    let kind = Call::Release {
        kind: 5,
        value: 1,
        origin: (0, 0),
    };
    check_words(
        rt.alloc(),
        kind,
        "release kind 5, value 1, strand 0, index 0",
    )
}
