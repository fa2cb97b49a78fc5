//! Which command some words are, and words that are none.
use st_words::{Request, request_of};
use std::alloc::{AllocError, Global};
use std::test::Fail;

// The command that the words of a text are, which stand between spaces.
fn request_in(alloc: Global, text: &str) -> Result<Option<Request>, AllocError> {
    let mut words = Vec::new(alloc);
    for word in text.split(' ') {
        words.push(String::from_str(alloc, word)?)?;
    }
    request_of(alloc, words.as_slice())
}

fn is(alloc: Global, text: &str, request: Request) -> Result<bool, AllocError> {
    Ok(request_in(alloc, text)? == Some(request))
}

fn are_none(alloc: Global, texts: &[&str]) -> Result<bool, AllocError> {
    for text in texts {
        if request_in(alloc, text)?.is_some() {
            return Ok(false);
        }
    }
    Ok(true)
}

#[test]
fn reads_each_command(rt: HostRuntime) -> Result<(), Fail> {
    let alloc = rt.alloc();
    assert!(rt; is(alloc, "trace", Request::Trace)?);
    assert!(rt; is(alloc, "replay", Request::Replay)?);
    assert!(rt; is(alloc, "algebra", Request::Algebra)?);
    assert!(rt; is(alloc, "compat", Request::Compat)?);
    let most = Request::Work {
        seed: 18_446_744_073_709_551_615,
        steps: 50_000,
    };
    assert!(rt;
        is(
            alloc,
            "work --seed 18446744073709551615 --steps=50000",
            most
        )?
    );
    let none = Request::Work { seed: 0, steps: 7 };
    assert!(rt; is(alloc, "work --steps 07 --seed=0", none)?);
    Ok(())
}

#[test]
fn other_words_are_no_command(rt: HostRuntime) -> Result<(), Fail> {
    let alloc = rt.alloc();
    assert!(rt; request_of(alloc, &[])?.is_none());
    let texts = [
        "",
        "tracer",
        "trace trace",
        "--help",
        "work",
        "work --seed 1",
        "work --seed 1 --seed 1",
        "work --seed 1 --steps 50001",
        "work --seed 18446744073709551616 --steps 1",
        "work --seed +1 --steps 1",
        "work --seed 1 --steps 1 --",
    ];
    assert!(rt; are_none(alloc, texts.as_slice())?);
    Ok(())
}
