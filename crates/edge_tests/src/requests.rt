//! What command lines ask for, as the README of `call_words` has it.
use call_words::{Request, Verb, request_of};
use std::alloc::Global;
use std::test::Fail;
use text_core::NoMemory;

/// A verb, a source, and proofs.
type Asked<'a> = (Verb, &'a str, Option<&'a str>);

/// The words ask for this.
fn asks(alloc: Global, words: &[&str], expected: Option<Asked<'_>>) -> Result<bool, NoMemory> {
    let mut owned = Vec::new(alloc);
    for word in words {
        owned.push(String::from_str(alloc, word)?)?;
    }
    Ok(match request_of(alloc, owned.as_slice())? {
        Some(
            Request {
                verb,
                source,
                proofs,
            },
        ) => expected == Some((verb, source, proofs)),
        None => expected.is_none(),
    })
}

const WITH_PROOFS: Asked<'static> = (Verb::Verify, "s", Some("p"));

const REQUESTS: [(&[&str], Asked<'static>); 6] = [
    (&["verify", "s"], (Verb::Verify, "s", None)),
    (&["verify", "s", "--proofs", "p"], WITH_PROOFS),
    (&["verify", "--proofs", "p", "s"], WITH_PROOFS),
    (&["verify", "--proofs=p", "s"], WITH_PROOFS),
    (&["--proofs=p", "verify", "--", "s"], WITH_PROOFS),
    (&["list", "s"], (Verb::List, "s", None)),
];

#[test]
fn words_ask_for_a_request(rt: HostRuntime) -> Result<(), Fail> {
    for (at, (words, asked)) in REQUESTS.iter().enumerate() {
        assert!(rt; asks(rt.alloc(), words, Some(*asked))?, "row {at}");
    }
    Ok(())
}

const OTHERS: [&[&str]; 11] = [
    &[],
    &["verify"],
    &["prove", "s"],
    &["verify", "s", "t"],
    &["list", "s", "--proofs", "p"],
    &["verify", "s", "--json"],
    &["verify", "s", "--steps", "5"],
    &["verify", "s", "--proofs", "p", "--proofs", "q"],
    &["verify", "s", "--proofs"],
    &["verify", "s", "--wrong"],
    &["--help"],
];

#[test]
fn other_words_ask_for_nothing(rt: HostRuntime) -> Result<(), Fail> {
    for (at, words) in OTHERS.iter().enumerate() {
        assert!(rt; asks(rt.alloc(), words, None)?, "row {at}");
    }
    Ok(())
}

#[test]
fn a_word_may_be_too_long(rt: HostRuntime) -> Result<(), Fail> {
    let alloc = rt.alloc();
    let mut long = String::new(alloc);
    for _ in 0..1_048_576 {
        long.push('a')?;
    }
    let asked = (Verb::List, long.as_str(), None);
    assert!(rt; asks(alloc, &["list", long.as_str()], Some(asked))?);
    long.push('a')?;
    assert!(rt; asks(alloc, &["list", long.as_str()], None)?);
    Ok(())
}
