use report_out::{
    FnLine, LeftItem, ListedItem, Reason, Verdict, limit_error, listing, proof_error, report,
    source_error, words_error,
};
use std::alloc::Global;
use std::test::Fail;
use text_core::{Code, Items, Kind, Limit, LimitKind, NoMemory, SourceError, Span, Text};

const SOURCE: &[u8] = b"#[ensures(result@ == x@ + 1)]\nfn inc(x: i32) -> i32 { x + 1 }\n";

/// Whether what was made is this text.
fn is_text(made: Result<Vec<u8>, NoMemory>, wanted: &[u8]) -> Result<bool, NoMemory> {
    let bytes = made?;
    Ok(bytes.as_slice() == wanted)
}

/// A verdict on one function of two obligations.
fn verdict(
    alloc: Global,
    verified: bool,
    left: Items<LeftItem>,
    proved: u32,
) -> Result<Verdict, NoMemory> {
    let name = Text::from_bytes(alloc, b"inc")?;
    let mut functions = Items::new(alloc);
    functions.push(FnLine { name, verified })?;
    Ok(Verdict {
        functions,
        left,
        obligations: 2,
        proved,
    })
}

/// A verdict on `SOURCE` with its sum left for this reason.
fn left_for(alloc: Global, reason: Reason) -> Result<Verdict, NoMemory> {
    let item = LeftItem {
        number: 1,
        kind: Kind::Overflow,
        span: Span { start: 56, end: 57 },
        reason,
        owner: Text::from_bytes(alloc, b"inc")?,
    };
    let mut left = Items::new(alloc);
    left.push(item)?;
    verdict(alloc, false, left, 1)
}

#[test]
fn reports_a_verified_function(rt: HostRuntime) -> Result<(), Fail> {
    let alloc = rt.alloc();
    let made = report(alloc, &verdict(alloc, true, Items::new(alloc), 2)?, SOURCE);
    let wanted = b"verified inc\nsummary functions 1 verified 1 obligations 2 proved 2\n";
    assert!(rt; is_text(made, wanted)?);
    Ok(())
}

const LEFT: [(Reason, &[u8]); 2] = [
    (
        Reason::Missing,
        b"open 1 overflow 56..57 line 2 missing inc\nsummary functions 1 verified 0 obligations 2 proved 1\n",
    ),
    (
        Reason::Proof(6),
        b"open 1 overflow 56..57 line 2 proof:6 inc\nsummary functions 1 verified 0 obligations 2 proved 1\n",
    ),
];

#[test]
fn reports_why_an_obligation_is_left(rt: HostRuntime) -> Result<(), Fail> {
    let alloc = rt.alloc();
    for (reason, wanted) in LEFT {
        let made = report(alloc, &left_for(alloc, reason)?, SOURCE);
        assert!(rt; is_text(made, wanted)?);
    }
    Ok(())
}

#[test]
fn refusals_have_lines(rt: HostRuntime) -> Result<(), Fail> {
    let alloc = rt.alloc();
    let error = SourceError {
        code: Code::E17,
        span: Span { start: 8, end: 11 },
        other: Some(Span { start: 2, end: 3 }),
    };
    let source = source_error(alloc, error, b"fn main(x, x) {}\n");
    assert!(rt; is_text(source, b"error E17 8..11 2..3 line 1\n")?);
    assert!(rt; is_text(proof_error(alloc, 6), b"error proof 6\n")?);
    assert!(rt; is_text(words_error(alloc), b"error words\n")?);
    Ok(())
}

#[test]
fn limits_have_lines(rt: HostRuntime) -> Result<(), Fail> {
    let limit = Limit {
        kind: LimitKind::Paths,
        counted: 1025,
        bound: 1024,
    };
    let line = limit_error(rt.alloc(), limit);
    assert!(rt; is_text(line, b"limit paths 1025 1024\n")?);
    Ok(())
}

#[test]
fn lists_an_obligation_with_its_goal(rt: HostRuntime) -> Result<(), Fail> {
    let alloc = rt.alloc();
    let item = ListedItem {
        number: 2,
        kind: Kind::InvKept,
        span: Span { start: 10, end: 27 },
        owner: Text::from_bytes(alloc, b"inc")?,
        goal: Text::from_bytes(alloc, b"(forall<v1: bool> v1)")?,
    };
    let made = listing(alloc, &[item], SOURCE);
    let wanted = b"obligation 2 inv-kept 10..27 line 1 inc\n(forall<v1: bool> v1)\n";
    assert!(rt; is_text(made, wanted)?);
    Ok(())
}
