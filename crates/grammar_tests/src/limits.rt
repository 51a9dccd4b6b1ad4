//! The limits of levels and of operators in a chain: each opener and each chain at its bound, and one past it.
use crate::sources::is_answered;
use std::alloc::Global;
use std::process::Abort;
use std::test::Fail;
use text_core::{Code, NoMemory};

/// Sources of one kind: `open` and `close` stand so often around `inside`. `most` is how often they may, and `refused` is where the
/// source with one more is refused.
struct Nest {
    before: &'static [u8],
    open: &'static [u8],
    inside: &'static [u8],
    close: &'static [u8],
    after: &'static [u8],
    most: u32,
    refused: (u32, u32),
}

/// Adds the bytes so often.
fn push_times(text: &mut Vec<u8>, bytes: &[u8], times: u32) -> Result<(), NoMemory> {
    for _ in 0..times {
        for byte in bytes {
            text.push(*byte)?;
        }
    }
    Ok(())
}

impl Nest {
    /// The source with so many levels or operators.
    fn source(&self, alloc: Global, times: u32) -> Result<Vec<u8>, NoMemory> {
        let mut text = Vec::new(alloc);
        push_times(&mut text, self.before, 1)?;
        push_times(&mut text, self.open, times)?;
        push_times(&mut text, self.inside, 1)?;
        push_times(&mut text, self.close, times)?;
        push_times(&mut text, self.after, 1)?;
        Ok(text)
    }

    /// The source with as many as may be is spelled, and with one more it is refused there.
    fn is_bounded(&self, alloc: Global) -> Result<bool, NoMemory> {
        let most = self.source(alloc, self.most)?;
        let more = self.source(alloc, self.most.wrapping_add(1))?;
        let (start, end) = self.refused;
        Ok(
            is_answered(alloc, &most, None)
                && is_answered(alloc, &more, Some((Code::E04, start, end))),
        )
    }
}

/// What opens a level.
const LEVELS: [Nest; 29] = [
    Nest {
        before: b"fn f() { ",
        open: b"(",
        inside: b"1",
        close: b")",
        after: b" }",
        most: 63,
        refused: (72, 73),
    },
    Nest {
        before: b"fn f() ",
        open: b"{",
        inside: b"",
        close: b"}",
        after: b"",
        most: 64,
        refused: (71, 72),
    },
    Nest {
        before: b"fn f() { ",
        open: b"!",
        inside: b"x",
        close: b"",
        after: b" }",
        most: 63,
        refused: (72, 73),
    },
    Nest {
        before: b"fn f() { ",
        open: b"- ",
        inside: b"x",
        close: b"",
        after: b" }",
        most: 63,
        refused: (135, 136),
    },
    Nest {
        before: b"fn f() { ",
        open: b"*",
        inside: b"x",
        close: b"",
        after: b" }",
        most: 63,
        refused: (72, 73),
    },
    Nest {
        before: b"fn f() { ",
        open: b"& ",
        inside: b"x",
        close: b"",
        after: b" }",
        most: 63,
        refused: (135, 136),
    },
    Nest {
        before: b"fn f() { ",
        open: b"&mut ",
        inside: b"x",
        close: b"",
        after: b" }",
        most: 63,
        refused: (324, 325),
    },
    Nest {
        before: b"fn f() { ",
        open: b"x = ",
        inside: b"x",
        close: b"",
        after: b" }",
        most: 63,
        refused: (263, 264),
    },
    Nest {
        before: b"fn f() { ",
        open: b"return ",
        inside: b"x",
        close: b"",
        after: b" }",
        most: 63,
        refused: (457, 458),
    },
    Nest {
        before: b"fn f() { ",
        open: b"|| ",
        inside: b"x",
        close: b"",
        after: b" }",
        most: 63,
        refused: (198, 200),
    },
    Nest {
        before: b"fn f() { ",
        open: b"if a { ",
        inside: b"",
        close: b"} ",
        after: b" }",
        most: 63,
        refused: (450, 452),
    },
    Nest {
        before: b"fn f() { if a {} ",
        open: b"else if a {} ",
        inside: b"",
        close: b"",
        after: b"}",
        most: 62,
        refused: (828, 830),
    },
    Nest {
        before: b"fn f() { ",
        open: b"while a { ",
        inside: b"",
        close: b"} ",
        after: b"}",
        most: 63,
        refused: (639, 644),
    },
    Nest {
        before: b"fn f() { ",
        open: b"loop { ",
        inside: b"",
        close: b"} ",
        after: b"}",
        most: 63,
        refused: (455, 456),
    },
    Nest {
        before: b"fn f() { ",
        open: b"f(",
        inside: b"1",
        close: b")",
        after: b" }",
        most: 63,
        refused: (136, 137),
    },
    Nest {
        before: b"fn f(x: ",
        open: b"& ",
        inside: b"T",
        close: b"",
        after: b") {}",
        most: 63,
        refused: (134, 135),
    },
    Nest {
        before: b"fn f(x: ",
        open: b"(",
        inside: b"T",
        close: b")",
        after: b") {}",
        most: 63,
        refused: (71, 72),
    },
    Nest {
        before: b"fn f(x: ",
        open: b"T<",
        inside: b"T",
        close: b">",
        after: b") {}",
        most: 63,
        refused: (135, 136),
    },
    Nest {
        before: b"fn f() { let ",
        open: b"(",
        inside: b"x",
        close: b")",
        after: b" = y; }",
        most: 63,
        refused: (76, 77),
    },
    Nest {
        before: b"#[ensures(",
        open: b"(",
        inside: b"x",
        close: b")",
        after: b")] fn f() {}",
        most: 62,
        refused: (72, 73),
    },
    Nest {
        before: b"#[ensures(",
        open: b"!",
        inside: b"x",
        close: b"",
        after: b")] fn f() {}",
        most: 62,
        refused: (72, 73),
    },
    Nest {
        before: b"#[ensures(",
        open: b"- ",
        inside: b"x",
        close: b"",
        after: b")] fn f() {}",
        most: 62,
        refused: (134, 135),
    },
    Nest {
        before: b"#[ensures(",
        open: b"*",
        inside: b"x",
        close: b"",
        after: b")] fn f() {}",
        most: 62,
        refused: (72, 73),
    },
    Nest {
        before: b"#[ensures(",
        open: b"^",
        inside: b"x",
        close: b"",
        after: b")] fn f() {}",
        most: 62,
        refused: (72, 73),
    },
    Nest {
        before: b"#[ensures(",
        open: b"x ==> ",
        inside: b"x",
        close: b"",
        after: b")] fn f() {}",
        most: 62,
        refused: (384, 387),
    },
    Nest {
        before: b"#[ensures(",
        open: b"forall<x: T> ",
        inside: b"x",
        close: b"",
        after: b")] fn f() {}",
        most: 62,
        refused: (827, 828),
    },
    Nest {
        before: b"#[ensures(",
        open: b"f(",
        inside: b"x",
        close: b")",
        after: b")] fn f() {}",
        most: 62,
        refused: (135, 136),
    },
    Nest {
        before: b"#[ensures(",
        open: b"match x { y => ",
        inside: b"x",
        close: b"}",
        after: b")] fn f() {}",
        most: 62,
        refused: (940, 945),
    },
    Nest {
        before: b"#[allow(",
        open: b"(",
        inside: b"x",
        close: b")",
        after: b")] fn f() {}",
        most: 62,
        refused: (70, 71),
    },
];

/// The chains of operators.
const CHAINS: [Nest; 15] = [
    Nest {
        before: b"fn f() { 1",
        open: b"+1",
        inside: b"",
        close: b"",
        after: b" }",
        most: 256,
        refused: (522, 523),
    },
    Nest {
        before: b"fn f() { 1",
        open: b"*1",
        inside: b"",
        close: b"",
        after: b" }",
        most: 256,
        refused: (522, 523),
    },
    Nest {
        before: b"fn f() { a",
        open: b"||a",
        inside: b"",
        close: b"",
        after: b" }",
        most: 256,
        refused: (778, 780),
    },
    Nest {
        before: b"fn f() { a",
        open: b"&&a",
        inside: b"",
        close: b"",
        after: b" }",
        most: 256,
        refused: (778, 780),
    },
    Nest {
        before: b"fn f() { a",
        open: b" as T",
        inside: b"",
        close: b"",
        after: b" }",
        most: 256,
        refused: (1291, 1293),
    },
    Nest {
        before: b"fn f() { a",
        open: b"+=a",
        inside: b"",
        close: b"",
        after: b" }",
        most: 256,
        refused: (778, 780),
    },
    Nest {
        before: b"fn f() { a",
        open: b".b",
        inside: b"",
        close: b"",
        after: b" }",
        most: 256,
        refused: (522, 523),
    },
    Nest {
        before: b"fn f() { a",
        open: b"()",
        inside: b"",
        close: b"",
        after: b" }",
        most: 256,
        refused: (522, 523),
    },
    Nest {
        before: b"fn f() { a",
        open: b".b()",
        inside: b"",
        close: b"",
        after: b" }",
        most: 256,
        refused: (1034, 1035),
    },
    Nest {
        before: b"#[ensures(1",
        open: b"+1",
        inside: b"",
        close: b"",
        after: b")] fn f() {}",
        most: 256,
        refused: (523, 524),
    },
    Nest {
        before: b"#[ensures(1",
        open: b"*1",
        inside: b"",
        close: b"",
        after: b")] fn f() {}",
        most: 256,
        refused: (523, 524),
    },
    Nest {
        before: b"#[ensures(a",
        open: b"||a",
        inside: b"",
        close: b"",
        after: b")] fn f() {}",
        most: 256,
        refused: (779, 781),
    },
    Nest {
        before: b"#[ensures(a",
        open: b"&&a",
        inside: b"",
        close: b"",
        after: b")] fn f() {}",
        most: 256,
        refused: (779, 781),
    },
    Nest {
        before: b"#[ensures(a",
        open: b"@",
        inside: b"",
        close: b"",
        after: b")] fn f() {}",
        most: 256,
        refused: (267, 268),
    },
    Nest {
        before: b"#[ensures(a",
        open: b".b",
        inside: b"",
        close: b"",
        after: b")] fn f() {}",
        most: 256,
        refused: (523, 524),
    },
];

#[test]
fn at_most_64_levels_are_open(rt: HostRuntime) -> Result<(), Fail> {
    for nest in &LEVELS {
        let is_bounded = nest.is_bounded(rt.alloc())?;
        assert!(rt; is_bounded);
    }
    Ok(())
}

#[test]
fn chains_have_at_most_256_operators(rt: HostRuntime) -> Result<(), Fail> {
    for nest in &CHAINS {
        let is_bounded = nest.is_bounded(rt.alloc())?;
        assert!(rt; is_bounded);
    }
    Ok(())
}
