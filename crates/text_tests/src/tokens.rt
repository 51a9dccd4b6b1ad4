ghost use Rattle.std.specs.Prelude.{◌<◌, ◌^◌, length, IfOk};
ghost use Rattle.rs_tokens.specs.Reading.{AreTokens};

use rs_tokens::{Lexer, Token, TokenKind};
use std::alloc::Global;
use std::test::Fail;
use text_core::{Code, SourceError, Span};

/// A kind or a code, and the bytes where it begins and ends.
type At<T> = (T, u32, u32);

/// A text, its tokens, and the refusal behind them, if there is one.
type Row = (&'static [u8], &'static [At<TokenKind>], Option<At<Code>>);

fn is_at(span: Span, start: u32, end: u32) -> bool {
    span.start == start && span.end == end
}

fn is_token(answer: Result<Option<Token>, SourceError>, wanted: At<TokenKind>) -> bool {
    let (kind, start, end) = wanted;
    match answer {
        Ok(Some(token)) => token.kind == kind && is_at(token.span, start, end),
        _ => false,
    }
}

/// Whether the answer is this refusal, or the end where none is wanted.
fn is_last(answer: Result<Option<Token>, SourceError>, wanted: Option<At<Code>>) -> bool {
    match (answer, wanted) {
        (Ok(None), None) => true,
        (Err(error), Some((code, start, end))) => {
            error.code == code && is_at(error.span, start, end) && error.other.is_none()
        }
        _ => false,
    }
}

/// Whether the lexer gives the tokens of the row, and then its last answer, twice.
fn is_read(row: Row) -> bool {
    let (bytes, tokens, last) = row;
    if bytes.len() > 1000 {
        return false;
    }
    let mut lexer = Lexer::new(bytes);
    for token in tokens {
        if !is_token(lexer.next(), *token) {
            return false;
        }
    }
    is_last(lexer.next(), last) && is_last(lexer.next(), last)
}

const READ: [Row; 7] = [
    (b"", &[], None),
    (
        b"fn f(x: i32) // }\n\t-> Self {}\r\n",
        &[
            (TokenKind::KwFn, 0, 2),
            (TokenKind::Ident, 3, 4),
            (TokenKind::OpenParen, 4, 5),
            (TokenKind::Ident, 5, 6),
            (TokenKind::Colon, 6, 7),
            (TokenKind::Ident, 8, 11),
            (TokenKind::CloseParen, 11, 12),
            (TokenKind::Arrow, 19, 21),
            (TokenKind::KwSelfType, 22, 26),
            (TokenKind::OpenBrace, 27, 28),
            (TokenKind::CloseBrace, 28, 29),
        ],
        None,
    ),
    (
        b"/* a /* b */ */_ _x==>>=a.0.1",
        &[
            (TokenKind::Underscore, 15, 16),
            (TokenKind::Ident, 17, 19),
            (TokenKind::Implies, 19, 22),
            (TokenKind::AtLeast, 22, 24),
            (TokenKind::Ident, 24, 25),
            (TokenKind::Dot, 25, 26),
            (TokenKind::Int, 26, 27),
            (TokenKind::Dot, 27, 28),
            (TokenKind::Int, 28, 29),
        ],
        None,
    ),
    (
        b"1i128 0x_1 0x1Fu8 0b12 1e5 7__usize \"\\\"\\\\\"'a'static",
        &[
            (TokenKind::Int, 0, 1),
            (TokenKind::Ident, 1, 5),
            (TokenKind::Int, 6, 7),
            (TokenKind::Ident, 7, 10),
            (TokenKind::Int, 11, 17),
            (TokenKind::Int, 18, 21),
            (TokenKind::Int, 21, 22),
            (TokenKind::Int, 23, 24),
            (TokenKind::Ident, 24, 26),
            (TokenKind::Int, 27, 35),
            (TokenKind::Str, 36, 42),
            (TokenKind::Lifetime, 42, 44),
            (TokenKind::Lifetime, 44, 51),
        ],
        None,
    ),
    (
        b"\xc3\xa9_1 /*\xc3\xa9*/ \"\xc3\xa9\"",
        &[(TokenKind::Ident, 0, 4), (TokenKind::Str, 12, 16)],
        None,
    ),
    (&[b'a'; 255], &[(TokenKind::Ident, 0, 255)], None),
    (
        b"170141183460469231731687303715884105727",
        &[(TokenKind::Int, 0, 39)],
        None,
    ),
];

#[test]
fn tokens_stand_where_they_should(rt: HostRuntime) {
    for (at, row) in READ.iter().enumerate() {
        assert!(rt; is_read(*row), "row {at}");
    }
}

const REFUSED: [Row; 10] = [
    (
        b"fn f() {} /* a /* b */",
        &[
            (TokenKind::KwFn, 0, 2),
            (TokenKind::Ident, 3, 4),
            (TokenKind::OpenParen, 4, 5),
            (TokenKind::CloseParen, 5, 6),
            (TokenKind::OpenBrace, 7, 8),
            (TokenKind::CloseBrace, 8, 9),
        ],
        Some((Code::E02, 10, 22)),
    ),
    (b"a\xffb", &[], Some((Code::E01, 1, 1))),
    (b"ab \xe2\x82", &[], Some((Code::E01, 3, 3))),
    (b" \"a\\\"", &[], Some((Code::E02, 1, 5))),
    (b"\xe2\x82\xac", &[], Some((Code::E02, 0, 3))),
    (b"'fn", &[], Some((Code::E02, 0, 1))),
    (b"'_ ", &[], Some((Code::E02, 0, 1))),
    (b"' a", &[], Some((Code::E02, 0, 1))),
    (&[b'a'; 256], &[], Some((Code::E02, 0, 256))),
    (
        b"0x8000_0000_0000_0000_0000_0000_0000_0000u8",
        &[],
        Some((Code::E02, 0, 43)),
    ),
];

#[test]
fn refusals_stand_where_they_should(rt: HostRuntime) {
    for (at, row) in REFUSED.iter().enumerate() {
        assert!(rt; is_read(*row), "row {at}");
    }
}

/// All tokens of the bytes.
fn all_tokens(alloc: Global, bytes: &[u8]) -> Result<Vec<Token>, Fail>
    requires { length bytes.now < 2 ^ 32 }
    ensures { IfOk result (λ tokens. AreTokens bytes.now tokens.items) }
{
    let mut lexer = Lexer::new(bytes);
    let mut tokens = Vec::new(alloc);
    while let Some(token) = lexer.next()? {
        tokens.push(token)?;
    }
    Ok(tokens)
}

#[test]
fn a_loop_collects_all_tokens(rt: HostRuntime) -> Result<(), Fail> {
    let tokens = all_tokens(rt.alloc(), b"a + 1")?;
    assert!(rt; tokens.len() == 3);
    Ok(())
}
