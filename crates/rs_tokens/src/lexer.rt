//! The lexer.
ghost use Rattle.std.specs.Prelude.{◌≡◌, ◌<◌, ◌≤◌, ◌^◌, length, Option, None, Some, Ok, Err, IfOk, IfErr, IfSome, IfNone, OnOk, OnErr, MatchOption};
ghost use Rattle.std.specs.Str.{IsUtf8};
ghost use Rattle.text_core.specs.declared.refusal.Code.TheVariants.{E01, E02};

use crate::blanks::blanks_len;
use crate::fronts::front;
use crate::token::Token;
use std::marker::Model;
use text_core::{Code, SourceError, Span};

/// The refusal of bytes that are no UTF-8 from the offset on.
fn no_text(at: u32) -> SourceError
    ensures { result ≡ record { code = E01; span = record { start = at; end = at }; other = None } }
{
    SourceError {
        code: Code::E01,
        span: Span { start: at, end: at },
        other: None,
    }
}

/// The refusal of a part where no token stands.
fn bad_token(span: Span) -> SourceError
    ensures { result ≡ record { code = E02; span = span; other = None } }
{
    SourceError {
        code: Code::E02,
        span,
        other: None,
    }
}

/// Gives the tokens of a text one by one. It takes no memory.
#[derive(Drop)]
pub struct Lexer<'a> {
    bytes: &'a [u8],
    /// What is left behind the token that was given last.
    rest: &'a str,
    at: usize,
    refusal: Option<SourceError>,
}

impl<'a> Model for Lexer<'a> {
    ghost use Rattle.rs_tokens.specs.Place.{Place};

    // The bytes that it was made from, the offset behind what it has given, and the refusal that it has come to.
    ghost Value = { Place };

    ghost use Rattle.std.specs.Prelude.{◌≡◌, ◌≤◌, ◌<◌, ◌^◌, length, drop, None};
    ghost use Rattle.rs_tokens.specs.Place.{StandsAt};

    ghost view = { λ lexer. record { bytes = lexer.bytes.now; at = lexer.at; refusal = lexer.refusal } };

    ghost invariant = { λ lexer. StandsAt lexer.bytes.now lexer.rest.now lexer.at lexer.refusal };
}

impl<'a> Lexer<'a> {
    ghost use Rattle.rs_tokens.specs.Reading.{Gives, HasEnded, IsNoText, IsBadToken};

    /// A lexer that stands at the start of the bytes. Bytes that are no UTF-8 are refused by its first `next`.
    pub fn new(bytes: &'a [u8]) -> Lexer<'a>
        requires { length bytes.now < 2 ^ 32 }
        ensures bytes { result.bytes ≡ bytes.now }
        ensures start { result.at ≡ 0 }
        ensures refusal { MatchOption result.refusal (IsUtf8 bytes.now) (λ error. IsNoText bytes.now error) }
    {
        match std::str::from_utf8(bytes) {
            Ok(text) => Lexer {
                bytes,
                rest: text,
                at: 0,
                refusal: None,
            },
            Err(error) => Lexer {
                bytes,
                rest: "",
                at: 0,
                refusal: Some(no_text(error.valid_up_to() as u32)),
            },
        }
    }

    /// The next token behind all blanks; `None` exactly where nothing but blanks is left. Its text is the part of the
    /// bytes in its span.
    ///
    /// Errors: E01 where the bytes are no UTF-8, at the first call, with an empty span at the first byte of the first
    /// sequence that spells no character. E02 where a character begins no token (the character), a comment or a string
    /// is not closed (from its start to the end), an identifier has more than 255 bytes or an integer is past 2^127 - 1
    /// (the token), and where a keyword but `static`, or `_` alone, stands behind a `'` (the `'`). After an error each
    /// call answers the same error.
    pub fn next(&mut self) -> Result<Option<Token>, SourceError>
        ensures bytes { self.new.bytes ≡ self.old.bytes }
        ensures again { IfSome self.old.refusal (λ error. (result ≡ Err error) × (self.new ≡ self.old)) }

        ensures unrefused { OnOk result (self.old.refusal ≡ None) }

        // The next token, which the lexer then stands behind.
        ensures token { IfOk result (λ answer. IfSome answer (λ token. Gives self.old.bytes self.old.at token)) }
        ensures behind { IfOk result (λ answer. IfSome answer (λ token. self.new.at ≡ token.span.end)) }
        ensures forward { IfOk result (λ answer. IfSome answer (λ _. self.old.at < self.new.at)) }
        ensures within { self.new.at ≤ length self.new.bytes }
        ensures accepted { OnOk result (self.new.refusal ≡ None) }

        // The end.
        ensures end { IfOk result (λ answer. IfNone answer (HasEnded self.old.bytes self.old.at)) }
        ensures stays { IfOk result (λ answer. IfNone answer (self.new ≡ self.old)) }

        // A refusal, which the lexer keeps.
        ensures refused { self.old.refusal ≡ None → IfErr result (IsBadToken self.old.bytes self.old.at) }
        ensures kept { IfErr result (λ error. self.new.refusal ≡ Some error) }
        ensures place { OnErr result (self.new.at ≡ self.old.at) }
    {
        if let Some(error) = self.refusal {
            return Err(error);
        }
        let skipped = blanks_len(self.rest.as_bytes());
        let rest = &self.rest[skipped..];
        if rest.is_empty() {
            return Ok(None);
        }
        let start = self.at + skipped;
        match front(rest) {
            Ok(front) => {
                self.rest = &rest[front.len..];
                self.at = start + front.len;
                let span = Span {
                    start: start as u32,
                    end: self.at as u32,
                };
                Ok(Some(Token {
                    kind: front.kind,
                    span,
                }))
            }
            Err(len) => {
                let error = bad_token(Span {
                    start: start as u32,
                    end: (start + len) as u32,
                });
                self.refusal = Some(error);
                Err(error)
            }
        }
    }
}
