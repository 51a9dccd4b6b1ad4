//! The tokens of a source.
ghost use Rattle.std.specs.Prelude.{◌≤◌, ◌^◌, length, IfOk, IfErr};
ghost use Rattle.rs_tokens.specs.Reading.{AreTokens};
ghost use Rattle.source_words.specs.Words.{IsWordError};

use rs_tokens::{Lexer, Token};
use std::alloc::Global;
use text_core::{Items, PassError};

/// All tokens, in order.
///
/// Errors: `Source` where the bytes are no text (E01) or a part of them is no token (E02); `NoMemory`.
pub fn tokens_of(alloc: Global, bytes: &[u8]) -> Result<Items<Token>, PassError>
    requires few { length bytes.now ≤ 2 ^ 20 }
    ensures ok { IfOk result (λ tokens. AreTokens bytes.now tokens) }
    ensures short { IfOk result (λ tokens. length tokens ≤ 2 ^ 20) }
    ensures refused { IfErr result (λ error. IsWordError bytes.now error) }
{
    let mut lexer = Lexer::new(bytes);
    let mut tokens = Items::new(alloc);
    loop {
        match lexer.next() {
            Err(error) => return Err(PassError::Source(error)),
            Ok(None) => return Ok(tokens),
            Ok(Some(token)) => tokens.push(token)?,
        }
    }
}
