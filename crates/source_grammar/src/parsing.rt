//! The parsers of sources, and of terms that stand alone.
ghost use Rattle.std.specs.Prelude.{◌≡◌, ◌≤◌, ◌<◌, ℕ, IfOk, IfErr};
ghost use Rattle.source_grammar.specs.SourceGrammar.{source_goal, term_goal};
ghost use Rattle.source_grammar.specs.Faults.{IsSourceDerivation, IsSourceFront, IsFault, IsFrontFault, HasTokenBefore, fault_at, fault_of};
ghost use Rattle.source_grammar.specs.declared.offence.Offence.TheVariants.{LeftOutBefore};

use crate::fault::SyntaxFault;
use crate::lines::{SOURCE, WHOLE_TERM};
use crate::offence::{Offence, offence_at};
use crate::tables;
use grammar_tables::{Front, ParseError, parse, parse_front};
use std::alloc::Global;

/// The fault of a token that is refused at the position as such an offence.
fn fault_at(position: usize, offence: Offence) -> SyntaxFault
    requires { offence ≡ LeftOutBefore → 0 < position }
    ensures { result ≡ fault_at position offence }
{
    match offence {
        Offence::Stray => SyntaxFault::Stray(position),
        Offence::LeftOut => SyntaxFault::LeftOut(position),
        Offence::LeftOutBefore => SyntaxFault::LeftOut(position - 1),
    }
}

/// The fault that an error of the parser stands for.
fn fault_of(kinds: &[u8], error: ParseError) -> SyntaxFault
    requires { HasTokenBefore kinds.now error }
    ensures { result ≡ fault_of kinds.now error }
{
    match error {
        ParseError::Refused(refusal) => {
            let ended = refusal.ended.as_slice();
            let expected = refusal.expected.as_slice();
            let offence = offence_at(kinds, refusal.position, ended, expected);
            fault_at(refusal.position, offence)
        }
        ParseError::PastLimit(position) => SyntaxFault::TooDeep(position),
        ParseError::NoMemory => SyntaxFault::NoMemory,
    }
}

/// The leftmost derivation of a source, by the kinds of its tokens; or why they are none.
pub fn parse_source(alloc: Global, kinds: &[u8]) -> Result<Vec<u8>, SyntaxFault>
    ensures parsed { IfOk result (λ derivation. IsSourceDerivation source_goal 0 kinds.now derivation.items) }
    ensures refused { IfErr result (λ fault. IsFault source_goal 0 kinds.now fault) }
{
    match parse(alloc, &tables(), kinds, SOURCE) {
        Ok(derivation) => Ok(derivation),
        Err(error) => Err(fault_of(kinds, error)),
    }
}

/// The longest front of the tokens that is a term, with so many levels around it; or why there is none.
pub fn parse_term(alloc: Global, kinds: &[u8], levels: u8) -> Result<Front, SyntaxFault>
    requires { levels ≤ 64 }
    ensures parsed { IfOk result (λ front. IsSourceFront term_goal levels kinds.now front) }
    ensures refused { IfErr result (λ fault. IsFrontFault term_goal levels kinds.now fault) }
{
    match parse_front(alloc, &tables(), kinds, WHOLE_TERM, levels) {
        Ok(front) => Ok(front),
        Err(error) => Err(fault_of(kinds, error)),
    }
}
