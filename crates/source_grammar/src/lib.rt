//! The whole grammar of sources, as tables, and its parser.
#![tactic(auto)]

ghost use Rattle.std.specs.Prelude.{◌≡◌, ℕ};
ghost use Rattle.grammar_tables.specs.LL1.{IsLL1};
ghost use Rattle.grammar_tables.specs.Tables.{grammar_in, depth_in, mark_in};
ghost use Rattle.source_grammar.specs.SourceGrammar.{source_grammar, source_marks};

mod action;
mod bodies;
mod classes;
mod fault;
pub mod kinds;
mod laws;
mod lines;
mod offence;
mod parsing;
mod predictions;

use crate::bodies::{BODIES, DEPTHS, MARKS, MEMBERS, OFFSETS, SYMBOLS};
use crate::predictions::PREDICTIONS;
pub use action::{Action, CodeAction, ShapeAction, action_of, is_for_several};
pub use fault::SyntaxFault;
use grammar_tables::Tables;
pub use laws::{a_source_has_one_tree, fronts_have_one_answer, tokens_have_one_answer};
pub use lines::{SOURCE, WHOLE_TERM};
pub use offence::Offence;
pub use parsing::{parse_source, parse_term};

/// The tables of the grammar.
pub fn tables() -> Tables<'static>
    ensures grammar { grammar_in result ≡ source_grammar }
    ensures ll1 { IsLL1 (grammar_in result) (depth_in result) }
    ensures marks { (n : ℕ) → mark_in result n ≡ source_marks n }
{
    Tables {
        symbols: &SYMBOLS,
        bodies: &BODIES,
        offsets: &OFFSETS,
        predictions: &PREDICTIONS,
        depths: &DEPTHS,
        members: &MEMBERS,
        marks: &MARKS,
    }
}
