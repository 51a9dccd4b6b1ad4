//! The semantic actions of terms that stand alone.
ghost use Rattle.std.specs.Prelude.{◌≡◌, IfOk, reverse};
ghost use Rattle.pearlite.specs.Meaning.{is_kept, shape_actions, value_made};

use crate::part::{Part, Value};
use crate::shapes::make_shape;
use grammar_tables::{Expansion, SemanticValue};
use source_grammar::{Action, action_of, is_for_several};
use source_words::Word;
use std::alloc::{AllocError, Global};
use text_core::{Items, NoMemory};

/// Whether a line with this action is made into nothing.
fn is_kept(action: Action, several: bool, count: usize) -> bool
    ensures { result ≡ is_kept action several count }
{
    match action {
        Action::Shape(_) => several && count < 2,
        Action::Keep | Action::Code(_) => true,
    }
}

/// What the action makes. Err only for want of memory.
fn value_made(
    alloc: Global,
    words: &[Word],
    action: Action,
    from: usize,
    to: usize,
    parts: &mut Vec<Part>,
) -> Result<Value, NoMemory>
    ensures { IfOk result (λ v. v ≡ value_made action words.now from to (reverse parts.old.items)) }
{
    match action {
        Action::Shape(action) => make_shape(alloc, words, action, from, to, parts),
        Action::Keep | Action::Code(_) => Ok(Value::Passed),
    }
}

impl SemanticValue for Part {
    type Context = Items<Word>;

    ghost actions = { shape_actions };

    fn leaf(_words: &Items<Word>, _terminal: u8, position: usize) -> Option<Part> {
        Some(Part {
            value: Value::Token,
            from: position,
            to: position + 1,
        })
    }

    fn keeps(_words: &Items<Word>, nonterminal: u16, _alternative: u8, count: usize) -> bool {
        is_kept(action_of(nonterminal), is_for_several(nonterminal), count)
    }

    fn action(
        words: &Items<Word>,
        alloc: Global,
        expansion: Expansion,
        end: usize,
        parts: &mut Vec<Part>,
    ) -> Result<Part, AllocError> {
        let action = action_of(expansion.nonterminal);
        let from = expansion.first_token;
        match value_made(alloc, words.as_slice(), action, from, end, parts) {
            Ok(value) => Ok(Part {
                value,
                from,
                to: end,
            }),
            Err(NoMemory) => Err(AllocError),
        }
    }
}
