//! What the actions of types, patterns, paths and terms make.
ghost use Rattle.std.specs.Prelude.{◌≡◌, IfOk, reverse};
ghost use Rattle.pearlite.specs.Shapes.{shape_made};

use crate::make_operations::{prefix_term, term_member, term_operation};
use crate::make_patterns::{
    field_pattern, integer_pattern, mut_pattern, path_pattern, truth_pattern, tuple_pattern,
    wildcard,
};
use crate::make_terms::{
    answer_term, binder, field_term, if_term, integer_term, match_term, mut_ref_term, paren_term,
    path_term, predicate_term, quantified, self_term, term_arm, truth_term,
};
use crate::make_types::{
    named_path, named_type, qualified_path, reference_type, self_type, tuple_type,
};
use crate::part::{Part, TermSuffix, Value};
use source_grammar::ShapeAction;
use source_words::Word;
use std::alloc::Global;
use text_core::NoMemory;

/// What the action makes of the parts of its line, the last of which comes first, and whose tokens are those from `from` to
/// before `to`. Err only for want of memory.
#[tactic(auto, unfolding(crate::specs::Shapes::shape_made))]
pub fn make_shape(
    alloc: Global,
    words: &[Word],
    action: ShapeAction,
    from: usize,
    to: usize,
    parts: &mut Vec<Part>,
) -> Result<Value, NoMemory>
    ensures { IfOk result (λ v. v ≡ shape_made action words.now from to (reverse parts.old.items)) }
{
    match action {
        ShapeAction::NamedType => named_type(alloc, words, from, to, parts),
        ShapeAction::ReferenceType => reference_type(alloc, words, from, to, parts),
        ShapeAction::TupleType => tuple_type(alloc, words, from, to, parts),
        ShapeAction::SelfType => self_type(alloc, words, from, to),
        ShapeAction::Wildcard => wildcard(alloc, words, from, to),
        ShapeAction::MutPattern => mut_pattern(alloc, words, from, to),
        ShapeAction::IntegerPattern => integer_pattern(alloc, words, from, to),
        ShapeAction::TruthPattern => truth_pattern(alloc, words, from, to),
        ShapeAction::TuplePattern => tuple_pattern(alloc, words, from, to, parts),
        ShapeAction::PathPattern => path_pattern(alloc, words, from, to, parts),
        ShapeAction::FieldPattern => field_pattern(alloc, words, from, to, parts),
        ShapeAction::NamedPath => named_path(alloc, words, from, to, parts),
        ShapeAction::QualifiedPath => qualified_path(alloc, words, from, to, parts),
        ShapeAction::TermOperation => term_operation(alloc, words, from, parts),
        ShapeAction::PrefixTerm => prefix_term(alloc, words, from, to, parts),
        ShapeAction::View => Ok(Value::Suffix(TermSuffix::View)),
        ShapeAction::TermMember => term_member(alloc, words, to, parts),
        ShapeAction::Quantified => quantified(alloc, words, from, to, parts),
        ShapeAction::Binder => binder(alloc, words, from, to, parts),
        ShapeAction::PathTerm => path_term(alloc, words, from, to, parts),
        ShapeAction::FieldTerm => field_term(alloc, words, from, to, parts),
        ShapeAction::IntegerTerm => integer_term(alloc, words, from, to),
        ShapeAction::TruthTerm => truth_term(alloc, words, from, to),
        ShapeAction::AnswerTerm => answer_term(alloc, words, from, to),
        ShapeAction::SelfTerm => self_term(alloc, words, from, to),
        ShapeAction::ParenTerm => paren_term(alloc, words, from, to, parts),
        ShapeAction::IfTerm => if_term(alloc, words, from, to, parts),
        ShapeAction::MatchTerm => match_term(alloc, words, from, to, parts),
        ShapeAction::TermArm => term_arm(alloc, words, from, to, parts),
        ShapeAction::MutRefTerm => mut_ref_term(alloc, words, from, to, parts),
        ShapeAction::PredicateTerm => predicate_term(alloc, words, from, to, parts),
    }
}
