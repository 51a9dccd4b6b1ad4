//! What is made of the lines of operands of terms.
ghost use Rattle.std.specs.Prelude.{◌≡◌, IfOk, reverse};
ghost use Rattle.pearlite.specs.MakeTerms.{answer_term_made, binder_made, field_term_made, if_term_made, integer_term_made, match_term_made, mut_ref_term_made, paren_term_made, path_term_by, path_term_made, predicate_of, predicate_term_made};
ghost use Rattle.pearlite.specs.MakeTerms.{quantified_made, quantifier_of, self_term_made, term_arm_made, truth_term_made};
ghost use Rattle.pearlite.specs.Parts.{as_term, term_or};
ghost use Rattle.source_trees.specs.PtermView.{pterm_of};
ghost use Rattle.pearlite.specs.declared.part.Value.TheVariants as V;
ghost use Rattle.text_core.specs.declared.span.Span.{Span};

use crate::families::{next_path, next_pattern, next_term, next_type, take_all, term_with};
use crate::part::{Part, Value};
use crate::parts::{alone, take_last};
use crate::tokens::{NOWHERE, is_at, is_before, segment_at, span_from, word_at};
use source_grammar::kinds;
use source_trees::{Binder, FieldTerm, Path, Predicate, Pterm, PtermNode, Quantifier, TermArm};
use source_words::Word;
use std::alloc::Global;
use text_core::{NoMemory, Span};

/// The term as a value.
fn term_value(alloc: Global, span: Span, node: PtermNode) -> Result<Value, NoMemory>
    ensures { IfOk result (λ v. v ≡ V.Term (pterm_of span node)) }
{
    Ok(Value::Term(term_with(alloc, span, node)?))
}

/// An integer.
#[tactic(auto, unfolding(crate::specs::MakeTerms::integer_term_made))]
pub fn integer_term(
    alloc: Global,
    words: &[Word],
    from: usize,
    to: usize,
) -> Result<Value, NoMemory>
    ensures { IfOk result (λ v. v ≡ integer_term_made words.now from to) }
{
    let word = word_at(words, from);
    let node = PtermNode::Int(word.value, word.suffix);
    term_value(alloc, span_from(words, from, to), node)
}

/// `true` or `false`
#[tactic(auto, unfolding(crate::specs::MakeTerms::truth_term_made))]
pub fn truth_term(alloc: Global, words: &[Word], from: usize, to: usize) -> Result<Value, NoMemory>
    ensures { IfOk result (λ v. v ≡ truth_term_made words.now from to) }
{
    let node = PtermNode::Truth(is_at(words, kinds::KW_TRUE, from));
    term_value(alloc, span_from(words, from, to), node)
}

/// `result`
#[tactic(auto, unfolding(crate::specs::MakeTerms::answer_term_made))]
pub fn answer_term(alloc: Global, words: &[Word], from: usize, to: usize) -> Result<Value, NoMemory>
    ensures { IfOk result (λ v. v ≡ answer_term_made words.now from to) }
{
    let node = PtermNode::Answer(word_at(words, from).name);
    term_value(alloc, span_from(words, from, to), node)
}

/// `self`
#[tactic(auto, unfolding(crate::specs::MakeTerms::self_term_made))]
pub fn self_term(alloc: Global, words: &[Word], from: usize, to: usize) -> Result<Value, NoMemory>
    ensures { IfOk result (λ v. v ≡ self_term_made words.now from to) }
{
    term_value(alloc, span_from(words, from, to), PtermNode::Receiver)
}

/// `(`, the terms, `)`.
#[tactic(auto, unfolding(crate::specs::MakeTerms::paren_term_made))]
pub fn paren_term(
    alloc: Global,
    words: &[Word],
    from: usize,
    to: usize,
    parts: &mut Vec<Part>,
) -> Result<Value, NoMemory>
    ensures { IfOk result (λ v. v ≡ paren_term_made words.now from to (reverse parts.old.items)) }
{
    match alone(parts) {
        Some(value) => Ok(value),
        None => {
            let terms = take_all::<Pterm>(alloc, parts)?;
            let node = PtermNode::Tuple(terms.into_vec());
            term_value(alloc, span_from(words, from, to), node)
        }
    }
}

/// The path, with the arguments or the fields behind it.
#[tactic(auto, unfolding(crate::specs::MakeTerms::path_term_by))]
fn path_term_node(
    alloc: Global,
    words: &[Word],
    to: usize,
    path: Path,
    parts: &mut Vec<Part>,
) -> Result<PtermNode, NoMemory>
    ensures { IfOk result (λ node. (span : Span) → pterm_of span node ≡ path_term_by words.now to span path (reverse parts.old.items)) }
{
    if is_before(words, kinds::CLOSE_PAREN, to, 1) {
        let terms = take_all::<Pterm>(alloc, parts)?;
        Ok(PtermNode::Call(path, terms.into_vec()))
    } else if is_before(words, kinds::CLOSE_BRACE, to, 1) {
        let fields = take_all::<FieldTerm>(alloc, parts)?;
        Ok(PtermNode::Literal(path, fields.into_vec()))
    } else {
        Ok(PtermNode::Path(path))
    }
}

/// A path, with arguments or fields or alone.
#[tactic(auto, unfolding(crate::specs::MakeTerms::path_term_made))]
pub fn path_term(
    alloc: Global,
    words: &[Word],
    from: usize,
    to: usize,
    parts: &mut Vec<Part>,
) -> Result<Value, NoMemory>
    ensures { IfOk result (λ v. v ≡ path_term_made words.now from to (reverse parts.old.items)) }
{
    let path = next_path(alloc, parts);
    let node = path_term_node(alloc, words, to, path, parts)?;
    term_value(alloc, span_from(words, from, to), node)
}

/// A field of a struct literal.
#[tactic(auto, unfolding(crate::specs::MakeTerms::field_term_made))]
pub fn field_term(
    alloc: Global,
    words: &[Word],
    from: usize,
    to: usize,
    parts: &mut Vec<Part>,
) -> Result<Value, NoMemory>
    ensures { IfOk result (λ v. v ≡ field_term_made words.now from to (reverse parts.old.items)) }
{
    let value = next_term(alloc, parts)?;
    Ok(Value::FieldTerm(FieldTerm {
        span: span_from(words, from, to),
        name: segment_at(words, from),
        value,
    }))
}

/// The condition and both branches.
#[tactic(auto, unfolding(crate::specs::MakeTerms::if_term_made))]
pub fn if_term(
    alloc: Global,
    words: &[Word],
    from: usize,
    to: usize,
    parts: &mut Vec<Part>,
) -> Result<Value, NoMemory>
    ensures { IfOk result (λ v. v ≡ if_term_made words.now from to (reverse parts.old.items)) }
{
    let condition = next_term(alloc, parts)?;
    let then = next_term(alloc, parts)?;
    let other = next_term(alloc, parts)?;
    let node = PtermNode::If(condition, then, other);
    term_value(alloc, span_from(words, from, to), node)
}

/// What is taken apart, and the arms.
#[tactic(auto, unfolding(crate::specs::MakeTerms::match_term_made))]
pub fn match_term(
    alloc: Global,
    words: &[Word],
    from: usize,
    to: usize,
    parts: &mut Vec<Part>,
) -> Result<Value, NoMemory>
    ensures { IfOk result (λ v. v ≡ match_term_made words.now from to (reverse parts.old.items)) }
{
    let head = next_term(alloc, parts)?;
    let arms = take_all::<TermArm>(alloc, parts)?;
    let node = PtermNode::Match(head, arms.into_vec());
    term_value(alloc, span_from(words, from, to), node)
}

/// An arm of a `match`.
#[tactic(auto, unfolding(crate::specs::MakeTerms::term_arm_made))]
pub fn term_arm(
    alloc: Global,
    words: &[Word],
    from: usize,
    to: usize,
    parts: &mut Vec<Part>,
) -> Result<Value, NoMemory>
    ensures { IfOk result (λ v. v ≡ term_arm_made words.now from to (reverse parts.old.items)) }
{
    let pattern = next_pattern(alloc, parts)?;
    let body = next_term(alloc, parts)?;
    Ok(Value::Arm(TermArm {
        span: span_from(words, from, to),
        pattern,
        body,
    }))
}

/// `MutRef` and its two terms.
#[tactic(auto, unfolding(crate::specs::MakeTerms::mut_ref_term_made))]
pub fn mut_ref_term(
    alloc: Global,
    words: &[Word],
    from: usize,
    to: usize,
    parts: &mut Vec<Part>,
) -> Result<Value, NoMemory>
    ensures { IfOk result (λ v. v ≡ mut_ref_term_made words.now from to (reverse parts.old.items)) }
{
    let left = next_term(alloc, parts)?;
    let right = next_term(alloc, parts)?;
    term_value(
        alloc,
        span_from(words, from, to),
        PtermNode::MutRef(left, right),
    )
}

fn predicate_of(kind: u8) -> Predicate
    ensures { result ≡ predicate_of kind }
{
    match kind {
        kinds::WORD_POSTCONDITION => Predicate::Postcondition,
        kinds::WORD_POSTCONDITION_MUT => Predicate::PostconditionMut,
        kinds::WORD_POSTCONDITION_ONCE => Predicate::PostconditionOnce,
        _ => Predicate::Precondition,
    }
}

/// A predicate of closures and its terms.
#[tactic(auto, unfolding(crate::specs::MakeTerms::predicate_term_made))]
pub fn predicate_term(
    alloc: Global,
    words: &[Word],
    from: usize,
    to: usize,
    parts: &mut Vec<Part>,
) -> Result<Value, NoMemory>
    ensures { IfOk result (λ v. v ≡ predicate_term_made words.now from to (reverse parts.old.items)) }
{
    let terms = take_all::<Pterm>(alloc, parts)?;
    let predicate = predicate_of(word_at(words, from).kind);
    let node = PtermNode::Predicate(predicate, terms.into_vec());
    term_value(alloc, span_from(words, from, to), node)
}

fn quantifier_of(kind: u8) -> Quantifier
    ensures { result ≡ quantifier_of kind }
{
    match kind {
        kinds::WORD_EXISTS => Quantifier::Exists,
        _ => Quantifier::Forall,
    }
}

/// The term that a value is.
fn term_of(alloc: Global, value: Value) -> Result<Pterm, NoMemory>
    ensures { IfOk result (λ term. term ≡ term_or (as_term value)) }
{
    match value.into_term() {
        Some(term) => Ok(term),
        None => term_with(alloc, NOWHERE, PtermNode::Truth(false)),
    }
}

/// The quantifier, the variables, and the body.
#[tactic(auto, unfolding(crate::specs::MakeTerms::quantified_made))]
pub fn quantified(
    alloc: Global,
    words: &[Word],
    from: usize,
    to: usize,
    parts: &mut Vec<Part>,
) -> Result<Value, NoMemory>
    ensures { IfOk result (λ v. v ≡ quantified_made words.now from to (reverse parts.old.items)) }
{
    let body = term_of(alloc, take_last(parts))?;
    let binders = take_all::<Binder>(alloc, parts)?;
    let quantifier = quantifier_of(word_at(words, from).kind);
    let node = PtermNode::Quantified(quantifier, binders.into_vec(), body);
    term_value(alloc, span_from(words, from, to), node)
}

/// A variable and its type.
#[tactic(auto, unfolding(crate::specs::MakeTerms::binder_made))]
pub fn binder(
    alloc: Global,
    words: &[Word],
    from: usize,
    to: usize,
    parts: &mut Vec<Part>,
) -> Result<Value, NoMemory>
    ensures { IfOk result (λ v. v ≡ binder_made words.now from to (reverse parts.old.items)) }
{
    let ty = next_type(alloc, parts)?;
    Ok(Value::Binder(Binder {
        span: span_from(words, from, to),
        name: segment_at(words, from),
        ty,
    }))
}
