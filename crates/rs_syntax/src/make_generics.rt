//! What the lines of parameters, bounds and conditions make.
ghost use Rattle.std.specs.Prelude.{◌≡◌, ◌+◌, reverse, Some, None, IfOk};
ghost use Rattle.pearlite.specs.MakeTypes.{lifetime_at};
ghost use Rattle.rs_syntax.specs.MakeGenerics.{outlived, lifetime_param_made, type_param_made, generics_made, type_condition_made, lifetime_condition_made, where_made};
ghost use Rattle.rs_syntax.specs.MakeGenerics.{trait_bound_made, call_trait_of, with_call_type, call_with, call_bound_made};
ghost use Rattle.rs_syntax.specs.MakeGenerics.{param_made, named_param_made, mut_named_param_made, receiver_param_made, mut_receiver_made, borrowed_param_made};

use crate::gathering::{Gather, all_of, first_of, gather_all};
use crate::part::{Part, Value, segment_at, span_from};
use crate::places::{is_behind, segment_behind};
use pearlite::{Value as Shape, is_at, is_before};
use source_grammar::kinds;
use source_trees::{
    Bound, BoundNode, CallTrait, Condition, ConditionNode, GenericNode, GenericParam, Param,
    ParamNode, Segment, TypeTree,
};
use source_words::Word;
use std::alloc::Global;
use text_core::{Boxed, Items, NoMemory};

/// The lifetime behind the `:` of `'a: 'b`, where it is written.
fn outlived(words: &[Word], from: usize, to: usize) -> Option<Segment>
    ensures { result ≡ outlived words.now from to }
{
    if to.saturating_sub(from) > 1 {
        Some(segment_behind(words, from, 2))
    } else {
        None
    }
}

/// `'a` or `'a: 'b`
#[tactic(auto, unfolding(crate::specs::MakeGenerics::lifetime_param_made))]
pub(crate) fn lifetime_param(
    alloc: Global,
    words: &[Word],
    from: usize,
    to: usize,
) -> Result<Value, NoMemory>
    ensures { IfOk result (λ v. v ≡ lifetime_param_made words.now from to) }
{
    let span = span_from(words, from, to);
    let node = GenericNode::Lifetime(segment_at(words, from), outlived(words, from, to));
    Ok(Value::GenericParam(Boxed::new(alloc, GenericParam { span, node })?))
}

/// `T` or `T: A + B`
#[tactic(auto, unfolding(crate::specs::MakeGenerics::type_param_made))]
pub(crate) fn type_param(
    alloc: Global,
    words: &[Word],
    from: usize,
    to: usize,
    parts: &mut Vec<Part>,
) -> Result<Value, NoMemory>
    ensures { IfOk result (λ v. v ≡ type_param_made words.now from to (reverse parts.old.items)) }
{
    let bounds: Items<Bound> = all_of(alloc, parts)?;
    let span = span_from(words, from, to);
    let node = GenericNode::Type(segment_at(words, from), bounds);
    Ok(Value::GenericParam(Boxed::new(alloc, GenericParam { span, node })?))
}

/// `<'a, T>`
#[tactic(auto, unfolding(crate::specs::MakeGenerics::generics_made))]
pub(crate) fn generics(alloc: Global, parts: &mut Vec<Part>) -> Result<Value, NoMemory>
    ensures { IfOk result (λ v. v ≡ generics_made (reverse parts.old.items)) }
{
    Ok(Value::Generics(all_of::<GenericParam>(alloc, parts)?))
}

/// `T: A + B`
#[tactic(auto, unfolding(crate::specs::MakeGenerics::type_condition_made))]
pub(crate) fn type_condition(
    alloc: Global,
    words: &[Word],
    from: usize,
    to: usize,
    parts: &mut Vec<Part>,
) -> Result<Value, NoMemory>
    ensures { IfOk result (λ v. v ≡ type_condition_made words.now from to (reverse parts.old.items)) }
{
    let bounds: Items<Bound> = all_of(alloc, parts)?;
    let span = span_from(words, from, to);
    let node = ConditionNode::Type(segment_at(words, from), bounds);
    Ok(Value::WhereCondition(Boxed::new(alloc, Condition { span, node })?))
}

/// `'a: 'b`
#[tactic(auto, unfolding(crate::specs::MakeGenerics::lifetime_condition_made))]
pub(crate) fn lifetime_condition(
    alloc: Global,
    words: &[Word],
    from: usize,
    to: usize,
) -> Result<Value, NoMemory>
    ensures { IfOk result (λ v. v ≡ lifetime_condition_made words.now from to) }
{
    let span = span_from(words, from, to);
    let node = ConditionNode::Lifetime(segment_at(words, from), segment_behind(words, from, 2));
    Ok(Value::WhereCondition(Boxed::new(alloc, Condition { span, node })?))
}

/// `where`, and the conditions.
#[tactic(auto, unfolding(crate::specs::MakeGenerics::where_made))]
pub(crate) fn conditions(alloc: Global, parts: &mut Vec<Part>) -> Result<Value, NoMemory>
    ensures { IfOk result (λ v. v ≡ where_made (reverse parts.old.items)) }
{
    Ok(Value::Where(all_of::<Condition>(alloc, parts)?))
}

/// The name of a trait.
#[tactic(auto, unfolding(crate::specs::MakeGenerics::trait_bound_made))]
pub(crate) fn trait_bound(
    alloc: Global,
    words: &[Word],
    from: usize,
    to: usize,
) -> Result<Value, NoMemory>
    ensures { IfOk result (λ v. v ≡ trait_bound_made words.now from to) }
{
    let span = span_from(words, from, to);
    let node = BoundNode::Trait(segment_at(words, from));
    Ok(Value::Bound(Boxed::new(alloc, Bound { span, node })?))
}

/// The trait of closures that stands there.
fn call_trait_of(words: &[Word], place: usize) -> CallTrait
    ensures { result ≡ call_trait_of words.now place }
{
    if is_at(words, kinds::WORD_FN, place) {
        CallTrait::Fn
    } else if is_at(words, kinds::WORD_FN_MUT, place) {
        CallTrait::FnMut
    } else {
        CallTrait::FnOnce
    }
}

/// The types of a bound by a trait of closures.
#[derive(Drop)]
pub(crate) struct CallTypes {
    /// Those in the parentheses.
    pub taken: Items<TypeTree>,
    /// The one behind `->`.
    pub answer: Option<TypeTree>,
}

impl CallTypes {
    fn set_answer(&mut self, ty: TypeTree)
        ensures { self.new ≡ record self.old { answer = Some ty } }
    {
        self.answer = Some(ty);
    }

    /// Adds a type, where it is one.
    fn add_type(&mut self, is_answer: bool, ty: Option<TypeTree>) -> Result<(), NoMemory>
        ensures { IfOk result (λ _. self.new ≡ with_call_type is_answer self.old ty) }
    {
        match ty {
            None => Ok(()),
            Some(ty) => {
                if is_answer {
                    self.set_answer(ty);
                    return Ok(());
                }
                self.taken.push(ty)
            }
        }
    }
}

impl Gather for CallTypes {
    ghost with = { call_with };

    fn add(&mut self, words: &[Word], part: Part) -> Result<(), NoMemory> {
        let is_answer = is_before(words, kinds::ARROW, part.from, 1);
        self.add_type(is_answer, part.value.into_type())
    }
}

/// `Fn(S) -> T` and the like.
#[tactic(auto, unfolding(crate::specs::MakeGenerics::call_bound_made))]
pub(crate) fn call_bound(
    alloc: Global,
    words: &[Word],
    from: usize,
    to: usize,
    parts: &mut Vec<Part>,
) -> Result<Value, NoMemory>
    ensures { IfOk result (λ v. v ≡ call_bound_made words.now from to (reverse parts.old.items)) }
{
    let bare = CallTypes {
        taken: Items::new(alloc),
        answer: None,
    };
    let CallTypes { taken, answer } = gather_all(words, parts, bare)?;
    let span = span_from(words, from, to);
    let node = BoundNode::Call(call_trait_of(words, from), taken, answer);
    Ok(Value::Bound(Boxed::new(alloc, Bound { span, node })?))
}

/// A parameter of a function or a closure.
#[tactic(auto, unfolding(crate::specs::MakeGenerics::param_made))]
fn param(
    alloc: Global,
    words: &[Word],
    from: usize,
    to: usize,
    node: ParamNode,
) -> Result<Value, NoMemory>
    ensures { IfOk result (λ v. v ≡ param_made words.now from to node) }
{
    let span = span_from(words, from, to);
    Ok(Value::Param(Boxed::new(alloc, Param { span, node })?))
}

/// `x: T`
#[tactic(auto, unfolding(crate::specs::MakeGenerics::named_param_made))]
pub(crate) fn named_param(
    alloc: Global,
    words: &[Word],
    from: usize,
    to: usize,
    parts: &mut Vec<Part>,
) -> Result<Value, NoMemory>
    ensures { IfOk result (λ v. v ≡ named_param_made words.now from to (reverse parts.old.items)) }
{
    match first_of::<TypeTree>(parts) {
        Some(ty) => {
            let node = ParamNode::Named(false, segment_at(words, from), ty);
            param(alloc, words, from, to, node)
        }
        None => Ok(Value::Shape(Shape::Passed)),
    }
}

/// `x: T` behind its `mut`.
#[tactic(auto, unfolding(crate::specs::MakeGenerics::mut_named_param_made))]
pub(crate) fn mut_named_param(
    alloc: Global,
    words: &[Word],
    from: usize,
    to: usize,
    parts: &mut Vec<Part>,
) -> Result<Value, NoMemory>
    ensures { IfOk result (λ v. v ≡ mut_named_param_made words.now from to (reverse parts.old.items)) }
{
    match first_of::<TypeTree>(parts) {
        Some(ty) => {
            let node = ParamNode::Named(true, segment_at(words, from), ty);
            param(alloc, words, from.saturating_sub(1), to, node)
        }
        None => Ok(Value::Shape(Shape::Passed)),
    }
}

/// `self`
#[tactic(auto, unfolding(crate::specs::MakeGenerics::receiver_param_made))]
pub(crate) fn receiver_param(
    alloc: Global,
    words: &[Word],
    from: usize,
    to: usize,
) -> Result<Value, NoMemory>
    ensures { IfOk result (λ v. v ≡ receiver_param_made words.now from to) }
{
    param(alloc, words, from, to, ParamNode::Receiver(false))
}

/// `self` behind its `mut`.
#[tactic(auto, unfolding(crate::specs::MakeGenerics::mut_receiver_made))]
pub(crate) fn mut_receiver(
    alloc: Global,
    words: &[Word],
    from: usize,
    to: usize,
) -> Result<Value, NoMemory>
    ensures { IfOk result (λ v. v ≡ mut_receiver_made words.now from to) }
{
    param(
        alloc,
        words,
        from.saturating_sub(1),
        to,
        ParamNode::Receiver(true),
    )
}

/// The lifetime behind the place, where one stands there.
fn lifetime_behind(words: &[Word], place: usize) -> Option<Segment>
    ensures { result ≡ lifetime_at words.now (place + 1) }
{
    if is_behind(words, kinds::LIFETIME, place, 1) {
        Some(segment_behind(words, place, 1))
    } else {
        None
    }
}

/// `&'a mut self`
#[tactic(auto, unfolding(crate::specs::MakeGenerics::borrowed_param_made))]
pub(crate) fn borrowed_param(
    alloc: Global,
    words: &[Word],
    from: usize,
    to: usize,
) -> Result<Value, NoMemory>
    ensures { IfOk result (λ v. v ≡ borrowed_param_made words.now from to) }
{
    let mutable = is_before(words, kinds::KW_MUT, to, 2);
    let node = ParamNode::Borrowed(lifetime_behind(words, from), mutable);
    param(alloc, words, from, to, node)
}
