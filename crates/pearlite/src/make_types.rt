//! What is made of the lines of types and paths.
ghost use Rattle.std.specs.Prelude.{◌≡◌, IfOk, reverse};
ghost use Rattle.pearlite.specs.MakeTypes.{is_member, named_path_made, named_type_made, path_node, qualified_path_made, reference_by, reference_type_made, self_type_made, tuple_type_made, type_arguments_in};
ghost use Rattle.pearlite.specs.declared.part.Value.TheVariants as V;
ghost use Rattle.source_trees.specs.declared.path.Path.{Path};

use crate::families::{next_type, take_all, type_with};
use crate::part::{Part, Value};
use crate::parts::{alone, names_and_types, next, place_of_next, skip};
use crate::tokens::{
    is_at, is_before, lifetime_at, segment_at, segment_before, span_from, word_at,
};
use source_grammar::kinds;
use source_trees::{Path, PathNode, Segment, TypeArgument, TypeNode, TypeTree};
use source_words::Word;
use std::alloc::Global;
use text_core::{Boxed, Items, NoMemory, Span};

/// The lifetimes and the types among the parts, in order.
#[tactic(auto, unfolding(crate::specs::MakeTypes::type_arguments_in))]
fn type_arguments(
    alloc: Global,
    words: &[Word],
    parts: &mut Vec<Part>,
) -> Result<Items<TypeArgument>, NoMemory>
    ensures { IfOk result (λ them. them ≡ type_arguments_in words.now (reverse parts.old.items)) }
{
    let mut arguments = Items::new(alloc);
    while let Some(part) = next(parts) {
        if let Some(argument) = part.value.into_type_argument(words, part.from) {
            arguments.push(argument)?;
        }
    }
    Ok(arguments)
}

/// A name with its arguments.
#[tactic(auto, unfolding(crate::specs::MakeTypes::named_type_made))]
pub fn named_type(
    alloc: Global,
    words: &[Word],
    from: usize,
    to: usize,
    parts: &mut Vec<Part>,
) -> Result<Value, NoMemory>
    ensures { IfOk result (λ v. v ≡ named_type_made words.now from to (reverse parts.old.items)) }
{
    skip(parts);
    let arguments = type_arguments(alloc, words, parts)?;
    let node = TypeNode::Named(segment_at(words, from), arguments.into_vec());
    Ok(Value::Type(type_with(alloc, span_from(words, from, to), node)?))
}

/// What stands behind `&` and its lifetime.
#[tactic(auto, unfolding(crate::specs::MakeTypes::reference_by))]
fn reference_by(
    alloc: Global,
    words: &[Word],
    span: Span,
    lifetime: Option<Segment>,
    parts: &mut Vec<Part>,
) -> Result<TypeTree, NoMemory>
    ensures { IfOk result (λ ty. ty ≡ reference_by words.now span lifetime (reverse parts.old.items)) }
{
    let mutable = is_at(words, kinds::KW_MUT, place_of_next(parts));
    let target = next_type(alloc, parts)?;
    type_with(alloc, span, TypeNode::Reference(lifetime, mutable, target))
}

/// `&`, a lifetime, `mut` and the type.
#[tactic(auto, unfolding(crate::specs::MakeTypes::reference_type_made))]
pub fn reference_type(
    alloc: Global,
    words: &[Word],
    from: usize,
    to: usize,
    parts: &mut Vec<Part>,
) -> Result<Value, NoMemory>
    ensures { IfOk result (λ v. v ≡ reference_type_made words.now from to (reverse parts.old.items)) }
{
    skip(parts);
    let lifetime = lifetime_at(words, place_of_next(parts));
    if lifetime.is_some() {
        skip(parts);
    }
    let span = span_from(words, from, to);
    Ok(Value::Type(reference_by(alloc, words, span, lifetime, parts)?))
}

/// `(`, the types, `)`.
#[tactic(auto, unfolding(crate::specs::MakeTypes::tuple_type_made))]
pub fn tuple_type(
    alloc: Global,
    words: &[Word],
    from: usize,
    to: usize,
    parts: &mut Vec<Part>,
) -> Result<Value, NoMemory>
    ensures { IfOk result (λ v. v ≡ tuple_type_made words.now from to (reverse parts.old.items)) }
{
    match alone(parts) {
        Some(value) => Ok(value),
        None => {
            let types = take_all::<TypeTree>(alloc, parts)?;
            let node = TypeNode::Tuple(types.into_vec());
            Ok(Value::Type(type_with(alloc, span_from(words, from, to), node)?))
        }
    }
}

/// `Self`, and `::ViewTy` if it stands there.
#[tactic(auto, unfolding(crate::specs::MakeTypes::self_type_made))]
pub fn self_type(alloc: Global, words: &[Word], from: usize, to: usize) -> Result<Value, NoMemory>
    ensures { IfOk result (λ v. v ≡ self_type_made words.now from to) }
{
    let node = if is_before(words, kinds::WORD_VIEW_TY, to, 1) {
        TypeNode::SelfView
    } else {
        TypeNode::SelfType
    };
    Ok(Value::Type(type_with(alloc, span_from(words, from, to), node)?))
}

/// Whether types stand right behind the first name of a path, and a name behind them.
fn is_member(words: &[Word], from: usize, to: usize) -> bool
    ensures { result ≡ is_member words.now from to }
{
    to > 2
        && from < to - 2
        && is_at(words, kinds::LESS, from + 2)
        && !is_before(words, kinds::GREATER, to, 1)
}

/// The path as a value.
fn path_with(alloc: Global, span: Span, node: PathNode) -> Result<Value, NoMemory>
    ensures { IfOk result (λ v. v ≡ V.Path (record { span = span; node = node })) }
{
    Ok(Value::Path(Boxed::new(alloc, Path { span, node })?))
}

/// What a path is by its names and types.
#[tactic(auto, unfolding(crate::specs::MakeTypes::path_node))]
fn path_node(
    member: bool,
    name: Segment,
    names: Items<Segment>,
    types: Items<TypeTree>,
    last: Segment,
) -> PathNode
    ensures { result ≡ path_node member name names types last }
{
    if member {
        PathNode::Member(name, types, last)
    } else {
        PathNode::Names(name, names, types)
    }
}

/// A path that begins with a name.
#[tactic(auto, unfolding(crate::specs::MakeTypes::named_path_made))]
pub fn named_path(
    alloc: Global,
    words: &[Word],
    from: usize,
    to: usize,
    parts: &mut Vec<Part>,
) -> Result<Value, NoMemory>
    ensures { IfOk result (λ v. v ≡ named_path_made words.now from to (reverse parts.old.items)) }
{
    skip(parts);
    let (names, types) = names_and_types(alloc, words, parts)?;
    let node = path_node(
        is_member(words, from, to),
        segment_at(words, from),
        names,
        types,
        segment_before(words, to, 1),
    );
    path_with(alloc, span_from(words, from, to), node)
}

/// `<T as A>::f`
#[tactic(auto, unfolding(crate::specs::MakeTypes::qualified_path_made))]
pub fn qualified_path(
    alloc: Global,
    words: &[Word],
    from: usize,
    to: usize,
    parts: &mut Vec<Part>,
) -> Result<Value, NoMemory>
    ensures { IfOk result (λ v. v ≡ qualified_path_made words.now from to (reverse parts.old.items)) }
{
    let ty = next_type(alloc, parts)?;
    let node = PathNode::Qualified(
        ty,
        segment_before(words, to, 4),
        segment_before(words, to, 1),
    );
    path_with(alloc, span_from(words, from, to), node)
}
