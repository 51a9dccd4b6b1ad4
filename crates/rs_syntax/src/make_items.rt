//! What the lines of items and methods make.
ghost use Rattle.std.specs.Prelude.{◌≡◌, reverse, IfOk};
ghost use Rattle.pearlite.specs.Parts.{as_term};
ghost use Rattle.source_trees.specs.declared.item.Body.TheVariants.{Term};
ghost use Rattle.rs_syntax.specs.MakeItems.{with_attribute, item_with_token, item_with_shape, with_node, item_with, item_with_value, item_parts, with_body, item_start, item_made, method_made};

use crate::gathering::{Gather, gather_all};
use crate::part::{Part, Value, span_from, word_at};
use pearlite::{Value as Shape, is_at};
use source_grammar::kinds;
use source_trees::{Attribute, AttributeNode, Body, Function, Item, ItemNode, Method, Visibility};
use source_words::Word;
use std::alloc::Global;
use std::mem;
use text_core::{Boxed, Items, NoMemory, Span};

/// The parts of an item or a method.
#[derive(Drop)]
pub(crate) struct ItemParts {
    pub attributes: Items<Attribute>,
    pub visibility: Visibility,
    /// The place of the first word behind attributes and visibility.
    pub own: usize,
    /// A function without its body, or another item.
    pub node: ItemNode,
    /// That of a function.
    pub body: Body,
}

impl ItemParts {
    /// Adds an attribute whose input stands from the one place to the other.
    pub(crate) fn add_attribute(
        &mut self,
        words: &[Word],
        from: usize,
        to: usize,
        node: AttributeNode,
    ) -> Result<(), NoMemory>
        ensures { IfOk result (λ _. self.new ≡ with_attribute words.now self.old from to node) }
    {
        let span = Span {
            start: word_at(words, from.saturating_sub(2)).span.start,
            end: word_at(words, to).span.end,
        };
        self.attributes.push(Attribute { span, node })
    }

    pub(crate) fn set_visibility(&mut self, visibility: Visibility)
        ensures { self.new ≡ record self.old { visibility = visibility } }
    {
        self.visibility = visibility;
    }

    pub(crate) fn set_node(&mut self, own: usize, node: ItemNode)
        ensures { self.new ≡ with_node self.old own node }
    {
        self.own = own;
        discard_node(mem::replace(&mut self.node, node));
    }

    pub(crate) fn set_body(&mut self, body: Body)
        ensures { self.new ≡ record self.old { body = body } }
    {
        self.body = body;
    }

    /// `logic`, `law`, `pub`, `crate`, or a token that adds nothing.
    fn add_token(&mut self, words: &[Word], from: usize, to: usize) -> Result<(), NoMemory>
        ensures { IfOk result (λ _. self.new ≡ item_with_token words.now self.old from to) }
    {
        if is_at(words, kinds::WORD_LOGIC, from) {
            return self.add_attribute(words, from, to, AttributeNode::Logic);
        }
        if is_at(words, kinds::WORD_LAW, from) {
            return self.add_attribute(words, from, to, AttributeNode::Law);
        }
        if is_at(words, kinds::KW_PUB, from) {
            self.set_visibility(Visibility::Public);
        } else if is_at(words, kinds::KW_CRATE, from) {
            self.set_visibility(Visibility::Crate);
        }
        Ok(())
    }

    /// A token, what is passed over, or the body of a logical function.
    #[tactic(auto, unfolding(pearlite::specs::Parts::as_term))]
    pub(crate) fn add_shape(
        &mut self,
        words: &[Word],
        from: usize,
        to: usize,
        shape: Shape,
    ) -> Result<(), NoMemory>
        ensures { IfOk result (λ _. self.new ≡ item_with_shape words.now self.old from to shape) }
    {
        match &shape {
            Shape::Token => self.add_token(words, from, to),
            Shape::Passed => {
                self.add_attribute(words, from.saturating_sub(1), to, AttributeNode::Skipped)
            }
            _ => {
                if let Some(term) = shape.into_term() {
                    self.set_body(Body::Term(term));
                }
                Ok(())
            }
        }
    }
}

impl Gather for ItemParts {
    ghost with = { item_with };

    fn add(&mut self, words: &[Word], part: Part) -> Result<(), NoMemory> {
        let Part { value, from, to } = part;
        value.add_to_item(words, from, to, self)
    }
}

/// The parts of an item or a method that begins there.
fn item_parts(
    alloc: Global,
    words: &[Word],
    from: usize,
    parts: &mut Vec<Part>,
) -> Result<ItemParts, NoMemory>
    ensures { IfOk result (λ i. i ≡ item_parts words.now from (reverse parts.old.items)) }
{
    let bare = ItemParts {
        attributes: Items::new(alloc),
        visibility: Visibility::Private,
        own: from,
        node: ItemNode::Use,
        body: Body::Missing,
    };
    gather_all(words, parts, bare)
}

/// A node that nothing needs.
fn discard_node(node: ItemNode) {
    drop(node);
}

/// The body of a function stands behind it.
fn with_body(body: Body, node: ItemNode) -> ItemNode
    ensures { result ≡ with_body body node }
{
    match node {
        ItemNode::Function(function) => ItemNode::Function(Function { body, ..function }),
        other => other,
    }
}

/// The `#` of the first item of a source stands before it.
fn item_start(words: &[Word], from: usize) -> usize
    ensures { result ≡ item_start words.now from }
{
    if is_at(words, kinds::OPEN_BRACKET, from) {
        from.saturating_sub(1)
    } else {
        from
    }
}

/// An item with its attributes and visibility.
#[tactic(auto, unfolding(crate::specs::MakeItems::item_made))]
pub(crate) fn item(
    alloc: Global,
    words: &[Word],
    from: usize,
    to: usize,
    parts: &mut Vec<Part>,
) -> Result<Value, NoMemory>
    ensures { IfOk result (λ v. v ≡ item_made words.now from to (reverse parts.old.items)) }
{
    let ItemParts {
        attributes,
        visibility,
        own,
        node,
        body,
    } = item_parts(alloc, words, from, parts)?;
    let item = Item {
        span: span_from(words, item_start(words, from), to),
        attributes,
        visibility,
        own: span_from(words, own, to),
        node: with_body(body, node),
    };
    Ok(Value::Item(Boxed::new(alloc, item)?))
}

/// A function of a trait or an impl, with its attributes and visibility.
#[tactic(auto, unfolding(crate::specs::MakeItems::method_made))]
pub(crate) fn method(
    alloc: Global,
    words: &[Word],
    from: usize,
    to: usize,
    parts: &mut Vec<Part>,
) -> Result<Value, NoMemory>
    ensures { IfOk result (λ v. v ≡ method_made words.now from to (reverse parts.old.items)) }
{
    let ItemParts {
        attributes,
        visibility,
        own: _,
        node,
        body,
    } = item_parts(alloc, words, from, parts)?;
    match with_body(body, node) {
        ItemNode::Function(function) => {
            let method = Method {
                span: span_from(words, from, to),
                attributes,
                visibility,
                function,
            };
            Ok(Value::Method(Boxed::new(alloc, method)?))
        }
        other => {
            discard_node(other);
            Ok(Value::Shape(Shape::Passed))
        }
    }
}
