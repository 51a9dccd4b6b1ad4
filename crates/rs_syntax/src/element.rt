//! The parts of blocks and of `match`.
ghost use Rattle.std.specs.Prelude.{◌≡◌, ◌-◌};
ghost use Rattle.rs_syntax.specs.declared.element.Element.TheVariants as L;
ghost use Rattle.rs_syntax.specs.declared.part.Value.TheVariants as V;
ghost use Rattle.rs_syntax.specs.Parts.{attribute_from, element_by, element_of_token};

use pearlite::{Value as Shape, is_at, word_at, word_before};
use source_grammar::kinds;
use source_trees::{Attribute, AttributeNode, Expr, Pat, Stmt};
use source_words::Word;
use text_core::{Boxed, Span};

/// What a part of a block or of a `match` is there.
#[derive(Drop)]
pub enum Element {
    /// A `let` statement.
    Stmt(Boxed<Stmt>),
    /// A blocklike that stands as a statement, and whether a `;` stands behind it.
    Blocklike(Expr, bool),
    Expr(Expr),
    Pattern(Pat),
    Attribute(Attribute),
    /// `;`
    Semicolon,
    /// Any other token.
    Other,
}

/// The attribute that begins so many tokens before that place and ends with the token at `to`.
pub(crate) fn attribute_from(
    words: &[Word],
    place: usize,
    count: usize,
    to: usize,
    node: AttributeNode,
) -> Element
    ensures { result ≡ L.Attribute (attribute_from words.now (place - count) to node) }
{
    let span = Span {
        start: word_before(words, place, count).span.start,
        end: word_at(words, to).span.end,
    };
    Element::Attribute(Attribute { span, node })
}

/// What a token is there.
#[tactic(auto, unfolding(crate::specs::Parts::element_of_token))]
fn element_of_token(words: &[Word], from: usize, to: usize) -> Element
    ensures { result ≡ element_of_token words.now from to }
{
    match word_at(words, from).kind {
        kinds::SEMICOLON => Element::Semicolon,
        kinds::WORD_LOGIC => attribute_from(words, from, 2, to, AttributeNode::Logic),
        kinds::WORD_LAW => attribute_from(words, from, 2, to, AttributeNode::Law),
        _ => Element::Other,
    }
}

/// What a token, a pattern or tokens that are passed over are there.
#[tactic(auto, unfolding(crate::specs::Parts::element_by, pearlite::specs::Parts::as_pattern))]
pub(crate) fn element_of_shape(words: &[Word], from: usize, to: usize, shape: Shape) -> Element
    ensures { result ≡ element_by words.now from to (V.Shape shape) }
{
    match &shape {
        Shape::Pattern(_) => match shape.into_pattern() {
            Some(pattern) => Element::Pattern(pattern),
            None => Element::Other,
        },
        Shape::Passed => attribute_from(words, from, 3, to, AttributeNode::Skipped),
        Shape::Token => element_of_token(words, from, to),
        _ => Element::Other,
    }
}
