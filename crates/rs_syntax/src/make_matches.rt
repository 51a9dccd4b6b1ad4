//! What `match` makes of its arms.
ghost use Rattle.std.specs.Prelude.{◌≡◌, false, reverse, unwrap_or, IfOk};
ghost use Rattle.pearlite.specs.Parts.{nowhere};
ghost use Rattle.source_trees.specs.Expr.{truth};
ghost use Rattle.rs_syntax.specs.MakeStatements.{arms_in, match_made, match_of, no_arms, with_body, with_part};

use crate::element::Element;
use crate::make_attributed::{across, with_attributes};
use crate::nodes::{made, nothing};
use crate::part::{Part, Value, next};
use pearlite::{NOWHERE, span_from};
use source_trees::{Arm, Attribute, Expr, ExprNode, Pat};
use source_words::Word;
use std::alloc::Global;
use std::mem;
use text_core::{Items, NoMemory, Span};

/// The arms of a `match` so far.
pub struct Matching {
    /// What is matched.
    pub matched: Option<Expr>,
    pub arms: Items<Arm>,
    /// The pattern of the arm that is to come, and where it stands.
    pub pattern: Option<Pat>,
    pub start: Span,
    /// The attributes of the loop or closure of that arm.
    pub attributes: Items<Attribute>,
}

// By hand, so that whoever holds one drops it by a call (docs/architecture.md).
impl Drop for Matching {
    fn drop(self) {
        let Matching {
            matched: _,
            arms: _,
            pattern: _,
            start: _,
            attributes: _,
        } = self;
    }
}

impl Matching {
    fn new(alloc: Global) -> Matching
        ensures { result ≡ no_arms }
    {
        Matching {
            matched: None,
            arms: Items::new(alloc),
            pattern: None,
            start: NOWHERE,
            attributes: Items::new(alloc),
        }
    }

    /// An expression before the first pattern is what is matched, and one behind a pattern the body of its arm.
    #[tactic(auto, unfolding(crate::specs::MakeStatements::with_body))]
    fn add_expr(&mut self, alloc: Global, span: Span, expr: Expr) -> Result<(), NoMemory>
        ensures { IfOk result (λ _. self.new ≡ with_body self.old span expr self.old.pattern) }
    {
        match mem::replace(&mut self.pattern, None) {
            Some(pattern) => {
                let attributes = mem::replace(&mut self.attributes, Items::new(alloc));
                let body = with_attributes(alloc, attributes, expr)?;
                let span = across(self.start, span);
                self.arms.push(Arm {
                    span,
                    pattern,
                    body,
                })
            }
            None => {
                self.matched = Some(expr);
                Ok(())
            }
        }
    }

    /// Adds what stands next.
    #[tactic(auto, unfolding(crate::specs::MakeStatements::with_part))]
    fn add(&mut self, alloc: Global, span: Span, element: Element) -> Result<(), NoMemory>
        ensures { IfOk result (λ _. self.new ≡ with_part self.old span element) }
    {
        match element {
            Element::Pattern(pattern) => {
                self.pattern = Some(pattern);
                self.start = span;
                Ok(())
            }
            Element::Expr(expr) => self.add_expr(alloc, span, expr),
            Element::Attribute(attribute) => self.attributes.push(attribute),
            _ => Ok(()),
        }
    }

    /// The `match` with these arms.
    #[tactic(auto, unfolding(crate::specs::MakeStatements::match_of))]
    fn whole(self, alloc: Global, span: Span) -> Result<Expr, NoMemory>
        ensures { IfOk result (λ e. e ≡ match_of span self) }
    {
        let Matching {
            matched,
            arms,
            pattern: _,
            start: _,
            attributes: _,
        } = self;
        let matched = or_nothing(alloc, matched)?;
        made(alloc, span, ExprNode::Match(matched, arms.into_vec()))
    }
}

/// The expression; where it is none, the literal `false` at the start of the source.
fn or_nothing(alloc: Global, expr: Option<Expr>) -> Result<Expr, NoMemory>
    ensures { IfOk result (λ e. e ≡ unwrap_or expr (truth nowhere false)) }
{
    match expr {
        Some(expr) => Ok(expr),
        None => nothing(alloc),
    }
}

/// What is matched, and the arms, among the parts.
#[tactic(auto, unfolding(crate::specs::MakeStatements::arms_in))]
fn arms_in(alloc: Global, words: &[Word], parts: &mut Vec<Part>) -> Result<Matching, NoMemory>
    ensures { IfOk result (λ m. m ≡ arms_in words.now no_arms (reverse parts.old.items)) }
{
    let mut matching = Matching::new(alloc);
    while let Some(part) = next(parts) {
        let span = part.span(words);
        let element = part.value.into_element(words, part.from, part.to);
        matching.add(alloc, span, element)?;
    }
    Ok(matching)
}

/// `match`, what is matched, and the arms in braces. Err only for want of memory.
#[tactic(auto, unfolding(crate::specs::MakeStatements::match_made))]
pub(crate) fn match_expr(
    alloc: Global,
    words: &[Word],
    from: usize,
    to: usize,
    parts: &mut Vec<Part>,
) -> Result<Value, NoMemory>
    ensures { IfOk result (λ v. v ≡ match_made words.now from to (reverse parts.old.items)) }
{
    let matching = arms_in(alloc, words, parts)?;
    let span = span_from(words, from, to);
    Ok(Value::Expr(matching.whole(alloc, span)?))
}
