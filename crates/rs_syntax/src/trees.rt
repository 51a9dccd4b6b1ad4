//! What tokens and lines of the grammar are made into.
ghost use Rattle.std.specs.Prelude.{◌≡◌, reverse, IfOk};
ghost use Rattle.rs_syntax.specs.Make.{expr_made, code_made, value_made, is_kept, trees};

use crate::make_attributes::{clause, derive};
use crate::make_blocks::{attributed, block};
use crate::make_expressions::{
    self, arguments, break_off, closure, go_on, in_parens, integer, logical, member, panicking,
    path_or_literal, prefix, receiver, returned, truth,
};
use crate::make_fields::{enum_item, field, node_value, struct_item, tuple_field, variant};
use crate::make_functions::{function, impl_head, impl_item, shape_parts, trait_item, view_type};
use crate::make_generics::{
    borrowed_param, call_bound, conditions, generics, lifetime_condition, lifetime_param,
    mut_named_param, mut_receiver, named_param, receiver_param, trait_bound, type_condition,
    type_param,
};
use crate::make_items::{item, method};
use crate::make_matches::match_expr;
use crate::make_operators::{assignment, operation};
use crate::make_statements::{
    blocklike, branch, endless_loop, let_condition, let_statement, while_loop,
};
use crate::part::{Part, Value};
use grammar_tables::{Expansion, SemanticValue};
use pearlite::{Value as Shape, make_shape};
use source_grammar::{Action, CodeAction, action_of, is_for_several};
use source_trees::ItemNode;
use source_words::Word;
use std::alloc::{AllocError, Global};
use text_core::{Items, NoMemory};

/// What a line of statements or expressions makes.
#[tactic(auto, unfolding(crate::specs::Make::expr_made))]
fn make_expr(
    alloc: Global,
    words: &[Word],
    action: CodeAction,
    from: usize,
    to: usize,
    parts: &mut Vec<Part>,
) -> Result<Value, NoMemory>
    ensures { IfOk result (λ v. v ≡ expr_made action words.now from to (reverse parts.old.items)) }
{
    match action {
        CodeAction::Block => block(alloc, words, from, to, parts),
        CodeAction::Blocklike => blocklike(alloc, words, to, parts),
        CodeAction::Let => let_statement(alloc, words, from, to, parts),
        CodeAction::If => branch(alloc, words, from, to, parts),
        CodeAction::Match => match_expr(alloc, words, from, to, parts),
        CodeAction::While => while_loop(alloc, words, from, to, parts),
        CodeAction::Forever => endless_loop(alloc, words, from, to, parts),
        CodeAction::LetCondition => let_condition(alloc, parts),
        CodeAction::Assignment => assignment(alloc, words, to, parts),
        CodeAction::Operation => operation(alloc, words, from, parts),
        CodeAction::Prefix => prefix(alloc, words, from, to, parts),
        CodeAction::Member => member(alloc, words, from, parts),
        CodeAction::Arguments => arguments(alloc, parts),
        CodeAction::Attributed => attributed(alloc, words, parts),
        CodeAction::Return => returned(alloc, words, from, to, parts),
        CodeAction::IntegerExpr => integer(alloc, words, from, to),
        CodeAction::TruthExpr => truth(alloc, words, from, to),
        CodeAction::SelfExpr => receiver(alloc, words, from, to),
        CodeAction::ParenExpr => in_parens(alloc, words, from, to, parts),
        CodeAction::Break => break_off(alloc, words, from, to),
        CodeAction::Continue => go_on(alloc, words, from, to),
        CodeAction::PanicCall => panicking(alloc, words, from, to),
        CodeAction::GhostCall => logical(alloc, words, from, to, parts),
        CodeAction::PathExpr => path_or_literal(alloc, words, from, to, parts),
        CodeAction::FieldExpr => make_expressions::field(alloc, words, from, to, parts),
        CodeAction::Closure => closure(alloc, words, from, to, parts),
        _ => Ok(Value::Shape(Shape::Passed)),
    }
}

/// What a line of items makes, or of statements and expressions.
#[tactic(auto, unfolding(crate::specs::Make::code_made))]
fn make_code(
    alloc: Global,
    words: &[Word],
    action: CodeAction,
    from: usize,
    to: usize,
    parts: &mut Vec<Part>,
) -> Result<Value, NoMemory>
    ensures { IfOk result (λ v. v ≡ code_made action words.now from to (reverse parts.old.items)) }
{
    match action {
        CodeAction::Passed => Ok(Value::Shape(Shape::Passed)),
        CodeAction::Item => item(alloc, words, from, to, parts),
        CodeAction::Clause => Ok(clause(words, from, parts)),
        CodeAction::Derive => derive(alloc, words, parts),
        CodeAction::Use => node_value(alloc, ItemNode::Use),
        CodeAction::ExternCrate => node_value(alloc, ItemNode::ExternCrate),
        CodeAction::Function => function(alloc, words, from, parts),
        CodeAction::Generics => generics(alloc, parts),
        CodeAction::LifetimeParam => lifetime_param(alloc, words, from, to),
        CodeAction::TypeParam => type_param(alloc, words, from, to, parts),
        CodeAction::Where => conditions(alloc, parts),
        CodeAction::TypeCondition => type_condition(alloc, words, from, to, parts),
        CodeAction::LifetimeCondition => lifetime_condition(alloc, words, from, to),
        CodeAction::TraitBound => trait_bound(alloc, words, from, to),
        CodeAction::CallBound => call_bound(alloc, words, from, to, parts),
        CodeAction::NamedParam => named_param(alloc, words, from, to, parts),
        CodeAction::MutNamedParam => mut_named_param(alloc, words, from, to, parts),
        CodeAction::MutReceiver => mut_receiver(alloc, words, from, to),
        CodeAction::ReceiverParam => receiver_param(alloc, words, from, to),
        CodeAction::BorrowedParam => borrowed_param(alloc, words, from, to),
        CodeAction::Struct => struct_item(alloc, words, from, to, parts),
        CodeAction::Field => field(alloc, words, from, to, parts),
        CodeAction::TupleField => tuple_field(alloc, words, from, to, parts),
        CodeAction::Enum => enum_item(alloc, words, from, parts),
        CodeAction::Variant => variant(alloc, words, from, to, parts),
        CodeAction::Trait => trait_item(alloc, words, from, parts),
        CodeAction::Method => method(alloc, words, from, to, parts),
        CodeAction::Impl => impl_item(alloc, words, parts),
        CodeAction::ImplHead => impl_head(alloc, words, from, to, parts),
        CodeAction::ViewType => view_type(alloc, words, from, to, parts),
        other => make_expr(alloc, words, other, from, to, parts),
    }
}

/// What a line makes of its parts, the last of which comes first. Its tokens are those from `from` to before `to`.
fn make_value(
    alloc: Global,
    words: &[Word],
    action: Action,
    from: usize,
    to: usize,
    parts: &mut Vec<Part>,
) -> Result<Value, NoMemory>
    ensures { IfOk result (λ v. v ≡ value_made action words.now from to (reverse parts.old.items)) }
{
    match action {
        Action::Keep => Ok(Value::Shape(Shape::Passed)),
        Action::Shape(action) => {
            let mut shapes = shape_parts(alloc, parts)?;
            let shape = make_shape(alloc, words, action, from, to, &mut shapes)?;
            Ok(Value::Shape(shape))
        }
        Action::Code(action) => make_code(alloc, words, action, from, to, parts),
    }
}

/// Whether a line stays as its parts. Some lines do where they have one part alone.
fn is_kept(action: Action, several: bool, count: usize) -> bool
    ensures { result ≡ is_kept action several count }
{
    match action {
        Action::Keep => true,
        Action::Shape(_) | Action::Code(_) => several && count < 2,
    }
}

impl SemanticValue for Part {
    type Context = Items<Word>;

    ghost actions = { trees };

    fn leaf(context: &Items<Word>, terminal: u8, position: usize) -> Option<Part> {
        Some(Part {
            value: Value::Shape(Shape::Token),
            from: position,
            to: position + 1,
        })
    }

    fn keeps(context: &Items<Word>, nonterminal: u16, alternative: u8, count: usize) -> bool {
        is_kept(action_of(nonterminal), is_for_several(nonterminal), count)
    }

    fn action(
        context: &Items<Word>,
        alloc: Global,
        expansion: Expansion,
        end: usize,
        parts: &mut Vec<Part>,
    ) -> Result<Part, AllocError> {
        let action = action_of(expansion.nonterminal);
        let from = expansion.first_token;
        match make_value(alloc, context.as_slice(), action, from, end, parts) {
            Ok(value) => Ok(Part {
                value,
                from,
                to: end,
            }),
            Err(NoMemory) => Err(AllocError),
        }
    }
}
