//! What operands make.
ghost use Rattle.std.specs.Prelude.{◌≡◌, pos, ◌≤ℤ◌, false, get_or, reverse, slice_get, unwrap_or, IfOk, IfSome};
ghost use Rattle.pearlite.specs.Parts.{no_path, nowhere, span_from};
ghost use Rattle.source_trees.specs.Pterm.{truth as term_truth};
ghost use Rattle.source_trees.specs.ExprView.{expr_of};
ghost use Rattle.rs_syntax.specs.declared.part.Value.TheVariants as V;
ghost use Rattle.rs_syntax.specs.MakeExpressions.{arguments_made, break_made, closure_made, continue_made, field_made, ghost_made, integer_made, member_made, panic_made, parens_made, path_made, prefix_made, return_made, self_made, truth_made};
ghost use Rattle.rs_syntax.specs.MakeExpressions.{magnitude, member_by, negated, own_path, own_value, parens_by, prefixed};

use crate::found::{Found, exprs_in, first_expr, found_in, take_all, take_first};
use crate::nodes::made;
use crate::part::{Part, Suffix, Value, word_behind};
use crate::places::segment_behind;
use pearlite::{NOWHERE, is_at, is_before, number_of, segment_at, span_from, unsigned, word_at};
use source_grammar::kinds;
use source_kinds::IntKind;
use source_trees::{
    Expr, ExprNode, FieldExpr, GhostMacro, PanicMacro, Path, PathNode, Pterm, PtermNode, Segment,
    UnaryOp,
};
use source_words::Word;
use std::alloc::Global;
use text_core::{Boxed, Items, Name, NoMemory, Span};

/// An expression of one or more tokens. Err only for want of memory.
pub(crate) fn plain(
    alloc: Global,
    words: &[Word],
    from: usize,
    to: usize,
    node: ExprNode,
) -> Result<Value, NoMemory>
    ensures { IfOk result (λ v. v ≡ V.Expr (expr_of (span_from words.now from to) node)) }
{
    let expr = made(alloc, span_from(words, from, to), node)?;
    Ok(Value::Expr(expr))
}

#[tactic(auto, unfolding(crate::specs::MakeExpressions::integer_made))]
pub(crate) fn integer(
    alloc: Global,
    words: &[Word],
    from: usize,
    to: usize,
) -> Result<Value, NoMemory>
    ensures { IfOk result (λ v. v ≡ integer_made words.now from to) }
{
    let word = word_at(words, from);
    plain(
        alloc,
        words,
        from,
        to,
        ExprNode::Int(word.value, word.suffix),
    )
}

#[tactic(auto, unfolding(crate::specs::MakeExpressions::truth_made))]
pub(crate) fn truth(
    alloc: Global,
    words: &[Word],
    from: usize,
    to: usize,
) -> Result<Value, NoMemory>
    ensures { IfOk result (λ v. v ≡ truth_made words.now from to) }
{
    let holds = is_at(words, kinds::KW_TRUE, from);
    plain(alloc, words, from, to, ExprNode::Truth(holds))
}

#[tactic(auto, unfolding(crate::specs::MakeExpressions::self_made))]
pub(crate) fn receiver(
    alloc: Global,
    words: &[Word],
    from: usize,
    to: usize,
) -> Result<Value, NoMemory>
    ensures { IfOk result (λ v. v ≡ self_made words.now from to) }
{
    plain(alloc, words, from, to, ExprNode::Receiver)
}

#[tactic(auto, unfolding(crate::specs::MakeExpressions::break_made))]
pub(crate) fn break_off(
    alloc: Global,
    words: &[Word],
    from: usize,
    to: usize,
) -> Result<Value, NoMemory>
    ensures { IfOk result (λ v. v ≡ break_made words.now from to) }
{
    plain(alloc, words, from, to, ExprNode::Break)
}

#[tactic(auto, unfolding(crate::specs::MakeExpressions::continue_made))]
pub(crate) fn go_on(
    alloc: Global,
    words: &[Word],
    from: usize,
    to: usize,
) -> Result<Value, NoMemory>
    ensures { IfOk result (λ v. v ≡ continue_made words.now from to) }
{
    plain(alloc, words, from, to, ExprNode::Continue)
}

/// `(`, the arguments, `)`. Err only for want of memory.
#[tactic(auto, unfolding(crate::specs::MakeExpressions::arguments_made))]
pub(crate) fn arguments(alloc: Global, parts: &mut Vec<Part>) -> Result<Value, NoMemory>
    ensures { IfOk result (λ v. v ≡ arguments_made (reverse parts.old.items)) }
{
    let exprs = exprs_in(alloc, parts)?;
    Ok(Value::Arguments(exprs))
}

/// One expression without a comma is itself, and else a tuple.
#[tactic(auto, unfolding(crate::specs::MakeExpressions::parens_by))]
fn parens(alloc: Global, span: Span, comma: bool, exprs: Items<Expr>) -> Result<Expr, NoMemory>
    ensures { IfOk result (λ e. e ≡ parens_by span comma exprs) }
{
    let mut exprs = exprs.into_vec();
    if comma || exprs.len() != 1 {
        return made(alloc, span, ExprNode::Tuple(exprs));
    }
    match exprs.pop() {
        Some(expr) => Ok(expr),
        None => made(alloc, span, ExprNode::Tuple(exprs)),
    }
}

/// `(`, expressions, `)`. Err only for want of memory.
#[tactic(auto, unfolding(crate::specs::MakeExpressions::parens_made))]
pub(crate) fn in_parens(
    alloc: Global,
    words: &[Word],
    from: usize,
    to: usize,
    parts: &mut Vec<Part>,
) -> Result<Value, NoMemory>
    ensures { IfOk result (λ v. v ≡ parens_made words.now from to (reverse parts.old.items)) }
{
    let exprs = exprs_in(alloc, parts)?;
    let span = span_from(words, from, to);
    let comma = is_before(words, kinds::COMMA, to, 2);
    let expr = parens(alloc, span, comma, exprs)?;
    Ok(Value::Expr(expr))
}

/// `panic!("..")` or `unreachable!("..")`, with its text if one is written. Err only for want of memory.
#[tactic(auto, unfolding(crate::specs::MakeExpressions::panic_made, crate::specs::MakeExpressions::text_at))]
pub(crate) fn panicking(
    alloc: Global,
    words: &[Word],
    from: usize,
    to: usize,
) -> Result<Value, NoMemory>
    ensures { IfOk result (λ v. v ≡ panic_made words.now from to) }
{
    let name = if is_at(words, kinds::WORD_UNREACHABLE, from) {
        PanicMacro::Unreachable
    } else {
        PanicMacro::Panic
    };
    let word = word_behind(words, from, 3);
    let text = if word.kind == kinds::STRING_LITERAL {
        Some(word.span)
    } else {
        None
    };
    plain(alloc, words, from, to, ExprNode::Panic(name, text))
}

/// The next term; where none is left, `false` at the start of the source.
fn term(alloc: Global, terms: &mut Items<Pterm>) -> Result<Pterm, NoMemory>
    ensures { IfOk result (λ t. t ≡ get_or terms.old 0 (term_truth nowhere false)) }
{
    match take_first(alloc, terms) {
        Some(term) => Ok(term),
        None => {
            let node = Box::new(alloc, PtermNode::Truth(false))?;
            Ok(Pterm {
                span: NOWHERE,
                node,
            })
        }
    }
}

/// `proof_assert!(t)` or `snapshot!(t)`. Err only for want of memory.
#[tactic(auto, unfolding(crate::specs::MakeExpressions::ghost_made))]
pub(crate) fn logical(
    alloc: Global,
    words: &[Word],
    from: usize,
    to: usize,
    parts: &mut Vec<Part>,
) -> Result<Value, NoMemory>
    ensures { IfOk result (λ v. v ≡ ghost_made words.now from to (reverse parts.old.items)) }
{
    let mut found = found_in(alloc, parts)?;
    let name = if is_at(words, kinds::WORD_SNAPSHOT, from) {
        GhostMacro::Snapshot
    } else {
        GhostMacro::ProofAssert
    };
    let term = term(alloc, &mut found.terms)?;
    plain(alloc, words, from, to, ExprNode::Ghost(name, term))
}

/// The next path; where none is left, the name 0 at the start of the source.
fn path(alloc: Global, paths: &mut Items<Path>) -> Path
    ensures { result ≡ get_or paths.old 0 no_path }
{
    match take_first(alloc, paths) {
        Some(path) => path,
        None => {
            let name = Segment {
                name: Name(0),
                span: NOWHERE,
            };
            own_path(alloc, name)
        }
    }
}

/// A name alone as a path.
fn own_path(alloc: Global, name: Segment) -> Path
    ensures { result ≡ own_path name }
{
    let node = PathNode::Names(name, Items::new(alloc), Items::new(alloc));
    Path {
        span: name.span,
        node,
    }
}

/// A path, and the fields in braces behind it. Err only for want of memory.
#[tactic(auto, unfolding(crate::specs::MakeExpressions::path_made))]
pub(crate) fn path_or_literal(
    alloc: Global,
    words: &[Word],
    from: usize,
    to: usize,
    parts: &mut Vec<Part>,
) -> Result<Value, NoMemory>
    ensures { IfOk result (λ v. v ≡ path_made words.now from to (reverse parts.old.items)) }
{
    let mut found = found_in(alloc, parts)?;
    let path = path(alloc, &mut found.paths);
    let node = if is_before(words, kinds::CLOSE_BRACE, to, 1) {
        ExprNode::Literal(path, take_all(alloc, &mut found.fields).into_vec())
    } else {
        ExprNode::Path(path)
    };
    plain(alloc, words, from, to, node)
}

/// The value of a field; a name alone is its own.
fn value_of(alloc: Global, name: Segment, value: Option<Expr>) -> Result<Expr, NoMemory>
    ensures { IfOk result (λ e. e ≡ unwrap_or value (own_value name)) }
{
    match value {
        Some(expr) => Ok(expr),
        None => made(alloc, name.span, ExprNode::Path(own_path(alloc, name))),
    }
}

/// A field of a struct literal; a name alone is its own value. Err only for want of memory.
#[tactic(auto, unfolding(crate::specs::MakeExpressions::field_made))]
pub(crate) fn field(
    alloc: Global,
    words: &[Word],
    from: usize,
    to: usize,
    parts: &mut Vec<Part>,
) -> Result<Value, NoMemory>
    ensures { IfOk result (λ v. v ≡ field_made words.now from to (reverse parts.old.items)) }
{
    let mut exprs = exprs_in(alloc, parts)?;
    let name = segment_at(words, from);
    let value = value_of(alloc, name, take_first(alloc, &mut exprs))?;
    let span = span_from(words, from, to);
    let field = Boxed::new(alloc, FieldExpr { span, name, value })?;
    Ok(Value::FieldExpr(field))
}

/// `return`, and what is returned if it is written. Err only for want of memory.
#[tactic(auto, unfolding(crate::specs::MakeExpressions::return_made, crate::specs::MakeExpressions::return_by))]
pub(crate) fn returned(
    alloc: Global,
    words: &[Word],
    from: usize,
    to: usize,
    parts: &mut Vec<Part>,
) -> Result<Value, NoMemory>
    ensures { IfOk result (λ v. v ≡ return_made words.now from to (reverse parts.old.items)) }
{
    let mut exprs = exprs_in(alloc, parts)?;
    let node = match take_first(alloc, &mut exprs) {
        Some(expr) => ExprNode::ReturnWith(expr),
        None => ExprNode::Return,
    };
    plain(alloc, words, from, to, node)
}

/// A closure. Err only for want of memory.
#[tactic(auto, unfolding(crate::specs::MakeExpressions::closure_made))]
pub(crate) fn closure(
    alloc: Global,
    words: &[Word],
    from: usize,
    to: usize,
    parts: &mut Vec<Part>,
) -> Result<Value, NoMemory>
    ensures { IfOk result (λ v. v ≡ closure_made words.now from to (reverse parts.old.items)) }
{
    let mut found = found_in(alloc, parts)?;
    let body = found.next_expr(alloc)?;
    let answer = take_first(alloc, &mut found.types);
    let first = word_at(words, from).span;
    let moving = is_at(words, kinds::KW_MOVE, from);
    let params = take_all(alloc, &mut found.params);
    let node = ExprNode::Closure(first, moving, params, answer, body);
    plain(alloc, words, from, to, node)
}

/// The integer, where it is one that is not negative.
#[tactic(auto, unfolding(crate::specs::MakeExpressions::magnitude))]
fn magnitude(operand: &Expr) -> Option<(i128, Option<IntKind>)>
    ensures value { result ≡ magnitude operand.now }
    ensures low { IfSome result (λ p. pos 0 ≤ℤ p.0) }
{
    match &*operand.node {
        ExprNode::Int(value, suffix) => unsigned(*value, *suffix),
        _ => None,
    }
}

/// `-` and the operand.
#[tactic(auto, unfolding(crate::specs::MakeExpressions::negated))]
fn negation(alloc: Global, span: Span, place: Span, operand: Expr) -> Result<Expr, NoMemory>
    ensures { IfOk result (λ e. e ≡ negated (magnitude operand) span place operand) }
{
    match magnitude(&operand) {
        Some((value, suffix)) => made(alloc, span, ExprNode::Int(-value, suffix)),
        None => made(alloc, span, ExprNode::Unary(UnaryOp::Neg, place, operand)),
    }
}

/// The operator before the operand, which is the token at `from`.
#[tactic(auto, unfolding(crate::specs::MakeExpressions::prefixed))]
fn prefixed(
    alloc: Global,
    words: &[Word],
    from: usize,
    span: Span,
    operand: Expr,
) -> Result<Expr, NoMemory>
    ensures { IfOk result (λ e. e ≡ prefixed words.now from span operand) }
{
    let word = word_at(words, from);
    match word.kind {
        kinds::MINUS => negation(alloc, span, word.span, operand),
        kinds::NOT => made(
            alloc,
            span,
            ExprNode::Unary(UnaryOp::Not, word.span, operand),
        ),
        kinds::STAR => made(
            alloc,
            span,
            ExprNode::Unary(UnaryOp::Deref, word.span, operand),
        ),
        _ => {
            let mutable = word_behind(words, from, 1).kind == kinds::KW_MUT;
            made(alloc, span, ExprNode::Borrow(mutable, operand))
        }
    }
}

/// An operator and its operand. Err only for want of memory.
#[tactic(auto, unfolding(crate::specs::MakeExpressions::prefix_made))]
pub(crate) fn prefix(
    alloc: Global,
    words: &[Word],
    from: usize,
    to: usize,
    parts: &mut Vec<Part>,
) -> Result<Value, NoMemory>
    ensures { IfOk result (λ v. v ≡ prefix_made words.now from to (reverse parts.old.items)) }
{
    let operand = first_expr(alloc, parts)?;
    let span = span_from(words, from, to);
    let expr = prefixed(alloc, words, from, span, operand)?;
    Ok(Value::Expr(expr))
}

/// A field, or a method with its arguments.
#[tactic(auto, unfolding(crate::specs::MakeExpressions::member_by))]
fn member_by(alloc: Global, name: Segment, found: &mut Found) -> Suffix
    ensures { result ≡ member_by name found.old.types (slice_get found.old.arguments 0) }
{
    let types = take_all(alloc, &mut found.types);
    match take_first(alloc, &mut found.arguments) {
        Some(arguments) => Suffix::Method(name, types, arguments),
        None => Suffix::Field(name, types),
    }
}

/// `.` and a number, a field or a method. Err only for want of memory.
#[tactic(auto, unfolding(crate::specs::MakeExpressions::member_made))]
pub(crate) fn member(
    alloc: Global,
    words: &[Word],
    from: usize,
    parts: &mut Vec<Part>,
) -> Result<Value, NoMemory>
    ensures { IfOk result (λ v. v ≡ member_made words.now from (reverse parts.old.items)) }
{
    let mut found = found_in(alloc, parts)?;
    let word = word_behind(words, from, 1);
    let suffix = if word.kind == kinds::INTEGER {
        Suffix::Part(number_of(word))
    } else {
        member_by(alloc, segment_behind(words, from, 1), &mut found)
    };
    let suffix = Boxed::new(alloc, suffix)?;
    Ok(Value::Suffix(suffix))
}
