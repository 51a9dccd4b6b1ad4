//! The arms of a `match`: their patterns, the scopes of their bodies, and the whole that is made of them.
ghost use Rattle.std.specs.Prelude.{◌≡◌, IfOk, OnOk};
ghost use Rattle.type_check.specs.Answers.{Answers, AnswersAs};
ghost use Rattle.type_check.specs.Arms.{arm_by, in_arm, or_else_arm, pattern_at, unbuilt_name};
ghost use Rattle.type_check.specs.TypedExpr as tree;
ghost use Rattle.type_check.specs.TypedExprView.{arms_of, ty_of};
ghost use Rattle.type_check.specs.Typing.{chosen_by, fit, matched, nothing, repeated_by};
ghost use Rattle.type_check.specs.WellTyped.{unit};

use crate::assertion::Assertion;
use crate::refusal::unbuilt;
use crate::scope::Variable;
use crate::typed::{TypedArm, TypedExpr, TypedNode};
use crate::types::is_built;
use crate::typing::{asked, fit, given_by, ty_of};
use logic_term::{AdtDecl, PatNode, Ty, TypedPat};
use pat_types::{BoundName, PatternTyping, type_pattern};
use rs_types::AdtTable;
use source_trees::Pat;
use std::alloc::Global;
use text_core::{NoMemory, PassError, Span};

/// Typed arms, and the type that is asked of one behind them.
#[derive(Drop)]
pub(crate) struct Arms {
    pub(crate) arms: Vec<TypedArm>,
    pub(crate) asked: Option<Ty>,
}

/// The first name whose type is not built.
fn unbuilt_name(types: &[AdtDecl], names: &[BoundName]) -> Option<Span>
    ensures { result ≡ unbuilt_name types.now names.now }
{
    for name in names {
        if !is_built(types, &name.ty) {
            return Some(name.span);
        }
    }
    None
}

/// The pattern at a value of the type. E20 at a name whose type is not built.
#[tactic(auto, unfolding(crate::specs::Arms::pattern_at))]
pub(crate) fn pattern_at(
    alloc: Global,
    types: &AdtTable,
    ty: &Ty,
    pattern: &Pat,
) -> Result<PatternTyping, PassError>
    ensures { AnswersAs result (pattern_at types.now ty.now pattern.now) (λ a. (a.pattern, a.names.items)) }
{
    let typing = type_pattern(alloc, types, pattern, ty)?;
    match unbuilt_name(types.decls(), typing.names.as_slice()) {
        Some(span) => Err(unbuilt(span)),
        None => Ok(typing),
    }
}

/// Puts the names of a pattern into the scope.
pub(crate) fn declare_names(
    alloc: Global,
    scope: &mut Vec<Variable>,
    names: &[BoundName],
) -> Result<(), NoMemory>
    ensures { OnOk result (scope.new.items ≡ in_arm scope.old.items names.now) }
{
    for i in 0..names.len() {
        let bound = &names[i];
        scope.push(Variable {
            name: bound.name,
            ty: bound.ty.copy(alloc)?,
            mutable: bound.mutable,
        })?;
    }
    Ok(())
}

/// What the arms come to together: they fit every type where all of them leave.
pub(crate) fn matched(
    alloc: Global,
    expected: &Option<Ty>,
    span: Span,
    value: TypedExpr,
    arms: Arms,
) -> Result<TypedExpr, PassError>
    ensures { Answers result (matched expected.now span value (arms_of arms.arms.items, arms.asked)) }
{
    let ty = asked(alloc, &arms.asked)?;
    let node = TypedNode::Match(value, arms.arms);
    fit(alloc, expected, span, ty, span, node)
}

/// The arm, and one of anything else, of the type.
fn or_else_arm(
    alloc: Global,
    ty: &Ty,
    arm: TypedArm,
    other: TypedExpr,
) -> Result<Vec<TypedArm>, NoMemory>
    ensures { IfOk result (λ v. arms_of v.items ≡ or_else_arm ty.now (arm_by arm) other) }
{
    let pattern = TypedPat {
        ty: ty.copy(alloc)?,
        node: Box::new(alloc, PatNode::Wild)?,
    };
    let mut arms = Vec::with_capacity(alloc, 2)?;
    arms.push(arm)?;
    arms.push(TypedArm {
        pattern,
        names: Vec::new(alloc),
        body: other,
    })?;
    Ok(arms)
}

/// `if let` with `else`.
pub(crate) fn chosen_by(
    alloc: Global,
    expected: &Option<Ty>,
    span: Span,
    value: TypedExpr,
    arm: TypedArm,
    other: TypedExpr,
) -> Result<TypedExpr, PassError>
    ensures { Answers result (chosen_by expected.now span value (arm_by arm) other) }
{
    let first = given_by(alloc, expected, &arm.body)?;
    let asked = given_by(alloc, &first, &other)?;
    let arms = or_else_arm(alloc, ty_of(&value), arm, other)?;
    matched(alloc, expected, span, value, Arms { arms, asked })
}

/// `if let` without `else`.
pub(crate) fn branched_by(
    alloc: Global,
    expected: &Option<Ty>,
    span: Span,
    value: TypedExpr,
    arm: TypedArm,
) -> Result<TypedExpr, PassError>
    ensures { Answers result (fit expected.now span (tree.matched unit span value (or_else_arm (ty_of value) (arm_by arm) (nothing span)))) }
{
    let nothing = TypedExpr {
        ty: Ty::unit(alloc),
        span,
        node: Box::new(alloc, TypedNode::Block(Vec::new(alloc)))?,
    };
    let arms = or_else_arm(alloc, ty_of(&value), arm, nothing)?;
    let node = TypedNode::Match(value, arms);
    fit(alloc, expected, span, Ty::unit(alloc), span, node)
}

/// `while let`: a loop that is left where the value does not match.
pub(crate) fn repeated_by(
    alloc: Global,
    expected: &Option<Ty>,
    span: Span,
    invariants: Vec<Assertion>,
    value: TypedExpr,
    arm: TypedArm,
) -> Result<TypedExpr, PassError>
    ensures { Answers result (fit expected.now span (repeated_by span invariants.items value (arm_by arm))) }
{
    let leaving = TypedExpr {
        ty: Ty::unit(alloc),
        span,
        node: Box::new(alloc, TypedNode::Break)?,
    };
    let arms = or_else_arm(alloc, ty_of(&value), arm, leaving)?;
    let turn = TypedExpr {
        ty: Ty::unit(alloc),
        span,
        node: Box::new(alloc, TypedNode::Match(value, arms))?,
    };
    let node = TypedNode::LoopUntilBreak(invariants, turn);
    fit(alloc, expected, span, Ty::unit(alloc), span, node)
}
