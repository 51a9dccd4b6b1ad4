//! Loops, part by part.
ghost use Rattle.std.specs.Prelude.{◌≡◌, None, Some, OnOk};
ghost use Rattle.source_trees.specs.Expr as E;
ghost use Rattle.type_check.specs.Answers.{Answers};
ghost use Rattle.type_check.specs.Setting.{setting_of};
ghost use Rattle.type_check.specs.Typing.{typed};

use crate::arms::repeated_by;
use crate::elaborate::invariants_of;
use crate::expressions::type_expr;
use crate::matching::type_arm;
use crate::scope::Variable;
use crate::setting::Setting;
use crate::typed::TypedExpr;
use crate::typing::{endless, repeat, ty_of};
use logic_term::Ty;
use source_trees::{Attribute, Expr, Pat};
use std::alloc::Global;
use text_core::{PassError, Span};

/// `while` with the attributes before it, which are its invariants.
#[cycle(type_expr)]
#[tactic(auto, using(crate::proofs::Parts::parts))]
pub(crate) fn type_while(
    alloc: Global,
    setting: &Setting<'_>,
    scope: &mut Vec<Variable>,
    expected: &Option<Ty>,
    whole: Span,
    attributes: &[Attribute],
    condition: &Expr,
    body: &Expr,
) -> Result<TypedExpr, PassError>
    ensures answers { Answers result (typed (setting_of setting.now) scope.old.items (E.attributed whole attributes.now (E.repeat whole None condition.now body.now)) expected.now) }
    ensures kept { OnOk result (scope.new.items ≡ scope.old.items) }
{
    let types = setting.types.decls();
    let invariants = invariants_of(alloc, types, scope.as_slice(), attributes)?;
    let outside = setting.within(false);
    let condition = type_expr(alloc, &outside, scope, condition, &Some(Ty::bool()))?;
    let inside = setting.within(true);
    let body = type_expr(alloc, &inside, scope, body, &Some(Ty::unit(alloc)))?;
    repeat(alloc, expected, whole, invariants, condition, body)
}

/// `while let` with the attributes before it, which are its invariants.
#[cycle(type_expr)]
pub(crate) fn type_while_by(
    alloc: Global,
    setting: &Setting<'_>,
    scope: &mut Vec<Variable>,
    expected: &Option<Ty>,
    whole: Span,
    attributes: &[Attribute],
    pattern: &Pat,
    value: &Expr,
    body: &Expr,
) -> Result<TypedExpr, PassError>
    ensures answers { Answers result (typed (setting_of setting.now) scope.old.items (E.attributed whole attributes.now (E.repeat whole (Some pattern.now) value.now body.now)) expected.now) }
    ensures kept { OnOk result (scope.new.items ≡ scope.old.items) }
{
    let types = setting.types.decls();
    let invariants = invariants_of(alloc, types, scope.as_slice(), attributes)?;
    let outside = setting.within(false);
    let value = type_expr(alloc, &outside, scope, value, &None)?;
    let inside = setting.within(true);
    let wanted = Some(Ty::unit(alloc));
    let arm = type_arm(alloc, &inside, scope, ty_of(&value), &wanted, pattern, body)?;
    repeated_by(alloc, expected, whole, invariants, value, arm)
}

/// `loop` with the attributes before it, which are its invariants.
#[cycle(type_expr)]
#[tactic(auto, using(crate::proofs::Parts::parts))]
pub(crate) fn type_loop(
    alloc: Global,
    setting: &Setting<'_>,
    scope: &mut Vec<Variable>,
    expected: &Option<Ty>,
    whole: Span,
    attributes: &[Attribute],
    body: &Expr,
) -> Result<TypedExpr, PassError>
    ensures answers { Answers result (typed (setting_of setting.now) scope.old.items (E.attributed whole attributes.now (E.endless whole body.now)) expected.now) }
    ensures kept { OnOk result (scope.new.items ≡ scope.old.items) }
{
    let types = setting.types.decls();
    let invariants = invariants_of(alloc, types, scope.as_slice(), attributes)?;
    let inside = setting.within(true);
    let body = type_expr(alloc, &inside, scope, body, &Some(Ty::unit(alloc)))?;
    endless(alloc, expected, whole, invariants, body)
}
