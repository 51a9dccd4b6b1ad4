//! `match` and `if let`, part by part.
ghost use Rattle.std.specs.Prelude.{◌≡◌, Some, OnOk};
ghost use Rattle.source_trees.specs.Expr as E;
ghost use Rattle.source_trees.specs.ExprView.{arms_of as written_arms};
ghost use Rattle.type_check.specs.Answers.{Answers, AnswersAs};
ghost use Rattle.type_check.specs.Arms.{arm_by};
ghost use Rattle.type_check.specs.Setting.{setting_of};
ghost use Rattle.type_check.specs.TypedExpr as tree;
ghost use Rattle.type_check.specs.TypedExprView.{arms_of};
ghost use Rattle.type_check.specs.Typing.{typed, typed_arm, typed_arms};

use crate::arms::{Arms, branched_by, chosen_by, declare_names, matched, pattern_at};
use crate::expressions::type_expr;
use crate::scope::Variable;
use crate::setting::Setting;
use crate::typed::{TypedArm, TypedExpr};
use crate::typing::{copy_asked, given_by, ty_of};
use logic_term::Ty;
use pat_types::PatternTyping;
use source_trees::{Arm, Expr, Pat};
use std::alloc::Global;
use text_core::{PassError, Span};

/// `match`: the first arm that has a value gives its type to those behind it.
#[cycle(type_expr)]
pub(crate) fn type_match(
    alloc: Global,
    setting: &Setting<'_>,
    scope: &mut Vec<Variable>,
    expected: &Option<Ty>,
    whole: Span,
    value: &Expr,
    arms: &[Arm],
) -> Result<TypedExpr, PassError>
    ensures answers { Answers result (typed (setting_of setting.now) scope.old.items (E.matching whole value.now (written_arms arms.now)) expected.now) }
    ensures kept { OnOk result (scope.new.items ≡ scope.old.items) }
{
    let value = type_expr(alloc, setting, scope, value, &None)?;
    let arms = type_arms(alloc, setting, scope, ty_of(&value), expected, arms)?;
    matched(alloc, expected, whole, value, arms)
}

/// `if let` without `else`.
#[cycle(type_expr)]
pub(crate) fn type_branch_by(
    alloc: Global,
    setting: &Setting<'_>,
    scope: &mut Vec<Variable>,
    expected: &Option<Ty>,
    whole: Span,
    pattern: &Pat,
    value: &Expr,
    body: &Expr,
) -> Result<TypedExpr, PassError>
    ensures answers { Answers result (typed (setting_of setting.now) scope.old.items (E.branch whole (Some pattern.now) value.now body.now) expected.now) }
    ensures kept { OnOk result (scope.new.items ≡ scope.old.items) }
{
    let value = type_expr(alloc, setting, scope, value, &None)?;
    let wanted = Some(Ty::unit(alloc));
    let arm = type_arm(alloc, setting, scope, ty_of(&value), &wanted, pattern, body)?;
    branched_by(alloc, expected, whole, value, arm)
}

/// `if let` with `else`: the first of the two gives the other its type, unless it leaves.
#[cycle(type_expr)]
pub(crate) fn type_choice_by(
    alloc: Global,
    setting: &Setting<'_>,
    scope: &mut Vec<Variable>,
    expected: &Option<Ty>,
    whole: Span,
    pattern: &Pat,
    value: &Expr,
    yes: &Expr,
    no: &Expr,
) -> Result<TypedExpr, PassError>
    ensures answers { Answers result (typed (setting_of setting.now) scope.old.items (E.choice whole (Some pattern.now) value.now yes.now no.now) expected.now) }
    ensures kept { OnOk result (scope.new.items ≡ scope.old.items) }
{
    let value = type_expr(alloc, setting, scope, value, &None)?;
    let arm = type_arm(alloc, setting, scope, ty_of(&value), expected, pattern, yes)?;
    let wanted = given_by(alloc, expected, &arm.body)?;
    let no = type_expr(alloc, setting, scope, no, &wanted)?;
    chosen_by(alloc, expected, whole, value, arm, no)
}

/// The arms at a value of the type.
#[cycle(type_expr)]
#[tactic(auto, using(crate::proofs::WrittenArms::parts))]
fn type_arms(
    alloc: Global,
    setting: &Setting<'_>,
    scope: &mut Vec<Variable>,
    ty: &Ty,
    expected: &Option<Ty>,
    arms: &[Arm],
) -> Result<Arms, PassError>
    ensures answers { AnswersAs result (typed_arms (setting_of setting.now) scope.old.items ty.now expected.now tree.no_arms (written_arms arms.now)) (λ a. (arms_of a.arms.items, a.asked)) }
    ensures kept { OnOk result (scope.new.items ≡ scope.old.items) }
{
    let mut typed = Vec::with_capacity(alloc, arms.len())?;
    let mut asked = copy_asked(alloc, expected)?;
    for i in 0..arms.len() {
        let written = &arms[i];
        let arm = type_arm(
            alloc,
            setting,
            scope,
            ty,
            &asked,
            &written.pattern,
            &written.body,
        )?;
        asked = given_by(alloc, &asked, &arm.body)?;
        typed.push(arm)?;
    }
    Ok(Arms { arms: typed, asked })
}

/// An arm of the pattern, whose names are in scope in its body.
#[cycle(type_expr)]
pub(crate) fn type_arm(
    alloc: Global,
    setting: &Setting<'_>,
    scope: &mut Vec<Variable>,
    ty: &Ty,
    asked: &Option<Ty>,
    pattern: &Pat,
    body: &Expr,
) -> Result<TypedArm, PassError>
    ensures answers { AnswersAs result (typed_arm (setting_of setting.now) scope.old.items ty.now asked.now pattern.now body.now) arm_by }
    ensures kept { OnOk result (scope.new.items ≡ scope.old.items) }
{
    let PatternTyping { pattern, names } = pattern_at(alloc, setting.types, ty, pattern)?;
    let around = scope.len();
    declare_names(alloc, scope, names.as_slice())?;
    let body = type_expr(alloc, setting, scope, body, asked)?;
    scope.truncate(around);
    Ok(TypedArm {
        pattern,
        names,
        body,
    })
}
