//! Places, and what an assignment writes.
ghost use Rattle.std.specs.Prelude.{◌≡◌, ◌+◌, ◌≤◌, ◌∷◌, [], false, length, MatchOption, OnOk, IfOk, IfErr};
ghost use Rattle.type_check.specs.TypedExpr.{part};
ghost use Rattle.type_check.specs.TypedExprView.{ty_of, span_of};
ghost use Rattle.mir_ir.specs.declared.place.Operand.TheVariants.{Copy};
ghost use Rattle.mir_ir.specs.declared.statement.Rvalue.TheVariants.{Use, Binary};
ghost use Rattle.mir_build.specs.Text.{Makes};
ghost use Rattle.mir_build.specs.Lowering.{moved, puts_at, puts, put_unit};
ghost use Rattle.mir_build.specs.Numbered.{place_of};
ghost use Rattle.mir_build.specs.Reach.{reach};
ghost use Rattle.mir_build.specs.Tasks.{root, is_part, is_variable};
ghost use Rattle.mir_build.specs.Built.{written};
ghost use Rattle.mir_build.specs.declared.stop.Stop.TheVariants.{Blocks};

use crate::around::{same_place, variable_place};
use crate::builder::{Builder, moved, whole};
use crate::stop::Stop;
use logic_term::Ty;
use mir_ir::{Operand, Place, Proj, Rvalue};
use source_kinds::BinaryOp;
use std::alloc::Global;
use text_core::{NoMemory, Span};
use type_check::{TypedExpr, TypedNode};

pub(crate) fn is_variable(e: &TypedExpr) -> bool
    ensures { result ≡ is_variable e.now }
{
    match &*e.node {
        TypedNode::Variable(_) => true,
        _ => false,
    }
}

/// What the expression is a part of, with the part's number.
fn part_of(e: &TypedExpr) -> Option<(&TypedExpr, u32)>
    ensures { MatchOption result (is_part e.now ≡ false) (λ p. e.now ≡ part (ty_of e.now) (span_of e.now) p.0.now p.1) }
{
    match &*e.node {
        TypedNode::Part(value, number) => Some((value, *number)),
        _ => None,
    }
}

/// What parts are parts of; the expression itself where it is no part.
#[tactic(auto, using(crate::proofs::Targets::walking))]
pub(crate) fn root_of(e: &TypedExpr) -> &TypedExpr
    ensures { result.now ≡ root e.now }
{
    let mut here = e;
    while let Some((value, _)) = part_of(here) {
        here = value;
    }
    here
}

/// The place of what is no part: that of a variable, or else the local.
fn root_place(alloc: Global, scope: &[Place], e: &TypedExpr, t: u32) -> Result<Place, NoMemory>
    requires part { is_part e.now ≡ false }
    requires scope { reach e.now ≤ length scope.now }
    ensures { IfOk result (λ p. p ≡ place_of scope.now t e.now) }
{
    match &*e.node {
        TypedNode::Variable(v) => variable_place(alloc, scope, *v),
        _ => Ok(whole(alloc, t)),
    }
}

/// The place of the expression, where local `t` is the temporary at its root unless a variable is there.
#[tactic(auto, using(crate::proofs::Targets::walking))]
pub(crate) fn lower_place(
    alloc: Global,
    scope: &[Place],
    e: &TypedExpr,
    t: u32,
) -> Result<Place, NoMemory>
    requires { reach e.now ≤ length scope.now }
    ensures { IfOk result (λ p. p ≡ place_of scope.now t e.now) }
{
    let mut numbers = Vec::new(alloc);
    let mut here = e;
    while let Some((value, number)) = part_of(here) {
        numbers.push(number)?;
        here = value;
    }
    let mut place = root_place(alloc, scope, here, t)?;
    while let Some(number) = numbers.pop() {
        place.path.push(Proj::Field(number))?;
    }
    Ok(place)
}

/// `to = value`: the value is in local `t`, and `d` gets the unit.
#[tactic(auto, using(crate::proofs::Runs::running))]
pub(crate) fn put_assign(
    alloc: Global,
    b: &mut Builder,
    span: Span,
    to: Place,
    t: u32,
    d: u32,
) -> Result<(), NoMemory>
    ensures text { OnOk result (b.new.text ≡ written (puts_at span to (Use (moved t)) ∷ put_unit span d ∷ []) b.old.text) }
    ensures labels { OnOk result (b.new.labels ≡ b.old.labels) }
    ensures locals { OnOk result (length b.new.text.locals ≡ length b.old.text.locals) }
{
    b.put_at(span, to, Rvalue::Use(moved(alloc, t)))?;
    b.put_unit(alloc, span, d)
}

/// `to op= value`: the value is in local `t`, and `d` gets the unit.
#[tactic(auto, using(crate::proofs::Runs::running))]
pub(crate) fn put_update(
    alloc: Global,
    b: &mut Builder,
    span: Span,
    op: BinaryOp,
    to: Place,
    ty: &Ty,
    t: u32,
    d: u32,
) -> Result<(), Stop>
    ensures text { OnOk result (b.new.text ≡ written (let u = length b.old.text.locals in Makes u ty.now ∷ puts span u (Binary op (Copy to) (moved t)) ∷ puts_at span to (Use (moved u)) ∷ put_unit span d ∷ []) b.old.text) }
    ensures labels { OnOk result (b.new.labels ≡ b.old.labels) }
    ensures locals { OnOk result (length b.new.text.locals ≡ length b.old.text.locals + 1) }
    ensures limit { IfErr result (λ stop. stop ≡ Blocks → ⊥) }
{
    let u = b.make(alloc, ty)?;
    let old = Operand::Copy(same_place(alloc, &to)?);
    let value = Rvalue::Binary(op, old, moved(alloc, t));
    b.put(alloc, span, u, value)?;
    b.put_at(span, to, Rvalue::Use(moved(alloc, u)))?;
    b.put_unit(alloc, span, d)?;
    Ok(())
}
