//! The goals of a statement, and its commands.
ghost use Rattle.std.specs.Prelude.{◌≡◌, ◌∷◌, [], ◌++◌, map, IfOk, Some, slice_get};
ghost use Rattle.logic_term.specs.Ty.{math_int};
ghost use Rattle.logic_term.specs.Term.{is_at_most, is_equal, lit};
ghost use Rattle.mir_ir.specs.Body.{kind_of, kind_in};
ghost use Rattle.prophecy_logic.specs.Row.{value_name, name_of, part_at, place_term, operand_term, integer_term, in_range, is_signed, not_zero, not_least_by_minus_one, operation, division, overflow, if_signed, goals_of_operation, goals_of_kind, goals_of};

use logic_term::{Term, Ty, TyNode};
use mir_ir::{Body, Lit, Operand, Place, Proj, Rvalue, StatementKind};
use prophecy_logic::{Goal, Operation};
use source_kinds::{ArithOp, BinaryOp, IntKind};
use std::alloc::Global;
use text_core::{Kind, Name, NoMemory, Span};

// ---- names and operands

/// The name of a new value, which no local and no contract has.
#[tactic(auto, unfolding(prophecy_logic::specs::Row::value_name))]
pub(crate) fn value_name() -> Name
    ensures { result ≡ value_name }
{
    Name::fresh(1 << 62)
}

pub(crate) fn name_of(body: &Body, local: u32) -> Name
    ensures { result ≡ name_of body.now local }
{
    match body.names.get(local as usize) {
        Some(name) => *name,
        None => value_name(),
    }
}

/// What one step of a path leads to. A box is what it holds.
fn step_into(alloc: Global, whole: Term, step: Proj) -> Result<Term, NoMemory>
    ensures { IfOk result (λ t. t ≡ part_at whole (step ∷ [])) }
{
    match step {
        Proj::Field(number) => Term::field(alloc, whole, number),
        Proj::Variant(_) => Ok(whole),
        Proj::Deref => Ok(whole),
    }
}

/// The part of the term at the end of the path.
fn part_at(alloc: Global, whole: Term, path: &[Proj]) -> Result<Term, NoMemory>
    ensures { IfOk result (λ t. t ≡ part_at whole path.now) }
{
    let mut part = whole;
    for step in path {
        part = step_into(alloc, part, *step)?;
    }
    Ok(part)
}

fn place_term(alloc: Global, body: &Body, place: &Place) -> Result<Term, NoMemory>
    ensures { IfOk result (λ t. t ≡ place_term body.now place.now) }
{
    let whole = Term::var(alloc, name_of(body, place.local))?;
    part_at(alloc, whole, place.path.as_slice())
}

pub(crate) fn operand_term(alloc: Global, body: &Body, operand: &Operand) -> Result<Term, NoMemory>
    ensures { IfOk result (λ t. t ≡ operand_term body.now operand.now) }
{
    match operand {
        Operand::Copy(place) => place_term(alloc, body, place),
        Operand::Move(place) => place_term(alloc, body, place),
        Operand::Const(Lit::Int(number, kind)) => Term::lit(alloc, *number, Ty::int(*kind)),
        Operand::Const(Lit::Bool(holds)) => Term::truth(alloc, *holds),
    }
}

pub(crate) fn operand_terms(
    alloc: Global,
    body: &Body,
    args: &[Operand],
) -> Result<Vec<Term>, NoMemory>
    ensures { IfOk result (λ v. v.items ≡ map (operand_term body.now) args.now) }
{
    let mut terms = Vec::with_capacity(alloc, args.len())?;
    for arg in args {
        terms.push(operand_term(alloc, body, arg)?)?;
    }
    Ok(terms)
}

/// The unbounded integer that the operand is.
pub(crate) fn integer_term(alloc: Global, body: &Body, operand: &Operand) -> Result<Term, NoMemory>
    ensures { IfOk result (λ t. t ≡ integer_term body.now operand.now) }
{
    let value = operand_term(alloc, body, operand)?;
    Term::model(alloc, value)
}

fn kind_of(ty: &Ty) -> Option<IntKind>
    ensures { result ≡ kind_of ty.now }
{
    match &ty.node {
        TyNode::Int(kind) => Some(*kind),
        _ => None,
    }
}

/// The kind of the integers of a local; `None` where its type is another.
pub(crate) fn kind_of_local(body: &Body, local: u32) -> Option<IntKind>
    ensures { result ≡ kind_in (slice_get body.now.locals local) }
{
    kind_of(body.locals.get(local as usize)?)
}

// ---- formulas

fn not_below(alloc: Global, least: i128, number: &Term) -> Result<Term, NoMemory>
    ensures { IfOk result (λ t. t ≡ is_at_most (lit least math_int) number.now) }
{
    let least = Term::integer(alloc, least)?;
    Term::at_most(alloc, least, number.share()?)
}

fn not_above(alloc: Global, number: &Term, greatest: i128) -> Result<Term, NoMemory>
    ensures { IfOk result (λ t. t ≡ is_at_most number.now (lit greatest math_int)) }
{
    let greatest = Term::integer(alloc, greatest)?;
    Term::at_most(alloc, number.share()?, greatest)
}

fn equals(alloc: Global, t: Term, number: i128) -> Result<Term, NoMemory>
    ensures { IfOk result (λ e. e ≡ is_equal t (lit number math_int)) }
{
    let number = Term::integer(alloc, number)?;
    Term::equal(alloc, t, number)
}

#[tactic(auto, unfolding(prophecy_logic::specs::Row::in_range))]
fn in_range(alloc: Global, kind: IntKind, number: &Term) -> Result<Term, NoMemory>
    ensures { IfOk result (λ t. t ≡ in_range kind number.now) }
{
    let above = not_below(alloc, kind.lowest(), number)?;
    let below = not_above(alloc, number, kind.highest())?;
    Term::and(alloc, above, below)
}

#[tactic(auto, unfolding(prophecy_logic::specs::Row::is_signed))]
pub(crate) fn is_signed(kind: IntKind) -> bool
    ensures { result ≡ is_signed kind }
{
    match kind {
        IntKind::I8 | IntKind::I16 | IntKind::I32 | IntKind::I64 | IntKind::Isize => true,
        IntKind::U8 | IntKind::U16 | IntKind::U32 | IntKind::U64 | IntKind::Usize => false,
    }
}

#[tactic(auto, unfolding(prophecy_logic::specs::Row::not_zero))]
fn not_zero(alloc: Global, divisor: Term) -> Result<Term, NoMemory>
    ensures { IfOk result (λ t. t ≡ not_zero divisor) }
{
    let zero = equals(alloc, divisor, 0)?;
    Term::not(alloc, zero)
}

#[tactic(auto, unfolding(prophecy_logic::specs::Row::not_least_by_minus_one))]
fn not_least_by_minus_one(alloc: Global, kind: IntKind, a: Term, b: Term) -> Result<Term, NoMemory>
    ensures { IfOk result (λ t. t ≡ not_least_by_minus_one kind a b) }
{
    let least = equals(alloc, a, kind.lowest())?;
    let minus_one = equals(alloc, b, -1)?;
    let both = Term::and(alloc, least, minus_one)?;
    Term::not(alloc, both)
}

pub(crate) fn operation(op: BinaryOp) -> Operation
    ensures { result ≡ operation op }
{
    match op {
        BinaryOp::Add => Operation::Exact(ArithOp::Add),
        BinaryOp::Sub => Operation::Exact(ArithOp::Sub),
        BinaryOp::Mul => Operation::Exact(ArithOp::Mul),
        BinaryOp::Div => Operation::Divided(ArithOp::Div),
        BinaryOp::Rem => Operation::Divided(ArithOp::Rem),
        BinaryOp::Eq => Operation::Compared,
        BinaryOp::Ne => Operation::Compared,
        BinaryOp::Lt => Operation::Compared,
        BinaryOp::Le => Operation::Compared,
        BinaryOp::Gt => Operation::Compared,
        BinaryOp::Ge => Operation::Compared,
    }
}

// ---- goals

fn overflow(span: Span, formula: Term) -> Goal
    ensures { result ≡ overflow span formula }
{
    Goal {
        kind: Kind::Overflow,
        span,
        formula,
    }
}

fn division(span: Span, formula: Term) -> Goal
    ensures { result ≡ division span formula }
{
    Goal {
        kind: Kind::Division,
        span,
        formula,
    }
}

fn one_goal(alloc: Global, goal: Goal) -> Result<Vec<Goal>, NoMemory>
    ensures { IfOk result (λ v. v.items ≡ goal ∷ []) }
{
    let mut goals = Vec::with_capacity(alloc, 1)?;
    goals.push(goal)?;
    Ok(goals)
}

fn two_goals(alloc: Global, first: Goal, second: Goal) -> Result<Vec<Goal>, NoMemory>
    ensures { IfOk result (λ v. v.items ≡ first ∷ second ∷ []) }
{
    let mut goals = Vec::with_capacity(alloc, 2)?;
    goals.push(first)?;
    goals.push(second)?;
    Ok(goals)
}

/// The goals of a quotient or a remainder.
fn goals_of_division(
    alloc: Global,
    kind: IntKind,
    span: Span,
    a: Term,
    b: Term,
) -> Result<Vec<Goal>, NoMemory>
    ensures { IfOk result (λ v. v.items ≡ division span (not_zero b) ∷ if_signed kind (overflow span (not_least_by_minus_one kind a b) ∷ [])) }
{
    let not_by_zero = division(span, not_zero(alloc, b.share()?)?);
    if is_signed(kind) {
        let not_least = not_least_by_minus_one(alloc, kind, a, b)?;
        return two_goals(alloc, not_by_zero, overflow(span, not_least));
    }
    one_goal(alloc, not_by_zero)
}

fn goals_of_operation(
    alloc: Global,
    kind: IntKind,
    span: Span,
    op: Operation,
    a: Term,
    b: Term,
) -> Result<Vec<Goal>, NoMemory>
    ensures { IfOk result (λ v. v.items ≡ goals_of_operation kind span op a b) }
{
    match op {
        Operation::Exact(op) => {
            let exact = Term::calculate(alloc, op, a, b)?;
            one_goal(alloc, overflow(span, in_range(alloc, kind, &exact)?))
        }
        Operation::Divided(_) => goals_of_division(alloc, kind, span, a, b),
        Operation::Compared => Ok(Vec::new(alloc)),
    }
}

/// The goals of a right side whose place has integers of the kind.
fn goals_of_kind(
    alloc: Global,
    body: &Body,
    kind: IntKind,
    span: Span,
    rvalue: &Rvalue,
) -> Result<Vec<Goal>, NoMemory>
    ensures { IfOk result (λ v. v.items ≡ goals_of_kind body.now (Some kind) span rvalue.now) }
{
    match rvalue {
        Rvalue::Binary(op, a, b) => {
            let a = integer_term(alloc, body, a)?;
            let b = integer_term(alloc, body, b)?;
            goals_of_operation(alloc, kind, span, operation(*op), a, b)
        }
        Rvalue::Neg(a) => {
            let exact = Term::negative(alloc, integer_term(alloc, body, a)?)?;
            one_goal(alloc, overflow(span, in_range(alloc, kind, &exact)?))
        }
        Rvalue::Use(_) => Ok(Vec::new(alloc)),
        Rvalue::Not(_) => Ok(Vec::new(alloc)),
        Rvalue::Widen(_, _) => Ok(Vec::new(alloc)),
        Rvalue::Make(_, _) => Ok(Vec::new(alloc)),
        Rvalue::BoxNew(_) => Ok(Vec::new(alloc)),
    }
}

/// The goals of a statement.
pub(crate) fn goals_of(
    alloc: Global,
    body: &Body,
    span: Span,
    statement: &StatementKind,
) -> Result<Vec<Goal>, NoMemory>
    ensures { IfOk result (λ v. v.items ≡ goals_of body.now span statement.now) }
{
    match statement {
        StatementKind::Assign(place, rvalue) => match kind_of_local(body, place.local) {
            Some(kind) => goals_of_kind(alloc, body, kind, span, rvalue),
            None => Ok(Vec::new(alloc)),
        },
        StatementKind::Dead(_) => Ok(Vec::new(alloc)),
    }
}
