//! The commands of statements.
ghost use Rattle.std.specs.Prelude.{◌≡◌, ◌∷◌, [], IfOk, Some, None, Option, slice_get};
ghost use Rattle.logic_term.specs.Term.{model, var, is_less, is_at_most, is_equal};
ghost use Rattle.mir_ir.specs.Body.{kind_in};
ghost use Rattle.prophecy_logic.specs.Row.{name_of, operand_term, operand_ty, integer_term, compared_ty, equality, comparison, of_arithmetic, of_comparison, operation, new_integer, of_operation, of_negation, of_widening, of_rvalue, commands_of};

use crate::row::{
    integer_term, kind_of_local, name_of, operand_term, operand_terms, operation, value_name,
};
use logic_term::{Term, Ty, TyNode};
use mir_ir::{Body, Lit, Operand, Rvalue, StatementKind};
use prophecy_logic::{Command, Compared, Operation};
use source_kinds::{ArithOp, BinaryOp, IntKind};
use std::alloc::Global;
use text_core::{Name, NoMemory};

fn one_command(alloc: Global, command: Command) -> Result<Vec<Command>, NoMemory>
    ensures { IfOk result (λ v. v.items ≡ command ∷ []) }
{
    let mut commands = Vec::with_capacity(alloc, 1)?;
    commands.push(command)?;
    Ok(commands)
}

/// That the unbounded integer of the variable is this one.
fn is_exact(alloc: Global, name: Name, exact: Term) -> Result<Term, NoMemory>
    ensures { IfOk result (λ t. t ≡ is_equal (model (var name)) exact) }
{
    let variable = Term::var(alloc, name)?;
    let number = Term::model(alloc, variable)?;
    Term::equal(alloc, number, exact)
}

/// Local `x` gets a new value of the kind, of which it is known that it is the exact one.
fn new_integer(
    alloc: Global,
    body: &Body,
    kind: IntKind,
    x: u32,
    exact: Term,
) -> Result<Vec<Command>, NoMemory>
    ensures { IfOk result (λ v. v.items ≡ new_integer body.now kind x exact) }
{
    let value = value_name();
    let known = is_exact(alloc, value, exact)?;
    let mut commands = Vec::with_capacity(alloc, 3)?;
    commands.push(Command::Fresh(value, Ty::int(kind)))?;
    commands.push(Command::Assume(known))?;
    commands.push(Command::Set(name_of(body, x), Term::var(alloc, value)?))?;
    Ok(commands)
}

fn compared_of(ty: &Ty) -> Compared
    ensures { result ≡ compared_ty (Some ty.now) }
{
    match &ty.node {
        TyNode::Bool => Compared::Truths,
        _ => Compared::Integers,
    }
}

fn compared_of_local(body: &Body, local: u32) -> Compared
    ensures { result ≡ compared_ty (slice_get body.now.locals local) }
{
    match body.locals.get(local as usize) {
        Some(ty) => compared_of(ty),
        None => Compared::Integers,
    }
}

fn what_is_compared(body: &Body, operand: &Operand) -> Compared
    ensures { result ≡ compared_ty (operand_ty body.now operand.now) }
{
    match operand {
        Operand::Copy(place) => compared_of_local(body, place.local),
        Operand::Move(place) => compared_of_local(body, place.local),
        Operand::Const(Lit::Int(_, _)) => Compared::Integers,
        Operand::Const(Lit::Bool(_)) => Compared::Truths,
    }
}

fn equality(alloc: Global, of: Compared, a: Term, b: Term) -> Result<Term, NoMemory>
    ensures { IfOk result (λ t. t ≡ equality of a b) }
{
    match of {
        Compared::Truths => Term::equal(alloc, a, b),
        Compared::Integers => {
            let a = Term::model(alloc, a)?;
            let b = Term::model(alloc, b)?;
            Term::equal(alloc, a, b)
        }
    }
}

fn less(alloc: Global, a: Term, b: Term) -> Result<Term, NoMemory>
    ensures { IfOk result (λ t. t ≡ is_less (model a) (model b)) }
{
    let a = Term::model(alloc, a)?;
    let b = Term::model(alloc, b)?;
    Term::less(alloc, a, b)
}

fn at_most(alloc: Global, a: Term, b: Term) -> Result<Term, NoMemory>
    ensures { IfOk result (λ t. t ≡ is_at_most (model a) (model b)) }
{
    let a = Term::model(alloc, a)?;
    let b = Term::model(alloc, b)?;
    Term::at_most(alloc, a, b)
}

/// The truth value of a comparison.
fn comparison(alloc: Global, of: Compared, op: BinaryOp, a: Term, b: Term) -> Result<Term, NoMemory>
    ensures { IfOk result (λ t. t ≡ comparison of op a b) }
{
    match op {
        BinaryOp::Eq => equality(alloc, of, a, b),
        BinaryOp::Ne => {
            let equal = equality(alloc, of, a, b)?;
            Term::not(alloc, equal)
        }
        BinaryOp::Lt => less(alloc, a, b),
        BinaryOp::Le => at_most(alloc, a, b),
        BinaryOp::Gt => less(alloc, b, a),
        BinaryOp::Ge => at_most(alloc, b, a),
        BinaryOp::Add | BinaryOp::Sub | BinaryOp::Mul | BinaryOp::Div | BinaryOp::Rem => {
            Term::truth(alloc, false)
        }
    }
}

/// The commands of arithmetic, where the place has integers of the kind.
fn of_arithmetic(
    alloc: Global,
    body: &Body,
    x: u32,
    op: ArithOp,
    a: &Operand,
    b: &Operand,
) -> Result<Vec<Command>, NoMemory>
    ensures { IfOk result (λ v. v.items ≡ of_arithmetic body.now (kind_in (slice_get body.now.locals x)) x op a.now b.now) }
{
    let Some(kind) = kind_of_local(body, x) else {
        return Ok(Vec::new(alloc));
    };
    let a = integer_term(alloc, body, a)?;
    let b = integer_term(alloc, body, b)?;
    let exact = Term::calculate(alloc, op, a, b)?;
    new_integer(alloc, body, kind, x, exact)
}

fn of_comparison(
    alloc: Global,
    body: &Body,
    x: u32,
    op: BinaryOp,
    a: &Operand,
    b: &Operand,
) -> Result<Vec<Command>, NoMemory>
    ensures { IfOk result (λ v. v.items ≡ of_comparison body.now x op a.now b.now) }
{
    let of = what_is_compared(body, a);
    let a = operand_term(alloc, body, a)?;
    let b = operand_term(alloc, body, b)?;
    let truth = comparison(alloc, of, op, a, b)?;
    one_command(alloc, Command::Set(name_of(body, x), truth))
}

fn of_operation(
    alloc: Global,
    body: &Body,
    x: u32,
    op: BinaryOp,
    a: &Operand,
    b: &Operand,
) -> Result<Vec<Command>, NoMemory>
    ensures { IfOk result (λ v. v.items ≡ of_operation body.now (kind_in (slice_get body.now.locals x)) x op a.now b.now (operation op)) }
{
    match operation(op) {
        Operation::Exact(arith) => of_arithmetic(alloc, body, x, arith, a, b),
        Operation::Divided(arith) => of_arithmetic(alloc, body, x, arith, a, b),
        Operation::Compared => of_comparison(alloc, body, x, op, a, b),
    }
}

fn of_negation(alloc: Global, body: &Body, x: u32, a: &Operand) -> Result<Vec<Command>, NoMemory>
    ensures { IfOk result (λ v. v.items ≡ of_negation body.now (kind_in (slice_get body.now.locals x)) x a.now) }
{
    let Some(kind) = kind_of_local(body, x) else {
        return Ok(Vec::new(alloc));
    };
    let exact = Term::negative(alloc, integer_term(alloc, body, a)?)?;
    new_integer(alloc, body, kind, x, exact)
}

fn of_widening(
    alloc: Global,
    body: &Body,
    kind: IntKind,
    x: u32,
    a: &Operand,
) -> Result<Vec<Command>, NoMemory>
    ensures { IfOk result (λ v. v.items ≡ of_widening body.now kind x a.now) }
{
    let exact = integer_term(alloc, body, a)?;
    new_integer(alloc, body, kind, x, exact)
}

fn of_rvalue(alloc: Global, body: &Body, x: u32, rvalue: &Rvalue) -> Result<Vec<Command>, NoMemory>
    ensures { IfOk result (λ v. v.items ≡ of_rvalue body.now (kind_in (slice_get body.now.locals x)) x rvalue.now) }
{
    match rvalue {
        Rvalue::Use(a) => {
            let value = operand_term(alloc, body, a)?;
            one_command(alloc, Command::Set(name_of(body, x), value))
        }
        Rvalue::Binary(op, a, b) => of_operation(alloc, body, x, *op, a, b),
        Rvalue::Neg(a) => of_negation(alloc, body, x, a),
        Rvalue::Not(a) => {
            let value = operand_term(alloc, body, a)?;
            let opposite = Term::not(alloc, value)?;
            one_command(alloc, Command::Set(name_of(body, x), opposite))
        }
        Rvalue::Widen(a, kind) => of_widening(alloc, body, *kind, x, a),
        Rvalue::Make(ctor, parts) => {
            let parts = operand_terms(alloc, body, parts.as_slice())?;
            let value = Term::made(alloc, *ctor, parts)?;
            one_command(alloc, Command::Set(name_of(body, x), value))
        }
        Rvalue::BoxNew(a) => {
            let value = operand_term(alloc, body, a)?;
            one_command(alloc, Command::Set(name_of(body, x), value))
        }
    }
}

/// The commands of a statement.
pub(crate) fn commands_of(
    alloc: Global,
    body: &Body,
    statement: &StatementKind,
) -> Result<Vec<Command>, NoMemory>
    ensures { IfOk result (λ v. v.items ≡ commands_of body.now statement.now) }
{
    match statement {
        StatementKind::Assign(place, rvalue) => of_rvalue(alloc, body, place.local, rvalue),
        StatementKind::Dead(_) => Ok(Vec::new(alloc)),
    }
}
