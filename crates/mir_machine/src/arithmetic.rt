ghost use Rattle.std.specs.Prelude.{◌≡◌, ◌≢◌, ℤ, neg_ℤ, FitsSigned, not, int_div, int_rem};
ghost use Rattle.std.specs.Int.{w128};
ghost use Rattle.std.specs.Option.{SomeIff};
ghost use Rattle.source_kinds.specs.Range.{fits};
ghost use Rattle.mir_machine.specs.Tree.{Int, Truth};
ghost use Rattle.mir_machine.specs.Halt.{Comes};
ghost use Rattle.mir_machine.specs.Step.{fit, divide, arithmetic, of_integers, same_truth, of_truths, binary, negated, truth_of};
ghost use Rattle.mir_machine.specs.ScalarView.{scalar_tree};

use crate::halt::Halt;
use crate::scalar::Scalar;
use crate::tree::{Tree, TreeNode};
use source_kinds::{BinaryOp, IntKind};
use text_core::{Cause, Span};

fn fits(kind: IntKind, z: i128) -> bool
    ensures { result ≡ fits kind z }
{
    kind.lowest() <= z && z <= kind.highest()
}

fn integer(z: i128) -> Tree
    ensures { result ≡ Int z }
{
    Tree {
        node: TreeNode::Int(z),
    }
}

/// `exact` is the exact integer, where 128 bits hold it.
fn fit(kind: Option<IntKind>, span: Span, exact: Option<i128>) -> Result<Tree, Halt>
    ensures exact { (z : ℤ) → SomeIff exact (FitsSigned w128 z) z →
        Comes result (arithmetic kind (λ k. fit k span z)) (λ t. t) }
    ensures memory { result ≢ Err Halt.NoMemory }
{
    let kind = kind.ok_or(Halt::Stuck)?;
    match exact {
        Some(z) if fits(kind, z) => Ok(integer(z)),
        _ => Err(Halt::Panics(Cause::Overflow, span)),
    }
}

/// The tree of a truth value.
pub fn truth(b: bool) -> Tree
    ensures { result ≡ Truth b }
{
    Tree {
        node: TreeNode::Bool(b),
    }
}

fn quotient(kind: Option<IntKind>, span: Span, a: i128, b: i128) -> Result<Tree, Halt>
    ensures exact { Comes result (arithmetic kind (λ k. divide k span int_div a b)) (λ t. t) }
    ensures memory { result ≢ Err Halt.NoMemory }
{
    let kind = kind.ok_or(Halt::Stuck)?;
    if b == 0 {
        return Err(Halt::Panics(Cause::Division, span));
    }
    match a.checked_div(b) {
        Some(quotient) if fits(kind, quotient) => Ok(integer(quotient)),
        _ => Err(Halt::Panics(Cause::Overflow, span)),
    }
}

fn remainder(kind: Option<IntKind>, span: Span, a: i128, b: i128) -> Result<Tree, Halt>
    ensures exact { Comes result (arithmetic kind (λ k. divide k span int_rem a b)) (λ t. t) }
    ensures memory { result ≢ Err Halt.NoMemory }
{
    let kind = kind.ok_or(Halt::Stuck)?;
    if b == 0 {
        return Err(Halt::Panics(Cause::Division, span));
    }
    match a.checked_div(b) {
        Some(quotient) if fits(kind, quotient) => Ok(integer(a % b)),
        _ => Err(Halt::Panics(Cause::Overflow, span)),
    }
}

/// The integer or the truth value of an operation on two integers, where a place of this kind is written.
fn of_integers(
    kind: Option<IntKind>,
    span: Span,
    op: BinaryOp,
    a: i128,
    b: i128,
) -> Result<Tree, Halt>
    ensures exact { Comes result (of_integers kind span op a b) (λ t. t) }
    ensures memory { result ≢ Err Halt.NoMemory }
{
    match op {
        BinaryOp::Add => fit(kind, span, a.checked_add(b)),
        BinaryOp::Sub => fit(kind, span, a.checked_sub(b)),
        BinaryOp::Mul => fit(kind, span, a.checked_mul(b)),
        BinaryOp::Div => quotient(kind, span, a, b),
        BinaryOp::Rem => remainder(kind, span, a, b),
        BinaryOp::Eq => Ok(truth(a == b)),
        BinaryOp::Ne => Ok(truth(a != b)),
        BinaryOp::Lt => Ok(truth(a < b)),
        BinaryOp::Le => Ok(truth(a <= b)),
        BinaryOp::Gt => Ok(truth(a > b)),
        BinaryOp::Ge => Ok(truth(a >= b)),
    }
}

fn same_truth(a: bool, b: bool) -> bool
    ensures { result ≡ same_truth a b }
{
    if a { b } else { !b }
}

fn of_truths(op: BinaryOp, a: bool, b: bool) -> Result<Tree, Halt>
    ensures exact { Comes result (of_truths op a b) (λ t. t) }
    ensures memory { result ≢ Err Halt.NoMemory }
{
    match op {
        BinaryOp::Eq => Ok(truth(same_truth(a, b))),
        BinaryOp::Ne => Ok(truth(!same_truth(a, b))),
        _ => Err(Halt::Stuck),
    }
}

/// The value of an operation, where a place of this kind is written.
pub fn operate(
    kind: Option<IntKind>,
    span: Span,
    op: BinaryOp,
    a: Scalar,
    b: Scalar,
) -> Result<Tree, Halt>
    ensures exact { Comes result (binary kind span op (scalar_tree a) (scalar_tree b)) (λ t. t) }
    ensures memory { result ≢ Err Halt.NoMemory }
{
    match (a, b) {
        (Scalar::Int(a), Scalar::Int(b)) => of_integers(kind, span, op, a, b),
        (Scalar::Truth(a), Scalar::Truth(b)) => of_truths(op, a, b),
        _ => Err(Halt::Stuck),
    }
}

/// The value of `-a`, where a place of this kind is written.
pub fn negate(kind: Option<IntKind>, span: Span, a: Scalar) -> Result<Tree, Halt>
    ensures exact { Comes result (negated kind span (scalar_tree a)) (λ t. t) }
    ensures memory { result ≢ Err Halt.NoMemory }
{
    match a {
        Scalar::Int(a) => fit(kind, span, a.checked_neg()),
        Scalar::Truth(_) => Err(Halt::Stuck),
    }
}

/// A truth value.
pub fn truth_of(a: Scalar) -> Result<bool, Halt>
    ensures exact { Comes result (truth_of {K = Unit {0}} (scalar_tree a)) (λ b. b) }
    ensures memory { result ≢ Err Halt.NoMemory }
{
    match a {
        Scalar::Int(_) => Err(Halt::Stuck),
        Scalar::Truth(b) => Ok(b),
    }
}
