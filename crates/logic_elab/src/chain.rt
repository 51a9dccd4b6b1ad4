//! Chains of operations in terms. They group to the left, so that a chain is as deep as it is long: its left operands are gone down by
//! a loop, and what stands above them waits on a stack.
ghost use Rattle.std.specs.Prelude.{◌≡◌, ◌≤◌, false, List, IfOk, MatchOption};
ghost use Rattle.text_core.specs.declared.span.Span.{Span};
ghost use Rattle.source_trees.specs.Pterm.{binary};
ghost use Rattle.source_trees.specs.PtermView.{pterm_size, span_of};
ghost use Rattle.logic_elab.specs.Scope.{Scope};
ghost use Rattle.logic_elab.specs.Chains.{climbed, has_left, left_of, operations_size, written};
ghost use Rattle.logic_elab.specs.declared.scope.Symbol.{Symbol};
ghost use Rattle.logic_elab.specs.Elaborated.{elaborated_under};

use source_kinds::{ArithOp, Comparison};
use source_trees::{BinaryTerm, Number, Pterm, PtermNode, Segment, UnaryTerm};
use std::alloc::Global;
use text_core::{NoMemory, Span};

/// The connectives.
#[derive(Clone, Copy)]
pub(crate) enum Connective {
    And,
    Or,
    Implies,
}

/// An operation that has a left operand.
#[derive(Clone, Copy)]
pub(crate) enum TermOperation<'a> {
    /// `t@`
    View(&'a Pterm),
    /// `t.0`, with its span.
    Part(Span, &'a Pterm, &'a Number),
    /// `t.x`, with its span.
    Field(Span, &'a Pterm, Segment),
    Calculate(ArithOp, &'a Pterm, &'a Pterm),
    Compare(Comparison, &'a Pterm, &'a Pterm),
    Connect(Connective, &'a Pterm, &'a Pterm),
}

/// The operations around a term, the outermost first, and the term.
#[derive(Drop)]
pub(crate) struct TermDescent<'a> {
    pub(crate) operations: Vec<TermOperation<'a>>,
    pub(crate) bottom: &'a Pterm,
}

/// The operation that the term is, if it has a left operand.
fn operation_of(t: &Pterm) -> Option<TermOperation<'_>>
    ensures { MatchOption result (has_left t.now ≡ false) (λ o. written (span_of t.now) o ≡ t.now) }
{
    match &*t.node {
        PtermNode::Unary(UnaryTerm::View, a) => Some(TermOperation::View(a)),
        PtermNode::Part(a, number) => Some(TermOperation::Part(t.span, a, number)),
        PtermNode::Field(a, name) => Some(TermOperation::Field(t.span, a, *name)),
        PtermNode::Binary(op, a, b) => Some(binary_of(*op, a, b)),
        _ => None,
    }
}

fn binary_of<'a>(op: BinaryTerm, a: &'a Pterm, b: &'a Pterm) -> TermOperation<'a>
    ensures { (s : Span) → written s result ≡ binary s op a.now b.now }
{
    match op {
        BinaryTerm::Calculate(op) => TermOperation::Calculate(op, a, b),
        BinaryTerm::Compare(op) => TermOperation::Compare(op, a, b),
        BinaryTerm::And => TermOperation::Connect(Connective::And, a, b),
        BinaryTerm::Or => TermOperation::Connect(Connective::Or, a, b),
        BinaryTerm::Implies => TermOperation::Connect(Connective::Implies, a, b),
    }
}

fn left_of<'a>(operation: &TermOperation<'a>) -> &'a Pterm
    ensures { result.now ≡ left_of operation.now }
{
    match *operation {
        TermOperation::View(a) => a,
        TermOperation::Part(_, a, _) => a,
        TermOperation::Field(_, a, _) => a,
        TermOperation::Calculate(_, a, _) => a,
        TermOperation::Compare(_, a, _) => a,
        TermOperation::Connect(_, a, _) => a,
    }
}

/// Goes down the left operands.
pub(crate) fn descend<'a>(alloc: Global, t: &'a Pterm) -> Result<TermDescent<'a>, NoMemory>
    ensures elaborated { IfOk result (λ d. (Γ : Scope) (bs : List Symbol) → elaborated_under Γ bs t.now ≡ climbed Γ bs d.operations.items (elaborated_under Γ bs d.bottom.now)) }
    ensures bottom { IfOk result (λ d. has_left d.bottom.now ≡ false) }
    ensures smaller { IfOk result (λ d. pterm_size d.bottom.now ≤ pterm_size t.now) }
    ensures operations { IfOk result (λ d. operations_size d.operations.items ≤ pterm_size t.now) }
{
    let mut operations = Vec::new(alloc);
    let mut bottom = t;
    while let Some(operation) = operation_of(bottom) {
        operations.push(operation)?;
        bottom = left_of(&operation);
    }
    Ok(TermDescent { operations, bottom })
}
