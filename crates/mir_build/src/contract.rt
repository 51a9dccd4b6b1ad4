//! Contracts of functions, from their clauses.
ghost use Rattle.std.specs.Prelude.{◌≡◌, [], ◌++◌, None, map, IfOk, OnOk};
ghost use Rattle.type_check.specs.FirstBad.{bad_of, bad_clause};
ghost use Rattle.type_check.specs.VariableNames.{variable_name};
ghost use Rattle.type_check.specs.declared.program.ClauseKind.TheVariants.{Requires, Ensures};
ghost use Rattle.mir_build.specs.Lowering.{counted, term_of, formula_span, formulas_of, picked};
ghost use Rattle.mir_build.specs.Numbered.{formula_of};
ghost use Rattle.mir_build.specs.Whole.{contract_of};

use crate::around::{answer_name, formula_span, term_of, variable_name};
use logic_term::{Contract, Term, Ty};
use std::alloc::Global;
use text_core::{Items, Name, NoMemory, Span};
use type_check::{ClauseKind, TypedClause, TypedFunction};

/// The names of the variables that the parameters are. Want of memory is answered too where a number would pass 32 bits.
fn parameter_names(alloc: Global, params: &[Ty]) -> Result<Items<Name>, NoMemory>
    ensures { IfOk result (λ v. v ≡ map variable_name (counted 0 params.now)) }
{
    let mut all = Items::new(alloc);
    let mut variable: u32 = 0;
    for _ty in params {
        all.push(variable_name(variable))?;
        variable = variable.checked_add(1).ok_or(NoMemory)?;
    }
    Ok(all)
}

/// Puts the clause's formula behind others, where it is of the kind.
fn push_clause(
    all: &mut Items<Term>,
    kind: ClauseKind,
    clause: &TypedClause,
) -> Result<(), NoMemory>
    requires { bad_of clause.now.formula ≡ None }
    ensures { OnOk result (all.new ≡ all.old ++ map term_of (map formula_of (picked kind clause.now.kind clause.now.formula []))) }
{
    match (kind, clause.kind) {
        (ClauseKind::Requires, ClauseKind::Requires) => all.push(term_of(&clause.formula).share()?),
        (ClauseKind::Ensures, ClauseKind::Ensures) => all.push(term_of(&clause.formula).share()?),
        (ClauseKind::Requires, ClauseKind::Ensures) => Ok(()),
        (ClauseKind::Ensures, ClauseKind::Requires) => Ok(()),
    }
}

/// The formulas of the clauses of the kind.
#[tactic(auto, using(crate::proofs::Clauses::formulas))]
fn formulas_of(
    alloc: Global,
    kind: ClauseKind,
    clauses: &[TypedClause],
) -> Result<Items<Term>, NoMemory>
    requires { bad_clause clauses.now ≡ None }
    ensures { IfOk result (λ v. v ≡ map term_of (map formula_of (formulas_of kind clauses.now))) }
{
    let mut all = Items::new(alloc);
    for clause in clauses {
        push_clause(&mut all, kind, clause)?;
    }
    Ok(all)
}

/// Puts the span of the clause's formula behind others, where it is of the kind.
fn push_clause_span(
    all: &mut Items<Span>,
    kind: ClauseKind,
    clause: &TypedClause,
) -> Result<(), NoMemory>
    requires { bad_of clause.now.formula ≡ None }
    ensures { OnOk result (all.new ≡ all.old ++ map formula_span (map formula_of (picked kind clause.now.kind clause.now.formula []))) }
{
    match (kind, clause.kind) {
        (ClauseKind::Requires, ClauseKind::Requires) => all.push(formula_span(&clause.formula)),
        (ClauseKind::Ensures, ClauseKind::Ensures) => all.push(formula_span(&clause.formula)),
        (ClauseKind::Requires, ClauseKind::Ensures) => Ok(()),
        (ClauseKind::Ensures, ClauseKind::Requires) => Ok(()),
    }
}

/// Puts the spans of the formulas of the kind behind others.
#[tactic(auto, using(crate::proofs::Clauses::formulas))]
fn push_spans(
    all: &mut Items<Span>,
    kind: ClauseKind,
    clauses: &[TypedClause],
) -> Result<(), NoMemory>
    requires { bad_clause clauses.now ≡ None }
    ensures { OnOk result (all.new ≡ all.old ++ map formula_span (map formula_of (formulas_of kind clauses.now))) }
{
    for clause in clauses {
        push_clause_span(all, kind, clause)?;
    }
    Ok(())
}

/// The contract of a function, over the names of the variables that its parameters are.
pub(crate) fn contract_of(alloc: Global, f: &TypedFunction) -> Result<Contract, NoMemory>
    requires { bad_clause f.now.clauses ≡ None }
    ensures { IfOk result (λ c. c ≡ contract_of f.now) }
{
    let clauses = f.clauses.as_slice();
    let params = parameter_names(alloc, f.signature.params.as_slice())?;
    let pre = formulas_of(alloc, ClauseKind::Requires, clauses)?;
    let post = formulas_of(alloc, ClauseKind::Ensures, clauses)?;
    let mut spans = Items::new(alloc);
    push_spans(&mut spans, ClauseKind::Requires, clauses)?;
    push_spans(&mut spans, ClauseKind::Ensures, clauses)?;
    Ok(Contract {
        params,
        answer: answer_name(),
        pre,
        post,
        variants: Items::new(alloc),
        spans,
    })
}
