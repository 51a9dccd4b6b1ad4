ghost use Rattle.std.specs.Prelude.{◌≡◌, false, [], IfOk};
ghost use Rattle.text_core.specs.declared.span.Span.{Span};
ghost use Rattle.logic_term.specs.Term.{model, truth};
ghost use Rattle.logic_term.specs.Ty.{bool, math_int};
ghost use Rattle.logic_term.specs.TermOperator.{quantifier};
ghost use Rattle.source_trees.specs.Pterm.{choice, quantified};
ghost use Rattle.source_trees.specs.PtermView.{span_of, terms_of as written_terms};
ghost use Rattle.logic_elab.specs.Answers.{Answers, AnswersAs};
ghost use Rattle.logic_elab.specs.Binders.{inside};
ghost use Rattle.logic_elab.specs.Chains.{behind, calculated, connection, has_left};
ghost use Rattle.logic_elab.specs.Elaborated.{sorted, literal, name_alone, symbol_term, symbol_or, name_term, named_term, answer_or, answer_term, model_of, formula, number, ordered, is_ordering, ordered_at, compared, quantifier_of, chosen, elaborated, asserted, elaborated_under, elaborated_parts, asserted_under};
ghost use Rattle.logic_elab.specs.Parts.{parts_as};

use crate::binders::{bound_all, meant_under, symbols_inside, symbols_of};
use crate::chain::{Connective, TermDescent, TermOperation, descend};
use crate::parts::{SortedParts, parted, selected, tuple_term};
use crate::refusal::{mismatch, unbuilt, unknown_name};
use crate::scope::{Symbol, TermScope};
use crate::sorted::{SortedTerm, of_sort};
use crate::sorts::{fits, is_bool, is_math_int, same_ty};
use logic_term::{Quantifier as TermQuantifier, Term, Ty, TyNode};
use source_kinds::{ArithOp, Comparison, IntKind};
use source_trees::{Binder, Path, PathNode, Pterm, PtermNode, Quantifier, Segment, UnaryTerm};
use std::alloc::Global;
use text_core::{Boxed, Name, NoMemory, PassError, Span};

/// From the term's first token to its last.
fn span_of(t: &Pterm) -> Span
    ensures { result ≡ span_of t.now }
{
    t.span
}

fn formula_of_sort(alloc: Global, term: Term) -> Result<SortedTerm, NoMemory>
    ensures { IfOk result (λ t. t ≡ sorted bool term) }
{
    of_sort(alloc, Ty::bool(), term)
}

fn truth_term(alloc: Global, holds: bool) -> Result<SortedTerm, NoMemory>
    ensures { IfOk result (λ t. t ≡ sorted bool (truth holds)) }
{
    let term = Term::truth(alloc, holds)?;
    formula_of_sort(alloc, term)
}

fn number_of_sort(alloc: Global, term: Term) -> Result<SortedTerm, NoMemory>
    ensures { IfOk result (λ t. t ≡ sorted math_int term) }
{
    of_sort(alloc, Ty::math_int(), term)
}

#[tactic(auto, unfolding(crate::specs::Elaborated::literal))]
fn literal(
    alloc: Global,
    number: i128,
    kind: Option<IntKind>,
    span: Span,
) -> Result<SortedTerm, PassError>
    ensures { Answers result (literal span number kind) }
{
    match kind {
        None => {
            let term = Term::integer(alloc, number)?;
            Ok(number_of_sort(alloc, term)?)
        }
        Some(kind) if fits(kind, number) => {
            let term = Term::lit(alloc, number, Ty::int(kind))?;
            Ok(of_sort(alloc, Ty::int(kind), term)?)
        }
        Some(_) => Err(mismatch(span)),
    }
}

/// The name that the path is, if it is one alone.
#[tactic(auto, unfolding(crate::specs::Elaborated::name_alone))]
fn name_alone(path: &Path) -> Option<Segment>
    ensures { result ≡ name_alone path.now.node }
{
    match &path.node {
        PathNode::Names(first, others, types) if others.is_empty() && types.is_empty() => {
            Some(*first)
        }
        _ => None,
    }
}

/// The variable as a term.
fn symbol_term(alloc: Global, symbol: Symbol) -> Result<SortedTerm, NoMemory>
    ensures { IfOk result (λ t. t ≡ symbol_term symbol) }
{
    let Symbol { name, sort } = symbol;
    let term = Term::var(alloc, name)?;
    of_sort(alloc, sort, term)
}

fn symbol_or(alloc: Global, span: Span, symbol: Option<Symbol>) -> Result<SortedTerm, PassError>
    ensures { Answers result (symbol_or span symbol) }
{
    match symbol {
        Some(symbol) => Ok(symbol_term(alloc, symbol)?),
        None => Err(unknown_name(span)),
    }
}

/// A name, under these bound ones, the outermost first.
fn name_term<S: TermScope>(
    alloc: Global,
    scope: &S,
    bound: &[Symbol],
    span: Span,
    name: Name,
) -> Result<SortedTerm, PassError>
    ensures { Answers result (name_term (S.scope scope.now) (inside [] bound.now) span name) }
{
    let outside = scope.variable(alloc, name)?;
    symbol_or(alloc, span, meant_under(alloc, name, bound, outside)?)
}

/// A name as a term.
fn named_term<S: TermScope>(
    alloc: Global,
    scope: &S,
    bound: &[Symbol],
    span: Span,
    name: Option<Segment>,
) -> Result<SortedTerm, PassError>
    ensures { Answers result (named_term (S.scope scope.now) (inside [] bound.now) span name) }
{
    match name {
        None => Err(unbuilt(span)),
        Some(name) => name_term(alloc, scope, bound, span, name.name),
    }
}

/// What `result` means where nothing is bound: the answer where it is spoken of, else a variable.
fn answer_or<S: TermScope>(alloc: Global, scope: &S, name: Name) -> Result<Option<Symbol>, NoMemory>
    ensures { IfOk result (λ o. o ≡ answer_or (S.scope scope.now).answer ((S.scope scope.now).variable name)) }
{
    match scope.answer(alloc)? {
        Some(symbol) => Ok(Some(symbol)),
        None => scope.variable(alloc, name),
    }
}

/// `result`
fn answer_term<S: TermScope>(
    alloc: Global,
    scope: &S,
    bound: &[Symbol],
    span: Span,
    name: Name,
) -> Result<SortedTerm, PassError>
    ensures { Answers result (answer_term (S.scope scope.now) (inside [] bound.now) span name) }
{
    let outside = answer_or(alloc, scope, name)?;
    symbol_or(alloc, span, meant_under(alloc, name, bound, outside)?)
}

/// `t@`
#[tactic(auto, unfolding(crate::specs::Elaborated::model_of))]
fn model_of(alloc: Global, span: Span, t: SortedTerm) -> Result<SortedTerm, PassError>
    ensures { Answers result (model_of span t) }
{
    let SortedTerm { sort, term } = t;
    match &sort.node {
        TyNode::Int(_) => {
            let model = Term::model(alloc, term.into_inner())?;
            Ok(number_of_sort(alloc, model)?)
        }
        _ => Err(mismatch(span)),
    }
}

#[tactic(auto, unfolding(crate::specs::Elaborated::formula))]
fn formula(span: Span, t: SortedTerm) -> Result<Boxed<Term>, PassError>
    ensures { Answers result (formula span t) }
{
    let SortedTerm { sort, term } = t;
    if is_bool(&sort) {
        Ok(term)
    } else {
        Err(mismatch(span))
    }
}

#[tactic(auto, unfolding(crate::specs::Elaborated::number))]
fn number(span: Span, t: SortedTerm) -> Result<Boxed<Term>, PassError>
    ensures { Answers result (number span t) }
{
    let SortedTerm { sort, term } = t;
    if is_math_int(&sort) {
        Ok(term)
    } else {
        Err(mismatch(span))
    }
}

fn ordered(alloc: Global, op: Comparison, a: Boxed<Term>, b: Boxed<Term>) -> Result<Term, NoMemory>
    ensures { IfOk result (λ t. t ≡ ordered op a b) }
{
    let a = a.into_inner();
    let b = b.into_inner();
    match op {
        Comparison::Lt => Term::less(alloc, a, b),
        Comparison::Le => Term::at_most(alloc, a, b),
        Comparison::Gt => Term::less(alloc, b, a),
        Comparison::Ge => Term::at_most(alloc, b, a),
        Comparison::Eq => Term::equal(alloc, a, b),
        Comparison::Ne => Term::not(alloc, Term::equal(alloc, a, b)?),
    }
}

fn is_ordering(op: Comparison) -> bool
    ensures { result ≡ is_ordering op }
{
    !matches!(op, Comparison::Eq | Comparison::Ne)
}

/// `t@`, of a machine integer.
fn modelled(alloc: Global, t: Boxed<Term>) -> Result<Boxed<Term>, NoMemory>
    ensures { IfOk result (λ m. m ≡ model t) }
{
    Boxed::new(alloc, Term::model(alloc, t.into_inner())?)
}

fn ordered_at(
    alloc: Global,
    sort: &Ty,
    op: Comparison,
    span: Span,
    a: Boxed<Term>,
    b: Boxed<Term>,
) -> Result<SortedTerm, PassError>
    ensures { Answers result (ordered_at sort.now op span a b) }
{
    match &sort.node {
        TyNode::MathInt => Ok(formula_of_sort(alloc, ordered(alloc, op, a, b)?)?),
        TyNode::Int(_) => {
            let a = modelled(alloc, a)?;
            let b = modelled(alloc, b)?;
            Ok(formula_of_sort(alloc, ordered(alloc, op, a, b)?)?)
        }
        _ => Err(mismatch(span)),
    }
}

#[tactic(auto, unfolding(crate::specs::Elaborated::compared))]
fn compared(
    alloc: Global,
    op: Comparison,
    spans: (Span, Span),
    a: SortedTerm,
    b: SortedTerm,
) -> Result<SortedTerm, PassError>
    ensures { Answers result (compared op spans.0 spans.1 a b) }
{
    let SortedTerm { sort, term: a } = a;
    let SortedTerm {
        sort: other,
        term: b,
    } = b;
    if !same_ty(&other, &sort) {
        return Err(mismatch(spans.1));
    }
    if is_ordering(op) {
        return ordered_at(alloc, &sort, op, spans.0, a, b);
    }
    Ok(formula_of_sort(alloc, ordered(alloc, op, a, b)?)?)
}

fn quantifier_of(word: Quantifier) -> TermQuantifier
    ensures { quantifier result ≡ quantifier_of word }
{
    match word {
        Quantifier::Forall => TermQuantifier::Forall,
        Quantifier::Exists => TermQuantifier::Exists,
    }
}

/// `if`; the span is that of the second side.
#[tactic(auto, unfolding(crate::specs::Elaborated::chosen))]
fn chosen(
    alloc: Global,
    span: Span,
    condition: Boxed<Term>,
    a: SortedTerm,
    b: SortedTerm,
) -> Result<SortedTerm, PassError>
    ensures { Answers result (chosen span condition a b) }
{
    let SortedTerm { sort, term: first } = a;
    let SortedTerm {
        sort: other,
        term: second,
    } = b;
    if !same_ty(&other, &sort) {
        return Err(mismatch(span));
    }
    let condition = condition.into_inner();
    let term = Term::choice(alloc, condition, first.into_inner(), second.into_inner())?;
    Ok(of_sort(alloc, sort, term)?)
}

fn calculated(
    alloc: Global,
    op: ArithOp,
    spans: (Span, Span),
    a: SortedTerm,
    b: SortedTerm,
) -> Result<SortedTerm, PassError>
    ensures { Answers result (calculated op spans.0 spans.1 a b) }
{
    let a = number(spans.0, a)?;
    let b = number(spans.1, b)?;
    let value = Term::calculate(alloc, op, a.into_inner(), b.into_inner())?;
    Ok(number_of_sort(alloc, value)?)
}

fn connected(
    alloc: Global,
    op: Connective,
    a: Boxed<Term>,
    b: Boxed<Term>,
) -> Result<SortedTerm, NoMemory>
    ensures { IfOk result (λ t. t ≡ sorted bool (connection op a b)) }
{
    let a = a.into_inner();
    let b = b.into_inner();
    let term = match op {
        Connective::And => Term::and(alloc, a, b),
        Connective::Or => Term::or(alloc, a, b),
        Connective::Implies => Term::implies(alloc, a, b),
    }?;
    formula_of_sort(alloc, term)
}

/// The term that a written term becomes where it stands, with its sort (Pearlite, Creusot). Left operands are gone down by a loop.
///
/// Errors: `Source` by E05 at a name that means nothing, by E06 at a name that a quantifier binds twice, by E07 at a part that is of another
/// sort, by E20 at a form that is not built; the first part that is refused refuses the whole. `NoMemory`. Never `Limit`.
pub fn elaborate<S: TermScope>(alloc: Global, scope: &S, t: &Pterm) -> Result<SortedTerm, PassError>
    ensures { Answers result (elaborated (S.scope scope.now) t.now) }
{
    elaborate_under(alloc, scope, &[], t)
}

/// The formula that a written term becomes.
///
/// Errors: those of `elaborate`, and E07 at a term that is no formula.
pub fn elaborate_formula<S: TermScope>(
    alloc: Global,
    scope: &S,
    t: &Pterm,
) -> Result<Boxed<Term>, PassError>
    ensures { Answers result (asserted (S.scope scope.now) t.now) }
{
    elaborate_formula_under(alloc, scope, &[], t)
}

/// The term under these bound names, the outermost first.
#[cycle(elaborate)]
fn elaborate_under<S: TermScope>(
    alloc: Global,
    scope: &S,
    bound: &[Symbol],
    t: &Pterm,
) -> Result<SortedTerm, PassError>
    ensures { Answers result (elaborated_under (S.scope scope.now) (inside [] bound.now) t.now) }
{
    let TermDescent {
        mut operations,
        bottom,
    } = descend(alloc, t)?;
    let mut made = elaborate_form(alloc, scope, bound, bottom)?;
    while let Some(operation) = operations.pop() {
        made = elaborate_behind(alloc, scope, bound, operation, made)?;
    }
    Ok(made)
}

/// The same of a term that is no operation with a left operand.
#[cycle(elaborate)]
fn elaborate_form<S: TermScope>(
    alloc: Global,
    scope: &S,
    bound: &[Symbol],
    t: &Pterm,
) -> Result<SortedTerm, PassError>
    requires { has_left t.now ≡ false }
    ensures { Answers result (elaborated_under (S.scope scope.now) (inside [] bound.now) t.now) }
{
    match &*t.node {
        PtermNode::Int(number, kind) => literal(alloc, *number, *kind, t.span),
        PtermNode::Truth(holds) => Ok(truth_term(alloc, *holds)?),
        PtermNode::Answer(name) => answer_term(alloc, scope, bound, t.span, *name),
        PtermNode::Path(path) => named_term(alloc, scope, bound, t.span, name_alone(path)),
        PtermNode::Unary(UnaryTerm::Neg, a) => {
            let a = number(span_of(a), elaborate_under(alloc, scope, bound, a)?)?;
            Ok(number_of_sort(alloc, Term::negative(alloc, a.into_inner())?)?)
        }
        PtermNode::Unary(UnaryTerm::Not, a) => {
            let a = elaborate_formula_under(alloc, scope, bound, a)?;
            Ok(formula_of_sort(alloc, Term::not(alloc, a.into_inner())?)?)
        }
        PtermNode::If(condition, first, second) => {
            elaborate_choice(alloc, scope, bound, condition, first, second)
        }
        PtermNode::Quantified(word, binders, body) => {
            elaborate_quantified(alloc, scope, bound, *word, binders, body)
        }
        PtermNode::Tuple(parts) => {
            let parts = elaborate_parts(alloc, scope, bound, parts)?;
            Ok(tuple_term(alloc, parts)?)
        }
        PtermNode::Unary(UnaryTerm::View, _)
        | PtermNode::Binary(_, _, _)
        | PtermNode::Part(_, _)
        | PtermNode::Field(_, _) => unreachable!(),
        PtermNode::Unary(UnaryTerm::Current | UnaryTerm::Final, _)
        | PtermNode::Receiver
        | PtermNode::MutRef(_, _)
        | PtermNode::Method(_, _, _)
        | PtermNode::Call(_, _)
        | PtermNode::Literal(_, _)
        | PtermNode::Match(_, _)
        | PtermNode::Predicate(_, _) => Err(unbuilt(t.span)),
    }
}

/// `if` with its condition and its sides, which are of one sort.
#[cycle(elaborate)]
fn elaborate_choice<S: TermScope>(
    alloc: Global,
    scope: &S,
    bound: &[Symbol],
    condition: &Pterm,
    first: &Pterm,
    second: &Pterm,
) -> Result<SortedTerm, PassError>
    ensures { (s : Span) → Answers result (elaborated_under (S.scope scope.now) (inside [] bound.now) (choice s condition.now first.now second.now)) }
{
    let condition = elaborate_formula_under(alloc, scope, bound, condition)?;
    let left = elaborate_under(alloc, scope, bound, first)?;
    let right = elaborate_under(alloc, scope, bound, second)?;
    chosen(alloc, span_of(second), condition, left, right)
}

/// The parts of a tuple, from the left.
#[cycle(elaborate)]
fn elaborate_parts<S: TermScope>(
    alloc: Global,
    scope: &S,
    bound: &[Symbol],
    parts: &[Pterm],
) -> Result<SortedParts, PassError>
    ensures { AnswersAs result (elaborated_parts (S.scope scope.now) (inside [] bound.now) (written_terms parts.now)) parts_as }
{
    let mut made = SortedParts::new(alloc);
    for i in 0..parts.len() {
        let part = elaborate_under(alloc, scope, bound, &parts[i])?;
        made.push(part)?;
    }
    Ok(made)
}

/// A quantifier, with its binders and its body.
#[cycle(elaborate)]
fn elaborate_quantified<S: TermScope>(
    alloc: Global,
    scope: &S,
    bound: &[Symbol],
    word: Quantifier,
    binders: &[Binder],
    body: &Pterm,
) -> Result<SortedTerm, PassError>
    ensures { (s : Span) → Answers result (elaborated_under (S.scope scope.now) (inside [] bound.now) (quantified s word binders.now body.now)) }
{
    let symbols = symbols_of(alloc, scope.types(), binders)?;
    let inner = symbols_inside(alloc, bound, symbols.as_slice())?;
    let formula = elaborate_formula_under(alloc, scope, inner.as_slice(), body)?;
    let formula = bound_all(alloc, quantifier_of(word), symbols, formula.into_inner())?;
    Ok(formula_of_sort(alloc, formula)?)
}

/// The operation, whose left operand is elaborated.
#[cycle(elaborate)]
fn elaborate_behind<S: TermScope>(
    alloc: Global,
    scope: &S,
    bound: &[Symbol],
    operation: TermOperation<'_>,
    left: SortedTerm,
) -> Result<SortedTerm, PassError>
    ensures { Answers result (behind (S.scope scope.now) (inside [] bound.now) operation.entry left) }
{
    match operation {
        TermOperation::View(t) => model_of(alloc, span_of(t), left),
        TermOperation::Part(span, _, number) => parted(alloc, scope.types(), span, number, left),
        TermOperation::Field(span, _, name) => selected(alloc, scope.types(), span, name, left),
        TermOperation::Calculate(op, t, u) => {
            let right = elaborate_under(alloc, scope, bound, u)?;
            calculated(alloc, op, (span_of(t), span_of(u)), left, right)
        }
        TermOperation::Compare(op, t, u) => {
            let right = elaborate_under(alloc, scope, bound, u)?;
            compared(alloc, op, (span_of(t), span_of(u)), left, right)
        }
        TermOperation::Connect(op, t, u) => {
            let left = formula(span_of(t), left)?;
            let right = elaborate_formula_under(alloc, scope, bound, u)?;
            Ok(connected(alloc, op, left, right)?)
        }
    }
}

/// The formula under these bound names, the outermost first.
#[cycle(elaborate)]
fn elaborate_formula_under<S: TermScope>(
    alloc: Global,
    scope: &S,
    bound: &[Symbol],
    t: &Pterm,
) -> Result<Boxed<Term>, PassError>
    ensures { Answers result (asserted_under (S.scope scope.now) (inside [] bound.now) t.now) }
{
    formula(span_of(t), elaborate_under(alloc, scope, bound, t)?)
}
