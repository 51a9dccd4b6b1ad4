//! Terms with another term in the place of some of their subterms.
ghost use Rattle.std.specs.Prelude.{◌≡◌, ◌∷◌, ◌++◌, [], IfOk, length, map, suc};
ghost use Rattle.logic_term.specs.Same.{same_term};
ghost use Rattle.logic_term.specs.Subst.{subst};
ghost use Rattle.logic_term.specs.Tasks.{with_last};
ghost use Rattle.logic_term.specs.Term.{choice, made};
ghost use Rattle.logic_term.specs.TermOperator.{unary_operator, binary_operator, quantifier};
ghost use Rattle.logic_term.specs.Walk.{parts};
ghost use Rattle.std.specs.Option.{option_map};
ghost use Rattle.proof_kernel.specs.ChangeCode.{exchange_of};
ghost use Rattle.proof_kernel.specs.DecideRule.{deciding, is_denial, side_where};
ghost use Rattle.proof_kernel.specs.Exchanged.{side, exchanged};
ghost use Rattle.proof_kernel.specs.ExchangeSteps.{enter, remake, step, steps, depth_in, steps_of, side_steps, made_of, applied, bound, with_parts};
ghost use Rattle.proof_kernel.specs.RewriteRules.{for_each};

use logic_term::{Ctor, Quantifier, Sort, Term, TermBinary, TermForm, TermUnary};
use std::alloc::Global;
use text_core::{Name, NoMemory};

/// What is changed in a term.
#[derive(Clone, Copy)]
pub(crate) enum Change<'a> {
    /// The second term stands for each that is the first.
    Put(&'a Term, &'a Term),
    /// The first side stands for each `if` whose condition is the term, and the second for each whose condition the term denies.
    Decide(&'a Term),
}

#[derive(Clone, Copy)]
enum Task<'a> {
    /// The term is next, at this depth.
    Enter(u64, &'a Term),
    /// The terms that were made last become the direct parts of the term.
    Remake(&'a Term),
}

/// The changed term at this depth, its bound names being numbered from there on. Terms are compared but for the names that both bind, outermost
/// first. It may be as deep as memory allows.
pub(crate) fn exchanged(
    alloc: Global,
    change: Change<'_>,
    depth: u64,
    t: &Term,
) -> Result<Term, NoMemory>
    ensures { IfOk result (λ r. r ≡ exchanged (exchange_of change.entry) depth t.now) }
{
    let mut done = Vec::new(alloc);
    let mut tasks = Vec::new(alloc);
    tasks.push(Task::Enter(depth, t))?;
    while let Some(task) = tasks.pop() {
        match task {
            Task::Enter(depth, next) => {
                enter(alloc, change, depth, next, &mut tasks, &mut done)?;
            }
            Task::Remake(next) => {
                remake(alloc, next, &mut done)?;
            }
        }
    }
    done.pop().ok_or(NoMemory)
}

fn is_same(alloc: Global, t: &Term, other: &Term) -> Result<bool, NoMemory>
    ensures { IfOk result (λ b. b ≡ same_term t.now other.now) }
{
    t.same(alloc, other)
}

/// Whether the term is `of`, whose bound names are numbered from the depth on.
fn is_at(alloc: Global, of: &Term, depth: u64, t: &Term) -> Result<bool, NoMemory>
    ensures { IfOk result (λ b. b ≡ same_term t.now (subst depth [] of.now)) }
{
    let form = of.placed(alloc, false, depth, &[])?;
    is_same(alloc, t, &form)
}

/// Whether the second term denies the first.
fn is_denial(alloc: Global, c: &Term, t: &Term) -> Result<bool, NoMemory>
    ensures { IfOk result (λ b. b ≡ is_denial c.now t.now) }
{
    match t.form() {
        TermForm::Unary(TermUnary::Not, a) => is_same(alloc, c, a),
        _ => Ok(false),
    }
}

/// Which side counts where the term is true: the first where it is the condition, the second where it denies it.
fn side_where(alloc: Global, known: &Term, c: &Term) -> Result<Option<bool>, NoMemory>
    ensures { IfOk result (λ o. option_map side o ≡ side_where known.now c.now) }
{
    if is_same(alloc, c, known)? {
        Ok(Some(true))
    } else if is_denial(alloc, c, known)? {
        Ok(Some(false))
    } else {
        Ok(None)
    }
}

/// The same of the `if` that the term is at this depth.
fn side_at(alloc: Global, known: &Term, depth: u64, t: &Term) -> Result<Option<bool>, NoMemory>
    ensures { IfOk result (λ o. option_map side o ≡ deciding known.now depth t.now) }
{
    match t.form() {
        TermForm::Choice(c, _, _) => {
            let known = known.placed(alloc, false, depth, &[])?;
            side_where(alloc, &known, c)
        }
        _ => Ok(None),
    }
}

/// Makes the other term where the term is to be replaced; else adds what there is to do for it, the first task last.
fn enter_put<'a>(
    alloc: Global,
    of: &Term,
    by: &Term,
    depth: u64,
    t: &'a Term,
    tasks: &mut Vec<Task<'a>>,
    done: &mut Vec<Term>,
) -> Result<(), NoMemory>
    ensures tasks { IfOk result (λ _. steps tasks.new.items ≡ steps_of (for_each of.now by.now depth t.now) depth t.now ++ steps tasks.old.items) }
    ensures made { IfOk result (λ _. done.new.items ≡ done.old.items ++ made_of (for_each of.now by.now depth t.now)) }
{
    if is_at(alloc, of, depth, t)? {
        push_shared(by, done)
    } else {
        push_parts(depth, t, tasks)
    }
}

/// Adds what there is to do for a term, or for the side of it that counts.
fn enter_decided<'a>(
    alloc: Global,
    known: &Term,
    depth: u64,
    t: &'a Term,
    tasks: &mut Vec<Task<'a>>,
) -> Result<(), NoMemory>
    ensures { IfOk result (λ _. steps tasks.new.items ≡ steps_of (deciding known.now depth t.now) depth t.now ++ steps tasks.old.items) }
{
    match side_at(alloc, known, depth, t)? {
        None => push_parts(depth, t, tasks),
        Some(first) => push_side(first, depth, t, tasks),
    }
}

fn enter<'a>(
    alloc: Global,
    change: Change<'_>,
    depth: u64,
    t: &'a Term,
    tasks: &mut Vec<Task<'a>>,
    done: &mut Vec<Term>,
) -> Result<(), NoMemory>
    ensures tasks { IfOk result (λ _. steps tasks.new.items ≡ steps_of (exchange_of change.entry depth t.now) depth t.now ++ steps tasks.old.items) }
    ensures made { IfOk result (λ _. done.new.items ≡ done.old.items ++ made_of (exchange_of change.entry depth t.now)) }
{
    match change {
        Change::Put(of, by) => enter_put(alloc, of, by, depth, t, tasks, done),
        Change::Decide(known) => enter_decided(alloc, known, depth, t, tasks),
    }
}

// ---- what is still to be done

fn push_task<'a>(task: Task<'a>, tasks: &mut Vec<Task<'a>>) -> Result<(), NoMemory>
    ensures { IfOk result (λ _. steps tasks.new.items ≡ step task.entry ∷ steps tasks.old.items) }
{
    tasks.push(task)?;
    Ok(())
}

/// The terms, the first last.
fn push_all<'a>(depth: u64, terms: &'a [Term], tasks: &mut Vec<Task<'a>>) -> Result<(), NoMemory>
    ensures { IfOk result (λ _. steps tasks.new.items ≡ map (enter depth) terms.now ++ steps tasks.old.items) }
{
    for i in (0..terms.len()).rev() {
        push_task(Task::Enter(depth, &terms[i]), tasks)?;
    }
    Ok(())
}

/// The body of a quantifier, which is one deeper.
fn push_body<'a>(depth: u64, body: &'a Term, tasks: &mut Vec<Task<'a>>) -> Result<(), NoMemory>
    ensures { IfOk result (λ _. steps tasks.new.items ≡ enter (suc depth) body.now ∷ steps tasks.old.items) }
{
    let depth = depth.checked_add(1).ok_or(NoMemory)?;
    push_task(Task::Enter(depth, body), tasks)
}

fn push_both<'a>(
    depth: u64,
    a: &'a Term,
    b: &'a Term,
    tasks: &mut Vec<Task<'a>>,
) -> Result<(), NoMemory>
    ensures { IfOk result (λ _. steps tasks.new.items ≡ enter depth a.now ∷ enter depth b.now ∷ steps tasks.old.items) }
{
    push_task(Task::Enter(depth, b), tasks)?;
    push_task(Task::Enter(depth, a), tasks)
}

fn push_three<'a>(
    depth: u64,
    a: &'a Term,
    b: &'a Term,
    c: &'a Term,
    tasks: &mut Vec<Task<'a>>,
) -> Result<(), NoMemory>
    ensures { IfOk result (λ _. steps tasks.new.items ≡ enter depth a.now ∷ enter depth b.now ∷ enter depth c.now ∷ steps tasks.old.items) }
{
    push_task(Task::Enter(depth, c), tasks)?;
    push_both(depth, a, b, tasks)
}

/// The direct parts of the term, and then the term of what they become.
#[tactic(auto, using(logic_term::proofs::Walking::listed_terms))]
fn push_parts<'a>(depth: u64, t: &'a Term, tasks: &mut Vec<Task<'a>>) -> Result<(), NoMemory>
    ensures { IfOk result (λ _. steps tasks.new.items ≡ map (enter (depth_in depth t.now)) (parts t.now) ++ remake t.now ∷ steps tasks.old.items) }
{
    push_task(Task::Remake(t), tasks)?;
    match t.form() {
        TermForm::Make(_, terms) => push_all(depth, terms, tasks),
        TermForm::Unary(_, a) => push_task(Task::Enter(depth, a), tasks),
        TermForm::Binary(_, a, b) => push_both(depth, a, b, tasks),
        TermForm::Choice(c, a, b) => push_three(depth, c, a, b, tasks),
        TermForm::Quantified(_, _, _, a) => push_body(depth, a, tasks),
        _ => Ok(()),
    }
}

/// The side of an `if`; of another term, all its parts.
fn push_side<'a>(
    first: bool,
    depth: u64,
    t: &'a Term,
    tasks: &mut Vec<Task<'a>>,
) -> Result<(), NoMemory>
    ensures { IfOk result (λ _. steps tasks.new.items ≡ side_steps first depth t.now ++ steps tasks.old.items) }
{
    match t.form() {
        TermForm::Choice(_, a, b) => {
            let side = if first { a } else { b };
            push_task(Task::Enter(depth, side), tasks)
        }
        _ => push_parts(depth, t, tasks),
    }
}

// ---- what is made

fn push_shared(t: &Term, done: &mut Vec<Term>) -> Result<(), NoMemory>
    ensures { IfOk result (λ _. done.new.items ≡ done.old.items ++ t.now ∷ []) }
{
    done.push(t.share()?)?;
    Ok(())
}

/// Puts the term of the parts that were made last in their place.
#[tactic(auto, using(crate::proofs::ExchangeWalk::none_last, logic_term::proofs::Walking::listed_terms))]
fn remake(alloc: Global, t: &Term, done: &mut Vec<Term>) -> Result<(), NoMemory>
    ensures { IfOk result (λ _. done.new.items ≡ with_last (with_parts t.now) (length (parts t.now)) done.old.items) }
{
    match t.form() {
        TermForm::Make(ctor, terms) => remake_made(alloc, ctor, terms.len(), done),
        TermForm::Unary(op, _) => remake_unary(alloc, op, done),
        TermForm::Binary(op, _, _) => remake_binary(alloc, op, done),
        TermForm::Choice(_, _, _) => remake_choice(alloc, done),
        TermForm::Quantified(word, name, sort, _) => {
            remake_quantified(alloc, word, name, sort, done)
        }
        _ => push_shared(t, done),
    }
}

fn remake_made(
    alloc: Global,
    ctor: Ctor,
    count: usize,
    done: &mut Vec<Term>,
) -> Result<(), NoMemory>
    ensures { IfOk result (λ _. done.new.items ≡ with_last (applied (made ctor)) count done.old.items) }
{
    let first = done.len().saturating_sub(count);
    let terms = done.split_off(first)?;
    done.push(Term::made(alloc, ctor, terms)?)?;
    Ok(())
}

#[tactic(auto, using(logic_term::proofs::TasksWalk::one_last))]
fn remake_unary(alloc: Global, op: TermUnary, done: &mut Vec<Term>) -> Result<(), NoMemory>
    ensures { IfOk result (λ _. done.new.items ≡ with_last (applied (unary_operator op)) 1 done.old.items) }
{
    let Some(t) = done.pop() else {
        return Err(NoMemory);
    };
    done.push(Term::unary(alloc, op, t)?)?;
    Ok(())
}

#[tactic(auto, using(logic_term::proofs::TasksWalk::two_last))]
fn remake_binary(alloc: Global, op: TermBinary, done: &mut Vec<Term>) -> Result<(), NoMemory>
    ensures { IfOk result (λ _. done.new.items ≡ with_last (applied (binary_operator op)) 2 done.old.items) }
{
    let (Some(b), Some(a)) = (done.pop(), done.pop()) else {
        return Err(NoMemory);
    };
    done.push(Term::binary(alloc, op, a, b)?)?;
    Ok(())
}

#[tactic(auto, using(logic_term::proofs::TasksWalk::three_last))]
fn remake_choice(alloc: Global, done: &mut Vec<Term>) -> Result<(), NoMemory>
    ensures { IfOk result (λ _. done.new.items ≡ with_last (applied choice) 3 done.old.items) }
{
    let (Some(c), Some(b), Some(a)) = (done.pop(), done.pop(), done.pop()) else {
        return Err(NoMemory);
    };
    done.push(Term::choice(alloc, a, b, c)?)?;
    Ok(())
}

#[tactic(auto, using(logic_term::proofs::TasksWalk::one_last))]
fn remake_quantified(
    alloc: Global,
    word: Quantifier,
    name: Name,
    sort: &Sort,
    done: &mut Vec<Term>,
) -> Result<(), NoMemory>
    ensures { IfOk result (λ _. done.new.items ≡ with_last (bound (quantifier word) name sort.now) 1 done.old.items) }
{
    let Some(body) = done.pop() else {
        return Err(NoMemory);
    };
    let sort = sort.copy(alloc)?;
    done.push(Term::quantified(alloc, word, name, sort, body)?)?;
    Ok(())
}
