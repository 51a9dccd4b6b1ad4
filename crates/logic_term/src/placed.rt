//! Terms for the free names of a term, numbers for its bound ones, and the normal form, in one walk.
ghost use Rattle.std.specs.Prelude.{◌≡◌, [], ◌∷◌, ◌++◌, IfOk, OnOk, suc, length, map};
ghost use Rattle.logic_term.specs.Term.{choice, field, made, modeled, no_terms, and_term};
ghost use Rattle.logic_term.specs.TermView.{terms_of};
ghost use Rattle.logic_term.specs.TermOperator.{unary_operator, binary_operator, quantifier};
ghost use Rattle.logic_term.specs.Simplified.{nth_term, simplified, formed};
ghost use Rattle.logic_term.specs.Placed.{placed};
ghost use Rattle.logic_term.specs.Subst.{look, placing, numbers_before};
ghost use Rattle.logic_term.specs.Tasks.{enter, apply_last, bind_last, form_operator, form_count, step, steps, steps_of, binds_of, depth_in, made_of, with_last, applied, bound_over};
ghost use Rattle.logic_term.specs.Normal.{reduced};
ghost use Rattle.logic_term.specs.Laws.{HasValuesOf};

use crate::kinds::{Ctor, Quantifier, TermBinary, TermUnary};
use crate::subst::{Renaming, Replacement};
use crate::term::{Sort, Term, TermNode, quantified};
use crate::ty::TyNode;
use std::alloc::Global;
use text_core::{Name, NoMemory};

// ---- what stands for a name

/// The term that stands for the name: the first of its entries, or else the name itself.
fn entry_for(alloc: Global, name: Name, sub: &[Replacement]) -> Result<Term, NoMemory>
    ensures { IfOk result (λ t. t ≡ look sub.now name) }
{
    for i in 0..sub.len() {
        if name.0 == sub[i].name.0 {
            return sub[i].by.share();
        }
    }
    Term::var(alloc, name)
}

/// The same, the numbers of bound names standing before the entries, the innermost first.
fn looked_up(
    alloc: Global,
    name: Name,
    bound: &[Renaming],
    sub: &[Replacement],
) -> Result<Term, NoMemory>
    ensures { IfOk result (λ t. t ≡ look (numbers_before bound.now sub.now) name) }
{
    let mut left = bound.len();
    while left > 0 {
        left -= 1;
        let renaming = &bound[left];
        if name.0 == renaming.from.0 {
            return Term::var(alloc, renaming.to);
        }
    }
    entry_for(alloc, name, sub)
}

// ---- operators at terms

/// `t@`, which is the unbounded integer where `t` is a literal of a machine type.
fn model_of(alloc: Global, t: Term) -> Result<Term, NoMemory>
    ensures { IfOk result (λ m. m ≡ simplified modeled (and_term t no_terms)) }
{
    if let TermNode::Lit(number, sort) = t.node()
        && let TyNode::Int(_) = &sort.node
    {
        return Term::integer(alloc, *number);
    }
    Term::model(alloc, t)
}

/// The part of this number of a term, which is that part where the term is made of parts.
fn field_of(alloc: Global, number: u32, t: Term) -> Result<Term, NoMemory>
    ensures { IfOk result (λ m. m ≡ simplified (field number) (and_term t no_terms)) }
{
    if let TermNode::Make(_, parts) = t.node() {
        return nth_of(alloc, parts, number as usize);
    }
    Term::field(alloc, t, number)
}

/// The term of this number, from 0; `false` past the end.
#[tactic(auto, using(crate::proofs::Walking::nth_there, crate::proofs::Walking::nth_gone))]
fn nth_of(alloc: Global, parts: &[Term], number: usize) -> Result<Term, NoMemory>
    ensures { IfOk result (λ t. t ≡ nth_term (terms_of parts.now) number) }
{
    if number < parts.len() {
        return parts[number].share();
    }
    Term::truth(alloc, false)
}

/// The operator at a term, reduced where that is asked.
fn unary_form(alloc: Global, reduces: bool, op: TermUnary, t: Term) -> Result<Term, NoMemory>
    ensures { IfOk result (λ r. r ≡ formed reduces (unary_operator op) (and_term t no_terms)) }
{
    match (reduces, op) {
        (true, TermUnary::Model) => model_of(alloc, t),
        (true, TermUnary::Field(number)) => field_of(alloc, number, t),
        _ => Term::unary(alloc, op, t),
    }
}

/// The operator at terms, reduced where that is asked.
#[tactic(auto, using(crate::proofs::PlacedLaw::two_formed))]
fn binary_form(
    alloc: Global,
    reduces: bool,
    op: TermBinary,
    a: Term,
    b: Term,
) -> Result<Term, NoMemory>
    ensures { IfOk result (λ r. r ≡ formed reduces (binary_operator op) (and_term a (and_term b no_terms))) }
{
    let _ = reduces;
    Term::binary(alloc, op, a, b)
}

/// `if` of the terms, reduced where that is asked: where the condition is `true` or `false`, one of the sides.
fn choice_form(
    alloc: Global,
    reduces: bool,
    condition: Term,
    first: Term,
    second: Term,
) -> Result<Term, NoMemory>
    ensures { IfOk result (λ r. r ≡ formed reduces choice (and_term condition (and_term first (and_term second no_terms)))) }
{
    match (reduces, condition.node()) {
        (true, TermNode::Truth(true)) => Ok(first),
        (true, TermNode::Truth(false)) => Ok(second),
        _ => Term::choice(alloc, condition, first, second),
    }
}

/// What is made of the parts, reduced where that is asked.
#[tactic(auto, using(crate::proofs::PlacedLaw::made_formed))]
fn made_form(alloc: Global, reduces: bool, ctor: Ctor, parts: Vec<Term>) -> Result<Term, NoMemory>
    ensures { IfOk result (λ r. r ≡ formed reduces (made ctor) (terms_of parts.items)) }
{
    let _ = reduces;
    Term::made(alloc, ctor, parts)
}

// ---- the walk

impl Term {
    /// The term with entries' terms for its free names, all at once, its bound names being numbered from `next` on by their depth. It is
    /// reduced where `reduces` is set; for entries in normal form it is then in normal form, up to the numbers of bound names. Want of
    /// memory is answered too where a number would pass 64 bits.
    pub fn placed(
        &self,
        alloc: Global,
        reduces: bool,
        next: u64,
        sub: &[Replacement],
    ) -> Result<Term, NoMemory>
        ensures { IfOk result (λ t. t ≡ placed reduces next (placing sub.now) self.now) }
    {
        self.placed_in(alloc, reduces, next, &mut Vec::new(alloc), sub)
    }

    /// The same, where these names are bound around it.
    pub(crate) fn placed_in(
        &self,
        alloc: Global,
        reduces: bool,
        next: u64,
        bound: &mut Vec<Renaming>,
        sub: &[Replacement],
    ) -> Result<Term, NoMemory>
        ensures ok { IfOk result (λ t. t ≡ placed reduces next (placing (numbers_before bound.old.items sub.now)) self.now) }
        ensures kept { OnOk result (bound.new.items ≡ bound.old.items) }
    {
        let mut depth = next;
        let mut done = Vec::new(alloc);
        let mut tasks = Vec::new(alloc);
        tasks.push(Task::Enter(self))?;
        while let Some(task) = tasks.pop() {
            match task {
                Task::Enter(t) => {
                    t.enter(alloc, sub, &mut depth, bound, &mut tasks, &mut done)?;
                }
                Task::Form(form) => {
                    form.apply(alloc, reduces, &mut done)?;
                }
                Task::Quantify(word, number, sort) => {
                    bound.pop();
                    depth = number;
                    quantify(alloc, word, number, sort, &mut done)?;
                }
            }
        }
        done.pop().ok_or(NoMemory)
    }

    /// Makes the term where it has no parts; else adds what there is to do for it, the first task last.
    fn enter<'a>(
        &'a self,
        alloc: Global,
        sub: &[Replacement],
        depth: &mut u64,
        bound: &mut Vec<Renaming>,
        tasks: &mut Vec<Task<'a>>,
        done: &mut Vec<Term>,
    ) -> Result<(), NoMemory>
        ensures tasks { IfOk result (λ _. steps tasks.new.items ≡ steps_of depth.old self.now ++ steps tasks.old.items) }
        ensures bound { IfOk result (λ _. bound.new.items ≡ bound.old.items ++ binds_of depth.old self.now) }
        ensures depth { IfOk result (λ _. depth.new ≡ depth_in depth.old self.now) }
        ensures made { IfOk result (λ _. done.new.items ≡ done.old.items ++ made_of (numbers_before bound.old.items sub.now) self.now) }
    {
        match self.node() {
            TermNode::Var(name) => push_name(alloc, *name, bound.as_slice(), sub, done),
            TermNode::Lit(_, _) => push_shared(self, done),
            TermNode::Truth(_) => push_shared(self, done),
            TermNode::Make(ctor, parts) => push_make(*ctor, parts, tasks),
            TermNode::Unary(op, t) => push_over(Form::Unary(*op), t, tasks),
            TermNode::Binary(op, a, b) => push_binary(*op, a, b, tasks),
            TermNode::Choice(c, a, b) => push_choice(c, a, b, tasks),
            TermNode::Quantified(word, name, sort, t) => {
                open(*word, *name, sort, t, depth, bound, tasks)
            }
        }
    }
}

// ---- its steps

/// What is made of the terms that were made last.
#[derive(Clone, Copy)]
enum Form {
    Unary(TermUnary),
    Binary(TermBinary),
    Choice,
    /// Of so many parts.
    Make(Ctor, usize),
}

#[derive(Clone, Copy)]
enum Task<'a> {
    /// The term is to be placed.
    Enter(&'a Term),
    Form(Form),
    /// The term that was made last is the body of a quantifier, whose name has this number.
    Quantify(Quantifier, u64, &'a Sort),
}

fn push_task<'a>(task: Task<'a>, tasks: &mut Vec<Task<'a>>) -> Result<(), NoMemory>
    ensures { IfOk result (λ _. steps tasks.new.items ≡ step task.entry ∷ steps tasks.old.items) }
{
    tasks.push(task)?;
    Ok(())
}

fn push_name(
    alloc: Global,
    name: Name,
    bound: &[Renaming],
    sub: &[Replacement],
    done: &mut Vec<Term>,
) -> Result<(), NoMemory>
    ensures { IfOk result (λ _. done.new.items ≡ done.old.items ++ look (numbers_before bound.now sub.now) name ∷ []) }
{
    done.push(looked_up(alloc, name, bound, sub)?)?;
    Ok(())
}

fn push_shared(t: &Term, done: &mut Vec<Term>) -> Result<(), NoMemory>
    ensures { IfOk result (λ _. done.new.items ≡ done.old.items ++ t.now ∷ []) }
{
    done.push(t.share()?)?;
    Ok(())
}

fn push_over<'a>(form: Form, t: &'a Term, tasks: &mut Vec<Task<'a>>) -> Result<(), NoMemory>
    ensures { IfOk result (λ _. steps tasks.new.items ≡ enter t.now ∷ apply_last (form_operator form) (form_count form) ∷ steps tasks.old.items) }
{
    push_task(Task::Form(form), tasks)?;
    push_task(Task::Enter(t), tasks)
}

fn push_binary<'a>(
    op: TermBinary,
    a: &'a Term,
    b: &'a Term,
    tasks: &mut Vec<Task<'a>>,
) -> Result<(), NoMemory>
    ensures { IfOk result (λ _. steps tasks.new.items ≡ enter a.now ∷ enter b.now ∷ apply_last (binary_operator op) 2 ∷ steps tasks.old.items) }
{
    push_over(Form::Binary(op), b, tasks)?;
    push_task(Task::Enter(a), tasks)
}

fn push_choice<'a>(
    condition: &'a Term,
    first: &'a Term,
    second: &'a Term,
    tasks: &mut Vec<Task<'a>>,
) -> Result<(), NoMemory>
    ensures { IfOk result (λ _. steps tasks.new.items ≡ enter condition.now ∷ enter first.now ∷ enter second.now ∷ apply_last choice 3 ∷ steps tasks.old.items) }
{
    push_over(Form::Choice, second, tasks)?;
    push_task(Task::Enter(first), tasks)?;
    push_task(Task::Enter(condition), tasks)
}

fn push_make<'a>(ctor: Ctor, parts: &'a [Term], tasks: &mut Vec<Task<'a>>) -> Result<(), NoMemory>
    ensures { IfOk result (λ _. steps tasks.new.items ≡ map enter parts.now ++ apply_last (made ctor) (length parts.now) ∷ steps tasks.old.items) }
{
    push_task(Task::Form(Form::Make(ctor, parts.len())), tasks)?;
    for i in (0..parts.len()).rev() {
        push_task(Task::Enter(&parts[i]), tasks)?;
    }
    Ok(())
}

/// The body of a quantifier is next, whose name gets the number `depth`.
fn open<'a>(
    word: Quantifier,
    name: Name,
    sort: &'a Sort,
    body: &'a Term,
    depth: &mut u64,
    bound: &mut Vec<Renaming>,
    tasks: &mut Vec<Task<'a>>,
) -> Result<(), NoMemory>
    ensures tasks { IfOk result (λ _. steps tasks.new.items ≡ enter body.now ∷ bind_last (quantifier word) depth.old sort.now ∷ steps tasks.old.items) }
    ensures bound { IfOk result (λ _. bound.new.items ≡ bound.old.items ++ record { from = name; to = record { 0 = depth.old } } ∷ []) }
    ensures depth { IfOk result (λ _. depth.new ≡ suc depth.old) }
{
    let number = *depth;
    *depth = number.checked_add(1).ok_or(NoMemory)?;
    bound.push(Renaming {
        from: name,
        to: Name(number),
    })?;
    push_task(Task::Quantify(word, number, sort), tasks)?;
    push_task(Task::Enter(body), tasks)
}

impl Form {
    /// Puts what is made in the place of the terms that it is made of.
    fn apply(self, alloc: Global, reduces: bool, done: &mut Vec<Term>) -> Result<(), NoMemory>
        ensures { IfOk result (λ _. done.new.items ≡ with_last (applied reduces (form_operator self)) (form_count self) done.old.items) }
    {
        match self {
            Form::Unary(op) => apply_unary(alloc, reduces, op, done),
            Form::Binary(op) => apply_binary(alloc, reduces, op, done),
            Form::Choice => apply_choice(alloc, reduces, done),
            Form::Make(ctor, count) => apply_made(alloc, reduces, ctor, count, done),
        }
    }
}

#[tactic(auto, using(crate::proofs::TasksWalk::one_last))]
fn apply_unary(
    alloc: Global,
    reduces: bool,
    op: TermUnary,
    done: &mut Vec<Term>,
) -> Result<(), NoMemory>
    ensures { IfOk result (λ _. done.new.items ≡ with_last (applied reduces (unary_operator op)) 1 done.old.items) }
{
    let Some(t) = done.pop() else {
        return Err(NoMemory);
    };
    done.push(unary_form(alloc, reduces, op, t)?)?;
    Ok(())
}

#[tactic(auto, using(crate::proofs::TasksWalk::two_last))]
fn apply_binary(
    alloc: Global,
    reduces: bool,
    op: TermBinary,
    done: &mut Vec<Term>,
) -> Result<(), NoMemory>
    ensures { IfOk result (λ _. done.new.items ≡ with_last (applied reduces (binary_operator op)) 2 done.old.items) }
{
    let (Some(b), Some(a)) = (done.pop(), done.pop()) else {
        return Err(NoMemory);
    };
    done.push(binary_form(alloc, reduces, op, a, b)?)?;
    Ok(())
}

#[tactic(auto, using(crate::proofs::TasksWalk::three_last))]
fn apply_choice(alloc: Global, reduces: bool, done: &mut Vec<Term>) -> Result<(), NoMemory>
    ensures { IfOk result (λ _. done.new.items ≡ with_last (applied reduces choice) 3 done.old.items) }
{
    let (Some(second), Some(first), Some(condition)) = (done.pop(), done.pop(), done.pop()) else {
        return Err(NoMemory);
    };
    done.push(choice_form(alloc, reduces, condition, first, second)?)?;
    Ok(())
}

fn apply_made(
    alloc: Global,
    reduces: bool,
    ctor: Ctor,
    count: usize,
    done: &mut Vec<Term>,
) -> Result<(), NoMemory>
    ensures { IfOk result (λ _. done.new.items ≡ with_last (applied reduces (made ctor)) count done.old.items) }
{
    let first = done.len().saturating_sub(count);
    let parts = done.split_off(first)?;
    done.push(made_form(alloc, reduces, ctor, parts)?)?;
    Ok(())
}

#[tactic(auto, using(crate::proofs::TasksWalk::one_last))]
fn quantify(
    alloc: Global,
    word: Quantifier,
    number: u64,
    sort: &Sort,
    done: &mut Vec<Term>,
) -> Result<(), NoMemory>
    ensures { IfOk result (λ _. done.new.items ≡ with_last (bound_over (quantifier word) number sort.now) 1 done.old.items) }
{
    let Some(body) = done.pop() else {
        return Err(NoMemory);
    };
    done.push(quantified(alloc, word, Name(number), sort, body)?)?;
    Ok(())
}

// ---- the normal form

/// The normal form of the term: `@` of a literal is the unbounded integer, a part of what is made of parts is that part, `if` of `true` or
/// `false` is one of its sides, and bound names are numbered as in the canonical form. It has
/// the values of the term, whatever the values of names.
pub fn reduce(alloc: Global, t: &Term) -> Result<Term, NoMemory>
    ensures form { IfOk result (λ r. r ≡ reduced t.now) }
    ensures values { IfOk result (λ r. HasValuesOf r t.now) }
{
    normal_form(alloc, t)
}

#[tactic(auto, unfolding(crate::specs::Normal::reduced))]
fn normal_form(alloc: Global, t: &Term) -> Result<Term, NoMemory>
    ensures { IfOk result (λ r. r ≡ reduced t.now) }
{
    let next = t.above_free(alloc)?;
    let form = t.placed(alloc, true, next, &[])?;
    form.canonical(alloc)
}
