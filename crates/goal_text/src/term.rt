//! Terms as text.
ghost use Rattle.std.specs.Prelude.{◌≡◌, ◌<◌, ◌≤◌, ◌+◌, [], ◌∷◌, ◌++◌, ℕ, List, codes, map, reverse, IfOk, OnOk};
ghost use Rattle.logic_term.specs.TermView.{terms_of};
ghost use Rattle.logic_term.specs.TermOperator.{unary_operator, binary_operator, quantifier};
ghost use Rattle.logic_term.specs.Term.{bind, if_else, one, two};
ghost use Rattle.goal_text.specs.SortText.{commas};
ghost use Rattle.goal_text.specs.Spelling.{Spelling as Words, labelled};
ghost use Rattle.goal_text.specs.SpellingView.{spelling_of};
ghost use Rattle.goal_text.specs.BoundView.{bounds_of};
ghost use Rattle.goal_text.specs.GoalText.{applied_text, binder_text, fields_text, literal_text, made_text, number_in, quantifier_word, text_in, text_of_goal, texts_in, truth_text};
ghost use Rattle.goal_text.specs.declared.term.Task.{Task};
ghost use Rattle.goal_text.specs.TasksView.{Around, after_commas, all_text, left_load, left_text, load, loads, with_text};

use crate::piece::{binary_bytes, push_numbered, push_text, tuple_end_bytes};
use crate::sort::{push_sort, suffix_bytes};
use crate::spelling::{
    Spelling, closing_bytes, field_at, fields_at, first_field, is_numbered, opening_bytes,
    other_fields, push_label, push_path,
};
use logic_term::{Ctor, FieldDecl, Quantifier, Sort, Term, TermBinary, TermForm, TermUnary};
use std::alloc::Global;
use text_core::{Name, NoMemory};

/// The goal as text, on one line and with no line feed.
///
/// - A binary operator stands in parentheses, with a space on each side of it: `(A + B)`, and so with `-`, `*`, `/`,
///   `%`, `<`, `<=`, `==`, `&&`, `||` and `==>`. Others are `(!A)`, `(-A)`, and `A@` for the unbounded integer of a
///   machine integer.
/// - A literal of a machine type ends in the type, and one of another sort does not; a negative one stands in
///   parentheses: `5i32`, `(-5i32)`, `5`, `(-5)`. Truth values are `true` and `false`.
/// - A part is `A.0`, by its number, and an `if` is `(if A { B } else { C })`.
/// - A universal formula is `(forall<v1: S> A)`, where S is the sort, and an existential one `(exists<v1: S> A)`. The variable is `v` and one more than the number of
///   binders around it, whatever its name. Where two binders around a variable have its name, the inner one counts. A
///   variable that no binder around it has is `v0`; goals of programs are closed, so they have none.
/// - A tuple is `()`, `(A,)` or `(A, B)`. A struct or a variant is `Path`, `Path(A, B)` or `Path { f: A, g: B }`, where the
///   path is `Type` or `Type::Variant`, by the names of the spelling. A closure is `closure(A, B)`, of its captures.
/// - Sorts are `i8` to `usize`, `bool`, `Int` for the unbounded integers, tuples as those of terms, and `Type` or
///   `Type<A, B>`; `&mut A`, `View<A>`, `Snapshot<A>`, and `Box<A>` and `&A`, which are no sorts. Regions are not printed.
///   Closures and type parameters have no names in a spelling: `closure3<A, B>(C, D)` is a closure by its number, with
///   types for the parameters around it and those of its captures, and `param3` a type parameter by its number.
///
/// A declared type or a field that the spelling lacks, and a name without a text, are printed as nothing.
///
/// Its one error is want of memory.
pub fn goal_text(alloc: Global, spelling: &Spelling<'_>, goal: &Term) -> Result<Vec<u8>, NoMemory>
    ensures { IfOk result (λ text. text.items ≡ text_of_goal (spelling_of spelling.now) goal.now) }
{
    let mut out = Vec::new(alloc);
    push_term(alloc, &mut out, spelling, goal)?;
    Ok(out)
}

/// A name that is bound around a term, with its sort.
#[derive(Clone, Copy)]
pub(crate) struct Bound<'a> {
    name: Name,
    sort: &'a Sort,
}

/// What is still to be printed.
#[derive(Clone, Copy)]
enum Task<'a> {
    Term(&'a Term),
    Text(&'a [u8]),
    /// The number of a part, after a point.
    Field(u32),
    /// The terms, each after a comma.
    Others(&'a [Term]),
    /// The values of fields, each after a comma and its field; the flag says that fields are named by their numbers.
    OtherFields(bool, &'a [FieldDecl], &'a [Term]),
    /// The scope of the name that was bound last ends here.
    Left,
}

/// The number of the innermost binder of the name, the outermost being 1; 0 where none binds it.
fn number_of(bound: &[Bound<'_>], name: Name) -> usize
    ensures { result ≡ number_in (bounds_of bound.now) name }
{
    let mut left = bound.len();
    while left > 0 {
        left -= 1;
        if name.0 == bound[left].name.0 {
            return left + 1;
        }
    }
    0
}

fn truth_bytes(holds: bool) -> &'static [u8]
    ensures { result.now ≡ truth_text holds }
{
    if holds { b"true" } else { b"false" }
}

fn push_literal(alloc: Global, out: &mut Vec<u8>, number: i128, sort: &Sort) -> Result<(), NoMemory>
    ensures { OnOk result (out.new.items ≡ out.old.items ++ literal_text number sort.now) }
{
    let digits = number.to_string(alloc)?;
    if number < 0 {
        push_text(out, b"(")?;
        push_text(out, digits.as_bytes())?;
        push_text(out, suffix_bytes(sort))?;
        return push_text(out, b")");
    }
    push_text(out, digits.as_bytes())?;
    push_text(out, suffix_bytes(sort))
}

/// The quantifier up to the number of its variable.
fn quantifier_bytes(word: Quantifier) -> &'static [u8]
    ensures { result.now ≡ quantifier_word (quantifier word) }
{
    match word {
        Quantifier::Forall => b"forall<v",
        Quantifier::Exists => b"exists<v",
    }
}

/// What stands before the body of a quantified formula.
fn push_binder(
    alloc: Global,
    out: &mut Vec<u8>,
    spelling: &Spelling<'_>,
    word: Quantifier,
    number: u64,
    sort: &Sort,
) -> Result<(), NoMemory>
    ensures { OnOk result (out.new.items ≡ out.old.items ++ binder_text (spelling_of spelling.now) (quantifier word) number sort.now) }
{
    push_numbered(alloc, out, quantifier_bytes(word), number)?;
    push_text(out, b": ")?;
    push_sort(alloc, out, spelling, sort)?;
    push_text(out, b"> ")
}

/// The term, no name being bound around it.
fn push_term<'a>(
    alloc: Global,
    out: &mut Vec<u8>,
    spelling: &Spelling<'a>,
    term: &'a Term,
) -> Result<(), NoMemory>
    ensures { OnOk result (out.new.items ≡ out.old.items ++ text_in (spelling_of spelling.now) [] term.now) }
{
    let mut bound = Vec::new(alloc);
    let mut tasks = Vec::new(alloc);
    tasks.push(Task::Term(term))?;
    while let Some(task) = tasks.pop() {
        match task {
            Task::Term(t) => {
                print_term(alloc, out, spelling, t, &mut bound, &mut tasks)?;
            }
            Task::Text(text) => {
                push_text(out, text)?;
            }
            Task::Field(number) => {
                push_numbered(alloc, out, b".", u64::from(number))?;
            }
            Task::Others(terms) => {
                print_others(out, terms, &mut tasks)?;
            }
            Task::OtherFields(numbered, fields, terms) => {
                print_other_fields(out, spelling, numbered, fields, terms, &mut tasks)?;
            }
            Task::Left => {
                bound.pop();
            }
        }
    }
    Ok(())
}

/// Prints the term up to its first part, and adds what is to be printed from there on.
fn print_term<'a>(
    alloc: Global,
    out: &mut Vec<u8>,
    spelling: &Spelling<'a>,
    term: &'a Term,
    bound: &mut Vec<Bound<'a>>,
    tasks: &mut Vec<Task<'a>>,
) -> Result<(), NoMemory>
    ensures text { OnOk result (all_text (spelling_of spelling.now) out.new.items (bounds_of bound.new.items) tasks.new.items ≡ with_text (spelling_of spelling.now) out.old.items (text_in (spelling_of spelling.now) (bounds_of bound.old.items) term.now) (bounds_of bound.old.items) tasks.old.items) }
    ensures less { OnOk result (left_load (reverse tasks.new.items) < load term.now + left_load (reverse tasks.old.items)) }
{
    match term.form() {
        TermForm::Var(name) => {
            let number = number_of(bound.as_slice(), name) as u64;
            push_numbered(alloc, out, b"v", number)
        }
        TermForm::Lit(number, sort) => push_literal(alloc, out, number, sort),
        TermForm::Truth(holds) => push_text(out, truth_bytes(holds)),
        TermForm::Make(ctor, parts) => print_made(out, spelling, ctor, parts, tasks),
        TermForm::Unary(op, t) => print_unary(out, op, t, tasks),
        TermForm::Binary(op, a, b) => print_binary(out, a, op, b, tasks),
        TermForm::Choice(condition, first, second) => {
            print_choice(out, condition, first, second, tasks)
        }
        TermForm::Quantified(word, name, sort, t) => {
            print_quantified(alloc, out, spelling, word, name, sort, t, bound, tasks)
        }
    }
}

/// `(if A { B } else { C })`
fn print_choice<'a>(
    out: &mut Vec<u8>,
    condition: &'a Term,
    first: &'a Term,
    second: &'a Term,
    tasks: &mut Vec<Task<'a>>,
) -> Result<(), NoMemory>
    ensures text { OnOk result ((w : Words) → (bs : Around) → all_text w out.new.items bs tasks.new.items ≡ with_text w out.old.items (text_in w bs (if_else condition.now first.now second.now)) bs tasks.old.items) }
    ensures less { OnOk result (left_load (reverse tasks.new.items) ≤ 3 + load condition.now + load first.now + load second.now + left_load (reverse tasks.old.items)) }
{
    push_text(out, b"(if ")?;
    tasks.push(Task::Text(b" })"))?;
    tasks.push(Task::Term(second))?;
    tasks.push(Task::Text(b" } else { "))?;
    tasks.push(Task::Term(first))?;
    tasks.push(Task::Text(b" { "))?;
    tasks.push(Task::Term(condition))?;
    Ok(())
}

/// `A@`, `(-A)`, `(!A)` or `A.0`
fn print_unary<'a>(
    out: &mut Vec<u8>,
    op: TermUnary,
    t: &'a Term,
    tasks: &mut Vec<Task<'a>>,
) -> Result<(), NoMemory>
    ensures text { OnOk result ((w : Words) → (bs : Around) → all_text w out.new.items bs tasks.new.items ≡ with_text w out.old.items (text_in w bs (one (unary_operator op) t.now)) bs tasks.old.items) }
    ensures less { OnOk result (left_load (reverse tasks.new.items) ≤ 1 + load t.now + left_load (reverse tasks.old.items)) }
{
    let (before, after) = unary_bytes(op);
    push_text(out, before)?;
    tasks.push(after)?;
    tasks.push(Task::Term(t))?;
    Ok(())
}

/// What stands before the term, and what is to be printed behind it.
fn unary_bytes(op: TermUnary) -> (&'static [u8], Task<'static>)
    ensures text { (w : Words) → (bs : Around) → (text : List ℕ) → applied_text w (unary_operator op) (text ∷ []) ≡ result.0.now ++ (text ++ left_text w bs (result.1 ∷ [])) }
    ensures less { left_load (result.1 ∷ []) ≡ 1 }
    ensures alone { (w : Words) → (bs : Around) → (ts : List Task) → left_text w bs (result.1 ∷ ts) ≡ left_text w bs (result.1 ∷ []) ++ left_text w bs ts }
{
    match op {
        TermUnary::Model => (b"", Task::Text(b"@")),
        TermUnary::Negative => (b"(-", Task::Text(b")")),
        TermUnary::Not => (b"(!", Task::Text(b")")),
        TermUnary::Field(number) => (b"", Task::Field(number)),
    }
}

/// `(A && B)`
fn print_binary<'a>(
    out: &mut Vec<u8>,
    left: &'a Term,
    op: TermBinary,
    right: &'a Term,
    tasks: &mut Vec<Task<'a>>,
) -> Result<(), NoMemory>
    ensures text { OnOk result ((w : Words) → (bs : Around) → all_text w out.new.items bs tasks.new.items ≡ with_text w out.old.items (text_in w bs (two (binary_operator op) left.now right.now)) bs tasks.old.items) }
    ensures less { OnOk result (left_load (reverse tasks.new.items) ≤ 2 + load left.now + load right.now + left_load (reverse tasks.old.items)) }
{
    push_text(out, b"(")?;
    tasks.push(Task::Text(b")"))?;
    tasks.push(Task::Term(right))?;
    tasks.push(Task::Text(binary_bytes(op)))?;
    tasks.push(Task::Term(left))?;
    Ok(())
}

/// `(forall<v1: S> A)` or `(exists<v1: S> A)`
fn print_quantified<'a>(
    alloc: Global,
    out: &mut Vec<u8>,
    spelling: &Spelling<'a>,
    word: Quantifier,
    name: Name,
    sort: &'a Sort,
    body: &'a Term,
    bound: &mut Vec<Bound<'a>>,
    tasks: &mut Vec<Task<'a>>,
) -> Result<(), NoMemory>
    ensures text { OnOk result (all_text (spelling_of spelling.now) out.new.items (bounds_of bound.new.items) tasks.new.items
        ≡ with_text (spelling_of spelling.now) out.old.items (text_in (spelling_of spelling.now) (bounds_of bound.old.items) (bind (quantifier word) name sort.now body.now)) (bounds_of bound.old.items) tasks.old.items) }
    ensures less { OnOk result (left_load (reverse tasks.new.items) ≤ 2 + load body.now + left_load (reverse tasks.old.items)) }
{
    bound.push(Bound { name, sort })?;
    push_text(out, b"(")?;
    push_binder(alloc, out, spelling, word, bound.len() as u64, sort)?;
    tasks.push(Task::Text(b")"))?;
    tasks.push(Task::Left)?;
    tasks.push(Task::Term(body))?;
    Ok(())
}

/// A value made of parts.
fn print_made<'a>(
    out: &mut Vec<u8>,
    spelling: &Spelling<'a>,
    ctor: Ctor,
    parts: &'a [Term],
    tasks: &mut Vec<Task<'a>>,
) -> Result<(), NoMemory>
    ensures text { OnOk result ((bs : Around) → all_text (spelling_of spelling.now) out.new.items bs tasks.new.items ≡ with_text (spelling_of spelling.now) out.old.items (made_text (spelling_of spelling.now) ctor (texts_in (spelling_of spelling.now) bs (terms_of parts.now))) bs tasks.old.items) }
    ensures less { OnOk result (left_load (reverse tasks.new.items) ≤ 1 + loads (terms_of parts.now) + left_load (reverse tasks.old.items)) }
{
    match ctor {
        Ctor::Tuple => { print_parts(out, b"(", parts, tuple_end_bytes(parts.len()), tasks) }
        Ctor::Variant(declared, variant) => {
            push_path(out, spelling, declared, variant)?;
            let fields = fields_at(spelling, declared, variant);
            print_fields(out, spelling, fields, parts, tasks)
        }
        Ctor::Closure(_) => print_parts(out, b"closure(", parts, b")", tasks),
    }
}

/// The values of a variant's fields.
fn print_fields<'a>(
    out: &mut Vec<u8>,
    spelling: &Spelling<'a>,
    fields: &'a [FieldDecl],
    parts: &'a [Term],
    tasks: &mut Vec<Task<'a>>,
) -> Result<(), NoMemory>
    ensures text { OnOk result ((bs : Around) → all_text (spelling_of spelling.now) out.new.items bs tasks.new.items
        ≡ with_text (spelling_of spelling.now) out.old.items (fields_text (spelling_of spelling.now) fields.now (texts_in (spelling_of spelling.now) bs (terms_of parts.now))) bs tasks.old.items) }
    ensures less { OnOk result (left_load (reverse tasks.new.items) ≤ 1 + loads (terms_of parts.now) + left_load (reverse tasks.old.items)) }
{
    let Some((first, others)) = parts.split_first() else {
        return Ok(());
    };
    let numbered = is_numbered(spelling, fields);
    push_text(out, opening_bytes(numbered))?;
    push_label(out, spelling, numbered, first_field(fields))?;
    tasks.push(Task::Text(closing_bytes(numbered)))?;
    tasks.push(Task::OtherFields(numbered, other_fields(fields), others))?;
    tasks.push(Task::Term(first))?;
    Ok(())
}

/// Prints up to the first value, after a comma and its field.
fn print_other_fields<'a>(
    out: &mut Vec<u8>,
    spelling: &Spelling<'a>,
    numbered: bool,
    fields: &'a [FieldDecl],
    terms: &'a [Term],
    tasks: &mut Vec<Task<'a>>,
) -> Result<(), NoMemory>
    ensures text { OnOk result ((bs : Around) → all_text (spelling_of spelling.now) out.new.items bs tasks.new.items
        ≡ with_text (spelling_of spelling.now) out.old.items (after_commas (labelled (spelling_of spelling.now) numbered fields.now (map (text_in (spelling_of spelling.now) bs) terms.now))) bs tasks.old.items) }
    ensures less { OnOk result (left_load (reverse tasks.new.items) < loads (terms_of terms.now) + left_load (reverse tasks.old.items)) }
{
    let Some((first, others)) = terms.split_first() else {
        return Ok(());
    };
    push_text(out, b", ")?;
    push_label(out, spelling, numbered, first_field(fields))?;
    tasks.push(Task::OtherFields(numbered, other_fields(fields), others))?;
    tasks.push(Task::Term(first))?;
    Ok(())
}

/// `A, B` between two words.
fn print_parts<'a>(
    out: &mut Vec<u8>,
    before: &[u8],
    parts: &'a [Term],
    after: &'a [u8],
    tasks: &mut Vec<Task<'a>>,
) -> Result<(), NoMemory>
    ensures text { OnOk result ((w : Words) → (bs : Around) → all_text w out.new.items bs tasks.new.items ≡ with_text w out.old.items (before.now ++ commas (texts_in w bs (terms_of parts.now)) ++ after.now) bs tasks.old.items) }
    ensures less { OnOk result (left_load (reverse tasks.new.items) ≤ 1 + loads (terms_of parts.now) + left_load (reverse tasks.old.items)) }
{
    push_text(out, before)?;
    tasks.push(Task::Text(after))?;
    let Some((first, others)) = parts.split_first() else {
        return Ok(());
    };
    tasks.push(Task::Others(others))?;
    tasks.push(Task::Term(first))?;
    Ok(())
}

/// Prints up to the first term, after a comma.
fn print_others<'a>(
    out: &mut Vec<u8>,
    terms: &'a [Term],
    tasks: &mut Vec<Task<'a>>,
) -> Result<(), NoMemory>
    ensures text { OnOk result ((w : Words) → (bs : Around) → all_text w out.new.items bs tasks.new.items ≡ with_text w out.old.items (after_commas (map (text_in w bs) terms.now)) bs tasks.old.items) }
    ensures less { OnOk result (left_load (reverse tasks.new.items) < loads (terms_of terms.now) + left_load (reverse tasks.old.items)) }
{
    let Some((first, others)) = terms.split_first() else {
        return Ok(());
    };
    push_text(out, b", ")?;
    tasks.push(Task::Others(others))?;
    tasks.push(Task::Term(first))?;
    Ok(())
}
