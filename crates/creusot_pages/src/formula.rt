//! Terms as contracts spell them, with the names of variables.
use crate::spelling::{Bound, Spelled, bound_inside, field_of, number_of};
use logic_term::{
    Ctor, Quantifier, Sort, Term, TermBinary, TermForm, TermUnary, VariantDecl, VariantKind,
};
use source_kinds::ArithOp;
use text_core::{Name, NoMemory};

fn binary_text(op: TermBinary) -> &'static str {
    match op {
        TermBinary::Arith(ArithOp::Add) => " + ",
        TermBinary::Arith(ArithOp::Sub) => " - ",
        TermBinary::Arith(ArithOp::Mul) => " * ",
        TermBinary::Arith(ArithOp::Div) => " / ",
        TermBinary::Arith(ArithOp::Rem) => " % ",
        TermBinary::Less => " < ",
        TermBinary::AtMost => " <= ",
        TermBinary::Equal => " == ",
        TermBinary::And => " && ",
        TermBinary::Or => " || ",
        TermBinary::Implies => " ==> ",
    }
}

/// The text of a variable, or the name of what a quantifier around it binds.
fn push_name(
    out: &mut String,
    spelled: &Spelled<'_>,
    bound: &[Bound],
    name: Name,
) -> Result<(), NoMemory> {
    match number_of(bound, name) {
        Some(number) => Ok(write!(out, "b{number}")?),
        None => Ok(out.push_str(spelled.variable(name))?),
    }
}

/// What stands around the values of fields.
fn brackets(kind: VariantKind) -> (&'static str, &'static str) {
    match kind {
        VariantKind::Named => (" { ", " }"),
        VariantKind::Numbered => ("(", ")"),
        VariantKind::Unit => ("", ""),
    }
}

/// The terms, with a comma between them.
#[cycle(formula)]
#[tactic(auto, using(logic_term::specs::TermFalls::each_smaller))]
fn push_listed(
    out: &mut String,
    spelled: &Spelled<'_>,
    bound: &[Bound],
    variant: Option<&VariantDecl>,
    parts: &[Term],
) -> Result<(), NoMemory> {
    for i in 0..parts.len() {
        if i > 0 {
            out.push_str(", ")?;
        }
        if let Some(variant) = variant {
            spelled.push_label(out, variant, i)?;
        }
        push_formula(out, spelled, bound, &parts[i])?;
    }
    Ok(())
}

/// `(A, B)`, and `(A,)` of one part.
#[cycle(formula)]
fn push_tuple(
    out: &mut String,
    spelled: &Spelled<'_>,
    bound: &[Bound],
    parts: &[Term],
) -> Result<(), NoMemory> {
    out.push('(')?;
    push_listed(out, spelled, bound, None, parts)?;
    if parts.len() == 1 {
        out.push(',')?;
    }
    Ok(out.push(')')?)
}

/// A value of parts: a tuple, `Path`, `Path(A, B)` or `Path { f: A, g: B }`.
#[cycle(formula)]
fn push_made(
    out: &mut String,
    spelled: &Spelled<'_>,
    bound: &[Bound],
    ctor: Ctor,
    parts: &[Term],
) -> Result<(), NoMemory> {
    let made = match ctor {
        Ctor::Variant(id, number) => spelled.variant(id, number),
        Ctor::Tuple | Ctor::Closure(_) => None,
    };
    let Some((decl, variant)) = made else {
        return push_tuple(out, spelled, bound, parts);
    };
    let (before, behind) = brackets(variant.kind);
    spelled.push_path(out, decl, variant)?;
    out.push_str(before)?;
    push_listed(out, spelled, bound, Some(variant), parts)?;
    Ok(out.push_str(behind)?)
}

#[cycle(formula)]
fn push_binary(
    out: &mut String,
    spelled: &Spelled<'_>,
    bound: &[Bound],
    op: TermBinary,
    a: &Term,
    b: &Term,
) -> Result<(), NoMemory> {
    push_part(out, spelled, bound, a)?;
    out.push_str(binary_text(op))?;
    push_part(out, spelled, bound, b)
}

/// The formula, in parentheses where it has an operator between two parts, an `if` or a quantifier.
#[cycle(formula)]
fn push_part(
    out: &mut String,
    spelled: &Spelled<'_>,
    bound: &[Bound],
    t: &Term,
) -> Result<(), NoMemory> {
    if !matches!(
        t.form(),
        TermForm::Binary(_, _, _) | TermForm::Choice(_, _, _) | TermForm::Quantified(_, _, _, _)
    ) {
        return push_formula(out, spelled, bound, t);
    }
    out.push('(')?;
    push_formula(out, spelled, bound, t)?;
    Ok(out.push(')')?)
}

/// A part, by the name of its field where that is known, and else by its number.
fn push_field(
    out: &mut String,
    spelled: &Spelled<'_>,
    bound: &[Bound],
    whole: &Term,
    number: u32,
) -> Result<(), NoMemory> {
    match field_of(spelled, bound, whole, number)? {
        Some(name) => {
            out.push('.')?;
            Ok(out.push_str(spelled.text(name))?)
        }
        None => Ok(write!(out, ".{number}")?),
    }
}

#[cycle(formula)]
fn push_unary(
    out: &mut String,
    spelled: &Spelled<'_>,
    bound: &[Bound],
    op: TermUnary,
    a: &Term,
) -> Result<(), NoMemory> {
    match op {
        TermUnary::Negative => out.push('-')?,
        TermUnary::Not => out.push('!')?,
        TermUnary::Model | TermUnary::Field(_) => {}
    }
    push_part(out, spelled, bound, a)?;
    match op {
        TermUnary::Model => Ok(out.push('@')?),
        TermUnary::Field(number) => push_field(out, spelled, bound, a, number),
        TermUnary::Negative | TermUnary::Not => Ok(()),
    }
}

/// `forall<b1: S> A` or `exists<b1: S> A`: the name is `b` and one more than the number of quantifiers around it, since terms are equal up to the names
/// that they bind, and the kernel gives these numbers of its own.
#[cycle(formula)]
fn push_quantified(
    out: &mut String,
    spelled: &Spelled<'_>,
    bound: &[Bound],
    word: Quantifier,
    name: Name,
    sort: &Sort,
    body: &Term,
) -> Result<(), NoMemory> {
    let sorts = spelled.sort(sort)?;
    let word = match word {
        Quantifier::Forall => "forall",
        Quantifier::Exists => "exists",
    };
    let inner = bound_inside(spelled.alloc, bound, name, sort)?;
    let number = inner.len();
    write!(out, "{word}<b{number}: {sorts}> ")?;
    push_part(out, spelled, &inner, body)
}

/// `if A { B } else { C }`
#[cycle(formula)]
fn push_choice(
    out: &mut String,
    spelled: &Spelled<'_>,
    bound: &[Bound],
    condition: &Term,
    first: &Term,
    second: &Term,
) -> Result<(), NoMemory> {
    out.push_str("if ")?;
    push_formula(out, spelled, bound, condition)?;
    out.push_str(" { ")?;
    push_formula(out, spelled, bound, first)?;
    out.push_str(" } else { ")?;
    push_formula(out, spelled, bound, second)?;
    Ok(out.push_str(" }")?)
}

/// The formula, each operand in parentheses that has an operator between two parts; names that are bound around it are these, the innermost last.
#[cycle(formula)]
pub(crate) fn push_formula(
    out: &mut String,
    spelled: &Spelled<'_>,
    bound: &[Bound],
    t: &Term,
) -> Result<(), NoMemory> {
    match t.form() {
        TermForm::Var(name) => push_name(out, spelled, bound, name),
        TermForm::Lit(number, _) => Ok(write!(out, "{number}")?),
        TermForm::Truth(holds) => Ok(write!(out, "{holds}")?),
        TermForm::Make(ctor, parts) => push_made(out, spelled, bound, ctor, parts),
        TermForm::Unary(op, a) => push_unary(out, spelled, bound, op, a),
        TermForm::Binary(op, a, b) => push_binary(out, spelled, bound, op, a, b),
        TermForm::Choice(condition, first, second) => {
            push_choice(out, spelled, bound, condition, first, second)
        }
        TermForm::Quantified(word, name, sort, body) => {
            push_quantified(out, spelled, bound, word, name, sort, body)
        }
    }
}
