//! Bodies as words, without most of their operands: what a body is lowered to is compared as one text.
//! The first line has the owner, and how many parameters and locals there are. Each further line is a block: its label, the heads of the
//! loops around it, and the invariants of a head, each with its span; then its statements with the places that they write, and its end
//! with the labels that it leads to, each with its first byte. What a value is made of stands behind `of`, and so does a part that is copied.
use logic_term::{Label, Term, TermForm};
use mir_ir::{
    Block, Body, Head, Operand, Place, Proj, Rvalue, Statement, StatementKind, Terminator,
    TerminatorKind,
};
use std::alloc::AllocError;
use text_core::Span;

fn push_part(out: &mut String, part: &Proj) -> Result<(), AllocError> {
    match part {
        Proj::Field(number) => write!(out, ".{number}"),
        Proj::Variant(number) => write!(out, ".variant {number}"),
        Proj::Deref => out.push_str(".deref"),
    }
}

/// The local, and the numbers of the parts of parts.
fn push_place(out: &mut String, place: &Place) -> Result<(), AllocError> {
    let local = place.local;
    write!(out, "{local}")?;
    for part in place.path.as_slice() {
        push_part(out, part)?;
    }
    Ok(())
}

/// What the right side of an assignment is.
fn value_word(value: &Rvalue) -> &'static str {
    match value {
        Rvalue::Use(_) => "use",
        Rvalue::Binary(_, _, _) => "binary",
        Rvalue::Make(_, _) => "make",
        Rvalue::BoxNew(_) => "box",
        Rvalue::Neg(_) => "negate",
        Rvalue::Not(_) => "not",
        Rvalue::Widen(_, _) => "widen",
    }
}

fn push_operand(out: &mut String, operand: &Operand) -> Result<(), AllocError> {
    match operand {
        Operand::Copy(place) | Operand::Move(place) => {
            out.push(' ')?;
            push_place(out, place)
        }
        Operand::Const(_) => out.push_str(" constant"),
    }
}

/// A part that is copied.
fn push_copied(out: &mut String, operand: &Operand) -> Result<(), AllocError> {
    match operand {
        Operand::Copy(place) if !place.path.is_empty() => {
            out.push_str(" of")?;
            push_operand(out, operand)
        }
        _ => Ok(()),
    }
}

/// What a value is made of, and a part that is copied first.
fn push_operands(out: &mut String, value: &Rvalue) -> Result<(), AllocError> {
    match value {
        Rvalue::Use(operand) | Rvalue::Binary(_, operand, _) | Rvalue::BoxNew(operand) => {
            push_copied(out, operand)
        }
        Rvalue::Make(_, operands) => {
            if !operands.is_empty() {
                out.push_str(" of")?;
            }
            for operand in operands.as_slice() {
                push_operand(out, operand)?;
            }
            Ok(())
        }
        _ => Ok(()),
    }
}

/// What a statement is, and the place that it writes.
fn push_statement(out: &mut String, kind: &StatementKind) -> Result<(), AllocError> {
    match kind {
        StatementKind::Assign(place, value) => {
            let word = value_word(value);
            write!(out, " {word} ")?;
            push_place(out, place)?;
            push_operands(out, value)
        }
        StatementKind::Dead(local) => write!(out, " dead {local}"),
    }
}

fn push_statements(out: &mut String, statements: &[Statement]) -> Result<(), AllocError> {
    for statement in statements {
        push_statement(out, &statement.kind)?;
        let start = statement.span.start;
        write!(out, " @{start},")?;
    }
    Ok(())
}

/// What an end is, and the labels that it leads to; those of a switch are not among them.
fn end_words(kind: &TerminatorKind) -> (&'static str, Option<Label>, Option<Label>) {
    match kind {
        TerminatorKind::Goto(label) => ("goto", Some(*label), None),
        TerminatorKind::If(_, yes, no) => ("if", Some(*yes), Some(*no)),
        TerminatorKind::Return => ("return", None, None),
        TerminatorKind::Call(_, _, _, _, label) => ("call", Some(*label), None),
        TerminatorKind::Panic(_) => ("panic", None, None),
        TerminatorKind::Switch(_, _) => ("switch", None, None),
    }
}

fn push_label(out: &mut String, label: Option<Label>) -> Result<(), AllocError> {
    match label {
        Some(Label(number)) => write!(out, " {number}"),
        None => Ok(()),
    }
}

fn push_end(out: &mut String, end: &Terminator) -> Result<(), AllocError> {
    let (word, first, second) = end_words(&end.kind);
    let start = end.span.start;
    write!(out, " {word}")?;
    push_label(out, first)?;
    push_label(out, second)?;
    if let TerminatorKind::Switch(_, labels) = &end.kind {
        for label in labels.as_slice() {
            push_label(out, Some(*label))?;
        }
    }
    write!(out, " @{start}\n")
}

fn push_nest(out: &mut String, nest: &[Label]) -> Result<(), AllocError> {
    for label in nest {
        out.push_str(" in")?;
        push_label(out, Some(*label))?;
    }
    Ok(())
}

/// An invariant, which is a local or another formula.
fn push_invariant(out: &mut String, invariant: &Term, at: Span) -> Result<(), AllocError> {
    let Span { start, end } = at;
    match invariant.form() {
        TermForm::Var(name) => {
            let number = name.0;
            write!(out, " keeps {number} @{start}-{end}")
        }
        _ => write!(out, " keeps a formula @{start}-{end}"),
    }
}

/// The invariants, each with its span; an invariant without a span, or a span without one, has no words.
fn push_head(out: &mut String, head: &Head) -> Result<(), AllocError> {
    for (invariant, at) in head.invariants.as_slice().iter().zip(head.spans.as_slice()) {
        push_invariant(out, invariant, *at)?;
    }
    Ok(())
}

fn push_block(out: &mut String, label: u32, block: &Block) -> Result<(), AllocError> {
    write!(out, "{label}")?;
    push_nest(out, block.nest.as_slice())?;
    if let Some(head) = &block.head {
        push_head(out, head)?;
    }
    out.push(':')?;
    push_statements(out, block.statements.as_slice())?;
    push_end(out, &block.end)
}

/// The body in words.
pub(crate) fn push_body(out: &mut String, body: &Body) -> Result<(), AllocError> {
    let owner = std::str::from_utf8(body.owner.bytes()).unwrap_or("_");
    let params = body.params;
    let locals = body.locals.len();
    write!(out, "{owner} {params} {locals}\n")?;
    for (label, block) in body.blocks.as_slice() {
        push_block(out, label.0, block)?;
    }
    Ok(())
}
