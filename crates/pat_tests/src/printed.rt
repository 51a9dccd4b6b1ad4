//! Trees of patterns, names and refusals as words.
//! A tree is what a pattern matches, with the type of each part behind it: `ref` and `ref mut` stand before names that are bound to references.
//! Behind it are the names that it binds, with the types of the variables, and `mut` where they are mutable.
use constructors::Constructor;
use logic_term::{
    AdtDecl, AdtId, BindingKind, CompoundTy, Ctor, FieldDecl, PatNode, Region, Ty, TyNode, TyUnary,
    TypedPat, VariantKind,
};
use pat_types::{BoundName, PatternTyping};
use source_kinds::IntKind;
use std::alloc::AllocError;
use text_core::{Code, Name, Names, SourceError, Span};

/// What names and numbers are, and where the pattern starts.
#[derive(Clone, Copy)]
pub struct Words<'a> {
    pub names: &'a Names,
    pub decls: &'a [AdtDecl],
    pub start: u32,
}

fn push_name(words: Words<'_>, out: &mut String, name: Name) -> Result<(), AllocError> {
    out.push_str(words.names.text(name).unwrap_or("?"))
}

/// Where it is within the pattern.
fn push_span(words: Words<'_>, out: &mut String, span: Span) -> Result<(), AllocError> {
    let start = span.start.wrapping_sub(words.start);
    let end = span.end.wrapping_sub(words.start);
    write!(out, "{start}..{end}")
}

// ---- types

fn int_word(kind: IntKind) -> &'static str {
    match kind {
        IntKind::I8 => "i8",
        IntKind::I16 => "i16",
        IntKind::I32 => "i32",
        IntKind::I64 => "i64",
        IntKind::Isize => "isize",
        IntKind::U8 => "u8",
        IntKind::U16 => "u16",
        IntKind::U32 => "u32",
        IntKind::U64 => "u64",
        IntKind::Usize => "usize",
    }
}

fn push_adt(words: Words<'_>, out: &mut String, id: AdtId) -> Result<(), AllocError> {
    match words.decls.get(id.0 as usize) {
        Some(decl) => push_name(words, out, decl.name),
        None => out.push_str("?"),
    }
}

/// What stands before the type that another one is made of. Only a lifetime that is not left out is told.
fn push_opening(out: &mut String, op: TyUnary) -> Result<(), AllocError> {
    match op {
        TyUnary::Boxed => out.push_str("Box<"),
        TyUnary::Shared(Region(0)) => out.push_str("&"),
        TyUnary::Unique(Region(0)) => out.push_str("&mut "),
        TyUnary::Shared(Region(number)) => write!(out, "&'{number} "),
        TyUnary::Unique(Region(number)) => write!(out, "&'{number} mut "),
        TyUnary::View => out.push_str("view "),
        TyUnary::Snapshot => out.push_str("snapshot "),
    }
}

#[cycle(ty)]
fn push_ty(words: Words<'_>, out: &mut String, ty: &Ty) -> Result<(), AllocError> {
    match &ty.node {
        TyNode::Int(kind) => out.push_str(int_word(*kind)),
        TyNode::Bool => out.push_str("bool"),
        TyNode::MathInt => out.push_str("Int"),
        TyNode::Tuple(parts) => push_types(words, out, ("(", ")"), parts),
        TyNode::Param(number) => write!(out, "parameter {number}"),
        TyNode::Compound(parts) => push_compound(words, out, parts),
    }
}

#[cycle(ty)]
fn push_compound(words: Words<'_>, out: &mut String, ty: &CompoundTy) -> Result<(), AllocError> {
    match ty {
        CompoundTy::Adt(id, _, types) => {
            push_adt(words, out, *id)?;
            if types.is_empty() {
                Ok(())
            } else {
                push_types(words, out, ("<", ">"), types)
            }
        }
        CompoundTy::Unary(op, inner) => {
            push_opening(out, *op)?;
            push_ty(words, out, inner)?;
            out.push_str(if *op == TyUnary::Boxed { ">" } else { "" })
        }
        CompoundTy::Closure(_, _, _, _) => out.push_str("closure"),
    }
}

#[cycle(ty)]
#[tactic(auto, using(logic_term::specs::TyFalls::each_smaller))]
fn push_types(
    words: Words<'_>,
    out: &mut String,
    brackets: (&str, &str),
    types: &[Ty],
) -> Result<(), AllocError> {
    out.push_str(brackets.0)?;
    for i in 0..types.len() {
        out.push_str(if i > 0 { ", " } else { "" })?;
        push_ty(words, out, &types[i])?;
    }
    out.push_str(brackets.1)
}

// ---- patterns

fn mode_word(mode: BindingKind) -> &'static str {
    match mode {
        BindingKind::Value => "",
        BindingKind::Shared => "ref ",
        BindingKind::Unique => "ref mut ",
    }
}

/// The struct, or the enum and the variant.
fn push_variant(
    words: Words<'_>,
    out: &mut String,
    id: AdtId,
    variant: u32,
) -> Result<(), AllocError> {
    let Some(decl) = words.decls.get(id.0 as usize) else {
        return out.push_str("?");
    };
    push_name(words, out, decl.name)?;
    if decl.is_struct && variant == 0 {
        return Ok(());
    }
    out.push_str("::")?;
    match decl.variants.as_slice().get(variant as usize) {
        Some(variant) => push_name(words, out, variant.name),
        None => out.push_str("?"),
    }
}

fn push_ctor(words: Words<'_>, out: &mut String, ctor: Ctor) -> Result<(), AllocError> {
    match ctor {
        Ctor::Tuple => Ok(()),
        Ctor::Variant(id, variant) => push_variant(words, out, id, variant),
        Ctor::Closure(_) => out.push_str("closure"),
    }
}

fn push_integer(out: &mut String, kind: Option<IntKind>, number: i128) -> Result<(), AllocError> {
    write!(out, "{number}")?;
    match kind {
        Some(kind) => out.push_str(int_word(kind)),
        None => Ok(()),
    }
}

#[cycle(pattern)]
fn push_pattern(words: Words<'_>, out: &mut String, pattern: &TypedPat) -> Result<(), AllocError> {
    match &*pattern.node {
        PatNode::Wild => out.push_str("_")?,
        PatNode::Bound(name, mode) => {
            out.push_str(mode_word(*mode))?;
            push_name(words, out, *name)?;
        }
        PatNode::Literal(kind, number) => push_integer(out, *kind, *number)?,
        PatNode::Truth(holds) => out.push_str(if *holds { "true" } else { "false" })?,
        PatNode::Made(ctor, parts) => {
            push_ctor(words, out, *ctor)?;
            push_patterns(words, out, parts)?;
        }
    }
    out.push_str(": ")?;
    push_ty(words, out, &pattern.ty)
}

#[cycle(pattern)]
#[tactic(auto, using(logic_term::specs::PatternFalls::each_smaller))]
fn push_patterns(
    words: Words<'_>,
    out: &mut String,
    patterns: &[TypedPat],
) -> Result<(), AllocError> {
    out.push_str("(")?;
    for i in 0..patterns.len() {
        out.push_str(if i > 0 { ", " } else { "" })?;
        push_pattern(words, out, &patterns[i])?;
    }
    out.push_str(")")
}

fn push_bound(words: Words<'_>, out: &mut String, bound: &BoundName) -> Result<(), AllocError> {
    out.push_str(if bound.mutable { "mut " } else { "" })?;
    push_name(words, out, bound.name)?;
    out.push_str(": ")?;
    push_ty(words, out, &bound.ty)
}

/// The tree, and the names behind it.
pub fn push_typing(
    words: Words<'_>,
    out: &mut String,
    typing: &PatternTyping,
) -> Result<(), AllocError> {
    push_pattern(words, out, &typing.pattern)?;
    let mut before = "; ";
    for bound in typing.names.as_slice() {
        out.push_str(before)?;
        push_bound(words, out, bound)?;
        before = ", ";
    }
    Ok(())
}

/// The names with their places.
pub fn push_spans(
    words: Words<'_>,
    out: &mut String,
    names: &[BoundName],
) -> Result<(), AllocError> {
    let mut before = "";
    for bound in names {
        out.push_str(before)?;
        push_name(words, out, bound.name)?;
        out.push_str(" ")?;
        push_span(words, out, bound.span)?;
        before = ", ";
    }
    Ok(())
}

// ---- constructors

fn kind_word(kind: VariantKind) -> &'static str {
    match kind {
        VariantKind::Named => "named",
        VariantKind::Numbered => "numbered",
        VariantKind::Unit => "unit",
    }
}

/// A field, with its name where it has one.
fn push_field(
    words: Words<'_>,
    out: &mut String,
    kind: VariantKind,
    field: &FieldDecl,
) -> Result<(), AllocError> {
    if matches!(kind, VariantKind::Named) {
        push_name(words, out, field.name)?;
        out.push_str(": ")?;
    }
    push_ty(words, out, &field.ty)
}

/// How many lifetimes or types a declared type takes, if it takes some.
fn push_count(out: &mut String, count: u32, word: &str) -> Result<(), AllocError> {
    match count {
        0 => Ok(()),
        1 => write!(out, " of 1 {word}"),
        _ => write!(out, " of {count} {word}s"),
    }
}

/// Its name, how many lifetimes and types it takes, how its fields are written, and its fields.
pub fn push_constructor(
    words: Words<'_>,
    out: &mut String,
    constructor: Constructor<'_>,
) -> Result<(), AllocError> {
    push_variant(words, out, constructor.id, constructor.variant)?;
    push_count(out, constructor.regions, "lifetime")?;
    push_count(out, constructor.params, "type")?;
    let word = kind_word(constructor.kind);
    write!(out, ": {word} (")?;
    let mut before = "";
    for field in constructor.fields {
        out.push_str(before)?;
        push_field(words, out, constructor.kind, field)?;
        before = ", ";
    }
    out.push_str(")")
}

// ---- refusals

fn code_word(code: Code) -> &'static str {
    match code {
        Code::E05 => "E05 ",
        Code::E06 => "E06 ",
        Code::E07 => "E07 ",
        Code::E20 => "E20 ",
        _ => "another code ",
    }
}

/// The code, and the bytes within the pattern.
pub fn push_refusal(
    words: Words<'_>,
    out: &mut String,
    error: &SourceError,
) -> Result<(), AllocError> {
    out.push_str(code_word(error.code))?;
    push_span(words, out, error.span)
}
