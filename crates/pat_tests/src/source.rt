//! Sources with one `let`, whose pattern is typed at the type that is written there.
use crate::printed::{Words, push_constructor, push_refusal, push_spans, push_typing};
use constructors::constructor_of;
use declared_types::declare;
use pat_types::type_pattern;
use rs_syntax::parse;
use rs_types::{AdtTable, Elision, TypeScope, meant};
use source_trees::{Body, ExprNode, Function, Item, ItemNode, Pat, PatNode, StmtKind, TypeTree};
use std::alloc::{AllocError, Global};
use std::process::Abort;
use text_core::{Names, NoMemory, PassError, Span};

/// A pattern, the type of its value, and what is answered.
pub(crate) type Row = (&'static str, &'static str, &'static str);

/// What is asked of a row.
#[derive(Clone, Copy)]
pub(crate) enum Question {
    /// What the pattern comes to: its tree, and the names that it binds.
    Pattern,
    /// The names that it binds, with their places.
    Spans,
    /// What its path makes a value by.
    Constructor,
}

/// The declared types of most rows.
pub(crate) const DECLARED: &str =
    "struct A; struct T(u8, bool); struct Z(); struct N {} struct P { x: u8, y: bool } struct Q { p: P, n: u8 } struct G { A: A } enum E { A, B(u8, bool), C { n: u8 } } struct W<V> { v: V } enum Or<V, U> { L(V), R(U), N } struct L { v: u8, n: Option<Box<L>> } struct R<'a> { r: &'a mut P }";

fn source_of(alloc: Global, declared: &str, row: &Row) -> Result<String, AllocError> {
    let (pattern, ty, _) = *row;
    let mut out = String::new(alloc);
    write!(out, "{declared} fn f() {{ let {pattern}: {ty} = 0; }}")?;
    Ok(out)
}

/// The pattern and the type of the `let` that the function begins with.
fn let_of(function: &Function) -> Option<(&Pat, &TypeTree)> {
    let Body::Block(block) = &function.body else {
        return None;
    };
    let ExprNode::Block(statements) = &*block.node else {
        return None;
    };
    match &statements.get(0)?.kind {
        StmtKind::Let(pattern, Some(ty)) => Some((pattern, ty)),
        _ => None,
    }
}

/// The pattern and the type of the `let` of the last item.
fn let_among(items: &[Item]) -> Option<(&Pat, &TypeTree)> {
    match &items.last()?.node {
        ItemNode::Function(function) => let_of(function),
        _ => None,
    }
}

fn type_text(
    alloc: Global,
    words: Words<'_>,
    types: &AdtTable,
    is_of_spans: bool,
    pattern: &Pat,
    written: &TypeTree,
) -> Result<String, PassError> {
    let scope = TypeScope {
        declared: types,
        lifetimes: &[],
        parameters: &[],
        self_ty: &None,
        has_int: true,
    };
    let (ty, _) = meant(alloc, &scope, Elision::Erased, written)?;
    let typing = type_pattern(alloc, types, pattern, &ty)?;
    let mut out = String::new(alloc);
    if is_of_spans {
        push_spans(words, &mut out, typing.names.as_slice())?;
    } else {
        push_typing(words, &mut out, &typing)?;
    }
    Ok(out)
}

fn constructor_text(
    alloc: Global,
    words: Words<'_>,
    types: &AdtTable,
    pattern: &Pat,
) -> Result<String, PassError> {
    let mut out = String::new(alloc);
    match &*pattern.node {
        PatNode::Path(path) | PatNode::Parts(path, _) | PatNode::Fields(path, _, _) => {
            let constructor = constructor_of(types, pattern.span, path)?;
            push_constructor(words, &mut out, constructor)?;
        }
        _ => out.push_str("no path")?,
    }
    Ok(out)
}

/// The answer as a text, or its refusal with bytes of the pattern.
fn answer_of(
    alloc: Global,
    names: &Names,
    question: Question,
    items: &[Item],
) -> Result<String, PassError> {
    let mut out = String::new(alloc);
    let Some((pattern, written)) = let_among(items) else {
        out.push_str("no let")?;
        return Ok(out);
    };
    let declared = declare(alloc, items)?;
    let types = &declared.table;
    let decls = types.decls();
    let start = pattern.span.start;
    let words = Words {
        names,
        decls,
        start,
    };
    let answer = match question {
        Question::Pattern => type_text(alloc, words, types, false, pattern, written),
        Question::Spans => type_text(alloc, words, types, true, pattern, written),
        Question::Constructor => constructor_text(alloc, words, types, pattern),
    };
    match answer {
        Err(PassError::Source(error)) => {
            push_refusal(words, &mut out, &error)?;
            Ok(out)
        }
        answer => answer,
    }
}

/// What is answered of the row.
fn answer(
    alloc: Global,
    declared: &str,
    question: Question,
    row: &Row,
) -> Result<String, PassError> {
    let source = source_of(alloc, declared, row)?;
    let bytes = source.as_bytes();
    if bytes.len() > 1000 {
        return Err(PassError::NoMemory);
    }
    let mut names = Names::new(alloc);
    let items = parse(alloc, bytes, &mut names)?;
    answer_of(alloc, &names, question, items.as_slice())
}

pub(crate) fn expect(
    rt: &impl Abort,
    alloc: Global,
    declared: &str,
    question: Question,
    rows: &[Row],
) {
    for row in rows {
        let (pattern, ty, wanted) = *row;
        match answer(alloc, declared, question, row) {
            Ok(text) => assert!(rt; text.as_str() == wanted, "{pattern} at {ty}: {text}"),
            Err(_) => assert!(rt; false, "{pattern} at {ty}: no source"),
        }
    }
}
