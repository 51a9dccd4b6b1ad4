use rs_syntax::parse;
use source_trees::{
    Body, Expr, ExprNode, Fields, Function, ImplItem, Item, ItemNode, VariantFields, Visibility,
};
use std::alloc::Global;
use std::process::Abort;
use std::test::Fail;
use text_core::{Code, Items, LimitKind, Names, NoMemory, PassError};

/// A letter for the form at the top of an expression.
fn letter(expr: &Expr) -> u8 {
    match &*expr.node {
        ExprNode::Int(_, _) => b'i',
        ExprNode::Truth(_) => b't',
        ExprNode::Receiver => b's',
        ExprNode::Path(_) => b'p',
        ExprNode::Literal(_, _) => b'{',
        ExprNode::Tuple(_) => b',',
        ExprNode::Block(_) => b'B',
        ExprNode::BlockWith(_, _) => b'b',
        ExprNode::If(_, _, _) => b'I',
        ExprNode::IfElse(_, _, _, _) => b'E',
        ExprNode::Match(_, _) => b'M',
        ExprNode::While(_, _, _) => b'W',
        ExprNode::Loop(_) => b'L',
        ExprNode::Attributed(_, _) => b'#',
        ExprNode::Closure(_, _, _, _, _) => b'c',
        ExprNode::Return => b'r',
        ExprNode::ReturnWith(_) => b'R',
        ExprNode::Break => b'k',
        ExprNode::Continue => b'n',
        ExprNode::Panic(_, _) => b'P',
        ExprNode::Ghost(_, _) => b'G',
        ExprNode::Assign(_, _) => b'=',
        ExprNode::Update(_, _, _, _) => b'u',
        ExprNode::Lazy(_, _, _) => b'z',
        ExprNode::Binary(_, _, _, _) => b'+',
        ExprNode::Cast(_, _) => b'a',
        ExprNode::Unary(_, _, _) => b'-',
        ExprNode::Borrow(_, _) => b'&',
        ExprNode::Field(_, _, _) => b'.',
        ExprNode::Part(_, _) => b'0',
        ExprNode::Method(_, _, _, _) => b'm',
        ExprNode::Call(_, _) => b'(',
    }
}

/// The letters of an expression and of its first two operands; a space where it has none.
fn letters(expr: &Expr) -> (u8, u8, u8) {
    match &*expr.node {
        ExprNode::Unary(_, _, one)
        | ExprNode::Borrow(_, one)
        | ExprNode::Field(one, _, _)
        | ExprNode::Part(one, _)
        | ExprNode::Method(one, _, _, _)
        | ExprNode::Call(one, _)
        | ExprNode::Cast(one, _)
        | ExprNode::Match(one, _)
        | ExprNode::Loop(one)
        | ExprNode::Attributed(_, one)
        | ExprNode::Closure(_, _, _, _, one)
        | ExprNode::ReturnWith(one)
        | ExprNode::BlockWith(_, one) => (letter(expr), letter(one), b' '),
        ExprNode::Binary(_, _, one, other)
        | ExprNode::Lazy(_, one, other)
        | ExprNode::Assign(one, other)
        | ExprNode::Update(_, _, one, other)
        | ExprNode::While(_, one, other)
        | ExprNode::If(_, one, other)
        | ExprNode::IfElse(_, one, _, other) => (letter(expr), letter(one), letter(other)),
        _ => (letter(expr), b' ', b' '),
    }
}

/// The items of the text.
fn items_of(alloc: Global, text: &[u8]) -> Option<Items<Item>> {
    if text.len() > 1 << 20 {
        return None;
    }
    let mut names = Names::new(alloc);
    match parse(alloc, text, &mut names) {
        Ok(items) => Some(items),
        Err(_) => None,
    }
}

/// A text that is a function, the letters of the value of its block, where that stands, and how many statements the block has.
type Row = (&'static [u8], (u8, u8, u8), (u32, u32), usize);

/// The function that the items are.
fn function_of(items: &[Item]) -> Option<&Function> {
    match items {
        [only] => match &only.node {
            ItemNode::Function(function) => Some(function),
            _ => None,
        },
        _ => None,
    }
}

/// Whether the function's block and its value are those of the row.
fn has_body(function: &Function, row: &Row) -> bool {
    let (_, forms, span, count) = *row;
    match &function.body {
        Body::Block(block) => match &*block.node {
            ExprNode::BlockWith(statements, value) => {
                let found = letters(value);
                statements.len() == count
                    && found.0 == forms.0
                    && found.1 == forms.1
                    && found.2 == forms.2
                    && value.span.start == span.0
                    && value.span.end == span.1
            }
            _ => false,
        },
        _ => false,
    }
}

fn is_body(alloc: Global, row: &Row) -> bool {
    match items_of(alloc, row.0) {
        Some(items) => match function_of(items.as_slice()) {
            Some(function) => has_body(function, row),
            None => false,
        },
        None => false,
    }
}

fn expect_bodies(rt: &impl Abort, alloc: Global, rows: &[Row]) {
    for (at, row) in rows.iter().enumerate() {
        assert!(rt; is_body(alloc, row), "row {at}");
    }
}

const EXPRESSIONS: [Row; 23] = [
    (b"fn f() { 1u8 }", (b'i', b' ', b' '), (9, 12), 0),
    (b"fn f() { -1 }", (b'i', b' ', b' '), (9, 11), 0),
    (b"fn f() { true }", (b't', b' ', b' '), (9, 13), 0),
    (b"fn f() { self }", (b's', b' ', b' '), (9, 13), 0),
    (b"fn f() { a::b }", (b'p', b' ', b' '), (9, 13), 0),
    (b"fn f() { <T as A>::b }", (b'p', b' ', b' '), (9, 20), 0),
    (b"fn f() { S { a, b: 1 } }", (b'{', b' ', b' '), (9, 22), 0),
    (b"fn f() { (a,) }", (b',', b' ', b' '), (9, 13), 0),
    (b"fn f() { (a) }", (b'p', b' ', b' '), (10, 11), 0),
    (b"fn f() { (a + b) * c }", (b'+', b'+', b'p'), (9, 20), 0),
    (b"fn f() { a + b * c }", (b'+', b'p', b'+'), (9, 18), 0),
    (b"fn f() { a - b - c }", (b'+', b'+', b'p'), (9, 18), 0),
    (b"fn f() { a < b && c }", (b'z', b'+', b'p'), (9, 19), 0),
    (b"fn f() { a || b && c }", (b'z', b'p', b'z'), (9, 20), 0),
    (b"fn f() { a = b = c }", (b'=', b'p', b'='), (9, 18), 0),
    (b"fn f() { a += b }", (b'u', b'p', b'p'), (9, 15), 0),
    (b"fn f() { a as u8 + b }", (b'+', b'a', b'p'), (9, 20), 0),
    (b"fn f() { !a }", (b'-', b'p', b' '), (9, 11), 0),
    (b"fn f() { -a.b }", (b'-', b'.', b' '), (9, 13), 0),
    (b"fn f() { &mut *a }", (b'&', b'-', b' '), (9, 16), 0),
    (b"fn f() { a.0.1 }", (b'0', b'0', b' '), (9, 14), 0),
    (b"fn f() { a.f::<u8>(b) }", (b'm', b'p', b' '), (9, 21), 0),
    (b"fn f() { a(b)(c) }", (b'(', b'(', b' '), (9, 16), 0),
];

#[test]
fn expressions_are_of_all_forms(rt: HostRuntime) {
    expect_bodies(&rt, rt.alloc(), &EXPRESSIONS);
}

const STATEMENTS: [Row; 20] = [
    (b"fn f() { { a } }", (b'b', b'p', b' '), (9, 14), 0),
    (b"fn f() { {} a }", (b'p', b' ', b' '), (12, 13), 1),
    (b"fn f() { {}; {} }", (b'B', b' ', b' '), (13, 15), 1),
    (
        b"fn f() { let (a, mut b): (u8, T) = c; d; a }",
        (b'p', b' ', b' '),
        (41, 42),
        2,
    ),
    (b"fn f() { if a { b } }", (b'I', b'p', b'b'), (9, 19), 0),
    (
        b"fn f() { if let a = b {} else if c {} }",
        (b'E', b'p', b'I'),
        (9, 37),
        0,
    ),
    (
        b"fn f() { match a { 1 => b, S { x, .. } => {} _ => c } }",
        (b'M', b'p', b' '),
        (9, 53),
        0,
    ),
    (
        b"fn f() { while a { break } }",
        (b'W', b'p', b'b'),
        (9, 26),
        0,
    ),
    (
        b"fn f() { loop { continue; } }",
        (b'L', b'B', b' '),
        (9, 27),
        0,
    ),
    (
        b"fn f() { #[invariant(a)] #[variant(b)] loop {} }",
        (b'#', b'L', b' '),
        (9, 46),
        0,
    ),
    (
        b"fn f() { 1 + #[invariant(a)] loop {} }",
        (b'+', b'i', b'#'),
        (9, 36),
        0,
    ),
    (
        b"fn f() { move |x: u8, y: T| x }",
        (b'c', b'p', b' '),
        (9, 29),
        0,
    ),
    (b"fn f() { || -> u8 { 1 } }", (b'c', b'b', b' '), (9, 23), 0),
    (
        b"fn f() { #[requires(a)] |x: u8| -> u8 { x }(1).y + 2 }",
        (b'+', b'.', b'i'),
        (9, 52),
        0,
    ),
    (b"fn f() { return }", (b'r', b' ', b' '), (9, 15), 0),
    (b"fn f() { return a + b }", (b'R', b'+', b' '), (9, 21), 0),
    (b"fn f() { panic!(\"x\") }", (b'P', b' ', b' '), (9, 20), 0),
    (b"fn f() { snapshot!(^a) }", (b'G', b' ', b' '), (9, 22), 0),
    (
        b"fn f() { match a { b => #[invariant(c)] loop {} d => e } }",
        (b'M', b'p', b' '),
        (9, 56),
        0,
    ),
    (
        b"fn f() { #[invariant(a)] while b {} c }",
        (b'p', b' ', b' '),
        (36, 37),
        1,
    ),
];

#[test]
fn statements_are_of_all_forms(rt: HostRuntime) {
    expect_bodies(&rt, rt.alloc(), &STATEMENTS);
}

/// A letter for the item, and two numbers of what stands in it.
fn item_letter(item: &Item) -> (u8, usize, usize) {
    match &item.node {
        ItemNode::Function(function) => (b'f', function.params.len(), function.generics.len()),
        ItemNode::Struct(of) => match &of.fields {
            Fields::Unit => (b's', of.generics.len(), 0),
            Fields::Tuple(fields) => (b't', of.generics.len(), fields.len()),
            Fields::Named(fields) => (b'n', of.generics.len(), fields.len()),
        },
        ItemNode::Enum(of) => match of.variants.as_slice() {
            [first, ..] => match &first.fields {
                VariantFields::Unit => (b'u', of.variants.len(), 0),
                VariantFields::Tuple(types) => (b'e', of.variants.len(), types.len()),
                VariantFields::Named(fields) => (b'v', of.variants.len(), fields.len()),
            },
            [] => (b'0', 0, 0),
        },
        ItemNode::Trait(of) => (b'T', of.methods.len(), 0),
        ItemNode::Impl(of) => match of.items.as_slice() {
            [ImplItem::ViewType(_, _, _), ..] => (b'V', of.items.len(), of.conditions.len()),
            _ => (
                if of.of.is_some() { b'I' } else { b'i' },
                of.items.len(),
                of.conditions.len(),
            ),
        },
        ItemNode::Use => (b'U', 0, 0),
        ItemNode::ExternCrate => (b'X', 0, 0),
    }
}

/// A text, the letter and the numbers of its last item, how many attributes that has, and its visibility.
type ItemRow = (&'static [u8], (u8, usize, usize), usize, Visibility);

fn is_item(alloc: Global, row: &ItemRow) -> bool {
    let (text, form, attributes, visibility) = *row;
    match items_of(alloc, text) {
        None => false,
        Some(items) => match items.as_slice() {
            [.., last] => {
                let found = item_letter(last);
                found.0 == form.0
                    && found.1 == form.1
                    && found.2 == form.2
                    && last.attributes.len() == attributes
                    && last.visibility == visibility
                    && last.span.end as usize == text.len()
            }
            [] => false,
        },
    }
}

const ITEMS: [ItemRow; 16] = [
    (
        b"#![x] fn f<'a: 'b, T: A + Fn(u8) -> T>(mut x: &'a mut T, self) where T: B {}",
        (b'f', 2, 2),
        0,
        Visibility::Private,
    ),
    (
        b"#[requires(a)] #[ensures(result == 1)] pub fn f(&mut self) -> u8 { 1 }",
        (b'f', 1, 0),
        2,
        Visibility::Public,
    ),
    (
        b"#[logic] fn f(x: Int) -> Int { pearlite!{ x } }",
        (b'f', 1, 0),
        1,
        Visibility::Private,
    ),
    (b"#[law] fn f();", (b'f', 0, 0), 1, Visibility::Private),
    (b"struct S;", (b's', 0, 0), 0, Visibility::Private),
    (
        b"#[derive(Copy, Clone)] pub(crate) struct S<T>(pub u8, T);",
        (b't', 1, 2),
        1,
        Visibility::Crate,
    ),
    (
        b"struct S { pub a: u8, b: Option<T>, c: (u8, Self) }",
        (b'n', 0, 3),
        0,
        Visibility::Private,
    ),
    (b"enum E { A, B(u8) }", (b'u', 2, 0), 0, Visibility::Private),
    (b"enum E { A(u8, T) }", (b'e', 1, 2), 0, Visibility::Private),
    (
        b"enum E<T> { A { x: T }, B }",
        (b'v', 2, 1),
        0,
        Visibility::Private,
    ),
    (
        b"trait A { #[logic] fn f(self); fn g(&self) -> Self::ViewTy; }",
        (b'T', 2, 0),
        0,
        Visibility::Private,
    ),
    (
        b"impl S<u8> { pub fn f() {} fn g() {} }",
        (b'i', 2, 0),
        0,
        Visibility::Private,
    ),
    (
        b"impl<T> A for (T, u8) where T: A, 'a: 'b { fn f() {} }",
        (b'I', 1, 2),
        0,
        Visibility::Private,
    ),
    (
        b"impl View for S { type ViewTy = Int; #[logic] fn view(self) -> Int { 1 } }",
        (b'V', 2, 0),
        0,
        Visibility::Private,
    ),
    (
        b"use creusot_contracts::*;",
        (b'U', 0, 0),
        0,
        Visibility::Private,
    ),
    (
        b"use std::mem; extern crate creusot_contracts;",
        (b'X', 0, 0),
        0,
        Visibility::Private,
    ),
];

#[test]
fn items_are_of_all_forms(rt: HostRuntime) {
    for (at, row) in ITEMS.iter().enumerate() {
        assert!(rt; is_item(rt.alloc(), row), "row {at}");
    }
}

/// The text is refused there.
fn is_refused(alloc: Global, text: &[u8], code: Code, span: (u32, u32)) -> bool {
    if text.len() > 1 << 20 {
        return false;
    }
    let mut names = Names::new(alloc);
    match parse(alloc, text, &mut names) {
        Err(PassError::Source(error)) => {
            error.code == code && error.span.start == span.0 && error.span.end == span.1
        }
        _ => false,
    }
}

const REFUSALS: [(&[u8], Code, (u32, u32)); 3] = [
    (b"fn f() {} /* a /* b */", Code::E02, (10, 22)),
    (
        b"fn f(a: i32, b: i32, c: i32) -> bool { a < b < c }",
        Code::E03,
        (45, 46),
    ),
    (b"fn f() { unsafe {} }", Code::E20, (9, 15)),
];

#[test]
fn refusals_are_those_of_the_whole_grammar(rt: HostRuntime) {
    for (text, code, span) in &REFUSALS {
        assert!(rt; is_refused(rt.alloc(), *text, *code, *span));
    }
}

/// An impl of so many functions, and one function more.
fn many(alloc: Global, count: u32) -> Result<Vec<u8>, NoMemory> {
    let mut text = Vec::new(alloc);
    for byte in b"fn f(){} impl S{" {
        text.push(*byte)?;
    }
    for _ in 0..count {
        for byte in b"fn f(){}" {
            text.push(*byte)?;
        }
    }
    text.push(b'}')?;
    Ok(text)
}

/// The number that is counted, where there are too many functions; 0 where there are not.
fn counted(alloc: Global, text: &[u8]) -> Option<u64> {
    if text.len() > 1 << 20 {
        return None;
    }
    let mut names = Names::new(alloc);
    match parse(alloc, text, &mut names) {
        Ok(_) => Some(0),
        Err(PassError::Limit(limit)) => match limit.kind {
            LimitKind::Functions => Some(limit.counted),
            _ => None,
        },
        Err(_) => None,
    }
}

#[test]
fn functions_of_impls_are_counted(rt: HostRuntime) -> Result<(), Fail> {
    let most = many(rt.alloc(), 4095)?;
    assert!(rt; counted(rt.alloc(), &most) == Some(0));
    let more = many(rt.alloc(), 4096)?;
    assert!(rt; counted(rt.alloc(), &more) == Some(4097));
    Ok(())
}
