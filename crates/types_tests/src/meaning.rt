//! Written types, and what they mean where they stand.
use crate::build::{decl, types};
use logic_term::Ty;
use rs_types::{AdtTable, Elision, TypeScope, meant};
use source_trees::{Segment, TypeArgument, TypeNode, TypeTree};
use std::alloc::Global;
use std::test::Fail;
use text_core::name::{BOX, I32, INT, U8};
use text_core::{Code, Name, NoMemory, PassError, Span};

fn segment(name: Name, start: u32) -> Segment {
    let end = start.saturating_add(1);
    Segment {
        name,
        span: Span { start, end },
    }
}

fn tree(alloc: Global, start: u32, node: TypeNode) -> Result<TypeTree, NoMemory> {
    let end = start.saturating_add(1);
    Ok(TypeTree {
        span: Span { start, end },
        node: Box::new(alloc, node)?,
    })
}

/// The name with so many types from the stack, and the lifetime of the name if there is one.
fn named(
    alloc: Global,
    start: u32,
    name: Name,
    lifetime: Option<Name>,
    count: usize,
    stack: &mut Vec<TypeTree>,
) -> Result<TypeTree, NoMemory> {
    let mut arguments = Vec::new(alloc);
    if let Some(lifetime) = lifetime {
        arguments.push(TypeArgument::Lifetime(segment(lifetime, start)))?;
    }
    for _ in 0..count {
        arguments.push(TypeArgument::Type(stack.pop().ok_or(NoMemory)?))?;
    }
    tree(
        alloc,
        start,
        TypeNode::Named(segment(name, start), arguments),
    )
}

fn reference(
    alloc: Global,
    start: u32,
    lifetime: Option<Name>,
    stack: &mut Vec<TypeTree>,
) -> Result<TypeTree, NoMemory> {
    let target = stack.pop().ok_or(NoMemory)?;
    let lifetime = lifetime.map(|name| segment(name, start));
    tree(alloc, start, TypeNode::Reference(lifetime, false, target))
}

fn pair(alloc: Global, start: u32, stack: &mut Vec<TypeTree>) -> Result<TypeTree, NoMemory> {
    let mut parts = Vec::new(alloc);
    parts.push(stack.pop().ok_or(NoMemory)?)?;
    parts.push(stack.pop().ok_or(NoMemory)?)?;
    tree(alloc, start, TypeNode::Tuple(parts))
}

const DECLARED: Name = Name(100);

const GENERIC: Name = Name(101);

const WITH_LIFETIME: Name = Name(102);

const PARAMETER: Name = Name(300);

const LIFETIME: Name = Name(400);

const UNKNOWN: Name = Name(999);

fn written(
    alloc: Global,
    start: u32,
    letter: u8,
    stack: &mut Vec<TypeTree>,
) -> Result<TypeTree, NoMemory> {
    match letter {
        b'u' => named(alloc, start, U8, None, 0, stack),
        b'w' => named(alloc, start, I32, None, 1, stack),
        b'i' => named(alloc, start, INT, None, 0, stack),
        b'0' => named(alloc, start, PARAMETER, None, 0, stack),
        b'a' => named(alloc, start, DECLARED, None, 0, stack),
        b'B' => named(alloc, start, GENERIC, None, 1, stack),
        b'g' => named(alloc, start, GENERIC, None, 0, stack),
        b'l' => named(alloc, start, WITH_LIFETIME, None, 0, stack),
        b'L' => named(alloc, start, WITH_LIFETIME, Some(LIFETIME), 0, stack),
        b'*' => named(alloc, start, BOX, None, 1, stack),
        b'?' => named(alloc, start, UNKNOWN, None, 0, stack),
        b't' => pair(alloc, start, stack),
        b'&' => reference(alloc, start, None, stack),
        b'r' => reference(alloc, start, Some(LIFETIME), stack),
        b'!' => reference(alloc, start, Some(UNKNOWN), stack),
        b's' => tree(alloc, start, TypeNode::SelfType),
        b'v' => tree(alloc, start, TypeNode::SelfView),
        _ => Err(NoMemory),
    }
}

/// The type of the text, whose spans start at the places of its letters.
fn tree_of(alloc: Global, text: &[u8]) -> Result<TypeTree, NoMemory> {
    let mut stack = Vec::with_capacity(alloc, text.len())?;
    for i in 0..text.len() {
        let at = text.len() - 1 - i;
        let start = u32::try_from(at).map_err(|_| NoMemory)?;
        let made = written(alloc, start, text[at], &mut stack)?;
        stack.push(made)?;
    }
    stack.pop().ok_or(NoMemory)
}

/// `struct A { n: u8 }`, `struct G<T> { t: T }` and `struct L<'l> { n: u8 }`
fn declared(alloc: Global) -> Result<AdtTable, PassError> {
    let mut table = AdtTable::new(alloc);
    let mut plain = decl(alloc, 100, &[b"u"])?;
    plain.params = 0;
    table.add(plain)?;
    table.add(decl(alloc, 101, &[b"0"])?)?;
    let mut with_lifetime = decl(alloc, 102, &[b"u"])?;
    with_lifetime.params = 0;
    with_lifetime.regions = 1;
    table.add(with_lifetime)?;
    Ok(table)
}

/// What is wanted: the type, in the letters of `types`; how many lifetimes are left out; or a refusal, and where.
#[derive(Clone, Copy)]
enum Wanted {
    Type(&'static [u8]),
    LeftOut(u32),
    Refused(Code, u32),
}

fn is_as_wanted(
    alloc: Global,
    found: Result<(Ty, Elision), PassError>,
    wanted: Wanted,
) -> Result<bool, NoMemory> {
    Ok(match (found, wanted) {
        (Ok((ty, _)), Wanted::Type(text)) => {
            let wanted = types(alloc, text)?.pop().ok_or(NoMemory)?;
            ty.same(&wanted)
        }
        (Ok((_, Elision::Numbered(next))), Wanted::LeftOut(count)) => next == count,
        (Err(PassError::Source(e)), Wanted::Refused(code, start)) => {
            e.code == code && e.span.start == start
        }
        _ => false,
    })
}

fn row_holds(
    alloc: Global,
    elision: Elision,
    has_int: bool,
    row: (&[u8], Wanted),
) -> Result<bool, PassError> {
    let table = declared(alloc)?;
    let self_ty = Some(Ty::bool());
    let scope = TypeScope {
        declared: &table,
        lifetimes: &[LIFETIME],
        parameters: &[PARAMETER],
        self_ty: &self_ty,
        has_int,
    };
    let tree = tree_of(alloc, row.0)?;
    let found = meant(alloc, &scope, elision, &tree);
    Ok(is_as_wanted(alloc, found, row.1)?)
}

type Row = (&'static [u8], Wanted);

/// In the body of a function.
const ERASED: [Row; 17] = [
    (b"u", Wanted::Type(b"u")),
    (b"0", Wanted::Type(b"0")),
    (b"a", Wanted::Type(b"a")),
    (b"Bu", Wanted::Type(b"Bu")),
    (b"*u", Wanted::Type(b"*u")),
    (b"tu*a", Wanted::Type(b"tu*a")),
    (b"&u", Wanted::Type(b"&u")),
    // the one lifetime of the item has number 0
    (b"ru", Wanted::Type(b"&u")),
    // no such names
    (b"?", Wanted::Refused(Code::E05, 0)),
    (b"tu?", Wanted::Refused(Code::E05, 2)),
    (b"!u", Wanted::Refused(Code::E05, 0)),
    (b"v", Wanted::Refused(Code::E05, 0)),
    (b"i", Wanted::Refused(Code::E05, 0)),
    // an argument comes before the whole
    (b"w?", Wanted::Refused(Code::E05, 1)),
    (b"wu", Wanted::Refused(Code::E07, 0)),
    (b"&g", Wanted::Refused(Code::E07, 1)),
    (b"tg?", Wanted::Refused(Code::E07, 1)),
];

/// In a signature.
const NUMBERED: [Row; 5] = [
    (b"u", Wanted::LeftOut(0)),
    (b"&u", Wanted::LeftOut(1)),
    (b"t&u&l", Wanted::LeftOut(3)),
    (b"tru&u", Wanted::LeftOut(1)),
    (b"L", Wanted::LeftOut(0)),
];

/// In the field of a declared type.
const FIELD: [Row; 4] = [
    (b"*ru", Wanted::Type(b"*&u")),
    (b"*&u", Wanted::Refused(Code::E08, 1)),
    (b"*l", Wanted::Refused(Code::E08, 1)),
    (b"t?&u", Wanted::Refused(Code::E05, 1)),
];

#[test]
fn types_in_bodies(rt: HostRuntime) {
    let mut at = 0u32;
    for row in ERASED {
        let holds = row_holds(rt.alloc(), Elision::Erased, false, row).unwrap_or(false);
        assert!(rt; holds, "row {at}");
        at = at.wrapping_add(1);
    }
}

#[test]
fn types_in_signatures(rt: HostRuntime) {
    let mut at = 0u32;
    for row in NUMBERED {
        let holds = row_holds(rt.alloc(), Elision::Numbered(0), false, row).unwrap_or(false);
        assert!(rt; holds, "row {at}");
        at = at.wrapping_add(1);
    }
}

#[test]
fn types_in_fields(rt: HostRuntime) {
    let mut at = 0u32;
    for row in FIELD {
        let holds = row_holds(rt.alloc(), Elision::Refused, false, row).unwrap_or(false);
        assert!(rt; holds, "row {at}");
        at = at.wrapping_add(1);
    }
}
