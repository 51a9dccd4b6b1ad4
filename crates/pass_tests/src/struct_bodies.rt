//! What bodies are made of structs and their fields.
use crate::lowering::{Row, expect, lowered};
use mir_ir::{Body, Operand, Rvalue, StatementKind};
use std::alloc::Global;
use std::process::Abort;
use std::test::Fail;

/// The fields of a struct have temporaries, in the order of the type's fields; a field is assigned as a part of its place.
const LITERALS_AND_FIELDS: [Row; 2] = [
    (
        b"struct P { x: i32, y: bool } fn f(b: bool) -> P { P { x: 1, y: b } }",
        "f 1 4\n\
         0: use 2 @57, use 3 @63, make 0 of 2 3 @50, return @48\n",
    ),
    (
        b"struct P { x: i32, y: bool } fn f(mut p: P) { p.x = 2; }",
        "f 1 4\n\
         0: use 3 @52, use 1.0 @46, make 2 @46, make 0 @44, return @44\n",
    ),
];

#[test]
fn literals_and_fields(rt: HostRuntime) -> Result<(), Fail> {
    expect(&rt, rt.alloc(), &LITERALS_AND_FIELDS)
}

// ---- copied and moved

/// A source, whether its answer is moved out of its place, and how many parts deep that is.
type Taken = (&'static [u8], bool, usize);

/// A struct is moved, and copied where it derives `Copy`; so is a field, by its own type.
const TAKEN: [Taken; 5] = [
    (
        b"struct P { x: i32, y: bool } fn f(p: P) -> P { p }",
        true,
        0,
    ),
    (
        b"#[derive(Clone, Copy)] struct P { x: i32, y: bool } fn f(p: P) -> P { p }",
        false,
        0,
    ),
    (
        b"struct P { x: i32, y: bool } fn f(p: P) -> i32 { p.x }",
        false,
        1,
    ),
    (
        b"struct Q { x: i32 } struct P { q: Q } fn f(p: P) -> i32 { p.q.x }",
        false,
        2,
    ),
    (
        b"struct Q { x: i32 } struct P { q: Q } fn f(p: P) -> Q { p.q }",
        true,
        1,
    ),
];

/// Whether the first statement of the body takes the value so.
fn takes_first(body: &Body, moves: bool, depth: usize) -> bool {
    let Some((_, block)) = body.blocks.get(0) else {
        return false;
    };
    let Some(statement) = block.statements.get(0) else {
        return false;
    };
    match &statement.kind {
        StatementKind::Assign(_, Rvalue::Use(Operand::Copy(place))) => {
            !moves && place.path.len() == depth
        }
        StatementKind::Assign(_, Rvalue::Use(Operand::Move(place))) => {
            moves && place.path.len() == depth
        }
        _ => false,
    }
}

fn is_taken(alloc: Global, row: &Taken) -> Result<bool, Fail> {
    let made = lowered(alloc, row.0)?;
    let body = made.bodies.bodies.get(0).ok_or("no body")?;
    Ok(takes_first(body, row.1, row.2))
}

#[test]
fn copied_and_moved(rt: HostRuntime) -> Result<(), Fail> {
    for row in &TAKEN {
        assert!(rt; is_taken(rt.alloc(), row)?);
    }
    Ok(())
}
