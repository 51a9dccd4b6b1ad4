//! What bodies are made of sources.
use crate::printed::push_body;
use declared_types::declare;
use logic_term::{Label, TyNode};
use mir_build::{Lowered, lower};
use mir_ir::{Body, Initialised};
use rs_syntax::parse;
use std::alloc::Global;
use std::process::Abort;
use std::test::Fail;
use text_core::{Names, Span};
use type_check::check;

const A_LOOP: &[u8] = b"fn f(b: bool, mut x: i32) { #[invariant(b)] while x != 0 { x = x - 1; } }";

const AN_ENDLESS_LOOP: &[u8] =
    b"fn f(b: bool) -> i32 { #[invariant(b)] loop { if b { return 1; } } }";

const A_CALL: &[u8] = b"fn g(x: i32) -> bool { true } fn f(y: i32) { g(y); }";

pub(crate) fn lowered(alloc: Global, source: &[u8]) -> Result<Lowered, Fail> {
    if source.len() > 1000 {
        return Err("too long".into());
    }
    let mut names = Names::new(alloc);
    let items = parse(alloc, source, &mut names)?;
    let declared = declare(alloc, items.as_slice())?;
    let program = check(alloc, items.as_slice(), &declared)?;
    Ok(lower(alloc, &program, declared.table.into_decls(), &names)?)
}

// ---- bodies

/// A source, and its body in the words of `printed`.
pub(crate) type Row = (&'static [u8], &'static str);

/// A branch and a loop.
const BRANCHES_AND_LOOPS: [Row; 2] = [
    (
        b"fn f(b: bool, x: i32) -> i32 { if b { x + 1 } else { x / 2 } }",
        "f 2 8\n\
         0: use 3 @34, if 1 2 @31\n\
         1: use 4 @38, use 5 @42, binary 0 @40, goto 3 @31\n\
         2: use 6 @53, use 7 @57, binary 0 @55, goto 3 @31\n\
         3: return @29\n",
    ),
    (
        A_LOOP,
        "f 2 11\n\
         0: goto 1 @28\n\
         1 in 1 keeps 9223372036854775809 @40-41: use 4 @50, use 5 @55, binary 3 @52, if 2 3 @28\n\
         2 in 1: use 9 @63, use 10 @67, binary 8 @65, use 2 @59, make 7 @59, make 6 @57, goto 1 @28\n\
         3: make 0 @28, return @26\n",
    ),
];

/// Behind a side that leaves no edge leads on, and where both sides leave no block stands behind them. The value of a last statement that
/// leaves has a local, and the answer is not written. What stands behind a panic is in no block until a call begins the next one.
const WHAT_LEAVES: [Row; 4] = [
    (
        b"fn f(b: bool) -> i32 { if b { panic!() } else { 1 } }",
        "f 1 3\n\
         0: use 2 @26, if 1 2 @23\n\
         1: panic @30\n\
         2: use 0 @48, goto 3 @23\n\
         3: return @21\n",
    ),
    (
        b"fn f(b: bool) -> i32 { if b { panic!() } else { unreachable!() } }",
        "f 1 3\n\
         0: use 2 @26, if 1 2 @23\n\
         1: panic @30\n\
         2: panic @48\n",
    ),
    (
        b"fn f() -> i32 { panic!(); }",
        "f 0 2\n\
         0: panic @16\n",
    ),
    (
        b"fn f() { panic!(); f(); }",
        "f 0 3\n\
         0: panic @9\n\
         1: make 0 @7, return @7\n",
    ),
];

/// The answer is written where it is returned: in a branch, with the other one behind it, and from within a loop; by a last statement, in
/// place of a value, whose local is not written; without a value it is the unit.
const RETURNS: [Row; 5] = [
    (
        b"fn f(b: bool) -> i32 { if b { return 1; } 2 }",
        "f 1 5\n\
         0: use 3 @26, if 1 2 @23\n\
         1: use 0 @37, return @30\n\
         2: make 2 @23, goto 3 @23\n\
         3: use 0 @42, return @21\n",
    ),
    (
        b"fn f(b: bool) -> i32 { while b { return 1; } 2 }",
        "f 1 6\n\
         0: goto 1 @23\n\
         1 in 1: use 3 @29, if 2 3 @23\n\
         2 in 1: use 0 @40, return @33\n\
         3: make 2 @23, use 0 @45, return @21\n",
    ),
    (
        b"fn f() -> i32 { return 5; }",
        "f 0 2\n\
         0: use 0 @23, return @16\n",
    ),
    (
        b"fn f() -> i32 { let x: i32 = return 5; x }",
        "f 0 2\n\
         0: use 0 @36, return @29\n",
    ),
    (
        b"fn f() { return; }",
        "f 0 2\n\
         0: make 0 @9, return @9\n",
    ),
];

/// Behind a `loop` no block stands; one has nothing in it.
const ENDLESS_LOOPS: [Row; 2] = [
    (
        AN_ENDLESS_LOOP,
        "f 1 5\n\
         0: goto 1 @23\n\
         1 in 1 keeps 9223372036854775809 @35-36: use 3 @49, if 2 3 @46\n\
         2 in 1: use 0 @60, return @53\n\
         3 in 1: make 2 @46, goto 4 @46\n\
         4 in 1: goto 1 @23\n",
    ),
    (
        b"fn f() { loop {} }",
        "f 0 2\n\
         0: goto 1 @9\n\
         1 in 1: make 1 @14, goto 1 @9\n",
    ),
];

/// Whether the first body of the source has these words.
fn has_words(alloc: Global, source: &[u8], wanted: &str) -> Result<bool, Fail> {
    let made = lowered(alloc, source)?;
    let body = made.bodies.bodies.get(0).ok_or("no body")?;
    let mut text = String::new(alloc);
    push_body(&mut text, body)?;
    Ok(text.as_str() == wanted)
}

pub(crate) fn expect(rt: &impl Abort, alloc: Global, rows: &[Row]) -> Result<(), Fail> {
    for (source, wanted) in rows {
        assert!(rt; has_words(alloc, source, wanted)?, "{wanted}");
    }
    Ok(())
}

#[test]
fn branches_and_loops(rt: HostRuntime) -> Result<(), Fail> {
    expect(&rt, rt.alloc(), &BRANCHES_AND_LOOPS)
}

#[test]
fn what_leaves(rt: HostRuntime) -> Result<(), Fail> {
    expect(&rt, rt.alloc(), &WHAT_LEAVES)
}

#[test]
fn returns(rt: HostRuntime) -> Result<(), Fail> {
    expect(&rt, rt.alloc(), &RETURNS)
}

#[test]
fn endless_loops(rt: HostRuntime) -> Result<(), Fail> {
    expect(&rt, rt.alloc(), &ENDLESS_LOOPS)
}

// ---- what may be gone, what is called, and where types are written

/// Whether so many places may be gone where block 1 begins, which comes first.
fn has_gone(gone: &Initialised, count: usize) -> bool {
    match gone.gone.get(0) {
        Some((point, places)) => {
            point.label == Label(1) && point.statement == 0 && places.len() == count
        }
        None => false,
    }
}

fn has_gone_at_its_head(alloc: Global, source: &[u8], count: usize) -> Result<bool, Fail> {
    let made = lowered(alloc, source)?;
    let gone = made.gone.get(0).ok_or("no gone places")?;
    Ok(has_gone(gone, count))
}

/// At the head of a loop its locals hold nothing.
#[test]
fn the_heads_of_loops(rt: HostRuntime) -> Result<(), Fail> {
    for (source, count) in &[(A_LOOP, 8), (AN_ENDLESS_LOOP, 3)] {
        assert!(rt; has_gone_at_its_head(rt.alloc(), source, *count)?);
    }
    Ok(())
}

fn stand_at(spans: &[Span], first: (u32, u32), second: (u32, u32)) -> bool {
    match spans {
        [one, other] => (one.start, one.end) == first && (other.start, other.end) == second,
        _ => false,
    }
}

/// Whether the one call of the body ends block 0, and is of a function of one parameter whose answer is a truth value.
fn has_its_call(body: &Body) -> bool {
    match body.calls.as_slice() {
        [(label, signature)] => {
            label.0 == 0
                && signature.params.len() == 1
                && matches!(signature.result.node, TyNode::Bool)
                && signature.outlives.is_empty()
        }
        _ => false,
    }
}

/// What a body calls, and where its types are written: the answer's at the name, where none is.
#[test]
fn calls_and_written_types(rt: HostRuntime) -> Result<(), Fail> {
    let made = lowered(rt.alloc(), A_CALL)?;
    let callee = made.bodies.bodies.get(0).ok_or("no body")?;
    let caller = made.bodies.bodies.get(1).ok_or("no second body")?;
    let types = stand_at(callee.types_at.as_slice(), (16, 20), (8, 11))
        && stand_at(caller.types_at.as_slice(), (33, 34), (38, 41));
    assert!(rt; types);
    let calls = callee.calls.is_empty() && has_its_call(caller);
    assert!(rt; calls);
    Ok(())
}
