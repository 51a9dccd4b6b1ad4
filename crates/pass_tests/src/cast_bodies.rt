//! What bodies are made of casts.
use crate::lowering::{Row, expect};
use std::test::Fail;

/// The operand has a temporary, which is moved; a cast of a cast has one for each.
const CASTS: [Row; 4] = [
    (
        b"fn f(x: u8) -> u16 { x as u16 }",
        "f 1 3\n\
         0: use 2 @21, widen 0 @21, return @19\n",
    ),
    (
        b"fn f(x: u8) -> i64 { x as u16 as i64 }",
        "f 1 4\n\
         0: use 3 @21, widen 2 @21, widen 0 @21, return @19\n",
    ),
    (
        b"fn f(x: u8, y: u8) -> u16 { x as u16 + y as u16 }",
        "f 2 7\n\
         0: use 4 @28, widen 3 @28, use 6 @39, widen 5 @39, binary 0 @37, return @26\n",
    ),
    (
        b"fn f(b: bool, x: i8) -> i32 { if b { x as i32 } else { -7 as i32 } }",
        "f 2 6\n\
         0: use 3 @33, if 1 2 @30\n\
         1: use 4 @37, widen 0 @37, goto 3 @30\n\
         2: use 5 @55, widen 0 @55, goto 3 @30\n\
         3: return @28\n",
    ),
];

/// What is called before it is widened, and a value that is assigned to a cast, which is no place: it is lost in a temporary.
const AROUND_CASTS: [Row; 2] = [
    (
        b"fn f() -> u16 { g() as u16 } fn g() -> u8 { 1 as u8 }",
        "f 0 2\n\
         0: call 1 @16\n\
         1: widen 0 @16, return @14\n",
    ),
    (
        b"fn f(x: u8) { x as u16 = 3; }",
        "f 1 6\n\
         0: use 3 @25, use 5 @14, widen 4 @14, use 4 @14, make 2 @14, make 0 @12, return @12\n",
    ),
];

#[test]
fn casts(rt: HostRuntime) -> Result<(), Fail> {
    expect(&rt, rt.alloc(), &CASTS)
}

#[test]
fn around_casts(rt: HostRuntime) -> Result<(), Fail> {
    expect(&rt, rt.alloc(), &AROUND_CASTS)
}
