//! What bodies are made of flat matches.
use crate::lowering::{Row, expect};
use std::test::Fail;

/// A truth value is tested by itself, an integer by equality, the literals from above; each test has a local. All arms lead to one block.
/// An arm whose literal stood already has no text, and a name is a local, which ends behind the arm.
const ARMS: [Row; 3] = [
    (
        b"fn f(b: bool) -> i32 { match b { true => 1, false => 2 } }",
        "f 1 3\n\
         0: use 2 @23, if 2 3 @23\n\
         2: use 0 @41, goto 1 @23\n\
         3: use 0 @53, goto 1 @23\n\
         1: return @21\n",
    ),
    (
        b"fn f(x: u8) -> u8 { match x { 0 => 1, y => y } }",
        "f 1 4\n\
         0: binary 2 @20, if 2 3 @20\n\
         2: use 0 @35, goto 1 @20\n\
         3: use 3 @20, use 0 @43, dead 3 @20, goto 1 @20\n\
         1: return @18\n",
    ),
    (
        b"fn f(x: u8) -> u8 { match x { 0 => 1, 5 => 2, 0 => 3, _ => 4 } }",
        "f 1 4\n\
         0: binary 2 @20, if 2 3 @20\n\
         2: use 0 @35, goto 1 @20\n\
         3: binary 3 @20, if 4 5 @20\n\
         4: use 0 @43, goto 1 @20\n\
         5: use 0 @59, goto 1 @20\n\
         1: return @18\n",
    ),
];

/// Where all arms leave no block stands behind the match, and where the first takes each value there is no test.
const ENDS: [Row; 2] = [
    (
        b"fn f(x: u8) -> u8 { match x { 0 => return 1, _ => panic!() } }",
        "f 1 3\n\
         0: binary 2 @20, if 1 2 @20\n\
         1: use 0 @42, return @35\n\
         2: panic @50\n",
    ),
    (
        b"fn f(x: u8) -> u8 { match x { _ => 4, 5 => 2 } }",
        "f 1 2\n\
         0: use 0 @35, goto 1 @20\n\
         1: return @18\n",
    ),
];

/// A value that is no place has a local. `if let` is a match of two arms, and `while let` one in a loop, which the second arm leaves.
const LETS: [Row; 2] = [
    (
        b"fn f(x: i32) -> i32 { if let 3 = x + 1 { 7 } else { 8 } }",
        "f 1 6\n\
         0: use 3 @33, use 4 @37, binary 2 @35, binary 5 @22, if 2 3 @22\n\
         2: use 0 @41, goto 1 @22\n\
         3: use 0 @52, goto 1 @22\n\
         1: return @20\n",
    ),
    (
        b"fn f(b: bool) { while let true = b { } }",
        "f 1 4\n\
         0: goto 1 @16\n\
         1 in 1: use 3 @16, if 4 5 @16\n\
         4 in 1: make 2 @35, goto 3 @16\n\
         5 in 1: goto 2 @16\n\
         3 in 1: goto 1 @16\n\
         2: make 0 @16, return @14\n",
    ),
];

#[test]
fn arms(rt: HostRuntime) -> Result<(), Fail> {
    expect(&rt, rt.alloc(), &ARMS)
}

#[test]
fn ends(rt: HostRuntime) -> Result<(), Fail> {
    expect(&rt, rt.alloc(), &ENDS)
}

#[test]
fn lets(rt: HostRuntime) -> Result<(), Fail> {
    expect(&rt, rt.alloc(), &LETS)
}
