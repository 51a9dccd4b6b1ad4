//! What bodies are made of tuples and their parts.
use crate::lowering::{Row, expect};
use std::test::Fail;

/// The parts of a tuple have temporaries, from the left. A part of what has no place is a part of its temporary, which the innermost value
/// gets; a part of a variable is a part of its local.
const TUPLES_AND_PARTS: [Row; 3] = [
    (
        b"fn f(a: i32, b: bool) -> (i32, bool) { (a, b) }",
        "f 2 5\n\
         0: use 3 @40, use 4 @43, make 0 of 3 4 @39, return @37\n",
    ),
    (
        b"fn f(a: i32, b: bool, c: i32) -> bool { ((a, b), c).0.1 }",
        "f 3 9\n\
         0: use 6 @42, use 7 @45, make 5 of 6 7 @41, use 8 @49, make 4 of 5 8 @40, use 0 of 4.0.1 @40, return @38\n",
    ),
    (
        b"fn f(t: (i32, bool)) -> i32 { t.0 }",
        "f 1 2\n\
         0: use 0 of 1.0 @30, return @28\n",
    ),
];

/// The value is made first, and then the place: a part of a variable's local, in which the value is put; or a part of a temporary, in which it
/// is lost. A compound assignment copies the part that it writes.
const ASSIGNMENTS_TO_PARTS: [Row; 3] = [
    (
        b"fn f(mut t: (i32, (bool, i32))) { t.1.0 = true; }",
        "f 1 4\n\
         0: use 3 @42, use 1.1.0 @34, make 2 @34, make 0 @32, return @32\n",
    ),
    (
        b"fn f(mut t: (i32, bool)) { t.0 += 1; }",
        "f 1 5\n\
         0: use 3 @34, binary 4 of 1.0 @31, use 1.0 @31, make 2 @31, make 0 @25, return @25\n",
    ),
    (
        b"fn f() { g().0 = 1; } fn g() -> (i32, bool) { (1, true) }",
        "f 0 4\n\
         0: use 2 @17, call 1 @9\n\
         1: use 3.0 @9, make 1 @9, make 0 @7, return @7\n",
    ),
];

/// A part of an answer, a tuple that is passed and answered, and one that a loop looks at and writes.
const CALLS_AND_LOOPS: [Row; 3] = [
    (
        b"fn f() -> i32 { g().0 } fn g() -> (i32, bool) { (1, true) }",
        "f 0 2\n\
         0: call 1 @16\n\
         1: use 0 of 1.0 @16, return @14\n",
    ),
    (
        b"fn f() -> (i32, bool) { g((1, true)) } fn g(t: (i32, bool)) -> (i32, bool) { t }",
        "f 0 4\n\
         0: use 2 @27, use 3 @30, make 1 of 2 3 @26, call 1 @24\n\
         1: return @22\n",
    ),
    (
        b"fn f(b: bool) { let mut t: (i32, bool) = (1, b); while t.1 { t = (2, false); } }",
        "f 1 11\n\
         0: use 3 @42, use 4 @45, make 2 of 3 4 @41, goto 1 @49\n\
         1 in 1: use 5 of 2.1 @55, if 2 3 @49\n\
         2 in 1: use 9 @66, use 10 @69, make 8 of 9 10 @65, use 2 @61, make 7 @61, make 6 @59, goto 1 @49\n\
         3: make 0 @49, return @14\n",
    ),
];

#[test]
fn tuples_and_parts(rt: HostRuntime) -> Result<(), Fail> {
    expect(&rt, rt.alloc(), &TUPLES_AND_PARTS)
}

#[test]
fn assignments_to_parts(rt: HostRuntime) -> Result<(), Fail> {
    expect(&rt, rt.alloc(), &ASSIGNMENTS_TO_PARTS)
}

#[test]
fn calls_and_loops(rt: HostRuntime) -> Result<(), Fail> {
    expect(&rt, rt.alloc(), &CALLS_AND_LOOPS)
}
