//! What bodies are made of `break` and `continue`.
use crate::lowering::{Row, expect};
use std::test::Fail;

/// A `break` ends what is bound in the blocks that it leaves, the innermost first, and leads behind the loop; a `continue` leads to the head.
/// Neither begins a block behind it: the edge at the end of the loop's body begins the one behind the loop.
const JUMPS: [Row; 3] = [
    (
        b"fn f() { loop { let x: i32 = 1; { let y: i32 = 2; break; } } }",
        "f 0 5\n\
         0: goto 1 @9\n\
         1 in 1: use 2 @29, use 3 @47, dead 3 @50, dead 2 @50, goto 2 @50\n\
         2: make 0 @9, return @7\n",
    ),
    (
        b"fn f(b: bool) { while b { continue; } }",
        "f 1 5\n\
         0: goto 1 @16\n\
         1 in 1: use 2 @22, if 2 3 @16\n\
         2 in 1: goto 1 @26\n\
         3: make 0 @16, return @14\n",
    ),
    (
        b"fn f(b: bool) { loop { if b { break; } } }",
        "f 1 5\n\
         0: goto 1 @16\n\
         1 in 1: use 3 @26, if 3 4 @23\n\
         3 in 1: goto 2 @30\n\
         4 in 1: make 2 @23, goto 5 @23\n\
         5 in 1: goto 1 @16\n\
         2: make 0 @16, return @14\n",
    ),
];

#[test]
fn jumps(rt: HostRuntime) -> Result<(), Fail> {
    expect(&rt, rt.alloc(), &JUMPS)
}
