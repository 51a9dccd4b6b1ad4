//! Calls whose devices or words fail.
use super::tests::{Call, INC, REPORT};
use std::test::Fail;

/// Calls whose devices or words fail, with the status and what is printed.
const FAILING: [(Call<'static>, u8, &[u8]); 15] = [
    // A sink that takes one byte a call.
    (
        Call {
            most_each: 1,
            ..INC
        },
        0,
        REPORT,
    ),
    // Each read fails, and each of the first writes.
    (
        Call {
            failing_reads: &[1],
            ..INC
        },
        5,
        b"",
    ),
    (
        Call {
            failing_reads: &[2],
            ..INC
        },
        5,
        b"",
    ),
    (
        Call {
            failing_writes: &[1],
            ..INC
        },
        6,
        b"",
    ),
    (
        Call {
            most_each: 9,
            failing_writes: &[2],
            ..INC
        },
        6,
        b"verified ",
    ),
    // A name that the shelf lacks, and words that are none.
    (
        Call {
            words: &["verify", "t"],
            ..INC
        },
        5,
        b"",
    ),
    (
        Call {
            words: &["verify", "s", "--proofs", "q"],
            ..INC
        },
        5,
        b"",
    ),
    (
        Call {
            words: &["list", "t"],
            ..INC
        },
        5,
        b"",
    ),
    // The file of proofs of a source that is refused is not read.
    (
        Call {
            source: b"fn f() {",
            words: &["verify", "s", "--proofs", "q"],
            ..INC
        },
        3,
        b"error E03 8..8 line 1\n",
    ),
    (
        Call {
            source: b"fn f() {",
            failing_reads: &[2],
            ..INC
        },
        3,
        b"error E03 8..8 line 1\n",
    ),
    (
        Call {
            words: &["list", "s"],
            failing_writes: &[1],
            ..INC
        },
        6,
        b"",
    ),
    (Call { words: &[], ..INC }, 2, b"error words\n"),
    (
        Call {
            words: &["list", "s", "--proofs", "p"],
            ..INC
        },
        2,
        b"error words\n",
    ),
    (
        Call {
            words: &["--proofs=p", "verify", "s"],
            ..INC
        },
        0,
        REPORT,
    ),
    (
        Call {
            words: &["verify", "s"],
            ..INC
        },
        1,
        b"open 1 overflow 78..79 line 3 missing inc\nopen 2 ensures 32..49 line 2 missing inc\nsummary functions 1 verified 0 obligations 2 proved 0\n",
    ),
];

#[test]
fn devices_fail_at_each_call(rt: HostRuntime) -> Result<(), Fail> {
    for (at, (call, status, printed)) in FAILING.iter().enumerate() {
        assert!(rt; call.gives(rt.alloc(), *status, printed)?, "row {at}");
    }
    Ok(())
}
