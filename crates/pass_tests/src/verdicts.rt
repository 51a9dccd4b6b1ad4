use std::alloc::Global;
use std::process::Abort;
use std::test::Fail;
use text_core::Code;
use verify_core::{Refusal, verify};

const SOURCE: &[u8] =
    b"#[requires(x@ < 100)] #[ensures(result@ == x@ + 1)] fn inc(x: i32) -> i32 { x + 1 }";

const PROOFS: &[u8] =
    b"creusot-proofs 1\nproof 1 inc\nintro x\nrange x\nsplit\nlin 1:goal 1:2.1\nlin 1:goal 1:1.1\nend\nproof 2 inc\nintro x t\nhyp 1.2\nend\n";

/// Whether the one function is verified, and how many obligations of how many are proved.
fn expect_verdict(rt: &impl Abort, alloc: Global, proofs: &[u8], verified: bool, proved: u32) {
    let right = match verify(alloc, SOURCE, proofs) {
        Ok(verdict) => match verdict.functions.as_slice() {
            [line] => {
                line.verified == verified && verdict.obligations == 2 && verdict.proved == proved
            }
            _ => false,
        },
        Err(_) => false,
    };
    assert!(rt; right);
}

#[test]
fn a_function_is_verified_where_its_obligations_are_proved(rt: HostRuntime) {
    let alloc = rt.alloc();
    expect_verdict(&rt, alloc, PROOFS, true, 2);
    expect_verdict(&rt, alloc, b"creusot-proofs 1\n", false, 0);
    expect_verdict(
        &rt,
        alloc,
        b"creusot-proofs 1\nproof 2 inc\nintro x t\nhyp 1.2\nend\n",
        false,
        1,
    );
}

/// Outside of `ensures` the name `result` is an ordinary one.
#[test]
fn a_precondition_speaks_of_a_parameter_named_result(rt: HostRuntime) {
    let source = b"#[requires(result@ < 9)] fn f(result: i32) {}";
    let accepted = verify(rt.alloc(), source, b"creusot-proofs 1\n").is_ok();
    assert!(rt; accepted);
}

#[test]
fn a_source_is_looked_at_before_its_proofs(rt: HostRuntime) {
    let refused = match verify(rt.alloc(), b"fn f() { x }", b"no proofs\n") {
        Err(Refusal::Source(error)) => error.code == Code::E05 && error.span.start == 9,
        _ => false,
    };
    assert!(rt; refused);
    let bad_line = match verify(rt.alloc(), SOURCE, b"creusot-proofs 1\nproof 01 inc\n") {
        Err(Refusal::Proof(line)) => line == 2,
        _ => false,
    };
    assert!(rt; bad_line);
}
