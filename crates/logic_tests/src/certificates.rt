ghost use Rattle.std.specs.Prelude.{IfOk};
ghost use Rattle.lin_arith.specs.Certificate.{HasRisingAtoms};

use lin_arith::{CertAnswer, Part, Row, check_certificate};
use std::alloc::Global;
use std::test::Fail;
use text_core::{Items, NoMemory};

const MAX: i128 = i128::MAX;

/// So many times atom 3, so many times atom 7, and a constant.
type Numbers = [i128; 3];

fn row(alloc: Global, numbers: &Numbers) -> Result<Row, NoMemory>
    ensures { IfOk result HasRisingAtoms }
{
    let [x, y, constant] = *numbers;
    let parts = Items::from_slice(
        alloc,
        &[Part { atom: 3, factor: x }, Part { atom: 7, factor: y }],
    )?;
    Ok(Row { parts, constant })
}

fn answer(alloc: Global, rows: &[Numbers; 3], mult: &[i128; 3]) -> Result<CertAnswer, NoMemory> {
    let rows = [
        row(alloc, &rows[0])?,
        row(alloc, &rows[1])?,
        row(alloc, &rows[2])?,
    ];
    Ok(check_certificate(&rows, mult))
}

#[test]
fn no_rows(rt: HostRuntime) {
    assert!(rt; matches!(check_certificate(&[], &[]), CertAnswer::Fails(0)));
}

/// 3x - y - 7, 4 - 2x and y.
#[test]
fn rows_add_up(rt: HostRuntime) -> Result<(), Fail> {
    let rows = &[[3, -1, -7], [-2, 0, 4], [0, 1, 0]];
    let got = answer(rt.alloc(), rows, &[2, 3, 2])?;
    assert!(rt; matches!(got, CertAnswer::Good));
    Ok(())
}

/// Rows and multipliers that fail at a row.
const FAILING: [([Numbers; 3], [i128; 3], u32); 2] = [
    // The sum is -1, but by a negative multiplier.
    ([[1, 0, 5], [1, 0, 6], [0, 0, 0]], [1, -1, 0], 1),
    // A factor of the second atom is left.
    ([[1, 0, -3], [-1, 1, 1], [0, 0, 0]], [1, 1, 1], 3),
];

fn fails_at(answer: CertAnswer, row: u32) -> bool {
    match answer {
        CertAnswer::Fails(at) => at == row,
        _ => false,
    }
}

#[test]
fn rows_fail(rt: HostRuntime) -> Result<(), Fail> {
    for (rows, mult, at) in &FAILING {
        let got = answer(rt.alloc(), rows, mult)?;
        assert!(rt; fails_at(got, *at), "at {at}");
    }
    Ok(())
}

/// Rows and multipliers that pass 128 bits at a row.
const PASSING: [([Numbers; 3], [i128; 3], u32); 2] = [
    // A product.
    ([[0, 2, 0], [0, 0, 0], [0, 0, 0]], [i128::MIN, 1, 1], 0),
    // A running sum: the whole sum is back within the range.
    ([[1, 0, 0], [1, 0, 0], [-1, 0, 0]], [MAX, 1, 1], 1),
];

fn is_too_wide_at(answer: CertAnswer, row: u32) -> bool {
    match answer {
        CertAnswer::TooWide(at) => at == row,
        _ => false,
    }
}

#[test]
fn numbers_pass_the_width(rt: HostRuntime) -> Result<(), Fail> {
    for (rows, mult, at) in &PASSING {
        let got = answer(rt.alloc(), rows, mult)?;
        assert!(rt; is_too_wide_at(got, *at), "at {at}");
    }
    Ok(())
}
