use crate::written::{X, Y, term};
use logic_term::{Label2, Ty};
use proof_kernel::LinAnswer::{Closes, Fails, TooWide};
use proof_kernel::Reference::{Back, Goal, Hyp};
use proof_kernel::{LinAnswer, Multiple, Reference, Sequent, certifies};
use source_kinds::IntKind;
use std::alloc::Global;
use std::process::Abort;
use std::test::Fail;
use text_core::NoMemory;

const ONE: Label2 = Label2 { step: 1, part: 1 };

const TWO: Label2 = Label2 { step: 1, part: 2 };

/// No hypothesis has this label.
const NO_LABEL: Label2 = Label2 { step: 1, part: 3 };

const MAX: i128 = i128::MAX;

/// Two hypotheses, 1.1 and 1.2, a goal, how often each row is taken, and what they come to.
type Row = ([&'static [u8]; 3], &'static [(i128, Reference)], LinAnswer);

/// From -2147483648 <= x@ and x@ < 100 that -2147483648 <= x@ + 1: x + 2147483648, 99 - x, and -x - 2147483650 for the goal.
const BOUNDS: [&[u8]; 3] = [b"lL@x", b"<@xc", b"lL+@x1"];

/// From x = x, of machine integers, and a formula without a row, that 2 < 3.
const NO_ROWS: [&[u8]; 3] = [b"=xx", b"T", b"<23"];

/// From y = 5, which is y - 5 or 5 - y, and x - y, that 4 < x@: 4 - x for the goal.
const EQUALITY: [&[u8]; 3] = [b"=y5", b"!<@xy", b"<4@x"];

/// From y + y <= 4, which is 4 - 2y, that y, written in a long way, is below 3: y - 3 for the goal. In the other a number passes 128 bits.
const REPEATED: [&[u8]; 3] = [b"l+yy4", b"l+M1y", b"<_-y+yy3"];

const LINEAR: [Row; 13] = [
    (BOUNDS, &[(1, Goal), (1, Hyp(ONE)), (0, Hyp(TWO))], Closes),
    (BOUNDS, &[(1, Goal), (0, Hyp(ONE)), (1, Hyp(TWO))], Fails),
    (BOUNDS, &[(-1, Goal), (-1, Hyp(ONE))], Fails),
    (BOUNDS, &[(MAX, Goal), (MAX, Hyp(ONE))], TooWide),
    // What has no row closes nothing, whatever the multipliers.
    (NO_ROWS, &[(1, Goal), (0, Hyp(ONE))], Fails),
    (NO_ROWS, &[(1, Goal), (0, Back(ONE))], Fails),
    (NO_ROWS, &[(1, Goal), (0, Hyp(TWO))], Fails),
    (NO_ROWS, &[(1, Goal), (0, Hyp(NO_LABEL))], Fails),
    (
        EQUALITY,
        &[(1, Goal), (1, Hyp(TWO)), (1, Back(ONE))],
        Closes,
    ),
    (EQUALITY, &[(1, Goal), (1, Hyp(TWO)), (1, Hyp(ONE))], Fails),
    (EQUALITY, &[(1, Goal), (1, Hyp(TWO)), (1, Back(TWO))], Fails),
    (REPEATED, &[(2, Goal), (1, Hyp(ONE))], Closes),
    (
        REPEATED,
        &[(2, Goal), (1, Hyp(ONE)), (0, Hyp(TWO))],
        TooWide,
    ),
];

/// From x@ <= 5, which is 5 - x, that 2 * x@ <= 10: 2x - 11 for the goal.
const DOUBLED: [&[u8]; 3] = [b"l@x5", b"T", b"l*2@xt"];

/// From x@ * y@ <= 10, which is 10 - xy, that (x@ + 1) * y@ <= 10 + y@: xy - 11 for the goal.
const MULTIPLIED: [&[u8]; 3] = [b"l*@x@yt", b"T", b"l*+@x1@y+t@y"];

const PRODUCTS: [Row; 13] = [
    (DOUBLED, &[(1, Goal), (2, Hyp(ONE))], Closes),
    (DOUBLED, &[(1, Goal), (1, Hyp(ONE))], Fails),
    (MULTIPLIED, &[(1, Goal), (1, Hyp(ONE))], Closes),
    (MULTIPLIED, &[(1, Goal), (2, Hyp(ONE))], Fails),
    // 2 * 3
    ([b"T", b"T", b"l*236"], &[(1, Goal)], Closes),
    ([b"T", b"T", b"l*235"], &[(1, Goal)], Fails),
    // Monomials are the same whatever the order of their factors.
    ([b"T", b"T", b"l*@x@y*@y@x"], &[(1, Goal)], Closes),
    ([b"T", b"T", b"l*@x@x*@y@x"], &[(1, Goal)], Fails),
    // by * (MAX * x@) <= 0
    ([b"T", b"T", b"l*1*M@x0"], &[(1, Goal)], Fails),
    ([b"T", b"T", b"l*2*M@x0"], &[(1, Goal)], TooWide),
    // (x@ + MAX) * (x@ + 1) <= 0, in which x has the coefficient 1, and then MAX more.
    ([b"T", b"T", b"l*+@xM+@x10"], &[(1, Goal)], TooWide),
    // Atoms are compared up to bound names: one binds z, and the other w.
    ([b"T", b"T", b"l@Z=zx@W=wx"], &[(1, Goal)], Closes),
    ([b"T", b"T", b"l@Z=zx@W=wy"], &[(1, Goal)], Fails),
];

/// The variables are an `i32` and an `Int`.
fn sequent(alloc: Global, texts: &[&[u8]; 3]) -> Result<Sequent, NoMemory> {
    let q = Sequent::new(alloc, term(alloc, texts[2])?)?;
    let q = q.declaring(alloc, X, Ty::int(IntKind::I32))?;
    let q = q.declaring(alloc, Y, Ty::math_int())?;
    let q = q.assuming(alloc, ONE, term(alloc, texts[0])?)?;
    q.assuming(alloc, TWO, term(alloc, texts[1])?)
}

fn multiples(alloc: Global, times: &[(i128, Reference)]) -> Result<Vec<Multiple>, NoMemory> {
    let mut multiples = Vec::with_capacity(alloc, times.len())?;
    for (by, of) in times {
        multiples.push(Multiple { by: *by, of: *of })?;
    }
    Ok(multiples)
}

fn comes_to(alloc: Global, row: &Row) -> Result<bool, NoMemory> {
    let multiples = multiples(alloc, row.1)?;
    if multiples.len() > 1000 {
        return Ok(false);
    }
    let q = sequent(alloc, &row.0)?;
    Ok(certifies(alloc, &q, &multiples)? == row.2)
}

fn expect(rt: &impl Abort, alloc: Global, rows: &[Row]) -> Result<(), Fail> {
    for (at, row) in rows.iter().enumerate() {
        assert!(rt; comes_to(alloc, row)?, "row {at}");
    }
    Ok(())
}

#[test]
fn linear_rows(rt: HostRuntime) -> Result<(), Fail> {
    expect(&rt, rt.alloc(), &LINEAR)
}

#[test]
fn products(rt: HostRuntime) -> Result<(), Fail> {
    expect(&rt, rt.alloc(), &PRODUCTS)
}
