//! What has to hold of a source's types, one thing after another.
ghost use Rattle.std.specs.Prelude.{◌≡◌, IfOk, MatchOption};
ghost use Rattle.rs_types.specs.Checked.{AllPass, IsFirst};
ghost use Rattle.rs_types.specs.Refused.{failing_by, finite_by, first_by};

use crate::bounded::bounded_types;
use crate::settling::{settled, settled_for};
use crate::weighing::{Case, Question, known, weight};
use logic_term::{AdtDecl, Ty};
use std::alloc::Global;
use text_core::{Code, NoMemory, SourceError, Span};

/// What has to hold.
#[derive(Drop)]
pub enum Check {
    /// What needs no table: the refusal, if it is refused.
    Plain(Option<SourceError>),
    /// In the type that is written there no reference stands in a reference: else E09 there.
    Flat(Span, Ty),
    /// No endless chain of fields without a box begins at the declared type of this number, and it has a value where its type arguments have:
    /// else E10 at its name, which is there.
    Finite(u32, Span),
}

/// Whether the declared type of this number is bounded, which is known, and has a value by the cases.
fn is_finite(bounded: &[bool], valued: &[Case], number: u32) -> bool
    ensures { result ≡ finite_by bounded.now valued.now number }
{
    let at = number as usize;
    at < bounded.len() && bounded[at] && known(number, &[], valued) > 0
}

fn refusal(code: Code, span: Span) -> Option<SourceError>
    ensures { result ≡ Some (record { code = code; span = span; other = None }) }
{
    Some(SourceError {
        code,
        span,
        other: None,
    })
}

/// What the check is refused for, if it does not hold.
fn failing(
    alloc: Global,
    bounded: &[bool],
    valued: &[Case],
    nested: &[Case],
    check: &Check,
) -> Result<Option<SourceError>, NoMemory>
    ensures { IfOk result (λ o. o ≡ failing_by bounded.now valued.now nested.now check.now) }
{
    match check {
        Check::Plain(refused) => Ok(*refused),
        Check::Flat(span, ty) => {
            if weight(alloc, Question::References, nested, &[], ty)? > 1 {
                return Ok(refusal(Code::E09, *span));
            }
            Ok(None)
        }
        Check::Finite(number, span) => {
            if is_finite(bounded, valued, *number) {
                return Ok(None);
            }
            Ok(refusal(Code::E10, *span))
        }
    }
}

/// What the first is refused for that does not hold.
fn first_of(
    alloc: Global,
    bounded: &[bool],
    valued: &[Case],
    nested: &[Case],
    checks: &[Check],
) -> Result<Option<SourceError>, NoMemory>
    ensures { IfOk result (λ o. o ≡ first_by bounded.now valued.now nested.now checks.now) }
{
    for i in 0..checks.len() {
        let refused = failing(alloc, bounded, valued, nested, &checks[i])?;
        if refused.is_some() {
            return Ok(refused);
        }
    }
    Ok(None)
}

/// What the first of the checks is refused for that does not hold; `None` exactly where all hold.
#[tactic(auto, using(crate::proofs::Failing::first_says))]
pub(crate) fn first_failing(
    alloc: Global,
    decls: &[AdtDecl],
    checks: &[Check],
) -> Result<Option<SourceError>, NoMemory>
    ensures { IfOk result (λ o. MatchOption o (AllPass decls.now checks.now) (λ e. IsFirst decls.now checks.now e)) }
{
    let bounded = bounded_types(alloc, decls)?;
    let valued = settled(alloc, Question::Value, decls)?;
    let nested = settled_for(alloc, Question::References, decls, checks)?;
    first_of(
        alloc,
        bounded.as_slice(),
        valued.as_slice(),
        nested.as_slice(),
        checks,
    )
}
