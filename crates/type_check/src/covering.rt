//! Which matches are accepted: flat ones whose patterns cover the type of the value.
ghost use Rattle.std.specs.Prelude.{◌≡◌, true, IfOk};
ghost use Rattle.pat_check.specs.Flat.{all_flat, flat_tree};
ghost use Rattle.type_check.specs.Answers.{unbuilt, uncovered_match};
ghost use Rattle.type_check.specs.FirstBad.{match_refusal, uncovered};
ghost use Rattle.type_check.specs.Scalars.{is_scalar};
ghost use Rattle.type_check.specs.TypedExprView.{arms_of, patterns_of};

use crate::scalars::is_scalar;
use crate::typed::TypedArm;
use logic_term::{Ty, TypedPat};
use pat_check::{copied, is_flat, missing};
use std::alloc::Global;
use text_core::{Code, NoMemory, SourceError, Span};

/// Whether the pattern of each arm is flat at the type.
fn are_flat(ty: &Ty, arms: &[TypedArm]) -> bool
    ensures { result ≡ all_flat ty.now (patterns_of (arms_of arms.now)) }
{
    for arm in arms {
        if !is_flat(ty, &arm.pattern) {
            return false;
        }
    }
    true
}

/// The patterns of the arms, in their order.
pub fn patterns_of(alloc: Global, arms: &[TypedArm]) -> Result<Vec<TypedPat>, NoMemory>
    ensures { IfOk result (λ v. v.items ≡ patterns_of (arms_of arms.now)) }
{
    let mut patterns = Vec::with_capacity(alloc, arms.len())?;
    for arm in arms {
        patterns.push(copied(alloc, &arm.pattern)?)?;
    }
    Ok(patterns)
}

/// Patterns that do not cover the type.
fn uncovered_match(span: Span) -> SourceError
    ensures { result ≡ uncovered_match span }
{
    SourceError {
        code: Code::E11,
        span,
        other: None,
    }
}

/// A match that is not lowered.
fn not_built(span: Span) -> SourceError
    ensures { result ≡ unbuilt span }
{
    SourceError {
        code: Code::E20,
        span,
        other: None,
    }
}

/// The refusal of flat patterns that do not cover the type.
fn uncovered(
    alloc: Global,
    span: Span,
    ty: &Ty,
    patterns: &[TypedPat],
) -> Result<Option<SourceError>, NoMemory>
    requires scalar { is_scalar ty.now ≡ true }
    requires flat { all_flat ty.now patterns.now ≡ true }
    ensures { IfOk result (λ r. r ≡ uncovered span (flat_tree ty.now patterns.now)) }
{
    match missing(alloc, patterns, ty, &[])? {
        None => Ok(None),
        Some(_left) => Ok(Some(uncovered_match(span))),
    }
}

/// The refusal of a match, by its arms and the type of its value.
pub(crate) fn match_refusal(
    alloc: Global,
    span: Span,
    ty: &Ty,
    arms: &[TypedArm],
) -> Result<Option<SourceError>, NoMemory>
    ensures { IfOk result (λ r. r ≡ match_refusal span ty.now (patterns_of (arms_of arms.now))) }
{
    if !is_scalar(ty) || !are_flat(ty, arms) {
        return Ok(Some(not_built(span)));
    }
    let patterns = patterns_of(alloc, arms)?;
    uncovered(alloc, span, ty, patterns.as_slice())
}
