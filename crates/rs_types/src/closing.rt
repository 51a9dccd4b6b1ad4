//! Whether all declared types are accepted, and what the first that is not is refused for.
ghost use Rattle.std.specs.Prelude.{◌≡◌, ◌&&◌, IfOk, MatchOption, nat_lt, []};
ghost use Rattle.rs_types.specs.Accepted.{all_fields, AreAccepted, IsFirstRefusal};
ghost use Rattle.rs_types.specs.Heavy.{nested_at};
ghost use Rattle.rs_types.specs.Refused.{refused_by};
ghost use Rattle.rs_types.specs.Weighing.{known};

use crate::bounded::bounded_types;
use crate::settling::settled;
use crate::weighing::{Case, Question, known, weight};
use logic_term::{AdtDecl, FieldDecl, VariantDecl};
use std::alloc::Global;
use text_core::{Code, NoMemory, SourceError, Span};

/// Where the first of these fields is in whose type a reference stands in a reference.
fn nested_field(
    alloc: Global,
    cases: &[Case],
    fields: &[FieldDecl],
) -> Result<Option<Span>, NoMemory>
    ensures { IfOk result (λ o. o ≡ nested_at cases.now fields.now) }
{
    for i in 0..fields.len() {
        let field = &fields[i];
        if weight(alloc, Question::References, cases, &[], &field.ty)? > 1 {
            return Ok(Some(field.span));
        }
    }
    Ok(None)
}

/// The same of the fields of these variants.
#[tactic(auto, using(crate::proofs::Refusals::next_variant, crate::proofs::Refusals::at_variant))]
fn nested_in_variants(
    alloc: Global,
    cases: &[Case],
    variants: &[VariantDecl],
) -> Result<Option<Span>, NoMemory>
    ensures { IfOk result (λ o. o ≡ nested_at cases.now (all_fields variants.now)) }
{
    for i in 0..variants.len() {
        let nested = nested_field(alloc, cases, variants[i].fields.as_slice())?;
        if nested.is_some() {
            return Ok(nested);
        }
    }
    Ok(None)
}

/// What the declared type is refused for, where it is known whether all else of it is good.
fn refusal_of(
    alloc: Global,
    cases: &[Case],
    decl: &AdtDecl,
    good: bool,
) -> Result<Option<SourceError>, NoMemory>
    ensures { IfOk result (λ o. o ≡ refused_by cases.now good decl.now) }
{
    let nested = nested_in_variants(alloc, cases, decl.variants.as_slice())?;
    Ok(match nested {
        Some(span) => Some(SourceError {
            code: Code::E09,
            span,
            other: None,
        }),
        None if good => None,
        None => Some(SourceError {
            code: Code::E10,
            span: decl.span,
            other: None,
        }),
    })
}

/// Whether the declared type of this number is bounded, which is known, and has a value by the cases.
fn is_good(number: u32, is_bounded: bool, valued: &[Case]) -> bool
    ensures { result ≡ (is_bounded && nat_lt 0 (known number [] valued.now)) }
{
    is_bounded && known(number, &[], valued) > 0
}

/// What the first declared type that is not accepted is refused for; `None` exactly where all are accepted.
#[tactic(auto, using(crate::proofs::Refusals::one_more_good, crate::proofs::Refusals::refused_here, crate::proofs::Refusals::all_good))]
pub(crate) fn first_refusal(
    alloc: Global,
    decls: &[AdtDecl],
) -> Result<Option<SourceError>, NoMemory>
    ensures { IfOk result (λ o. MatchOption o (AreAccepted decls.now) (λ e. IsFirstRefusal decls.now e)) }
{
    let bounded_types = bounded_types(alloc, decls)?;
    let bounded = bounded_types.as_slice();
    let valued = settled(alloc, Question::Value, decls)?;
    let nested = settled(alloc, Question::References, decls)?;
    for d in 0..decls.len() {
        let number = u32::try_from(d).map_err(|_| NoMemory)?;
        let is_bounded = bounded[d];
        let good = is_good(number, is_bounded, valued.as_slice());
        let refusal = refusal_of(alloc, nested.as_slice(), &decls[d], good)?;
        if let Some(error) = refusal {
            return Ok(Some(error));
        }
    }
    Ok(None)
}
