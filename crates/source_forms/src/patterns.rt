//! Patterns.
ghost use Rattle.std.specs.Prelude.{◌≡◌};
ghost use Rattle.source_trees.specs.Pat as P;
ghost use Rattle.source_trees.specs.PatView.{pats_of, field_pats_of};
ghost use Rattle.source_forms.specs.Forms.{is_among};
ghost use Rattle.source_forms.specs.PatternForms.{unbuilt_pattern, unbuilt_patterns, unbuilt_fields};

use crate::form::{Form, Patterns};
use crate::place::here;
use crate::types::{path_form, unbuilt_path};
use source_trees::{FieldPat, Pat, PatNode, Path};
use text_core::Span;

/// A path alone.
fn path(built: &[Form], forms: &Patterns, span: Span, path: &Path) -> Option<u64>
    ensures { result ≡ unbuilt_pattern (is_among built.now) forms.now (P.path span path.now) }
{
    let form = path_form(forms.name, forms.path, path);
    first_of!(here(built, form, span), unbuilt_path(built, path))
}

/// The first form in the pattern that is not built, by the forms that it may have where it stands.
#[cycle(unbuilt_pattern)]
pub(crate) fn unbuilt_pattern(built: &[Form], forms: &Patterns, pattern: &Pat) -> Option<u64>
    ensures { result ≡ unbuilt_pattern (is_among built.now) forms.now pattern.now }
{
    let span = pattern.span;
    match &*pattern.node {
        PatNode::Any => here(built, forms.any, span),
        PatNode::Mutable(_) => here(built, forms.mutable, span),
        PatNode::Int(_, _) => here(built, forms.integer, span),
        PatNode::Truth(_) => here(built, forms.truth, span),
        PatNode::Tuple(parts) => {
            first_of!(
                here(built, forms.tuple, span),
                unbuilt_patterns(built, forms, parts)
            )
        }
        PatNode::Path(of) => path(built, forms, span, of),
        PatNode::Parts(of, parts) => {
            first_of!(
                here(built, forms.parts, span),
                unbuilt_path(built, of),
                unbuilt_patterns(built, forms, parts)
            )
        }
        PatNode::Fields(of, fields, _) => {
            first_of!(
                here(built, forms.fields, span),
                unbuilt_path(built, of),
                unbuilt_fields(built, forms, fields)
            )
        }
    }
}

#[cycle(unbuilt_pattern)]
#[tactic(auto, using(crate::proofs::Sizes::parts))]
fn unbuilt_patterns(built: &[Form], forms: &Patterns, patterns: &[Pat]) -> Option<u64>
    ensures { result ≡ unbuilt_patterns (is_among built.now) forms.now (pats_of patterns.now) }
{
    for pattern in patterns {
        if let Some(start) = unbuilt_pattern(built, forms, pattern) {
            return Some(start);
        }
    }
    None
}

#[cycle(unbuilt_pattern)]
#[tactic(auto, using(crate::proofs::Sizes::parts))]
fn unbuilt_fields(built: &[Form], forms: &Patterns, fields: &[FieldPat]) -> Option<u64>
    ensures { result ≡ unbuilt_fields (is_among built.now) forms.now (field_pats_of fields.now) }
{
    for field in fields {
        if let Some(start) = unbuilt_pattern(built, forms, &field.pattern) {
            return Some(start);
        }
    }
    None
}
