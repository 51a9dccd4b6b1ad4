//! Whether a form is in the set, and where it begins.
ghost use Rattle.std.specs.Prelude.{◌≡◌};
ghost use Rattle.source_forms.specs.Forms.{is_among, here, behind};

use crate::form::Form;
use text_core::Span;

/// Whether the form is among these.
fn is_among(forms: &[Form], form: Form) -> bool
    ensures { result ≡ is_among forms.now form }
{
    for one in forms {
        if *one as u8 == form as u8 {
            return true;
        }
    }
    false
}

/// Where the form begins, if it is not built.
pub(crate) fn here(built: &[Form], form: Form, span: Span) -> Option<u64>
    ensures { result ≡ here (is_among built.now) form span }
{
    if is_among(built, form) {
        None
    } else {
        Some(u64::from(span.start))
    }
}

/// Where the `let` behind the first token of the form begins, if the form is not built.
pub(crate) fn behind(built: &[Form], form: Form, span: Span) -> Option<u64>
    ensures { result ≡ behind (is_among built.now) form span }
{
    if is_among(built, form) {
        None
    } else {
        Some(u64::from(span.start) + 1)
    }
}
