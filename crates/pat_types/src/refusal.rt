ghost use Rattle.std.specs.Prelude.{◌≡◌, None};
ghost use Rattle.text_core.specs.declared.fault.PassError.TheVariants as fault;
ghost use Rattle.pat_types.specs.Answers.{double_name, mismatch, unbuilt, unknown_name};

use text_core::{Code, PassError, SourceError, Span};

fn refusal(code: Code, span: Span) -> PassError
    ensures { result ≡ fault.Source (record { code = code; span = span; other = None }) }
{
    PassError::Source(SourceError {
        code,
        span,
        other: None,
    })
}

/// A name that is not declared.
pub(crate) fn unknown_name(span: Span) -> PassError
    ensures { result ≡ fault.Source (unknown_name span) }
{
    refusal(Code::E05, span)
}

/// A type that is not the one wanted.
pub(crate) fn mismatch(span: Span) -> PassError
    ensures { result ≡ fault.Source (mismatch span) }
{
    refusal(Code::E07, span)
}

/// A form that is not built.
pub(crate) fn unbuilt(span: Span) -> PassError
    ensures { result ≡ fault.Source (unbuilt span) }
{
    refusal(Code::E20, span)
}

/// A name or a field twice in a pattern.
pub(crate) fn double_name(span: Span) -> PassError
    ensures { result ≡ fault.Source (double_name span) }
{
    refusal(Code::E06, span)
}
