ghost use Rattle.std.specs.Prelude.{◌≡◌, None};
ghost use Rattle.text_core.specs.declared.fault.PassError.TheVariants as fault;
ghost use Rattle.constructors.specs.Answers.{unbuilt, unknown_name};

use text_core::{Code, PassError, SourceError, Span};

fn refusal(code: Code, span: Span) -> PassError
    ensures { result ≡ fault.Source (record { code = code; span = span; other = None }) }
{
    PassError::Source(SourceError {
        code,
        span,
        other: None,
    })
}

/// A name that is not declared.
pub(crate) fn unknown_name(span: Span) -> PassError
    ensures { result ≡ fault.Source (unknown_name span) }
{
    refusal(Code::E05, span)
}

/// A form that is not built.
pub(crate) fn unbuilt(span: Span) -> PassError
    ensures { result ≡ fault.Source (unbuilt span) }
{
    refusal(Code::E20, span)
}
