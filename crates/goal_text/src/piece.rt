//! The words that texts are made of.
ghost use Rattle.std.specs.Prelude.{◌≡◌, ◌++◌, codes, OnOk};
ghost use Rattle.std.specs.Fmt.{decimal};
ghost use Rattle.goal_text.specs.SortText.{kind_text, numbered, tuple_end};
ghost use Rattle.goal_text.specs.GoalText.{arithmetic_sign, binary_sign};

use logic_term::TermBinary;
use source_kinds::{ArithOp, IntKind};
use std::alloc::Global;
use text_core::NoMemory;

pub(crate) fn push_text(out: &mut Vec<u8>, text: &[u8]) -> Result<(), NoMemory>
    ensures { OnOk result (out.new.items ≡ out.old.items ++ text.now) }
{
    out.extend_from_slice(text)?;
    Ok(())
}

/// A word with a number right after it.
pub(crate) fn push_numbered(
    alloc: Global,
    out: &mut Vec<u8>,
    word: &[u8],
    number: u64,
) -> Result<(), NoMemory>
    ensures { OnOk result (out.new.items ≡ out.old.items ++ numbered word.now number) }
{
    let digits = number.to_string(alloc)?;
    push_text(out, word)?;
    push_text(out, digits.as_bytes())
}

/// As sources spell it.
pub(crate) fn kind_bytes(kind: IntKind) -> &'static [u8]
    ensures { result.now ≡ kind_text kind }
{
    match kind {
        IntKind::I8 => b"i8",
        IntKind::I16 => b"i16",
        IntKind::I32 => b"i32",
        IntKind::I64 => b"i64",
        IntKind::Isize => b"isize",
        IntKind::U8 => b"u8",
        IntKind::U16 => b"u16",
        IntKind::U32 => b"u32",
        IntKind::U64 => b"u64",
        IntKind::Usize => b"usize",
    }
}

/// The operator with its spaces.
pub(crate) fn binary_bytes(op: TermBinary) -> &'static [u8]
    ensures { result.now ≡ binary_sign op }
{
    match op {
        TermBinary::Arith(op) => arithmetic_bytes(op),
        TermBinary::Less => b" < ",
        TermBinary::AtMost => b" <= ",
        TermBinary::Equal => b" == ",
        TermBinary::And => b" && ",
        TermBinary::Or => b" || ",
        TermBinary::Implies => b" ==> ",
    }
}

fn arithmetic_bytes(op: ArithOp) -> &'static [u8]
    ensures { result.now ≡ arithmetic_sign op }
{
    match op {
        ArithOp::Add => b" + ",
        ArithOp::Sub => b" - ",
        ArithOp::Mul => b" * ",
        ArithOp::Div => b" / ",
        ArithOp::Rem => b" % ",
    }
}

/// What ends a tuple of so many parts.
pub(crate) fn tuple_end_bytes(parts: usize) -> &'static [u8]
    ensures { result.now ≡ tuple_end parts }
{
    if parts == 1 { b",)" } else { b")" }
}
