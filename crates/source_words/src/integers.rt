//! The numbers that integers stand for, and the types at their ends.
ghost use Rattle.std.specs.Prelude.{◌≡◌, ◌+◌, ◌*◌, ◌≤◌, ◌<◌, ◌==◌, ◌||◌, pos, not, length, filter};
ghost use Rattle.std.specs.Char.{digit_value};
ghost use Rattle.std.specs.List.{prefix_len};
ghost use Rattle.std.specs.Str.Parse.{digits_value};
ghost use Rattle.rs_tokens.specs.Tokens.{continues_digits, base_named, base_of, integer_value, largest_integer};
ghost use Rattle.source_words.specs.Words.{suffix_of};

use crate::tables::found_in;
use source_kinds::IntKind;

/// The types at the end of integers.
const INT_KINDS: [(&str, IntKind); 10] = [
    ("i8", IntKind::I8),
    ("i16", IntKind::I16),
    ("i32", IntKind::I32),
    ("i64", IntKind::I64),
    ("isize", IntKind::Isize),
    ("u8", IntKind::U8),
    ("u16", IntKind::U16),
    ("u32", IntKind::U32),
    ("u64", IntKind::U64),
    ("usize", IntKind::Usize),
];

/// The digit that this byte is, in bases up to 36; 36 where it is none.
fn digit_value(byte: u8) -> u8
    ensures { result ≡ digit_value byte }
{
    match byte {
        b'0'..=b'9' => byte - b'0',
        b'A'..=b'Z' => byte - b'A' + 10,
        b'a'..=b'z' => byte - b'a' + 10,
        _ => 36,
    }
}

fn continues_digits(base: u8, byte: u8) -> bool
    ensures { result ≡ continues_digits base byte }
{
    digit_value(byte) < base || byte == b'_'
}

fn base_named(byte: u8) -> u8
    ensures { result ≡ base_named byte }
{
    match byte {
        b'x' => 16,
        b'o' => 8,
        b'b' => 2,
        _ => 10,
    }
}

/// The base of this integer.
fn base_of(text: &[u8]) -> u8
    ensures value { result ≡ base_of text.now }
    ensures some { 0 < result }
{
    match text {
        [b'0', name, ..] => base_named(*name),
        _ => 10,
    }
}

/// How many digits and `_` stand at the front.
fn digits_len(base: u8, text: &[u8]) -> usize
    ensures count { result ≡ prefix_len (continues_digits base) text.now }
    ensures within { result ≤ length text.now }
{
    text.iter()
        .take_while(|byte| continues_digits(base, **byte))
        .count()
}

/// The number that the digits stand for; `_` among them stands for nothing.
fn digits_value(base: u8, digits: &[u8]) -> u128
    requires base { 0 < base }
    requires fits { digits_value base (filter (λ b. not (b == 95)) digits.now) ≤ largest_integer }
    ensures { result ≡ digits_value base (filter (λ b. not (b == 95)) digits.now) }
{
    let mut value: u128 = 0;
    for byte in digits {
        if *byte != b'_' {
            value = value * u128::from(base) + u128::from(digit_value(*byte));
        }
    }
    value
}

/// The number that this integer stands for, and the type at its end.
#[tactic(auto, unfolding(crate::specs::Words::int_kinds))]
pub fn integer(text: &[u8]) -> (i128, Option<IntKind>)
    requires { integer_value text.now ≤ largest_integer }
    ensures value { result.0 ≡ pos (integer_value text.now) }
    ensures suffix { result.1 ≡ suffix_of text.now }
{
    let base = base_of(text);
    let named = if base == 10 { 0 } else { text.len().min(2) };
    let body = &text[named..];
    let digits = digits_len(base, body);
    let value = digits_value(base, &body[..digits]);
    (value as i128, found_in(&INT_KINDS, &body[digits..]))
}
