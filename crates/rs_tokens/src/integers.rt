//! Integers and their values.
ghost use Rattle.std.specs.Prelude.{◌≡◌, ◌+◌, ◌≤◌, ◌<◌, ◌^◌, ◌||◌, ◌==◌, ◌↔◌, ◌*◌, not, nat_lt, if◌then◌else◌, length, take, drop, filter, take_while, slice_index, IsTrue};
ghost use Rattle.std.specs.Char.{digit_value};
ghost use Rattle.std.specs.List.{prefix_len, list_any};
ghost use Rattle.std.specs.Str.{bytes_eq};
ghost use Rattle.std.specs.Str.Parse.{digits_value};
ghost use Rattle.rs_tokens.specs.Tokens.{is_digit, continues_digits, base_named, base_of, base_at, after_base, is_suffix, IsInteger, integer_value, largest_integer, HasLongest};

/// The types that may stand at the end of an integer.
const SUFFIXES: [&str; 11] = [
    "", "i8", "i16", "i32", "i64", "isize", "u8", "u16", "u32", "u64", "usize",
];

/// The largest integer.
const LARGEST: u128 = 170141183460469231731687303715884105727;

/// The digit that this byte is, in bases up to 36; 36 where it is none.
fn digit_value(byte: u8) -> u8
    ensures { result ≡ digit_value byte }
{
    match byte {
        b'0'..=b'9' => byte - b'0',
        b'A'..=b'Z' => byte - b'A' + 10,
        b'a'..=b'z' => byte - b'a' + 10,
        _ => 36,
    }
}

pub fn is_digit(base: u8, byte: u8) -> bool
    ensures { result ≡ is_digit base byte }
{
    digit_value(byte) < base
}

fn continues_digits(base: u8, byte: u8) -> bool
    ensures { result ≡ continues_digits base byte }
{
    is_digit(base, byte) || byte == b'_'
}

fn base_named(byte: u8) -> u8
    ensures { result ≡ base_named byte }
{
    match byte {
        b'x' => 16,
        b'o' => 8,
        b'b' => 2,
        _ => 10,
    }
}

/// The base that the integer names, if it is one.
fn base_of(text: &[u8]) -> u8
    ensures value { result ≡ base_of text.now }
{
    match text {
        [b'0', name, ..] => base_named(*name),
        _ => 10,
    }
}

fn is_among(text: &[u8], texts: &[&str]) -> bool
    ensures { result ≡ list_any (λ other. bytes_eq text.now other.now) texts.now }
{
    texts.iter().any(|other| text == other.as_bytes())
}

fn is_suffix(text: &[u8]) -> bool
    ensures { result ≡ is_suffix text.now }
{
    is_among(text, &SUFFIXES)
}

/// The length of the longest suffix at the front; 0 where none stands there.
fn suffix_len(text: &[u8]) -> usize
    ensures { HasLongest (λ suffix. IsTrue (is_suffix suffix)) text.now result }
{
    let five = text.len().min(5);
    if is_suffix(&text[..five]) {
        return five;
    }
    let three = text.len().min(3);
    if is_suffix(&text[..three]) {
        return three;
    }
    let two = text.len().min(2);
    if is_suffix(&text[..two]) {
        return two;
    }
    0
}

/// How many digits and `_` stand at the front.
fn digits_len(base: u8, text: &[u8]) -> usize
    ensures count { result ≡ prefix_len (continues_digits base) text.now }
    ensures within { result ≤ length text.now }
{
    text.iter()
        .take_while(|byte| continues_digits(base, **byte))
        .count()
}

/// The base that is named at the front with a digit behind it, and else ten.
fn base_at(text: &[u8]) -> u8
    ensures { result ≡ base_at text.now }
{
    match text {
        [first, name, digit, ..] => {
            let base = base_named(*name);
            if *first == b'0' && is_digit(base, *digit) {
                base
            } else {
                10
            }
        }
        _ => 10,
    }
}

/// The length of the longest integer at the front, where a decimal digit stands first.
pub fn integer_len(text: &[u8]) -> usize
    requires { IsTrue (is_digit 10 (slice_index text.now 0)) }
    ensures { HasLongest IsInteger text.now result }
{
    let base = base_at(text);
    let named = if base == 10 { 0 } else { text.len().min(2) };
    let body = &text[named..];
    let digits = digits_len(base, body);
    named + digits + suffix_len(&body[digits..])
}

/// The value with one more digit; `None` where it is past the largest integer.
fn with_digit(value: u128, base: u8, digit: u8) -> Option<u128>
    ensures { result ≡ (if nat_lt largest_integer (value * base + digit) then None else Some (value * base + digit)) }
{
    let next = value
        .checked_mul(u128::from(base))?
        .checked_add(u128::from(digit))?;
    if next > LARGEST {
        return None;
    }
    Some(next)
}

/// Whether the digits stand for a number past the largest integer; `_` among them stands for nothing.
fn is_past_largest(base: u8, digits: &[u8]) -> bool
    requires { 0 < base }
    ensures { result ≡ nat_lt largest_integer (digits_value base (filter (λ b. not (b == 95)) digits.now)) }
{
    let mut value: u128 = 0;
    for byte in digits {
        if *byte != b'_' {
            match with_digit(value, base, digit_value(*byte)) {
                Some(next) => value = next,
                None => return true,
            }
        }
    }
    false
}

/// Whether this integer is past the largest one.
pub fn is_too_large(text: &[u8]) -> bool
    ensures { result ≡ nat_lt largest_integer (integer_value text.now) }
{
    let base = base_of(text);
    let named = if base == 10 { 0 } else { text.len().min(2) };
    let body = &text[named..];
    is_past_largest(base, &body[..digits_len(base, body)])
}
