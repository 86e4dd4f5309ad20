//! What a number run stands for (C90 6.1.3.1 and 6.1.3.2).
ghost use Rattle.std.specs.Prelude.{◌≡◌, length, ◌^◌, ◌*◌, ◌+◌, ◌<◌, ◌≤◌, SomeIff, Ok, Err, Some, None};
ghost use Rattle.sp_lexer.specs.Bytes.{is_digit, begins, front, after};
ghost use Rattle.sp_lexer.specs.Numerals.{number_of, value_of, digit_value, is_floating, is_exponent, ends_floating, after_sign, suffix_of, base_of, body_of, is_digit_in, integer_of, is_u, is_l};

use crate::bytes::{
    begins_with_digit, is_exponent_letter, is_sign, split_digits, split_hexadecimal_digits,
    split_octal_digits,
};
use sp_tree::{FaultKind, Number};

/// The suffix of an integer constant.
#[derive(Clone, Copy)]
pub struct Suffix {
    pub unsigned: bool,
    pub long: bool,
    /// Whether it has `ll` or `LL`, as a constant of `long long`.
    pub long_long: bool,
}

/// The value of a digit, up to `f`.
#[tactic(auto, unfolding(crate::specs::Numerals::digit_value))]
fn value_of_digit(b: u8) -> u64
    ensures value { result ≡ digit_value b }
    ensures bound { result < 256 }
{
    if b <= b'9' {
        b.saturating_sub(b'0') as u64
    } else if b >= b'a' {
        (b - 87) as u64
    } else {
        (b - 55) as u64
    }
}

/// The value of digits, where it fits.
pub(crate) fn value(base: u64, digits: &[u8]) -> Option<u64>
    requires { 1 ≤ base }
    ensures { SomeIff result (value_of base digits.now < 2 ^ 64) (value_of base digits.now) }
{
    let mut value: u64 = 0;
    for digit in digits {
        value = value
            .checked_mul(base)?
            .checked_add(value_of_digit(*digit))?;
    }
    Some(value)
}

#[tactic(auto, unfolding(crate::specs::Numerals::is_floating_letter))]
fn ends_constant(bytes: &[u8]) -> bool
    ensures { result ≡ ends_floating bytes.now }
{
    match bytes {
        [] => true,
        [b] => *b == b'f' || *b == b'F' || *b == b'l' || *b == b'L',
        _ => false,
    }
}

fn skip_sign(bytes: &[u8]) -> &[u8]
    ensures { result.now ≡ after_sign bytes.now }
{
    match bytes.split_first() {
        Some((first, rest)) if is_sign(*first) => rest,
        _ => bytes,
    }
}

/// Whether an exponent and the end of a floating constant stand here.
fn has_exponent(bytes: &[u8]) -> bool
    ensures { result ≡ is_exponent bytes.now }
{
    match bytes.split_first() {
        Some((first, rest)) => {
            let digits = skip_sign(rest);
            is_exponent_letter(*first)
                && begins_with_digit(digits)
                && ends_constant(split_digits(digits).1)
        }
        None => false,
    }
}

fn is_floating_constant(run: &[u8]) -> bool
    ensures { result ≡ is_floating run.now }
{
    let digits = begins_with_digit(run);
    let rest = split_digits(run).1;
    match rest.split_first() {
        Some((b'.', fraction)) => {
            let end = split_digits(fraction).1;
            (digits || begins_with_digit(fraction)) && (ends_constant(end) || has_exponent(end))
        }
        Some(_) => digits && has_exponent(rest),
        None => false,
    }
}

#[tactic(auto, unfolding(crate::specs::Numerals::is_u))]
fn is_u(b: u8) -> bool
    ensures { result ≡ is_u b }
{
    b == b'u' || b == b'U'
}

#[tactic(auto, unfolding(crate::specs::Numerals::is_l))]
fn is_l(b: u8) -> bool
    ensures { result ≡ is_l b }
{
    b == b'l' || b == b'L'
}

fn read_suffix(bytes: &[u8]) -> Option<Suffix>
    ensures { result ≡ suffix_of bytes.now }
{
    let (unsigned, long, long_long) = match bytes {
        [] => (false, false, false),
        [a] if is_u(*a) => (true, false, false),
        [a] if is_l(*a) => (false, true, false),
        [a, b] if is_l(*a) && a == b => (false, false, true),
        [a, b] if is_u(*a) && is_l(*b) || is_l(*a) && is_u(*b) => (true, true, false),
        [a, b, c] if is_u(*a) && is_l(*b) && b == c || is_l(*a) && a == b && is_u(*c) => {
            (true, false, true)
        }
        _ => return None,
    };
    Some(Suffix {
        unsigned,
        long,
        long_long,
    })
}

/// The base of an integer constant, and the constant without its `0x`.
#[tactic(auto, unfolding(crate::specs::Numerals::is_x))]
fn base_and_body(run: &[u8]) -> (u64, &[u8])
    ensures base { result.0 ≡ base_of run.now }
    ensures body { result.1.now ≡ body_of run.now }
{
    match run {
        [b'0', b'x' | b'X', body @ ..] => (16, body),
        [b'0', ..] => (8, run),
        _ => (10, run),
    }
}

/// The digits of a base at the front, and what follows them.
#[tactic(auto, unfolding(crate::specs::Numerals::is_digit_in))]
fn split_digits_in(base: u64, bytes: &[u8]) -> (&[u8], &[u8])
    ensures digits { result.0.now ≡ front (is_digit_in base) bytes.now }
    ensures rest { result.1.now ≡ after (is_digit_in base) bytes.now }
{
    match base {
        16 => split_hexadecimal_digits(bytes),
        8 => split_octal_digits(bytes),
        _ => split_digits(bytes),
    }
}

/// The integer constant that a number run is, or the fault that it is.
pub(crate) fn read_number(run: &[u8]) -> Result<Number, FaultKind>
    ensures { result ≡ number_of run.now }
{
    if is_floating_constant(run) {
        return Err(FaultKind::FloatingType);
    }
    let (base, body) = base_and_body(run);
    let (digits, rest) = split_digits_in(base, body);
    match read_suffix(rest) {
        Some(suffix) if !digits.is_empty() => integer(base, digits, suffix),
        _ => Err(FaultKind::MalformedLiteral),
    }
}

/// What digits with a suffix stand for.
fn integer(base: u64, digits: &[u8], suffix: Suffix) -> Result<Number, FaultKind>
    requires base { 1 ≤ base }
    requires digits { 0 < length digits.now }
    ensures { result ≡ integer_of base digits.now (Some suffix) }
{
    if suffix.long_long {
        return Err(FaultKind::LongLong);
    }
    let Some(value) = value(base, digits) else {
        return Err(FaultKind::LiteralPast64Bits);
    };
    Ok(Number {
        value,
        decimal: base == 10,
        unsigned: suffix.unsigned,
        long: suffix.long,
    })
}
