//! What the body of a literal stands for (C90 6.1.3.4 and 6.1.4).
ghost use Rattle.std.specs.Prelude.{◌≡◌, ◌≤◌, ◌<◌, ℕ, List, [], ◌∷◌, length, MatchOption, IfSome, IfOk};
ghost use Rattle.std.specs.Option.{option_map};
ghost use Rattle.sp_lexer.specs.Literals.{StandsFor, byte_at, byte_value, escape_at, simple_escape, signed_char};
ghost use Rattle.sp_lexer.specs.Numerals.{value_of};

use crate::bytes::{is_octal, split_hexadecimal_digits, split_octal_digits};
use crate::numbers::value;
use std::alloc::{AllocError, Global};

/// The value of a simple escape, by the byte after its backslash.
#[tactic(auto, unfolding(crate::specs::Literals::simple_escape))]
fn simple_escape(b: u8) -> Option<u8>
    ensures { result ≡ simple_escape b }
{
    match b {
        b'a' => Some(7),
        b'b' => Some(8),
        b'f' => Some(12),
        b'n' => Some(10),
        b'r' => Some(13),
        b't' => Some(9),
        b'v' => Some(11),
        b'\\' | b'\'' | b'"' | b'?' => Some(b),
        _ => None,
    }
}

/// The value of digits, where it is a byte.
fn byte_value(base: u64, digits: &[u8]) -> Option<u8>
    requires { 1 ≤ base }
    ensures { result ≡ byte_value base digits.now }
{
    match value(base, digits) {
        Some(value) if value < 256 => Some(value as u8),
        _ => None,
    }
}

/// The escape behind a backslash, and what follows it.
#[tactic(auto, using(crate::proofs::ByteLaws::shorter_laws))]
fn escape_at(bytes: &[u8]) -> Option<(u8, &[u8])>
    ensures escape { option_map (λ p. (p.0, p.1.now)) result ≡ escape_at bytes.now }
    ensures shorter { IfSome result (λ p. length p.1.now ≤ length bytes.now) }
{
    let (first, rest) = bytes.split_first()?;
    if is_octal(*first) {
        let (digits, _) = split_octal_digits(&bytes[..bytes.len().min(3)]);
        return Some((byte_value(8, digits)?, &bytes[digits.len()..]));
    }
    if *first == b'x' {
        let (digits, rest) = split_hexadecimal_digits(rest);
        if digits.is_empty() {
            return None;
        }
        return Some((byte_value(16, digits)?, rest));
    }
    Some((simple_escape(*first)?, rest))
}

/// The first byte that a body stands for, and the rest of the body.
fn byte_at(body: &[u8]) -> Option<(u8, &[u8])>
    ensures byte { option_map (λ p. (p.0, p.1.now)) result ≡ byte_at body.now }
    ensures shorter { IfSome result (λ p. length p.1.now < length body.now) }
{
    let (first, rest) = body.split_first()?;
    if *first == b'\\' {
        escape_at(rest)
    } else {
        Some((*first, rest))
    }
}

/// The bytes that the body of a string literal stands for, or `None` where it stands for none.
pub(crate) fn read_string(alloc: Global, body: &[u8]) -> Result<Option<Vec<u8>>, AllocError>
    ensures { IfOk result (λ answer. MatchOption answer
        ((values : List ℕ) → StandsFor body.now values → ⊥)
        (λ values. StandsFor body.now values.items)) }
{
    let mut values = Vec::with_capacity(alloc, body.len())?;
    let mut rest = body;
    'bytes: while !rest.is_empty() {
        let Some((value, next)) = byte_at(rest) else {
            return Ok(None);
        };
        values.push(value)?;
        rest = next;
    }
    Ok(Some(values))
}

/// The value of a byte as a signed char.
#[tactic(auto, unfolding(crate::specs::Literals::signed_char))]
fn signed_char(b: u8) -> i64
    ensures { result ≡ signed_char b }
{
    if b < 128 { b as i64 } else { b as i64 - 256 }
}

/// The one byte that the body of a character constant stands for, or `None`.
pub(crate) fn read_character(body: &[u8]) -> Option<i64>
    ensures { MatchOption result
        ((value : ℕ) → StandsFor body.now (value ∷ []) → ⊥)
        (λ found. (value : ℕ) × StandsFor body.now (value ∷ []) × (found ≡ signed_char value)) }
{
    let (value, rest) = byte_at(body)?;
    if !rest.is_empty() {
        return None;
    }
    Some(signed_char(value))
}
