//! Marker lines, as a preprocessor writes them.
ghost use Rattle.std.specs.Prelude.{◌≡◌, ◌^◌, ◌<◌, IfSome};
ghost use Rattle.std.specs.List.{list_all};
ghost use Rattle.std.specs.Option.{option_map};
ghost use Rattle.sp_lexer.specs.Markers.{are_flags, are_gaps, is_flag_byte, marker_after, marker_of, name_then, number_then, numbered, seen, IsSmall};

use crate::bytes::{begins_with_digit, begins_with_gap, is_digit, is_gap, skip_gaps, split_digits};
use crate::extents::before_quote;
use crate::numbers::value;

/// The greatest number that a marker line may give.
const LAST_LINE: u64 = 2147483647;

/// What a marker line says of the line after it.
#[derive(Clone, Copy)]
pub(crate) enum Marker<'a> {
    /// Its number and its name.
    Named { line: u64, name: &'a [u8] },
    /// Nothing: the line is for a compiler.
    Pragma,
}

/// The marker that a line is, from its `#` on.
pub(crate) fn read_marker(line: &[u8]) -> Option<Marker<'_>>
    ensures marker { option_map seen result ≡ marker_of line.now }
    ensures small { IfSome result IsSmall }
{
    match line.split_first() {
        Some((_, rest)) => marker_after(rest),
        None => None,
    }
}

/// The marker after a `#`.
#[tactic(auto, unfolding(crate::specs::Markers::marker_after))]
fn marker_after(bytes: &[u8]) -> Option<Marker<'_>>
    ensures marker { option_map seen result ≡ marker_after bytes.now }
    ensures small { IfSome result IsSmall }
{
    if bytes.starts_with(b"pragma") {
        return Some(Marker::Pragma);
    }
    if bytes.starts_with(b"line") {
        let (line, name, end) = numbered(&bytes[4..])?;
        return if are_gaps(end) {
            Some(Marker::Named { line, name })
        } else {
            None
        };
    }
    let (line, name, end) = numbered(bytes)?;
    if are_flags(end) {
        Some(Marker::Named { line, name })
    } else {
        None
    }
}

/// A number after blanks, a name in quotes after blanks, and what follows it on the line.
fn numbered(bytes: &[u8]) -> Option<(u64, &[u8], &[u8])>
    ensures parts { option_map (λ p. (p.0, p.1.now, p.2.now)) result ≡ numbered bytes.now }
    ensures small { IfSome result (λ p. p.0 < 2 ^ 31) }
{
    if begins_with_gap(bytes) {
        number_then(skip_gaps(bytes))
    } else {
        None
    }
}

fn number_then(bytes: &[u8]) -> Option<(u64, &[u8], &[u8])>
    ensures parts { option_map (λ p. (p.0, p.1.now, p.2.now)) result ≡ number_then bytes.now }
    ensures small { IfSome result (λ p. p.0 < 2 ^ 31) }
{
    let (digits, rest) = split_digits(bytes);
    if !begins_with_digit(bytes) || !begins_with_gap(rest) {
        return None;
    }
    match value(10, digits) {
        Some(line) if line <= LAST_LINE => name_then(line, skip_gaps(rest)),
        _ => None,
    }
}

fn name_then(line: u64, bytes: &[u8]) -> Option<(u64, &[u8], &[u8])>
    ensures parts { option_map (λ p. (p.0, p.1.now, p.2.now)) result ≡ name_then line bytes.now }
    ensures line { IfSome result (λ p. p.0 ≡ line) }
{
    let (quote, quoted) = bytes.split_first()?;
    if *quote != b'"' {
        return None;
    }
    let length = before_quote(b'"', quoted)?;
    Some((line, &quoted[..length], &quoted[length + 1..]))
}

fn are_gaps(bytes: &[u8]) -> bool
    ensures { result ≡ are_gaps bytes.now }
{
    bytes.iter().all(|b| is_gap(*b))
}

fn is_flag_byte(b: u8) -> bool
    ensures { result ≡ is_flag_byte b }
{
    is_gap(b) || is_digit(b)
}

fn are_flag_bytes(bytes: &[u8]) -> bool
    ensures { result ≡ list_all is_flag_byte bytes.now }
{
    bytes.iter().all(|b| is_flag_byte(*b))
}

/// Whether these are flags of digits, with blanks before each, and blanks.
fn are_flags(bytes: &[u8]) -> bool
    ensures { result ≡ are_flags bytes.now }
{
    !begins_with_digit(bytes) && are_flag_bytes(bytes)
}
