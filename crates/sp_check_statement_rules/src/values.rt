//! Values of cases.
ghost use Rattle.std.specs.Prelude.{◌≡◌, pos, ◌^◌, int_le, int_lt, true};
ghost use Rattle.sp_check_constants.specs.Constants.{greatest, width};
ghost use Rattle.sp_check_statement_rules.specs.Values.{as_kind};

use sp_types::IntKind;

/// How many values an integer type has.
fn count(kind: IntKind) -> i128
    ensures value { result ≡ pos (2 ^ width kind) }
    ensures least { int_lt (pos 0) result ≡ true }
    ensures most { int_le result (pos (2 ^ 64)) ≡ true }
{
    match kind {
        IntKind::Char | IntKind::SChar | IntKind::UChar => 256,
        IntKind::Short | IntKind::UShort => 65536,
        IntKind::Int | IntKind::UInt => 4294967296,
        IntKind::Long | IntKind::ULong => 18446744073709551616,
    }
}

/// The greatest value of an integer type.
fn greatest(kind: IntKind) -> i128
    ensures { result ≡ greatest kind }
{
    match kind {
        IntKind::Char | IntKind::SChar => 127,
        IntKind::UChar => 255,
        IntKind::Short => 32767,
        IntKind::UShort => 65535,
        IntKind::Int => 2147483647,
        IntKind::UInt => 4294967295,
        IntKind::Long => 9223372036854775807,
        IntKind::ULong => 18446744073709551615,
    }
}

/// A value converted to an integer type (C90 6.2.1.2): modulo the count of its values, and what is
/// past the greatest value is negative.
pub(crate) fn as_kind(kind: IntKind, value: i128) -> i128
    ensures { result ≡ as_kind kind value }
{
    let count = count(kind);
    let rest = value.rem_euclid(count);
    if rest <= greatest(kind) {
        rest
    } else {
        rest - count
    }
}
