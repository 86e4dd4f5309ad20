//! What operators do, as lowering tells them apart.
ghost use Rattle.std.specs.Prelude.{◌≡◌};
ghost use Rattle.sp_lower_draft.specs.Operators.{
  prefix_of,
  circuit_of,
  is_plain_assign,
  is_shift,
  is_minus,
  operator_of,
  same_kind,
};

use sp_tree::Punct;
use sp_types::IntKind;

/// What an operator before its operand does (C90 6.3.3).
#[derive(Clone, Copy, Debug, PartialEq, Eq)]
pub enum Prefix {
    /// `&`
    Address,
    /// `*`
    Pointee,
    /// `!`
    Negation,
    /// `++` and `--`
    Step,
    /// `+`, `-` and `~`
    Sign,
}

/// An operator that may leave its second operand out (C90 6.3.13, 6.3.14).
#[derive(Clone, Copy, Debug, PartialEq, Eq)]
pub enum Circuit {
    /// `&&`
    And,
    /// `||`
    Or,
}

/// What an operator does before its operand.
pub fn prefix_of(operator: Punct) -> Prefix
    ensures { result ≡ prefix_of operator }
{
    match operator {
        Punct::Ampersand => Prefix::Address,
        Punct::Star => Prefix::Pointee,
        Punct::Exclamation => Prefix::Negation,
        Punct::Increment | Punct::Decrement => Prefix::Step,
        _ => Prefix::Sign,
    }
}

/// Whether a binary operator is `&&` or `||`, and which.
pub fn circuit_of(operator: Punct) -> Option<Circuit>
    ensures { result ≡ circuit_of operator }
{
    match operator {
        Punct::AndAnd => Some(Circuit::And),
        Punct::OrOr => Some(Circuit::Or),
        _ => None,
    }
}

/// Whether it is `=`.
pub fn is_plain_assign(operator: Punct) -> bool
    ensures { result ≡ is_plain_assign operator }
{
    match operator {
        Punct::Assign => true,
        _ => false,
    }
}

pub fn is_shift(operator: Punct) -> bool
    ensures { result ≡ is_shift operator }
{
    match operator {
        Punct::ShiftLeft | Punct::ShiftRight => true,
        _ => false,
    }
}

pub fn is_minus(operator: Punct) -> bool
    ensures { result ≡ is_minus operator }
{
    match operator {
        Punct::Minus => true,
        _ => false,
    }
}

/// The operator of `op=`, `++` and `--` (C90 6.3.16.2).
pub fn operator_of(operator: Punct) -> Punct
    ensures { result ≡ operator_of operator }
{
    match operator {
        Punct::StarAssign => Punct::Star,
        Punct::SlashAssign => Punct::Slash,
        Punct::PercentAssign => Punct::Percent,
        Punct::PlusAssign | Punct::Increment => Punct::Plus,
        Punct::ShiftLeftAssign => Punct::ShiftLeft,
        Punct::ShiftRightAssign => Punct::ShiftRight,
        Punct::AmpersandAssign => Punct::Ampersand,
        Punct::CaretAssign => Punct::Caret,
        Punct::BarAssign => Punct::Bar,
        _ => Punct::Minus,
    }
}

pub fn same_kind(a: IntKind, b: IntKind) -> bool
    ensures { result ≡ same_kind a b }
{
    match (a, b) {
        (IntKind::Char, IntKind::Char)
        | (IntKind::SChar, IntKind::SChar)
        | (IntKind::UChar, IntKind::UChar)
        | (IntKind::Short, IntKind::Short)
        | (IntKind::UShort, IntKind::UShort)
        | (IntKind::Int, IntKind::Int)
        | (IntKind::UInt, IntKind::UInt)
        | (IntKind::Long, IntKind::Long)
        | (IntKind::ULong, IntKind::ULong) => true,
        _ => false,
    }
}
