//! Which marks and words may stand where in a tree.
ghost use Rattle.std.specs.Prelude.{◌≡◌};
ghost use Rattle.sp_parse_trees.specs.Words.{binary_level, is_step, is_unary, is_assignment, is_storage, is_qualifier};

use sp_tree::{Keyword, Punct};

/// The level of an operator between two operands, from 3 for `||` to 12 for `*`, `/` and `%`; 0 for any other mark
/// (C90 6.3.5 to 6.3.14).
pub fn binary_level(mark: Punct) -> u32
    ensures { result ≡ binary_level mark }
{
    match mark {
        Punct::OrOr => 3,
        Punct::AndAnd => 4,
        Punct::Bar => 5,
        Punct::Caret => 6,
        Punct::Ampersand => 7,
        Punct::EqualEqual | Punct::NotEqual => 8,
        Punct::Less | Punct::Greater | Punct::LessEqual | Punct::GreaterEqual => 9,
        Punct::ShiftLeft | Punct::ShiftRight => 10,
        Punct::Plus | Punct::Minus => 11,
        Punct::Star | Punct::Slash | Punct::Percent => 12,
        _ => 0,
    }
}

/// Whether the mark is `++` or `--`.
pub fn is_step(mark: Punct) -> bool
    ensures { result ≡ is_step mark }
{
    matches!(mark, Punct::Increment | Punct::Decrement)
}

/// Whether the mark is an operator that stands before one operand, `++` and `--` left out (C90 6.3.3).
pub fn is_unary(mark: Punct) -> bool
    ensures { result ≡ is_unary mark }
{
    matches!(
        mark,
        Punct::Ampersand
            | Punct::Star
            | Punct::Plus
            | Punct::Minus
            | Punct::Tilde
            | Punct::Exclamation
    )
}

/// Whether the mark is an assignment (C90 6.3.16).
pub fn is_assignment(mark: Punct) -> bool
    ensures { result ≡ is_assignment mark }
{
    matches!(
        mark,
        Punct::Assign
            | Punct::StarAssign
            | Punct::SlashAssign
            | Punct::PercentAssign
            | Punct::PlusAssign
            | Punct::MinusAssign
            | Punct::ShiftLeftAssign
            | Punct::ShiftRightAssign
            | Punct::AmpersandAssign
            | Punct::CaretAssign
            | Punct::BarAssign
    )
}

/// Whether the word is a storage class, `typedef` among them (C90 6.5.1).
pub fn is_storage(word: Keyword) -> bool
    ensures { result ≡ is_storage word }
{
    matches!(
        word,
        Keyword::Typedef | Keyword::Extern | Keyword::Static | Keyword::Auto | Keyword::Register
    )
}

/// Whether the word is `const` or `volatile` (C90 6.5.3).
pub fn is_qualifier(word: Keyword) -> bool
    ensures { result ≡ is_qualifier word }
{
    matches!(word, Keyword::Const | Keyword::Volatile)
}
