//! The types that lists of words name (C90 6.5.2).
#![tactic(auto, using(crate::proofs::Tests::found))]

ghost use Rattle.std.specs.Prelude.{◌≡◌};
ghost use Rattle.sp_parse_trees.specs.View.{specifier_of, specifiers_of};
ghost use Rattle.sp_types.specs.View.{type_of};
ghost use Rattle.sp_check_type_names.specs.Words.{
  same_word,
  is_word,
  has_word,
  char_kind,
  integer_kind,
  words_type,
};

use sp_parse_trees::Specifier;
use sp_tree::Keyword;
use sp_types::{CType, FloatKind, IntKind};

/// Whether two words of these lists are the same.
fn same_word(left: Keyword, right: Keyword) -> bool
    ensures { result ≡ same_word left right }
{
    match left {
        Keyword::Void => matches!(right, Keyword::Void),
        Keyword::Char => matches!(right, Keyword::Char),
        Keyword::Short => matches!(right, Keyword::Short),
        Keyword::Long => matches!(right, Keyword::Long),
        Keyword::Float => matches!(right, Keyword::Float),
        Keyword::Double => matches!(right, Keyword::Double),
        Keyword::Signed => matches!(right, Keyword::Signed),
        Keyword::Unsigned => matches!(right, Keyword::Unsigned),
        _ => false,
    }
}

fn is_word(word: Keyword, specifier: &Specifier) -> bool
    ensures { result ≡ is_word word (specifier_of specifier.now) }
{
    match specifier {
        Specifier::Basic(found) => same_word(word, *found),
        Specifier::Storage(_)
        | Specifier::Qualifier(_)
        | Specifier::Named(_)
        | Specifier::Struct(_)
        | Specifier::Enum(_) => false,
    }
}

fn has_word(word: Keyword, specifiers: &[Specifier]) -> bool
    ensures { result ≡ has_word word (specifiers_of specifiers.now) }
{
    'specifiers: for (i, specifier) in specifiers.iter().enumerate() {
        if is_word(word, specifier) {
            return true;
        }
    }
    false
}

fn char_kind(specifiers: &[Specifier]) -> IntKind
    ensures { result ≡ char_kind (specifiers_of specifiers.now) }
{
    if has_word(Keyword::Unsigned, specifiers) {
        IntKind::UChar
    } else if has_word(Keyword::Signed, specifiers) {
        IntKind::SChar
    } else {
        IntKind::Char
    }
}

fn integer_kind(specifiers: &[Specifier]) -> IntKind
    ensures { result ≡ integer_kind (specifiers_of specifiers.now) }
{
    let unsigned = has_word(Keyword::Unsigned, specifiers);
    if has_word(Keyword::Short, specifiers) {
        if unsigned {
            IntKind::UShort
        } else {
            IntKind::Short
        }
    } else if has_word(Keyword::Long, specifiers) {
        if unsigned {
            IntKind::ULong
        } else {
            IntKind::Long
        }
    } else if unsigned {
        IntKind::UInt
    } else {
        IntKind::Int
    }
}

/// The type that the words of a list name. Its storage class and its qualifiers aren't read.
pub fn words_type(specifiers: &[Specifier]) -> CType
    ensures { type_of result ≡ words_type (specifiers_of specifiers.now) }
{
    if has_word(Keyword::Void, specifiers) {
        CType::Void
    } else if has_word(Keyword::Float, specifiers) {
        CType::Float(FloatKind::Float)
    } else if has_word(Keyword::Double, specifiers) {
        if has_word(Keyword::Long, specifiers) {
            CType::Float(FloatKind::LongDouble)
        } else {
            CType::Float(FloatKind::Double)
        }
    } else if has_word(Keyword::Char, specifiers) {
        CType::Int(char_kind(specifiers))
    } else {
        CType::Int(integer_kind(specifiers))
    }
}
