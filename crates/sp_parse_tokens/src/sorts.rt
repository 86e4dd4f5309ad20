//! The sorts of tokens, as the grammar tells them apart.
ghost use Rattle.std.specs.Prelude.{◌≡◌};
ghost use Rattle.sp_parse_grammar.specs.CTokens.{number_of, is_mark, looseness, is_specifier, view};
ghost use Rattle.sp_parse_grammar.specs.CTable.{stands_behind, begins_expression};
ghost use Rattle.sp_parse_tokens.specs.Sorts.{word_sort, punct_sort, sort_of};
ghost use Rattle.sp_parse_tokens.specs.Codes.{mark_seen, sort_seen};

use crate::TypeNames;
use sp_tree::{Keyword, Kind, Punct};

/// The words of type specifiers.
#[derive(Clone, Copy)]
pub enum TypeWord {
    Void,
    Char,
    Short,
    Int,
    Long,
    Float,
    Double,
    /// `signed` or `unsigned`.
    Sign,
}

/// The tokens that stand for themselves.
#[derive(Clone, Copy)]
pub enum Mark {
    OpenParen,
    CloseParen,
    OpenBracket,
    CloseBracket,
    OpenBrace,
    CloseBrace,
    Semicolon,
    Colon,
    Question,
    Ellipsis,
    Comma,
    Equal,
    /// `.` or `->`.
    Member,
    /// `++` or `--`.
    Step,
    Star,
    Ampersand,
    /// `+` or `-`.
    Additive,
    /// `~` or `!`.
    Tilde,
    Sizeof,
    If,
    Else,
    Switch,
    Case,
    Default,
    While,
    Do,
    For,
    Goto,
    Continue,
    Break,
    Return,
    /// `struct` or `union`.
    Struct,
    Enum,
    Typedef,
    End,
}

/// A sort of tokens. A binary operator has its level, from 1 for products to 10 for the logical or;
/// those that are other operators too are marks.
#[derive(Clone, Copy)]
pub enum Sort {
    Name(u32),
    /// A name that is a type name.
    NamedType(u32),
    Constant,
    Text,
    Storage,
    Qualifier,
    /// An assignment other than `=`.
    Assigning,
    Basic(TypeWord),
    Binary(u32),
    Mark(Mark),
}

/// The sort of a keyword.
fn sort_of_word(word: Keyword) -> Sort
    ensures { sort_seen result ≡ word_sort word }
{
    match word {
        Keyword::Auto | Keyword::Extern | Keyword::Register | Keyword::Static => Sort::Storage,
        Keyword::Const | Keyword::Volatile => Sort::Qualifier,
        Keyword::Void => Sort::Basic(TypeWord::Void),
        Keyword::Char => Sort::Basic(TypeWord::Char),
        Keyword::Short => Sort::Basic(TypeWord::Short),
        Keyword::Int => Sort::Basic(TypeWord::Int),
        Keyword::Long => Sort::Basic(TypeWord::Long),
        Keyword::Float => Sort::Basic(TypeWord::Float),
        Keyword::Double => Sort::Basic(TypeWord::Double),
        Keyword::Signed | Keyword::Unsigned => Sort::Basic(TypeWord::Sign),
        Keyword::Break => Sort::Mark(Mark::Break),
        Keyword::Case => Sort::Mark(Mark::Case),
        Keyword::Continue => Sort::Mark(Mark::Continue),
        Keyword::Default => Sort::Mark(Mark::Default),
        Keyword::Do => Sort::Mark(Mark::Do),
        Keyword::Else => Sort::Mark(Mark::Else),
        Keyword::Enum => Sort::Mark(Mark::Enum),
        Keyword::For => Sort::Mark(Mark::For),
        Keyword::Goto => Sort::Mark(Mark::Goto),
        Keyword::If => Sort::Mark(Mark::If),
        Keyword::Return => Sort::Mark(Mark::Return),
        Keyword::Sizeof => Sort::Mark(Mark::Sizeof),
        Keyword::Struct | Keyword::Union => Sort::Mark(Mark::Struct),
        Keyword::Switch => Sort::Mark(Mark::Switch),
        Keyword::Typedef => Sort::Mark(Mark::Typedef),
        Keyword::While => Sort::Mark(Mark::While),
    }
}

/// The sort of a punctuator.
fn sort_of_punct(punct: Punct) -> Sort
    ensures { sort_seen result ≡ punct_sort punct }
{
    match punct {
        Punct::LeftBracket => Sort::Mark(Mark::OpenBracket),
        Punct::RightBracket => Sort::Mark(Mark::CloseBracket),
        Punct::LeftParenthesis => Sort::Mark(Mark::OpenParen),
        Punct::RightParenthesis => Sort::Mark(Mark::CloseParen),
        Punct::LeftBrace => Sort::Mark(Mark::OpenBrace),
        Punct::RightBrace => Sort::Mark(Mark::CloseBrace),
        Punct::Dot | Punct::Arrow => Sort::Mark(Mark::Member),
        Punct::Increment | Punct::Decrement => Sort::Mark(Mark::Step),
        Punct::Ampersand => Sort::Mark(Mark::Ampersand),
        Punct::Star => Sort::Mark(Mark::Star),
        Punct::Plus | Punct::Minus => Sort::Mark(Mark::Additive),
        Punct::Tilde | Punct::Exclamation => Sort::Mark(Mark::Tilde),
        Punct::Slash | Punct::Percent => Sort::Binary(1),
        Punct::ShiftLeft | Punct::ShiftRight => Sort::Binary(3),
        Punct::Less | Punct::Greater | Punct::LessEqual | Punct::GreaterEqual => Sort::Binary(4),
        Punct::EqualEqual | Punct::NotEqual => Sort::Binary(5),
        Punct::Caret => Sort::Binary(7),
        Punct::Bar => Sort::Binary(8),
        Punct::AndAnd => Sort::Binary(9),
        Punct::OrOr => Sort::Binary(10),
        Punct::Question => Sort::Mark(Mark::Question),
        Punct::Colon => Sort::Mark(Mark::Colon),
        Punct::Semicolon => Sort::Mark(Mark::Semicolon),
        Punct::Ellipsis => Sort::Mark(Mark::Ellipsis),
        Punct::Comma => Sort::Mark(Mark::Comma),
        Punct::Assign => Sort::Mark(Mark::Equal),
        _ => Sort::Assigning,
    }
}

/// The sort of a token, where these are the type names.
pub fn sort_at(types: &TypeNames, kind: Kind) -> Sort
    ensures { sort_seen result ≡ view types.now (sort_of kind) }
{
    match kind {
        Kind::Name(name) => {
            if types.holds(name) {
                Sort::NamedType(name)
            } else {
                Sort::Name(name)
            }
        }
        Kind::Word(word) => sort_of_word(word),
        Kind::Number(_) => Sort::Constant,
        Kind::Char(_) => Sort::Constant,
        Kind::Text(_) => Sort::Text,
        Kind::Mark(punct) => sort_of_punct(punct),
        Kind::End => Sort::Mark(Mark::End),
    }
}

/// The number of a mark, by which two are compared.
fn number_of(mark: Mark) -> u32
    ensures { result ≡ number_of (mark_seen mark) }
{
    match mark {
        Mark::OpenParen => 0,
        Mark::CloseParen => 1,
        Mark::OpenBracket => 2,
        Mark::CloseBracket => 3,
        Mark::OpenBrace => 4,
        Mark::CloseBrace => 5,
        Mark::Semicolon => 6,
        Mark::Colon => 7,
        Mark::Question => 8,
        Mark::Ellipsis => 9,
        Mark::Comma => 10,
        Mark::Equal => 11,
        Mark::Member => 12,
        Mark::Step => 13,
        Mark::Star => 14,
        Mark::Ampersand => 15,
        Mark::Additive => 16,
        Mark::Tilde => 17,
        Mark::Sizeof => 18,
        Mark::If => 19,
        Mark::Else => 20,
        Mark::Switch => 21,
        Mark::Case => 22,
        Mark::Default => 23,
        Mark::While => 24,
        Mark::Do => 25,
        Mark::For => 26,
        Mark::Goto => 27,
        Mark::Continue => 28,
        Mark::Break => 29,
        Mark::Return => 30,
        Mark::Struct => 31,
        Mark::Enum => 32,
        Mark::Typedef => 33,
        Mark::End => 34,
    }
}

/// Whether the sort is this mark.
pub fn is_mark(mark: Mark, sort: Sort) -> bool
    ensures { result ≡ is_mark (mark_seen mark) (sort_seen sort) }
{
    match sort {
        Sort::Mark(other) => number_of(mark) == number_of(other),
        _ => false,
    }
}

/// How tight the token binds what stands before it: 0 behind a postfix expression, 1 to 10 a binary
/// operator, 11 `?`, 12 an assignment, 13 the comma, 14 where it isn't an operator behind an
/// operand.
pub fn looseness(sort: Sort) -> u32
    ensures { result ≡ looseness (sort_seen sort) }
{
    match sort {
        Sort::Text => 0,
        Sort::Mark(Mark::OpenParen | Mark::OpenBracket | Mark::Member | Mark::Step) => 0,
        Sort::Mark(Mark::Star) => 1,
        Sort::Mark(Mark::Additive) => 2,
        Sort::Mark(Mark::Ampersand) => 6,
        Sort::Binary(level) => level,
        Sort::Mark(Mark::Question) => 11,
        Sort::Mark(Mark::Equal) | Sort::Assigning => 12,
        Sort::Mark(Mark::Comma) => 13,
        _ => 14,
    }
}

/// Whether the token is an operator of the level behind a left part; an assignment stands behind a
/// unary expression alone.
pub fn continues_level(level: u32, unary: bool, sort: Sort) -> bool
    ensures { result ≡ stands_behind level unary (sort_seen sort) }
{
    match sort {
        Sort::Mark(Mark::Equal) | Sort::Assigning => unary && level == 12,
        _ => looseness(sort) == level,
    }
}

/// Whether the token begins specifiers or goes on with them.
pub fn is_specifier(sort: Sort) -> bool
    ensures { result ≡ is_specifier (sort_seen sort) }
{
    matches!(
        sort,
        Sort::NamedType(_)
            | Sort::Storage
            | Sort::Qualifier
            | Sort::Basic(_)
            | Sort::Mark(Mark::Struct | Mark::Enum | Mark::Typedef)
    )
}

/// Whether the token begins an expression.
pub fn begins_expression(sort: Sort) -> bool
    ensures { result ≡ begins_expression (sort_seen sort) }
{
    matches!(
        sort,
        Sort::Name(_)
            | Sort::Constant
            | Sort::Text
            | Sort::Mark(
                Mark::OpenParen
                    | Mark::Step
                    | Mark::Star
                    | Mark::Ampersand
                    | Mark::Additive
                    | Mark::Tilde
                    | Mark::Sizeof
            )
    )
}
