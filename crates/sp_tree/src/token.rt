//! Tokens: what the scanner makes of a text, and what the parsers read.
ghost use Rattle.std.specs.Prelude.{◌≡◌};
ghost use Rattle.sp_tree.specs.Spellings.{keyword_spelling, mark_spelling};

use crate::Place;

/// A token of a text, at the place of its first byte.
#[derive(Clone, Copy, Debug, PartialEq, Eq)]
pub struct Token {
    pub kind: Kind,
    pub place: Place,
}

/// The kinds of tokens (C90 6.1).
#[derive(Clone, Copy, Debug, PartialEq, Eq)]
pub enum Kind {
    /// An identifier, by its number in [`crate::Names`].
    Name(u32),
    Word(Keyword),
    Number(Number),
    /// A character constant: an int, with the value of a signed char.
    Char(i64),
    /// A string literal: the number in [`crate::Names`] of its bytes, with escapes read and without the closing zero.
    Text(u32),
    Mark(Punct),
    /// The end of the text.
    End,
}

/// An integer constant (C90 6.1.3.2). Its type follows from the value, the base and the suffix.
#[derive(Clone, Copy, Debug, PartialEq, Eq)]
pub struct Number {
    pub value: u64,
    /// Whether it is written in decimal, and not in octal or hexadecimal.
    pub decimal: bool,
    /// Whether its suffix has a `u` or `U`.
    pub unsigned: bool,
    /// Whether its suffix has an `l` or `L`.
    pub long: bool,
}

/// The keywords (C90 6.1.1).
#[derive(Clone, Copy, Debug, PartialEq, Eq)]
pub enum Keyword {
    Auto,
    Break,
    Case,
    Char,
    Const,
    Continue,
    Default,
    Do,
    Double,
    Else,
    Enum,
    Extern,
    Float,
    For,
    Goto,
    If,
    Int,
    Long,
    Register,
    Return,
    Short,
    Signed,
    Sizeof,
    Static,
    Struct,
    Switch,
    Typedef,
    Union,
    Unsigned,
    Void,
    Volatile,
    While,
}

impl Keyword {
    /// How the keyword is written.
    pub fn spelling(&self) -> &'static str
        ensures { result.now ≡ keyword_spelling self.now }
    {
        match self {
            Keyword::Auto => "auto",
            Keyword::Break => "break",
            Keyword::Case => "case",
            Keyword::Char => "char",
            Keyword::Const => "const",
            Keyword::Continue => "continue",
            Keyword::Default => "default",
            Keyword::Do => "do",
            Keyword::Double => "double",
            Keyword::Else => "else",
            Keyword::Enum => "enum",
            Keyword::Extern => "extern",
            Keyword::Float => "float",
            Keyword::For => "for",
            Keyword::Goto => "goto",
            Keyword::If => "if",
            Keyword::Int => "int",
            Keyword::Long => "long",
            Keyword::Register => "register",
            Keyword::Return => "return",
            Keyword::Short => "short",
            Keyword::Signed => "signed",
            Keyword::Sizeof => "sizeof",
            Keyword::Static => "static",
            Keyword::Struct => "struct",
            Keyword::Switch => "switch",
            Keyword::Typedef => "typedef",
            Keyword::Union => "union",
            Keyword::Unsigned => "unsigned",
            Keyword::Void => "void",
            Keyword::Volatile => "volatile",
            Keyword::While => "while",
        }
    }
}

/// The operators and punctuators (C90 6.1.5 and 6.1.6), without those of the preprocessor.
#[derive(Clone, Copy, Debug, PartialEq, Eq)]
pub enum Punct {
    /// `[`
    LeftBracket,
    /// `]`
    RightBracket,
    /// `(`
    LeftParenthesis,
    /// `)`
    RightParenthesis,
    /// `{`
    LeftBrace,
    /// `}`
    RightBrace,
    /// `.`
    Dot,
    /// `->`
    Arrow,
    /// `++`
    Increment,
    /// `--`
    Decrement,
    /// `&`
    Ampersand,
    /// `*`
    Star,
    /// `+`
    Plus,
    /// `-`
    Minus,
    /// `~`
    Tilde,
    /// `!`
    Exclamation,
    /// `/`
    Slash,
    /// `%`
    Percent,
    /// `<<`
    ShiftLeft,
    /// `>>`
    ShiftRight,
    /// `<`
    Less,
    /// `>`
    Greater,
    /// `<=`
    LessEqual,
    /// `>=`
    GreaterEqual,
    /// `==`
    EqualEqual,
    /// `!=`
    NotEqual,
    /// `^`
    Caret,
    /// `|`
    Bar,
    /// `&&`
    AndAnd,
    /// `||`
    OrOr,
    /// `?`
    Question,
    /// `:`
    Colon,
    /// `;`
    Semicolon,
    /// `...`
    Ellipsis,
    /// `=`
    Assign,
    /// `*=`
    StarAssign,
    /// `/=`
    SlashAssign,
    /// `%=`
    PercentAssign,
    /// `+=`
    PlusAssign,
    /// `-=`
    MinusAssign,
    /// `<<=`
    ShiftLeftAssign,
    /// `>>=`
    ShiftRightAssign,
    /// `&=`
    AmpersandAssign,
    /// `^=`
    CaretAssign,
    /// `|=`
    BarAssign,
    /// `,`
    Comma,
}

impl Punct {
    /// How the operator or punctuator is written.
    pub fn spelling(&self) -> &'static str
        ensures { result.now ≡ mark_spelling self.now }
    {
        match self {
            Punct::LeftBracket => "[",
            Punct::RightBracket => "]",
            Punct::LeftParenthesis => "(",
            Punct::RightParenthesis => ")",
            Punct::LeftBrace => "{",
            Punct::RightBrace => "}",
            Punct::Dot => ".",
            Punct::Arrow => "->",
            Punct::Increment => "++",
            Punct::Decrement => "--",
            Punct::Ampersand => "&",
            Punct::Star => "*",
            Punct::Plus => "+",
            Punct::Minus => "-",
            Punct::Tilde => "~",
            Punct::Exclamation => "!",
            Punct::Slash => "/",
            Punct::Percent => "%",
            Punct::ShiftLeft => "<<",
            Punct::ShiftRight => ">>",
            Punct::Less => "<",
            Punct::Greater => ">",
            Punct::LessEqual => "<=",
            Punct::GreaterEqual => ">=",
            Punct::EqualEqual => "==",
            Punct::NotEqual => "!=",
            Punct::Caret => "^",
            Punct::Bar => "|",
            Punct::AndAnd => "&&",
            Punct::OrOr => "||",
            Punct::Question => "?",
            Punct::Colon => ":",
            Punct::Semicolon => ";",
            Punct::Ellipsis => "...",
            Punct::Assign => "=",
            Punct::StarAssign => "*=",
            Punct::SlashAssign => "/=",
            Punct::PercentAssign => "%=",
            Punct::PlusAssign => "+=",
            Punct::MinusAssign => "-=",
            Punct::ShiftLeftAssign => "<<=",
            Punct::ShiftRightAssign => ">>=",
            Punct::AmpersandAssign => "&=",
            Punct::CaretAssign => "^=",
            Punct::BarAssign => "|=",
            Punct::Comma => ",",
        }
    }
}
