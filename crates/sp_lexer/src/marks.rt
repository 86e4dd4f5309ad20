//! Operators and punctuators.
ghost use Rattle.std.specs.Prelude.{◌≡◌};
ghost use Rattle.sp_lexer.specs.Marks.{marks, marks_from, mark_among};

use sp_tree::Punct;

/// The operators and punctuators that begin with a byte, the longest first.
#[tactic(auto, unfolding(crate::specs::Marks::marks_from, crate::specs::Marks::marks))]
fn marks_from(first: u8) -> &'static [Punct]
    ensures { result.now ≡ marks_from first }
{
    match first {
        b'[' => &[Punct::LeftBracket],
        b']' => &[Punct::RightBracket],
        b'(' => &[Punct::LeftParenthesis],
        b')' => &[Punct::RightParenthesis],
        b'{' => &[Punct::LeftBrace],
        b'}' => &[Punct::RightBrace],
        b'.' => &[Punct::Ellipsis, Punct::Dot],
        b'-' => &[
            Punct::Arrow,
            Punct::Decrement,
            Punct::MinusAssign,
            Punct::Minus,
        ],
        b'+' => &[Punct::Increment, Punct::PlusAssign, Punct::Plus],
        b'&' => &[Punct::AndAnd, Punct::AmpersandAssign, Punct::Ampersand],
        b'*' => &[Punct::StarAssign, Punct::Star],
        b'~' => &[Punct::Tilde],
        b'!' => &[Punct::NotEqual, Punct::Exclamation],
        b'/' => &[Punct::SlashAssign, Punct::Slash],
        b'%' => &[Punct::PercentAssign, Punct::Percent],
        b'<' => &[
            Punct::ShiftLeftAssign,
            Punct::ShiftLeft,
            Punct::LessEqual,
            Punct::Less,
        ],
        b'>' => &[
            Punct::ShiftRightAssign,
            Punct::ShiftRight,
            Punct::GreaterEqual,
            Punct::Greater,
        ],
        b'=' => &[Punct::EqualEqual, Punct::Assign],
        b'^' => &[Punct::CaretAssign, Punct::Caret],
        b'|' => &[Punct::OrOr, Punct::BarAssign, Punct::Bar],
        b'?' => &[Punct::Question],
        b':' => &[Punct::Colon],
        b';' => &[Punct::Semicolon],
        b',' => &[Punct::Comma],
        _ => &[],
    }
}

/// The longest operator or punctuator that a text begins with.
pub(crate) fn mark_at(text: &[u8]) -> Option<Punct>
    ensures { result ≡ mark_among text.now marks }
{
    let (first, _) = text.split_first()?;
    for mark in marks_from(*first) {
        if text.starts_with(mark.spelling().as_bytes()) {
            return Some(*mark);
        }
    }
    None
}
