//! How far spellings and comments reach.
ghost use Rattle.std.specs.Prelude.{◌≡◌, ℕ, ◌<◌, ◌≤◌, false, length, IfSome, MatchOption};
ghost use Rattle.sp_lexer.specs.Spelling.{goes_on};
ghost use Rattle.sp_lexer.specs.Extents.{before_quote, run_len};
ghost use Rattle.sp_lexer.specs.Scan.{IsBlockComment};

use crate::bytes::{is_exponent_letter, is_sign, is_word_byte};

/// How many bytes stand before the quote that ends a literal on this line.
pub(crate) fn before_quote(quote: u8, bytes: &[u8]) -> Option<usize>
    ensures length { result ≡ before_quote false quote bytes.now }
    ensures within { IfSome result (λ n. n < length bytes.now) }
{
    let mut kept = false;
    for (i, b) in bytes.iter().enumerate() {
        if *b == quote && !kept {
            return Some(i);
        }
        if *b == b'\n' {
            return None;
        }
        kept = *b == b'\\' && !kept;
    }
    None
}

fn goes_on(last: u8, b: u8) -> bool
    ensures { result ≡ goes_on last b }
{
    is_word_byte(b) || b == b'.' || is_sign(b) && is_exponent_letter(last)
}

/// How long a number run is that begins with a digit or a point.
pub(crate) fn run_length(text: &[u8]) -> usize
    ensures length { result ≡ run_len 48 text.now }
    ensures within { result ≤ length text.now }
{
    let mut last = b'0';
    for (i, b) in text.iter().enumerate() {
        if !goes_on(last, *b) {
            return i;
        }
        last = *b;
    }
    text.len()
}

/// How long a comment is whose two opening bytes the text begins with.
pub(crate) fn comment_length(text: &[u8]) -> Option<usize>
    ensures { MatchOption result ((n : ℕ) → IsBlockComment text.now n → ⊥) (IsBlockComment text.now) }
{
    for k in 2..text.len() {
        if text[k] == b'*' && k + 1 < text.len() && text[k + 1] == b'/' {
            return Some(k + 2);
        }
    }
    None
}
