//! Classes of bytes, and the fronts of a text that they make.
ghost use Rattle.std.specs.Prelude.{◌≡◌, [], length};
ghost use Rattle.std.specs.List.{prefix_len};
ghost use Rattle.sp_lexer.specs.Bytes.{is_blank, is_digit, is_exponent_letter, is_gap, is_hexadecimal, is_letter, is_not_newline, is_octal, is_quote, is_sign, is_word_byte, is_empty, begins, front, after};

#[tactic(auto, unfolding(crate::specs::Bytes::is_digit, crate::specs::Bytes::is_between))]
pub(crate) fn is_digit(b: u8) -> bool
    ensures { result ≡ is_digit b }
{
    b >= b'0' && b <= b'9'
}

#[tactic(auto, unfolding(crate::specs::Bytes::is_octal, crate::specs::Bytes::is_between))]
pub(crate) fn is_octal(b: u8) -> bool
    ensures { result ≡ is_octal b }
{
    b >= b'0' && b <= b'7'
}

#[tactic(auto, unfolding(crate::specs::Bytes::is_hexadecimal, crate::specs::Bytes::is_between))]
pub(crate) fn is_hexadecimal(b: u8) -> bool
    ensures { result ≡ is_hexadecimal b }
{
    is_digit(b) || b >= b'a' && b <= b'f' || b >= b'A' && b <= b'F'
}

/// A letter, or the underscore.
#[tactic(auto, unfolding(crate::specs::Bytes::is_letter, crate::specs::Bytes::is_between))]
pub(crate) fn is_letter(b: u8) -> bool
    ensures { result ≡ is_letter b }
{
    b >= b'a' && b <= b'z' || b >= b'A' && b <= b'Z' || b == b'_'
}

#[tactic(auto, unfolding(crate::specs::Bytes::is_word_byte))]
pub(crate) fn is_word_byte(b: u8) -> bool
    ensures { result ≡ is_word_byte b }
{
    is_letter(b) || is_digit(b)
}

#[tactic(auto, unfolding(crate::specs::Bytes::is_blank, crate::specs::Bytes::is_between))]
pub(crate) fn is_blank(b: u8) -> bool
    ensures { result ≡ is_blank b }
{
    b >= b'\t' && b <= b'\r' || b == b' '
}

/// A blank within a line.
#[tactic(auto, unfolding(crate::specs::Bytes::is_gap))]
pub(crate) fn is_gap(b: u8) -> bool
    ensures { result ≡ is_gap b }
{
    is_blank(b) && b != b'\n'
}

#[tactic(auto, unfolding(crate::specs::Bytes::is_not_newline))]
fn is_not_newline(b: u8) -> bool
    ensures { result ≡ is_not_newline b }
{
    b != b'\n'
}

#[tactic(auto, unfolding(crate::specs::Bytes::is_quote))]
pub(crate) fn is_quote(b: u8) -> bool
    ensures { result ≡ is_quote b }
{
    b == b'"' || b == b'\''
}

#[tactic(auto, unfolding(crate::specs::Bytes::is_exponent_letter))]
pub(crate) fn is_exponent_letter(b: u8) -> bool
    ensures { result ≡ is_exponent_letter b }
{
    b == b'e' || b == b'E'
}

#[tactic(auto, unfolding(crate::specs::Bytes::is_sign))]
pub(crate) fn is_sign(b: u8) -> bool
    ensures { result ≡ is_sign b }
{
    b == b'+' || b == b'-'
}

pub(crate) fn begins_with_digit(bytes: &[u8]) -> bool
    ensures { result ≡ begins is_digit bytes.now }
{
    match bytes.split_first() {
        Some((first, _)) => is_digit(*first),
        None => false,
    }
}

pub(crate) fn begins_with_gap(bytes: &[u8]) -> bool
    ensures { result ≡ begins is_gap bytes.now }
{
    match bytes.split_first() {
        Some((first, _)) => is_gap(*first),
        None => false,
    }
}

pub(crate) fn begins_with_letter(bytes: &[u8]) -> bool
    ensures { result ≡ begins is_letter bytes.now }
{
    match bytes.split_first() {
        Some((first, _)) => is_letter(*first),
        None => false,
    }
}

pub(crate) fn begins_with_quote(bytes: &[u8]) -> bool
    ensures { result ≡ begins is_quote bytes.now }
{
    match bytes.split_first() {
        Some((first, _)) => is_quote(*first),
        None => false,
    }
}

fn count_digits(bytes: &[u8]) -> usize
    ensures { result ≡ prefix_len is_digit bytes.now }
{
    bytes.iter().take_while(|b| is_digit(**b)).count()
}

/// The digits at the front, and what follows them.
#[tactic(auto, using(crate::proofs::ByteLaws::split_laws))]
pub(crate) fn split_digits(bytes: &[u8]) -> (&[u8], &[u8])
    ensures digits { result.0.now ≡ front is_digit bytes.now }
    ensures rest { result.1.now ≡ after is_digit bytes.now }
{
    bytes.split_at(count_digits(bytes))
}

fn count_octal_digits(bytes: &[u8]) -> usize
    ensures { result ≡ prefix_len is_octal bytes.now }
{
    bytes.iter().take_while(|b| is_octal(**b)).count()
}

/// The octal digits at the front, and what follows them.
#[tactic(auto, using(crate::proofs::ByteLaws::split_laws))]
pub(crate) fn split_octal_digits(bytes: &[u8]) -> (&[u8], &[u8])
    ensures digits { result.0.now ≡ front is_octal bytes.now }
    ensures rest { result.1.now ≡ after is_octal bytes.now }
{
    bytes.split_at(count_octal_digits(bytes))
}

fn count_hexadecimal_digits(bytes: &[u8]) -> usize
    ensures { result ≡ prefix_len is_hexadecimal bytes.now }
{
    bytes.iter().take_while(|b| is_hexadecimal(**b)).count()
}

/// The hexadecimal digits at the front, and what follows them.
#[tactic(auto, using(crate::proofs::ByteLaws::split_laws))]
pub(crate) fn split_hexadecimal_digits(bytes: &[u8]) -> (&[u8], &[u8])
    ensures digits { result.0.now ≡ front is_hexadecimal bytes.now }
    ensures rest { result.1.now ≡ after is_hexadecimal bytes.now }
{
    bytes.split_at(count_hexadecimal_digits(bytes))
}

fn count_gaps(bytes: &[u8]) -> usize
    ensures { result ≡ prefix_len is_gap bytes.now }
{
    bytes.iter().take_while(|b| is_gap(**b)).count()
}

/// What follows the blanks within a line that stand at the front.
#[tactic(auto, using(crate::proofs::ByteLaws::split_laws))]
pub(crate) fn skip_gaps(bytes: &[u8]) -> &[u8]
    ensures { result.now ≡ after is_gap bytes.now }
{
    bytes.split_at(count_gaps(bytes)).1
}

fn count_to_newline(bytes: &[u8]) -> usize
    ensures { result ≡ prefix_len is_not_newline bytes.now }
{
    bytes.iter().take_while(|b| is_not_newline(**b)).count()
}

/// The rest of the line, and what follows it, with the newline.
#[tactic(auto, using(crate::proofs::ByteLaws::split_laws))]
pub(crate) fn split_line(bytes: &[u8]) -> (&[u8], &[u8])
    ensures line { result.0.now ≡ front is_not_newline bytes.now }
    ensures rest { result.1.now ≡ after is_not_newline bytes.now }
{
    bytes.split_at(count_to_newline(bytes))
}

fn count_word_bytes(bytes: &[u8]) -> usize
    ensures { result ≡ prefix_len is_word_byte bytes.now }
{
    bytes.iter().take_while(|b| is_word_byte(**b)).count()
}

/// The letters and digits at the front, and what follows them.
#[tactic(auto, using(crate::proofs::ByteLaws::split_laws))]
pub(crate) fn split_word(bytes: &[u8]) -> (&[u8], &[u8])
    ensures word { result.0.now ≡ front is_word_byte bytes.now }
    ensures rest { result.1.now ≡ after is_word_byte bytes.now }
{
    bytes.split_at(count_word_bytes(bytes))
}
