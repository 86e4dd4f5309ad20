//! What a word stands for: a keyword, a name, or a refused word.
ghost use Rattle.std.specs.Prelude.{◌≡◌, bytes_eq};
ghost use Rattle.std.specs.List.{list_any};
ghost use Rattle.sp_lexer.specs.Words.{keyword_of, refused_word, keywords_from, assembly_words, gnu_words, is_gnu_word};

use sp_tree::{FaultKind, Keyword};

/// The keywords that begin with a letter.
#[tactic(auto, unfolding(crate::specs::Words::keywords_from))]
fn keywords_from(first: u8) -> &'static [Keyword]
    ensures { result.now ≡ keywords_from first }
{
    match first {
        b'a' => &[Keyword::Auto],
        b'b' => &[Keyword::Break],
        b'c' => &[
            Keyword::Case,
            Keyword::Char,
            Keyword::Const,
            Keyword::Continue,
        ],
        b'd' => &[Keyword::Default, Keyword::Do, Keyword::Double],
        b'e' => &[Keyword::Else, Keyword::Enum, Keyword::Extern],
        b'f' => &[Keyword::Float, Keyword::For],
        b'g' => &[Keyword::Goto],
        b'i' => &[Keyword::If, Keyword::Int],
        b'l' => &[Keyword::Long],
        b'r' => &[Keyword::Register, Keyword::Return],
        b's' => &[
            Keyword::Short,
            Keyword::Signed,
            Keyword::Sizeof,
            Keyword::Static,
            Keyword::Struct,
            Keyword::Switch,
        ],
        b't' => &[Keyword::Typedef],
        b'u' => &[Keyword::Union, Keyword::Unsigned],
        b'v' => &[Keyword::Void, Keyword::Volatile],
        b'w' => &[Keyword::While],
        _ => &[],
    }
}

/// The keyword that a word is.
pub(crate) fn keyword(word: &[u8]) -> Option<Keyword>
    ensures { result ≡ keyword_of word.now }
{
    let (first, _) = word.split_first()?;
    for keyword in keywords_from(*first) {
        if keyword.spelling().as_bytes() == word {
            return Some(*keyword);
        }
    }
    None
}

/// The words of inline assembly.
const ASSEMBLY_WORDS: [&str; 3] = ["asm", "__asm", "__asm__"];

/// The words of GNU C, beside those that begin with `__builtin_`.
const GNU_WORDS: [&str; 16] = [
    "__attribute__",
    "__attribute",
    "__extension__",
    "__typeof__",
    "__typeof",
    "__inline",
    "__inline__",
    "__restrict",
    "__restrict__",
    "__const",
    "__const__",
    "__volatile",
    "__volatile__",
    "__signed__",
    "__alignof__",
    "__label__",
];

fn is_among(word: &[u8], words: &[&str]) -> bool
    ensures { result ≡ list_any (λ other. bytes_eq word.now other.now) words.entry.now }
{
    for other in words {
        if word == other.as_bytes() {
            return true;
        }
    }
    false
}

#[tactic(auto, unfolding(crate::specs::Words::assembly_words))]
fn is_assembly_word(word: &[u8]) -> bool
    ensures { result ≡ list_any (bytes_eq word.now) assembly_words }
{
    is_among(word, &ASSEMBLY_WORDS)
}

#[tactic(auto, unfolding(crate::specs::Words::gnu_words))]
fn is_listed_gnu_word(word: &[u8]) -> bool
    ensures { result ≡ list_any (bytes_eq word.now) gnu_words }
{
    is_among(word, &GNU_WORDS)
}

#[tactic(auto, unfolding(crate::specs::Words::is_gnu_word))]
fn is_gnu_word(word: &[u8]) -> bool
    ensures { result ≡ is_gnu_word word.now }
{
    is_listed_gnu_word(word) || word.starts_with(b"__builtin_")
}

/// The fault that a word is by itself.
#[tactic(auto, unfolding(crate::specs::Words::refused_word))]
pub(crate) fn refused(word: &[u8]) -> Option<FaultKind>
    ensures { result ≡ refused_word word.now }
{
    if is_assembly_word(word) {
        Some(FaultKind::InlineAssembly)
    } else if is_gnu_word(word) {
        Some(FaultKind::GnuWord)
    } else {
        None
    }
}
