//! Faults that hang on the tokens before the failing one.
ghost use Rattle.std.specs.Prelude.{◌≡◌, ◌&&◌, true, false};
ghost use Rattle.sp_parse_grammar.specs.CTokens.{is_mark};
ghost use Rattle.sp_parse_grammar.specs.CTokens as tokens;
ghost use Rattle.sp_parse_tokens.specs.Sorts.{sort_of};
ghost use Rattle.sp_parse_tokens.specs.Faults.{Wanted, is_word, is_long, ends_with_opening, ends_with_long, fault_there, sort_there, fault_of};
ghost use Rattle.sp_parse_tokens.specs.Refined.{choose, refine};

use sp_tree::{FaultKind, Keyword, Kind, Punct, Token};

/// Whether the token is a word of a list of specifiers (C90 6.5.1 to 6.5.3).
fn is_specifier_word(kind: Kind) -> bool
    ensures { result ≡ is_word (sort_of kind) }
{
    match kind {
        Kind::Word(word) => match word {
            Keyword::Auto | Keyword::Extern | Keyword::Register | Keyword::Static => true,
            Keyword::Const | Keyword::Volatile | Keyword::Typedef => true,
            Keyword::Void | Keyword::Char | Keyword::Short | Keyword::Int | Keyword::Long => true,
            Keyword::Float | Keyword::Double | Keyword::Signed | Keyword::Unsigned => true,
            _ => false,
        },
        _ => false,
    }
}

/// Whether it is the word `long`.
fn is_long_word(kind: Kind) -> bool
    ensures { result ≡ is_long (sort_of kind) }
{
    match kind {
        Kind::Word(Keyword::Long) => true,
        _ => false,
    }
}

/// Whether it is `(`.
fn is_opening(kind: Kind) -> bool
    ensures { result ≡ is_mark tokens.opening (sort_of kind) }
{
    match kind {
        Kind::Mark(Punct::LeftParenthesis) => true,
        _ => false,
    }
}

/// Whether it is `{`.
fn is_brace(kind: Kind) -> bool
    ensures { result ≡ is_mark tokens.brace (sort_of kind) }
{
    match kind {
        Kind::Mark(Punct::LeftBrace) => true,
        _ => false,
    }
}

/// Whether the last token is `(`.
fn follows_opening(front: &[Token]) -> bool
    ensures { result ≡ ends_with_opening false front.now }
{
    let mut opening = false;
    for token in front {
        opening = is_opening(token.kind);
    }
    opening
}

/// Whether a `long` is among the words of specifiers at the end of the tokens.
fn follows_long(front: &[Token]) -> bool
    ensures { result ≡ ends_with_long false front.now }
{
    let mut long = false;
    for token in front {
        long = is_specifier_word(token.kind) && (long || is_long_word(token.kind));
    }
    long
}

/// Whether the token is the `{` of a block behind `(`.
fn opens_block(front: &[Token], bad: Token) -> bool
    ensures { result ≡ (ends_with_opening false front.now && is_mark tokens.brace (sort_of bad.kind)) }
{
    follows_opening(front) && is_brace(bad.kind)
}

/// Whether the token is a second `long` of a list of specifiers.
fn repeats_long(front: &[Token], bad: Token) -> bool
    ensures { result ≡ (ends_with_long false front.now && is_long (sort_of bad.kind)) }
{
    follows_long(front) && is_long_word(bad.kind)
}

/// The fault, where those tell that stand at a block behind `(` and at a second `long`.
fn choose_fault(there: FaultKind, block: bool, second: bool) -> FaultKind
    ensures { result ≡ choose there block second }
{
    match there {
        FaultKind::OldStyleParameters
        | FaultKind::ImplicitInt
        | FaultKind::VariadicDefinition
        | FaultKind::BitField => there,
        FaultKind::TypedefAsOrdinaryName => {
            if block {
                FaultKind::GnuWord
            } else {
                FaultKind::TypedefAsOrdinaryName
            }
        }
        _ => {
            if block {
                FaultKind::GnuWord
            } else if second {
                FaultKind::LongLong
            } else {
                FaultKind::UnexpectedToken
            }
        }
    }
}

/// The fault at the failing token, from what the grammar wanted there: a block behind `(` and a
/// second `long` are told by the tokens before it.
pub fn refined(there: FaultKind, front: &[Token], bad: Token) -> FaultKind
    ensures value { result ≡ refine there front.now bad }
    ensures told { (w : Wanted) → there ≡ fault_there w (sort_there w bad) → result ≡ fault_of w front.now bad }
{
    let block = opens_block(front, bad);
    let second = repeats_long(front, bad);
    choose_fault(there, block, second)
}
