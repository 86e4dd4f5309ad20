//! The token that a spelling stands for.
ghost use Rattle.std.specs.Prelude.{◌≡◌, ℕ, ◌+◌, ◌-◌, ◌^◌, ◌<◌, true, false, List, [], ◌∷◌, ◌++◌, length, IfOk, IfErr};
ghost use Rattle.sp_lexer.specs.Bytes.{begins, is_letter, is_quote};
ghost use Rattle.sp_lexer.specs.Extents.{starts_run};
ghost use Rattle.sp_lexer.specs.Spelling.{is_word};
ghost use Rattle.sp_lexer.specs.Scan.{is_wide};
ghost use Rattle.sp_lexer.specs.Steps.{Grows, KindOf, TokenAt, IfFaulty};
ghost use Rattle.sp_lexer.specs.Named.{AddsKind};

use crate::bytes::{
    begins_with_digit, begins_with_letter, begins_with_quote, is_digit, is_quote, split_word,
};
use crate::extents::{before_quote, run_length};
use crate::literals::{read_character, read_string};
use crate::marks::mark_at;
use crate::numbers::read_number;
use crate::stop::Stop;
use crate::words::{keyword, refused};
use sp_tree::{FaultKind, Kind, Names};
use std::alloc::Global;

/// Whether a word before these bytes is the `L` of a wide literal.
fn is_wide(word: &[u8], next: &[u8]) -> bool
    ensures { result ≡ is_wide word.now next.now }
{
    match word {
        [b'L'] => begins_with_quote(next),
        _ => false,
    }
}

/// The kind of a word's token.
fn word_kind(word: &[u8], next: &[u8], names: &mut Names) -> Result<Kind, Stop>
    requires word { is_word word.now ≡ true }
    requires room { length names.old < 2 ^ 32 - 1 }
    ensures kind { KindOf names.new word.now next.now result }
    ensures names { Grows names.old names.new }
    ensures named { IfOk result (AddsKind names.old names.new) }
{
    if let Some(keyword) = keyword(word) {
        return Ok(Kind::Word(keyword));
    }
    if let Some(kind) = refused(word) {
        return Err(Stop::Fault(kind));
    }
    if is_wide(word, next) {
        return Err(Stop::Fault(FaultKind::WideLiteral));
    }
    match names.add(word) {
        Ok(number) => Ok(Kind::Name(number)),
        Err(_) => Err(Stop::NoMemory),
    }
}

/// The kind of a string literal's token, by its body.
fn string_kind(alloc: Global, body: &[u8], names: &mut Names) -> Result<Kind, Stop>
    requires { length names.old < 2 ^ 32 - 1 }
    ensures kind { (next : List ℕ) → KindOf names.new (34 ∷ body.now ++ 34 ∷ []) next result }
    ensures names { Grows names.old names.new }
    ensures named { IfOk result (AddsKind names.old names.new) }
{
    match read_string(alloc, body) {
        Ok(Some(values)) => match names.add(&values) {
            Ok(number) => Ok(Kind::Text(number)),
            Err(_) => Err(Stop::NoMemory),
        },
        Ok(None) => Err(Stop::Fault(FaultKind::MalformedLiteral)),
        Err(_) => Err(Stop::NoMemory),
    }
}

/// The kind of a character constant's token, by its body.
fn character_kind(body: &[u8]) -> Result<Kind, Stop>
    ensures kind { (names : List (List ℕ)) (next : List ℕ) → KindOf names (39 ∷ body.now ++ 39 ∷ []) next result }
    ensures named { IfOk result (λ kind. (names : List (List ℕ)) → AddsKind names names kind) }
{
    match read_character(body) {
        Some(value) => Ok(Kind::Char(value)),
        None => Err(Stop::Fault(FaultKind::MalformedLiteral)),
    }
}

/// The kind of a literal's token, by its quote and its body.
#[tactic(auto, unfolding(crate::specs::Bytes::is_quote))]
fn literal_kind(alloc: Global, quote: u8, body: &[u8], names: &mut Names) -> Result<Kind, Stop>
    requires quote { is_quote quote ≡ true }
    requires room { length names.old < 2 ^ 32 - 1 }
    ensures kind { (next : List ℕ) → KindOf names.new (quote ∷ body.now ++ quote ∷ []) next result }
    ensures names { Grows names.old names.new }
    ensures named { IfOk result (AddsKind names.old names.new) }
{
    if quote == b'"' {
        string_kind(alloc, body, names)
    } else {
        character_kind(body)
    }
}

/// The token of the word that begins a text.
fn word_token(text: &[u8], names: &mut Names) -> Result<(Kind, usize), Stop>
    requires letter { begins is_letter text.now ≡ true }
    requires room { length names.old < 2 ^ 32 - 1 }
    ensures token { IfOk result (λ r. TokenAt names.new text.now r.0 r.1) }
    ensures fault { IfErr result (IfFaulty text.now) }
    ensures names { Grows names.old names.new }
    ensures named { IfOk result (λ r. AddsKind names.old names.new r.0) }
{
    let (word, next) = split_word(text);
    let kind = word_kind(word, next, names)?;
    Ok((kind, word.len()))
}

/// The token of the number run that begins a text.
fn number_token(text: &[u8]) -> Result<(Kind, usize), Stop>
    requires { starts_run text.now ≡ true }
    ensures token { IfOk result (λ r. (names : List (List ℕ)) → TokenAt names text.now r.0 r.1) }
    ensures fault { IfErr result (IfFaulty text.now) }
    ensures named { IfOk result (λ r. (names : List (List ℕ)) → AddsKind names names r.0) }
{
    let run = &text[..run_length(text)];
    match read_number(run) {
        Ok(number) => Ok((Kind::Number(number), run.len())),
        Err(kind) => Err(Stop::Fault(kind)),
    }
}

/// The token of the literal that begins with this quote, before the rest of the text.
fn literal_token(
    alloc: Global,
    quote: u8,
    rest: &[u8],
    names: &mut Names,
) -> Result<(Kind, usize), Stop>
    requires quote { is_quote quote ≡ true }
    requires room { length names.old < 2 ^ 32 - 1 }
    ensures token { IfOk result (λ r. TokenAt names.new (quote ∷ rest.now) r.0 r.1) }
    ensures fault { IfErr result (IfFaulty (quote ∷ rest.now)) }
    ensures names { Grows names.old names.new }
    ensures named { IfOk result (λ r. AddsKind names.old names.new r.0) }
{
    let Some(length) = before_quote(quote, rest) else {
        return Err(Stop::Fault(FaultKind::OpenLiteral));
    };
    let kind = literal_kind(alloc, quote, &rest[..length], names)?;
    Ok((kind, length + 2))
}

/// The token of the operator or punctuator that begins a text which begins with nothing else.
fn mark_token(text: &[u8]) -> Result<(Kind, usize), Stop>
    requires some { 0 < length text.now }
    requires letter { begins is_letter text.now ≡ false }
    requires run { starts_run text.now ≡ false }
    requires quote { begins is_quote text.now ≡ false }
    ensures token { IfOk result (λ r. (names : List (List ℕ)) → TokenAt names text.now r.0 r.1) }
    ensures fault { IfErr result (IfFaulty text.now) }
    ensures named { IfOk result (λ r. (names : List (List ℕ)) → AddsKind names names r.0) }
{
    match mark_at(text) {
        Some(mark) => Ok((Kind::Mark(mark), mark.spelling().len())),
        None => Err(Stop::Fault(FaultKind::BadByte)),
    }
}

fn begins_with_run(text: &[u8]) -> bool
    ensures { result ≡ starts_run text.now }
{
    match text.split_first() {
        Some((first, rest)) => is_digit(*first) || *first == b'.' && begins_with_digit(rest),
        None => false,
    }
}

/// The kind of the token that begins a text, and how long its spelling is.
pub(crate) fn token_at(alloc: Global, text: &[u8], names: &mut Names) -> Result<(Kind, usize), Stop>
    requires some { 0 < length text.now }
    requires room { length names.old < 2 ^ 32 - 1 }
    ensures token { IfOk result (λ r. TokenAt names.new text.now r.0 r.1) }
    ensures fault { IfErr result (IfFaulty text.now) }
    ensures names { Grows names.old names.new }
    ensures named { IfOk result (λ r. AddsKind names.old names.new r.0) }
{
    if begins_with_letter(text) {
        return word_token(text, names);
    }
    if begins_with_run(text) {
        return number_token(text);
    }
    match text.split_first() {
        Some((quote, rest)) if is_quote(*quote) => literal_token(alloc, *quote, rest, names),
        _ => mark_token(text),
    }
}
