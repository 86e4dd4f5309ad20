//! Where and why no tree was read.
//!
//! Most kinds of faults are told by asking again: the failing token is taken for another one, and
//! the reader tells whether some tree goes on. So `ImplicitInt` comes where a word of a type could be, and
//! `TypedefAsOrdinaryName` at a type name in whose place a name that is none could be.
ghost use Rattle.std.specs.Prelude.{◌≡◌, ◌≢◌, ◌≤◌, ◌<◌, ◌^◌, ◌-◌, ◌++◌, ◌∷◌, [], ◌==◌, ℕ, length, take, drop, true, IfOk, MatchOption, MatchResult};
ghost use Rattle.std.specs.List.{list_any};
ghost use Rattle.sp_tree.specs.declared.token.Kind.TheVariants.{End};
ghost use Rattle.sp_parse_grammar.specs.CTable as grammar;
ghost use Rattle.sp_parse_tokens.specs.Sorts.{sort_of};
ghost use Rattle.sp_parse_grammar.specs.CTokens.{view};
ghost use Rattle.sp_parse_tokens.specs.Ended.{IsEnded};
ghost use Rattle.sp_parse_tokens.specs.Faults.{is_type_name};
ghost use Rattle.sp_parse_expr_steps.specs.Reading.{IsStop};
ghost use Rattle.sp_expr_parser.specs.Parsing.{language_of, item_of, ask_of, CouldBe, IsFree, IsImplicitInt, IsTypeForName, Refused};
ghost use Rattle.sp_expr_parser.specs.Calling.{IsFront, IsTold, IsUnanswered, NoEnd, Tells, choose, is_wanted};
ghost use Rattle.sp_parse_tokens.specs.declared.part.ReadError.TheVariants as stops;

use crate::call::{Call, begins_declarator, end_of};
use crate::parts::{count_before, first_tokens, part_of};
use sp_parse_tokens::{ReadError, Sort, TypeNames, next_token, refined, sort_at};
use sp_tree::{Fault, FaultKind, Keyword, Kind, Place, Token};
use std::alloc::{AllocError, Global};

/// Why no tree was read.
#[derive(Clone, Copy, PartialEq, Eq, Debug)]
pub enum ParseError {
    /// `NestingTooDeep`: at a token up to which, itself included, trees of the kind go on, each of them too
    /// deep. Else the failing token: the first with which none goes on, where none ends before it.
    /// It is `UnexpectedToken`, or one of `OldStyleParameters` to `LongLong` by what could be there.
    Fault(Fault),
    /// Memory ran out.
    NoMemory,
}

impl From<AllocError> for ParseError {
    ghost use Rattle.sp_expr_parser.specs.declared.error.ParseError.TheVariants.{NoMemory};

    ghost from_gives = { λ _ error. error ≡ NoMemory };

    fn from(_error: AllocError) -> ParseError {
        ParseError::NoMemory
    }
}

/// These tokens, one of this kind after them, and the end.
fn with_another(
    alloc: Global,
    front: &[Token],
    kind: Kind,
    place: Place,
) -> Result<Vec<Token>, AllocError>
    ensures { IfOk result (λ tokens. tokens.items
        ≡ front.now ++ record { kind = kind; place = place } ∷ record {
          kind = End;
          place =
              place;
        } ∷ []) }
{
    let mut tokens = Vec::new(alloc);
    let mut rest = front;
    'tokens: loop {
        match rest {
            [] => break,
            [first, more @ ..] => {
                tokens.push(*first)?;
                rest = more;
            }
        }
    }
    tokens.push(Token { kind, place })?;
    let kind = Kind::End;
    tokens.push(Token { kind, place })?;
    Ok(tokens)
}

/// Whether a token of this kind could be after these, at which it failed with another.
fn could_be(
    call: Call,
    alloc: Global,
    types: &TypeNames,
    front: &[Token],
    another: Token,
    depth: u32,
) -> Result<bool, ParseError>
    requires front { IsFront (language_of call) types.now front.now }
    requires unended { NoEnd front.now }
    requires other { another.kind ≢ End }
    ensures { Tells (language_of call) types.now depth front.now
        (CouldBe (language_of call) types.now front.now another.kind) result }
{
    let tokens = with_another(alloc, front, another.kind, another.place)?;
    let tokens = tokens.as_slice();
    match end_of(call, alloc, types, tokens, depth) {
        Ok(_) => Ok(true),
        Err(ReadError::Fault(_, rest)) => { if rest.len() < 2 { Ok(true) } else { Ok(false) } }
        Err(ReadError::TooDeep(rest)) => {
            if rest.len() <= 2 {
                return Ok(true);
            }
            let (bad, _) = next_token(rest);
            let kind = FaultKind::NestingTooDeep;
            let place = bad.place;
            Err(ParseError::Fault(Fault { kind, place }))
        }
        Err(ReadError::NoMemory) => Err(ParseError::NoMemory),
    }
}

/// Whether the failing token is the head of a declarator where a specifier of a type could be.
fn is_implicit_int(
    call: Call,
    alloc: Global,
    types: &TypeNames,
    front: &[Token],
    bad: Token,
    depth: u32,
) -> Result<bool, ParseError>
    requires front { IsFront (language_of call) types.now front.now }
    requires unended { NoEnd front.now }
    ensures { Tells (language_of call) types.now depth front.now
        (IsImplicitInt (language_of call) types.now front.now bad) result }
{
    if !begins_declarator(sort_at(types, bad.kind)) {
        return Ok(false);
    }
    let kind = Kind::Word(Keyword::Void);
    let place = bad.place;
    could_be(call, alloc, types, front, Token { kind, place }, depth)
}

/// The least number that is no type name.
fn first_free(types: &TypeNames) -> Option<u32>
    ensures { MatchOption result
        ((n : ℕ) → n < 2 ^ 32 - 1 → list_any (λ t. t == n) types.now ≡ true)
        (λ n. (n < 2 ^ 32 - 1) × IsFree types.now n) }
{
    for name in 0..u32::MAX {
        if !types.holds(name) {
            return Some(name);
        }
    }
    None
}

/// Whether the token is a type name.
fn is_type_name(types: &TypeNames, kind: Kind) -> bool
    ensures { result ≡ is_type_name (view types.now (sort_of kind)) }
{
    matches!(sort_at(types, kind), Sort::NamedType(_))
}

/// Whether the failing token is a type name where a name that is none could be.
fn is_type_for_name(
    call: Call,
    alloc: Global,
    types: &TypeNames,
    front: &[Token],
    bad: Token,
    depth: u32,
) -> Result<bool, ParseError>
    requires front { IsFront (language_of call) types.now front.now }
    requires unended { NoEnd front.now }
    ensures { Tells (language_of call) types.now depth front.now
        (IsTypeForName (language_of call) types.now front.now bad) result }
{
    if !is_type_name(types, bad.kind) {
        return Ok(false);
    }
    match first_free(types) {
        Some(name) => {
            let kind = Kind::Name(name);
            let place = bad.place;
            could_be(call, alloc, types, front, Token { kind, place }, depth)
        }
        None => Ok(false),
    }
}

/// The first of `ImplicitInt`, `GnuWord`, `TypedefAsOrdinaryName` and `LongLong` that holds, else `UnexpectedToken`. The last are told by the tokens
/// before.
fn choose(implicit: bool, ordinary: bool, last: FaultKind) -> FaultKind
    ensures { result ≡ choose implicit ordinary last }
{
    if implicit {
        return FaultKind::ImplicitInt;
    }
    match last {
        FaultKind::GnuWord => FaultKind::GnuWord,
        _ => {
            if ordinary {
                FaultKind::TypedefAsOrdinaryName
            } else {
                last
            }
        }
    }
}

/// The kind of a fault that is none of `OldStyleParameters`, `VariadicDefinition` and `BitField`. `before` are all tokens before the
/// failing one, `front` those of them from the first that was read.
fn kind_told(
    call: Call,
    alloc: Global,
    types: &TypeNames,
    before: &[Token],
    front: &[Token],
    bad: Token,
    depth: u32,
) -> Result<FaultKind, ParseError>
    requires front { IsFront (language_of call) types.now front.now }
    requires unended { NoEnd front.now }
    ensures { MatchResult result (IsTold (language_of call) types.now before.now front.now bad)
        (IsUnanswered (language_of call) types.now depth front.now) }
{
    let implicit = is_implicit_int(call, alloc, types, front, bad, depth)?;
    let ordinary = is_type_for_name(call, alloc, types, front, bad, depth)?;
    Ok(choose(
        implicit,
        ordinary,
        refined(FaultKind::UnexpectedToken, before, bad),
    ))
}

/// Whether the kind is one that what the grammar wanted tells.
fn is_wanted(kind: FaultKind) -> bool
    ensures { result ≡ is_wanted kind }
{
    matches!(
        kind,
        FaultKind::OldStyleParameters | FaultKind::VariadicDefinition | FaultKind::BitField
    )
}

/// The error at a failing token.
fn fault_error(
    call: Call,
    alloc: Global,
    types: &TypeNames,
    tokens: &[Token],
    at: usize,
    depth: u32,
    kind: FaultKind,
    rest: &[Token],
) -> ParseError
    requires ended { IsEnded tokens.now }
    requires within { at < length tokens.now }
    requires stopped { IsStop (grammar.outside types.now) (item_of call) depth (drop at tokens.now) (stops.Fault kind rest) }
    ensures { Refused (language_of call) (ask_of call types.now) types.now depth (take at tokens.now)
        (drop at tokens.now) result }
{
    let (bad, _) = next_token(rest);
    let place = bad.place;
    if is_wanted(kind) {
        return ParseError::Fault(Fault { kind, place });
    }
    let count = count_before(tokens, rest);
    let before = first_tokens(tokens, count);
    let front = part_of(tokens, at, count);
    match kind_told(call, alloc, types, before, front, bad, depth) {
        Ok(kind) => ParseError::Fault(Fault { kind, place }),
        Err(error) => error,
    }
}

/// The error of a stop after some of the tokens from the one of the number `at` on.
pub(crate) fn error_of(
    call: Call,
    alloc: Global,
    types: &TypeNames,
    tokens: &[Token],
    at: usize,
    depth: u32,
    stop: ReadError<'_>,
) -> ParseError
    requires ended { IsEnded tokens.now }
    requires within { at < length tokens.now }
    requires stopped { IsStop (grammar.outside types.now) (item_of call) depth (drop at tokens.now) stop }
    ensures { Refused (language_of call) (ask_of call types.now) types.now depth (take at tokens.now)
        (drop at tokens.now) result }
{
    match stop {
        ReadError::Fault(kind, rest) => fault_error(
            call, alloc, types, tokens, at, depth, kind, rest,
        ),
        ReadError::TooDeep(rest) => {
            let (bad, _) = next_token(rest);
            let kind = FaultKind::NestingTooDeep;
            let place = bad.place;
            ParseError::Fault(Fault { kind, place })
        }
        ReadError::NoMemory => ParseError::NoMemory,
    }
}
