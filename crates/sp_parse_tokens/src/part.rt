//! What the readers answer.
ghost use Rattle.std.specs.Prelude.{◌≡◌, ◌∷◌, ◌<◌, MatchResult};
ghost use Rattle.sp_parse_grammar.specs.CTokens.{number_of};
ghost use Rattle.sp_parse_tokens.specs.Ended.{IsEnded};
ghost use Rattle.sp_parse_tokens.specs.Codes.{mark_seen};
ghost use Rattle.sp_parse_tokens.specs.Expecting.{IsExpected, IsUnexpected, IsFaultFor};

use crate::scope::{AlsoAllowed, Context, kind_for};
use crate::sorts::{Mark, is_mark, sort_at};
use sp_parse_trees::{Declarator, Expr, InitDeclarator, Param, Specifier, TypeName};
use sp_tree::{FaultKind, Token};
use std::alloc::{AllocError, AllocFailed};

/// What was read: a tree, its depth, and the tokens left.
#[derive(Drop)]
pub struct Part<'a, T: Drop> {
    pub tree: T,
    pub depth: u32,
    pub rest: &'a [Token],
}

/// Why nothing was read, with the tokens from the place where that was found.
#[derive(Drop)]
pub enum ReadError<'a> {
    Fault(FaultKind, &'a [Token]),
    TooDeep(&'a [Token]),
    NoMemory,
}

impl<'a> From<AllocError> for ReadError<'a> {
    ghost use Rattle.sp_parse_tokens.specs.declared.part.ReadError.TheVariants.{NoMemory};

    ghost from_gives = { λ _ stop. stop ≡ NoMemory };

    fn from(_error: AllocError) -> ReadError<'a> {
        ReadError::NoMemory
    }
}

impl<'a, T: Drop> From<AllocFailed<T>> for ReadError<'a> {
    ghost use Rattle.sp_parse_tokens.specs.declared.part.ReadError.TheVariants.{NoMemory};

    ghost from_gives = { λ _ stop. stop ≡ NoMemory };

    fn from(_error: AllocFailed<T>) -> ReadError<'a> {
        ReadError::NoMemory
    }
}

/// An expression, and whether it is a unary expression, so that it may stand left of an assignment.
#[derive(Drop)]
pub struct Operand {
    pub tree: Expr,
    pub unary: bool,
}

/// A list of specifiers, and whether `typedef` is in it.
#[derive(Drop)]
pub struct SpecifierList {
    pub all: Vec<Specifier>,
    pub typedefs: bool,
}

/// What a declarator makes of its name: nothing yet, a function with `...`, or something else.
#[derive(Clone, Copy)]
pub enum DeclaredShape {
    Bare,
    Variadic,
    Other,
}

/// A declarator with a name, without one, or either.
#[derive(Clone, Copy)]
pub enum DeclaratorKind {
    Concrete,
    Abstract,
    Either,
}

/// A declarator, the number of the name that it declares, what it makes of it, and what might stand
/// behind it.
#[derive(Drop)]
pub struct Declared {
    pub tree: Declarator,
    pub declares: Option<u32>,
    pub shape: DeclaredShape,
    pub behind: AlsoAllowed,
}

/// A parameter, and what might stand behind it.
#[derive(Drop)]
pub struct ParameterPart {
    pub tree: Param,
    pub behind: AlsoAllowed,
}

/// Parameters, whether `...` ends them, and what might stand behind them.
#[derive(Drop)]
pub struct Parameters {
    pub all: Vec<Param>,
    pub dots: bool,
    pub behind: AlsoAllowed,
}

/// The declarators of members, and what might stand behind them.
#[derive(Drop)]
pub struct MemberDeclarators {
    pub all: Vec<InitDeclarator>,
    pub behind: AlsoAllowed,
}

/// A type name, and what might stand behind it.
#[derive(Drop)]
pub struct TypeNamePart {
    pub tree: TypeName,
    pub behind: AlsoAllowed,
}

/// The first token, and those behind it.
pub fn next_token<'a>(tokens: &'a [Token]) -> (Token, &'a [Token])
    requires { IsEnded tokens.now }
    ensures { tokens.now ≡ result.0 ∷ result.1.now }
{
    match tokens {
        [first, rest @ ..] => (*first, rest),
        [] => unreachable!(),
    }
}

/// The fault at the first token, where that might also be there, besides what was wanted.
pub fn fault<'a>(
    context: Context<'_>,
    also_allowed: AlsoAllowed,
    tokens: &'a [Token],
) -> ReadError<'a>
    requires { IsEnded tokens.now }
    ensures { IsFaultFor context.entry.types.now context.entry.scope also_allowed tokens.now result }
{
    let (token, _) = next_token(tokens);
    let sort = sort_at(context.types, token.kind);
    ReadError::Fault(kind_for(context.scope, also_allowed, sort), tokens)
}

/// The tokens after a mark that must be the first.
pub fn expect<'a>(
    context: Context<'_>,
    also_allowed: AlsoAllowed,
    mark: Mark,
    tokens: &'a [Token],
) -> Result<&'a [Token], ReadError<'a>>
    requires ended { IsEnded tokens.now }
    requires mark { number_of (mark_seen mark) < 34 }
    ensures { MatchResult result
        (λ rest. IsExpected context.entry.types.now (mark_seen mark) tokens.now rest.now)
        (λ stop. IsUnexpected context.entry.types.now context.entry.scope (mark_seen mark)
        also_allowed tokens.now stop) }
{
    let (token, rest) = next_token(tokens);
    if is_mark(mark, sort_at(context.types, token.kind)) {
        Ok(rest)
    } else {
        Err(fault(context, also_allowed, tokens))
    }
}
