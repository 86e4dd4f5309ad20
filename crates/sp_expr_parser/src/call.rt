//! The four kinds of trees, each read from outside of functions and structures.
ghost use Rattle.std.specs.Prelude.{◌≡◌, MatchResult};
ghost use Rattle.sp_parse_grammar.specs.CTable as grammar;
ghost use Rattle.sp_parse_trees.specs.View.{type_name_of};
ghost use Rattle.sp_parse_tokens.specs.Ended.{IsEnded};
ghost use Rattle.sp_parse_tokens.specs.Faults.{begins_declarator};
ghost use Rattle.sp_parse_tokens.specs.Codes.{sort_seen};
ghost use Rattle.sp_parse_expr_steps.specs.Reading.{IsStop, IsTypeName};
ghost use Rattle.sp_parse_expr_steps.specs.Declaring.{IsDeclared};
ghost use Rattle.sp_expr_parser.specs.Parsing.{item_of};
ghost use Rattle.sp_expr_parser.specs.Calling.{AreListed, IsEnd, sort_of_first};

use sp_parse_expr_reader::{read_declarator, read_level, read_specifiers, read_type_name};
use sp_parse_expr_steps::COMMA;
use sp_parse_tokens::{
    AlsoAllowed, Context, DeclaratorKind, Declared, Mark, Part, ReadError, Scope, Sort,
    TypeNamePart, TypeNames, begins_specifiers, fault, next_token, sort_at,
};
use sp_parse_trees::Specifier;
use sp_tree::Token;
use std::alloc::Global;

/// A kind of trees.
#[derive(Clone, Copy)]
pub(crate) enum Call {
    Expression,
    TypeName,
    Specifiers,
    Declarator,
}

/// Outside of functions and structures.
pub(crate) const OUTSIDE: Scope = Scope {
    in_function: false,
    in_struct: false,
};

/// The sort of the first token.
fn first_sort(types: &TypeNames, tokens: &[Token]) -> Sort
    requires { IsEnded tokens.now }
    ensures { sort_seen result ≡ sort_of_first types.now tokens.now }
{
    let (first, _) = next_token(tokens);
    sort_at(types, first.kind)
}

/// Where no part may be, since the depth is 0: the depth is passed at the first token of a type
/// name, or that begins none.
fn no_type_name<'a>(alloc: Global, types: &TypeNames, tokens: &'a [Token]) -> ReadError<'a>
    requires { IsEnded tokens.now }
    ensures { IsStop (grammar.outside types.now) grammar.type_name 0 tokens.now result }
{
    if begins_specifiers(false, false, first_sort(types, tokens)) {
        ReadError::TooDeep(tokens)
    } else {
        let scope = OUTSIDE;
        let context = Context {
            alloc,
            types,
            scope,
        };
        fault(context, AlsoAllowed::TypeSpecifier, tokens)
    }
}

/// A type name, in whatever depth there is.
pub(crate) fn type_name_part<'a>(
    alloc: Global,
    types: &TypeNames,
    tokens: &'a [Token],
    depth: u32,
) -> Result<Part<'a, TypeNamePart>, ReadError<'a>>
    requires { IsEnded tokens.now }
    ensures { MatchResult result
        (λ part. IsTypeName (grammar.outside types.now) depth tokens.now
        (type_name_of part.tree.tree) part.tree.behind part.depth part.rest.now)
        (IsStop (grammar.outside types.now) grammar.type_name depth tokens.now) }
{
    if depth == 0 {
        return Err(no_type_name(alloc, types, tokens));
    }
    let scope = OUTSIDE;
    let context = Context {
        alloc,
        types,
        scope,
    };
    read_type_name(context, tokens, depth)
}

/// A list of specifiers, empty where the first token is none.
pub(crate) fn specifiers_part<'a>(
    alloc: Global,
    types: &TypeNames,
    tokens: &'a [Token],
    depth: u32,
) -> Result<(Vec<Specifier>, &'a [Token]), ReadError<'a>>
    requires { IsEnded tokens.now }
    ensures { MatchResult result
        (λ read. AreListed types.now depth tokens.now read.0.items read.1.now)
        (IsStop (grammar.outside types.now) grammar.optional_specifiers depth tokens.now) }
{
    if !begins_specifiers(true, false, first_sort(types, tokens)) {
        return Ok((Vec::new(alloc), tokens));
    }
    let scope = OUTSIDE;
    let context = Context {
        alloc,
        types,
        scope,
    };
    match read_specifiers(context, tokens, true, depth) {
        Ok(part) => Ok((part.tree.all, part.rest)),
        Err(stop) => Err(stop),
    }
}

/// Whether the token begins a declarator with a name.
pub(crate) fn begins_declarator(sort: Sort) -> bool
    ensures { result ≡ begins_declarator (sort_seen sort) }
{
    matches!(
        sort,
        Sort::Name(_) | Sort::Mark(Mark::Star | Mark::OpenParen)
    )
}

/// Where no part may be, since the depth is 0: the depth is passed at the first token of a
/// declarator, or that begins none.
fn no_declarator<'a>(alloc: Global, types: &TypeNames, tokens: &'a [Token]) -> ReadError<'a>
    requires { IsEnded tokens.now }
    ensures { IsStop (grammar.outside types.now) (grammar.declarator grammar.concrete) 0 tokens.now result }
{
    if begins_declarator(first_sort(types, tokens)) {
        ReadError::TooDeep(tokens)
    } else {
        let scope = OUTSIDE;
        let context = Context {
            alloc,
            types,
            scope,
        };
        fault(context, AlsoAllowed::Name, tokens)
    }
}

/// A declarator of a name, in whatever depth there is.
pub(crate) fn declarator_part<'a>(
    alloc: Global,
    types: &TypeNames,
    tokens: &'a [Token],
    depth: u32,
) -> Result<Part<'a, Declared>, ReadError<'a>>
    requires { IsEnded tokens.now }
    ensures { MatchResult result
        (λ part. IsDeclared (grammar.outside types.now) (grammar.declarator grammar.concrete)
        (λ a. a) depth tokens.now part.tree part.depth part.rest.now)
        (IsStop (grammar.outside types.now) (grammar.declarator grammar.concrete) depth
        tokens.now) }
{
    if depth == 0 {
        return Err(no_declarator(alloc, types, tokens));
    }
    let scope = OUTSIDE;
    let context = Context {
        alloc,
        types,
        scope,
    };
    read_declarator(context, tokens, DeclaratorKind::Concrete, depth)
}

/// The tokens after the longest tree of the kind, which is let go.
pub(crate) fn end_of<'a>(
    call: Call,
    alloc: Global,
    types: &TypeNames,
    tokens: &'a [Token],
    depth: u32,
) -> Result<&'a [Token], ReadError<'a>>
    requires { IsEnded tokens.now }
    ensures { MatchResult result (λ rest. IsEnd call types.now tokens.now rest.now)
        (IsStop (grammar.outside types.now) (item_of call) depth tokens.now) }
{
    match call {
        Call::Expression => {
            let scope = OUTSIDE;
            let context = Context {
                alloc,
                types,
                scope,
            };
            match read_level(context, tokens, COMMA, depth) {
                Ok(part) => Ok(part.rest),
                Err(stop) => Err(stop),
            }
        }
        Call::TypeName => match type_name_part(alloc, types, tokens, depth) {
            Ok(part) => Ok(part.rest),
            Err(stop) => Err(stop),
        },
        Call::Specifiers => match specifiers_part(alloc, types, tokens, depth) {
            Ok(read) => Ok(read.1),
            Err(stop) => Err(stop),
        },
        Call::Declarator => match declarator_part(alloc, types, tokens, depth) {
            Ok(part) => Ok(part.rest),
            Err(stop) => Err(stop),
        },
    }
}
