//! The four parsers.
ghost use Rattle.std.specs.Prelude.{◌≤◌, ◌<◌, length};
ghost use Rattle.sp_parse_tokens.specs.Ended.{IsEnded};
ghost use Rattle.sp_expr_parser.specs.Parsing.{ExpressionAnswers, TypeNameAnswers, SpecifierAnswers, DeclaratorAnswers};

use crate::call::{Call, OUTSIDE, declarator_part, specifiers_part, type_name_part};
use crate::error::{ParseError, error_of};
use crate::parts::{count_before, tokens_from};
use sp_parse_expr_reader::read_level;
use sp_parse_expr_steps::COMMA;
use sp_parse_tokens::{Context, TypeNames};
use sp_parse_trees::{Declarator, Expr, Specifier, TypeName};
use sp_tree::Token;
use std::alloc::Global;

/// The longest expression (C90 6.3) that begins at the token of the number `at`, and the number of
/// the token after it.
///
/// `types` are the names that are type names. `depth` is how many expressions, declarators and
/// specifiers of structures may lie inside one another at most. The tokens end with `End`, which is
/// nowhere else ([`crate::is_ended`]).
pub fn parse_expression(
    alloc: Global,
    tokens: &[Token],
    at: usize,
    types: &TypeNames,
    depth: u32,
) -> Result<(Expr, usize), ParseError>
    requires ended { IsEnded tokens.now }
    requires within { at < length tokens.now }
    requires limit { depth ≤ 200 }
    ensures { ExpressionAnswers types.now depth tokens.now at result }
{
    let from = tokens_from(tokens, at);
    let scope = OUTSIDE;
    let context = Context {
        alloc,
        types,
        scope,
    };
    match read_level(context, from, COMMA, depth) {
        Ok(part) => Ok((part.tree.tree, count_before(tokens, part.rest))),
        Err(stop) => Err(error_of(Call::Expression, alloc, types, tokens, at, depth, stop)),
    }
}

/// The longest type name (C90 6.5.5) that begins at a token, and the number of the token after it.
/// See [`parse_expression`].
pub fn parse_type_name(
    alloc: Global,
    tokens: &[Token],
    at: usize,
    types: &TypeNames,
    depth: u32,
) -> Result<(TypeName, usize), ParseError>
    requires ended { IsEnded tokens.now }
    requires within { at < length tokens.now }
    requires limit { depth ≤ 200 }
    ensures { TypeNameAnswers types.now depth tokens.now at result }
{
    let from = tokens_from(tokens, at);
    match type_name_part(alloc, types, from, depth) {
        Ok(part) => Ok((part.tree.tree, count_before(tokens, part.rest))),
        Err(stop) => Err(error_of(Call::TypeName, alloc, types, tokens, at, depth, stop)),
    }
}

/// The longest list of specifiers (C90 6.5.1 to 6.5.3) that begins at a token, empty where no
/// specifier is there, and the number of the token after it. See [`parse_expression`].
pub fn parse_specifiers(
    alloc: Global,
    tokens: &[Token],
    at: usize,
    types: &TypeNames,
    depth: u32,
) -> Result<(Vec<Specifier>, usize), ParseError>
    requires ended { IsEnded tokens.now }
    requires within { at < length tokens.now }
    requires limit { depth ≤ 200 }
    ensures { SpecifierAnswers types.now depth tokens.now at result }
{
    let from = tokens_from(tokens, at);
    match specifiers_part(alloc, types, from, depth) {
        Ok(read) => Ok((read.0, count_before(tokens, read.1))),
        Err(stop) => Err(error_of(Call::Specifiers, alloc, types, tokens, at, depth, stop)),
    }
}

/// The longest declarator of a name (C90 6.5.4) that begins at a token, and the number of the token
/// after it. See [`parse_expression`].
pub fn parse_declarator(
    alloc: Global,
    tokens: &[Token],
    at: usize,
    types: &TypeNames,
    depth: u32,
) -> Result<(Declarator, usize), ParseError>
    requires ended { IsEnded tokens.now }
    requires within { at < length tokens.now }
    requires limit { depth ≤ 200 }
    ensures { DeclaratorAnswers types.now depth tokens.now at result }
{
    let from = tokens_from(tokens, at);
    match declarator_part(alloc, types, from, depth) {
        Ok(part) => Ok((part.tree.tree, count_before(tokens, part.rest))),
        Err(stop) => Err(error_of(Call::Declarator, alloc, types, tokens, at, depth, stop)),
    }
}
