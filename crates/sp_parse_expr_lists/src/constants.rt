//! The constants of enumerations (C90 6.5.2.2).
ghost use Rattle.std.specs.Prelude.{◌+◌, ◌≤◌, MatchResult, map, length, true, false};
ghost use Rattle.sp_parse_grammar.specs.CTokens.{view};
ghost use Rattle.sp_parse_grammar.specs.CTable as grammar;
ghost use Rattle.sp_parse_tokens.specs.Sorts.{sort_of};
ghost use Rattle.sp_parse_tokens.specs.Ended.{IsEnded};
ghost use Rattle.sp_parse_tokens.specs.Scopes.{context_of};
ghost use Rattle.sp_parse_expr_steps.specs.Reading.{Answers, IsStop, operand_seen};
ghost use Rattle.sp_parse_expr_steps.specs.Declaring.{IsSpecifier, IsSpecifierStop, constant_seen};
ghost use Rattle.sp_parse_expr_lists.specs.Heads.{IsHead};
ghost use Rattle.sp_parse_expr_lists.specs.Bodies.{HasConstants, IsConstantName};
ghost use Rattle.sp_parse_expr_lists.specs.declared.heads.Body.TheVariants as bodies;

use crate::heads::Head;
use crate::lists::{Listed, past_comma, with_one};
use sp_base_kept::keeping;
use sp_parse_expr_steps::enumeration;
use sp_parse_tokens::{
    AlsoAllowed, Context, Mark, Operand, Part, ReadError, Sort, expect, fault, is_mark, next_token,
    sort_at,
};
use sp_parse_trees::{Expr, Specifier};
use sp_tree::{Place, Token};

/// The name of a constant, whether its value comes next, and the tokens left.
#[derive(Clone, Copy)]
pub struct ConstantName<'a> {
    pub name: u32,
    pub place: Place,
    pub has_value: bool,
    pub rest: &'a [Token],
}

/// The name of a constant and the `=` behind it, where one stands there.
pub fn constant_name<'a>(
    context: Context<'_>,
    tokens: &'a [Token],
    depth: u32,
) -> Result<ConstantName<'a>, ReadError<'a>>
    requires { IsEnded tokens.now }
    ensures { MatchResult result
        (λ c. IsConstantName (context_of context.entry) depth tokens.now c.name c.place c.has_value
        c.rest.now)
        (IsStop (context_of context.entry) grammar.enumerator depth tokens.now) }
{
    let (token, rest) = next_token(tokens);
    let Sort::Name(name) = sort_at(context.types, token.kind) else {
        return Err(fault(context, AlsoAllowed::Name, tokens));
    };
    let (equal, behind) = next_token(rest);
    if !is_mark(Mark::Equal, sort_at(context.types, equal.kind)) {
        return Ok(ConstantName {
            name,
            place: token.place,
            has_value: false,
            rest,
        });
    }
    if depth < 1 {
        return Err(ReadError::TooDeep(rest));
    }
    Ok(ConstantName {
        name,
        place: token.place,
        has_value: true,
        rest: behind,
    })
}

/// A constant with its value.
pub fn valued<'a>(
    context: Context<'_>,
    tokens: &'a [Token],
    constant: ConstantName<'a>,
    depth: u32,
    value: Result<Part<'a, Operand>, ReadError<'a>>,
) -> Result<Part<'a, (u32, Place, Option<Expr>)>, ReadError<'a>>
    requires named { IsConstantName (context_of context) depth tokens.now constant.name constant.place true
        constant.rest.now }
    requires read { Answers (context_of context) (grammar.level 11) depth constant.rest.now operand_seen value }
    ensures { Answers (context_of context.entry) grammar.enumerator depth tokens.now constant_seen result }
{
    let value = value?;
    Ok(Part {
        tree: (constant.name, constant.place, Some(value.tree.tree)),
        depth: value.depth,
        rest: value.rest,
    })
}

/// Behind the `{` of an enumeration, where its first constant is left.
pub fn no_constants<'a>(
    context: Context<'_>,
    inside: &'a [Token],
    depth: u32,
) -> Listed<'a, (u32, Place, Option<Expr>)>
    requires { IsEnded inside.now }
    ensures { HasConstants (context_of context.entry) context.entry.scope depth inside.now result.more
        (map constant_seen result.all.items) result.depth result.rest.now }
{
    Listed {
        all: Vec::new(context.alloc),
        depth: 0,
        rest: inside,
        more: true,
    }
}

/// The constants and one more.
pub fn with_constant<'a>(
    context: Context<'_>,
    tokens: &'a [Token],
    word: Token,
    head: Head<'a>,
    constants: Listed<'a, (u32, Place, Option<Expr>)>,
    depth: u32,
    next: Result<Part<'a, (u32, Place, Option<Expr>)>, ReadError<'a>>,
) -> Result<Listed<'a, (u32, Place, Option<Expr>)>, ReadError<'a>>
    requires head { IsHead (context_of context) depth word tokens.now bodies.Constants head.tag head.rest.now }
    requires before { HasConstants (context_of context) context.scope depth head.rest.now true
        (map constant_seen constants.all.items) constants.depth constants.rest.now }
    requires read { Answers (context_of context) grammar.enumerator depth constants.rest.now constant_seen
        next }
    ensures { MatchResult result
        (λ now. HasConstants (context_of context.entry) context.entry.scope depth head.entry.rest.now
        now.more (map constant_seen now.all.items) now.depth now.rest.now
        × (1 + length now.rest.now ≤ length constants.entry.rest.now))
        (IsSpecifierStop (context_of context.entry) depth
        (view context.entry.types.now (sort_of word.kind)) word tokens.now) }
{
    let (part, all) = keeping(next, constants.all)?;
    let (more, rest) = past_comma(context, part.rest);
    let reached = constants.depth.max(part.depth);
    let all = with_one(context.alloc, all, part.tree)?;
    Ok(Listed {
        all,
        depth: reached,
        rest,
        more,
    })
}

/// The enumeration of these constants, and its `}`.
pub fn closed_enumeration<'a>(
    context: Context<'_>,
    tokens: &'a [Token],
    word: Token,
    head: Head<'a>,
    constants: Listed<'a, (u32, Place, Option<Expr>)>,
    depth: u32,
) -> Result<Part<'a, Specifier>, ReadError<'a>>
    requires head { IsHead (context_of context) depth word tokens.now bodies.Constants head.tag head.rest.now }
    requires behind { HasConstants (context_of context) context.scope depth head.rest.now false
        (map constant_seen constants.all.items) constants.depth constants.rest.now }
    ensures { MatchResult result
        (λ part. IsSpecifier (context_of context.entry) depth
        (view context.entry.types.now (sort_of word.kind)) word tokens.now part.tree part.depth
        part.rest.now)
        (IsSpecifierStop (context_of context.entry) depth
        (view context.entry.types.now (sort_of word.kind)) word tokens.now) }
{
    let next = expect(
        context,
        AlsoAllowed::Nothing,
        Mark::CloseBrace,
        constants.rest,
    );
    let (rest, all) = keeping(next, constants.all)?;
    Ok(Part {
        tree: enumeration(context.alloc, word, head.tag, all)?,
        depth: constants.depth,
        rest,
    })
}
