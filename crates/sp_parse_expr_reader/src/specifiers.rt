//! The readers of specifiers, and of the bodies of structures and enumerations (C90 6.5.1 to
//! 6.5.3).
ghost use Rattle.std.specs.Prelude.{◌≡◌, ◌≤◌, MatchResult, true};
ghost use Rattle.sp_parse_grammar.specs.CTokens.{view, is_mark as stands_mark};
ghost use Rattle.sp_parse_grammar.specs.CTokens as sorts_there;
ghost use Rattle.sp_parse_grammar.specs.CTable as grammar;
ghost use Rattle.sp_parse_trees.specs.View.{declaration_of};
ghost use Rattle.sp_parse_tokens.specs.Sorts.{sort_of};
ghost use Rattle.sp_parse_tokens.specs.Ended.{IsEnded};
ghost use Rattle.sp_parse_tokens.specs.Scopes.{context_of};
ghost use Rattle.sp_parse_expr_steps.specs.Reading.{Answers, IsStop};
ghost use Rattle.sp_parse_expr_steps.specs.Declaring.{AreSpecified, IsSpecifier, IsSpecifierStop, constant_seen};
ghost use Rattle.sp_parse_expr_lists.specs.Heads.{IsHead};
ghost use Rattle.sp_parse_expr_lists.specs.declared.heads.Body.TheVariants as bodies;

use crate::declarators::read_declarator;
use crate::expressions::read_level;
use sp_base_kept::{keeping, pushed};
use sp_parse_expr_lists::{
    Body, Head, closed_enumeration, closed_member, closed_structure, constant_name,
    inside_structure, member_of, no_constants, no_members, specifier_head, valued, whole_specifier,
    with_constant, with_item, with_member,
};
use sp_parse_expr_steps::{CONDITIONAL, is_either, is_too_deep, type_allowed};
use sp_parse_tokens::{
    Context, DeclaratorKind, Mark, NOTHING, Part, ReadError, SpecifierList, add_specifier, fault,
    is_mark, is_typed, next_token, sort_at,
};
use sp_parse_trees::{Declaration, Expr, Specifier};
use sp_tree::{Place, Token};

/// A list of specifiers. Its depth is that of the deepest, 0 where none of them has a depth.
#[cycle(reader)]
pub fn read_specifiers<'a>(
    context: Context<'_>,
    tokens: &'a [Token],
    stores: bool,
    depth: u32,
) -> Result<Part<'a, SpecifierList>, ReadError<'a>>
    requires { IsEnded tokens.now }
    ensures { MatchResult result
        (λ part. AreSpecified (context_of context.entry) stores depth tokens.now part.tree
        part.depth part.rest.now)
        (IsStop (context_of context.entry) (grammar.specifiers stores sorts_there.nothing_seen
        grammar.no_specifiers) depth tokens.now) }
{
    let mut all = Vec::new(context.alloc);
    let mut typedefs = false;
    let mut seen = NOTHING;
    let mut reached: u32 = 0;
    let mut rest = tokens;
    'specifiers: loop {
        let (token, behind) = next_token(rest);
        let sort = sort_at(context.types, token.kind);
        let Some(more) = add_specifier(stores, context.scope.in_function, seen, sort) else {
            break;
        };
        if is_too_deep(depth, sort) {
            drop(all);
            return Err(ReadError::TooDeep(rest));
        }
        let (next, read) = keeping(read_specifier(context, behind, token, depth), all)?;
        all = pushed(read, next.tree)?;
        typedefs = is_either(typedefs, is_mark(Mark::Typedef, sort));
        seen = more;
        reached = reached.max(next.depth);
        rest = next.rest;
    }
    if !is_typed(seen) {
        let also_allowed = type_allowed(stores, &all);
        drop(all);
        return Err(fault(context, also_allowed, rest));
    }
    Ok(Part {
        tree: SpecifierList { all, typedefs },
        depth: reached,
        rest,
    })
}

/// The rest of one specifier, of which the first token is read.
#[cycle(reader)]
fn read_specifier<'a>(
    context: Context<'_>,
    tokens: &'a [Token],
    token: Token,
    depth: u32,
) -> Result<Part<'a, Specifier>, ReadError<'a>>
    requires ended { IsEnded tokens.now }
    requires room { stands_mark sorts_there.struct (view context.types.now (sort_of token.kind)) ≡ true → 1 ≤
        depth }
    ensures { MatchResult result
        (λ part. IsSpecifier (context_of context.entry) depth
        (view context.entry.types.now (sort_of token.kind)) token tokens.now part.tree
        part.depth part.rest.now)
        (IsSpecifierStop (context_of context.entry) depth
        (view context.entry.types.now (sort_of token.kind)) token tokens.now) }
{
    let head = specifier_head(context, tokens, token, depth)?;
    match head.body {
        Body::Members => read_members(context, tokens, token, head, depth),
        Body::Constants => read_constants(context, tokens, token, head, depth),
        Body::Absent => whole_specifier(context, tokens, token, head, depth),
    }
}

/// The members of a structure, one or more, behind its `{`, and the `}`.
#[cycle(reader)]
fn read_members<'a>(
    context: Context<'_>,
    tokens: &'a [Token],
    word: Token,
    head: Head<'a>,
    depth: u32,
) -> Result<Part<'a, Specifier>, ReadError<'a>>
    requires head { IsHead (context_of context) depth word tokens.now bodies.Members head.tag head.rest.now }
    ensures { MatchResult result
        (λ part. IsSpecifier (context_of context.entry) depth
        (view context.entry.types.now (sort_of word.kind)) word tokens.now part.tree part.depth
        part.rest.now)
        (IsSpecifierStop (context_of context.entry) depth
        (view context.entry.types.now (sort_of word.kind)) word tokens.now) }
{
    let inner = inside_structure(context);
    let mut members = no_members(context, head.rest, depth);
    'members: while members.more {
        let next = read_member(inner, members.rest, depth - 1);
        members = with_member(context, tokens, word, head, members, depth, next)?;
    }
    closed_structure(context, tokens, word, head, members, depth)
}

/// A declaration of members.
#[cycle(reader)]
fn read_member<'a>(
    context: Context<'_>,
    tokens: &'a [Token],
    depth: u32,
) -> Result<Part<'a, Declaration>, ReadError<'a>>
    requires ended { IsEnded tokens.now }
    requires room { 1 ≤ depth }
    ensures { Answers (context_of context.entry) grammar.member depth tokens.now declaration_of result }
{
    let specifiers = read_specifiers(context, tokens, false, depth)?;
    let mut member = member_of(context, tokens, specifiers, depth);
    'items: while member.more {
        let next = read_declarator(context, member.rest, DeclaratorKind::Concrete, depth);
        member = with_item(context, tokens, member, depth, next)?;
    }
    closed_member(context, tokens, member, depth)
}

/// The constants of an enumeration, one or more, behind its `{`, and the `}`.
#[cycle(reader)]
fn read_constants<'a>(
    context: Context<'_>,
    tokens: &'a [Token],
    word: Token,
    head: Head<'a>,
    depth: u32,
) -> Result<Part<'a, Specifier>, ReadError<'a>>
    requires head { IsHead (context_of context) depth word tokens.now bodies.Constants head.tag head.rest.now }
    ensures { MatchResult result
        (λ part. IsSpecifier (context_of context.entry) depth
        (view context.entry.types.now (sort_of word.kind)) word tokens.now part.tree part.depth
        part.rest.now)
        (IsSpecifierStop (context_of context.entry) depth
        (view context.entry.types.now (sort_of word.kind)) word tokens.now) }
{
    let mut constants = no_constants(context, head.rest, depth);
    'constants: while constants.more {
        let next = read_constant(context, constants.rest, depth);
        constants = with_constant(context, tokens, word, head, constants, depth, next)?;
    }
    closed_enumeration(context, tokens, word, head, constants, depth)
}

/// A constant of an enumeration, with its value where one is given.
#[cycle(reader)]
fn read_constant<'a>(
    context: Context<'_>,
    tokens: &'a [Token],
    depth: u32,
) -> Result<Part<'a, (u32, Place, Option<Expr>)>, ReadError<'a>>
    requires { IsEnded tokens.now }
    ensures { Answers (context_of context.entry) grammar.enumerator depth tokens.now constant_seen result }
{
    let constant = constant_name(context, tokens, depth)?;
    if !constant.has_value {
        return Ok(Part {
            tree: (constant.name, constant.place, None),
            depth: 0,
            rest: constant.rest,
        });
    }
    let value = read_level(context, constant.rest, CONDITIONAL, depth);
    valued(context, tokens, constant, depth, value)
}
