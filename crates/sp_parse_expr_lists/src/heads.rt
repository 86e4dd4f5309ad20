//! What is behind the first token of a specifier (C90 6.5.2): a tag, a `{`, both, or neither.
ghost use Rattle.std.specs.Prelude.{◌≡◌, ◌≤◌, true, MatchResult};
ghost use Rattle.sp_parse_grammar.specs.CTokens.{view, is_mark as stands_mark};
ghost use Rattle.sp_parse_grammar.specs.CTokens as sorts_there;
ghost use Rattle.sp_parse_tokens.specs.Sorts.{sort_of};
ghost use Rattle.sp_parse_tokens.specs.Ended.{IsEnded};
ghost use Rattle.sp_parse_tokens.specs.Scopes.{context_of};
ghost use Rattle.sp_parse_expr_steps.specs.Declaring.{IsSpecifier, IsSpecifierStop};
ghost use Rattle.sp_parse_expr_lists.specs.Heads.{IsHead, IsWithoutBody};

use sp_parse_expr_steps::{tagged_enumeration, tagged_structure, word_specifier};
use sp_parse_tokens::{
    AlsoAllowed, Context, Mark, Part, ReadError, fault, is_mark, next_token, sort_at,
};
use sp_parse_trees::Specifier;
use sp_tree::{Kind, Token};

/// Which body a specifier has, if any.
#[derive(Clone, Copy)]
pub enum Body {
    Absent,
    Members,
    Constants,
}

/// What is behind the first token of a specifier: a tag, a `{` where there is a body, and the
/// tokens left.
#[derive(Clone, Copy)]
pub struct Head<'a> {
    pub body: Body,
    pub tag: Option<u32>,
    pub rest: &'a [Token],
}

/// What is behind the first token of a specifier.
pub fn specifier_head<'a>(
    context: Context<'_>,
    tokens: &'a [Token],
    token: Token,
    depth: u32,
) -> Result<Head<'a>, ReadError<'a>>
    requires ended { IsEnded tokens.now }
    requires room { stands_mark sorts_there.struct (view context.types.now (sort_of token.kind)) ≡ true → 1 ≤
        depth }
    ensures { MatchResult result
        (λ head. IsHead (context_of context.entry) depth token tokens.now head.body head.tag
        head.rest.now)
        (IsSpecifierStop (context_of context.entry) depth
        (view context.entry.types.now (sort_of token.kind)) token tokens.now) }
{
    let sort = sort_at(context.types, token.kind);
    if is_mark(Mark::Struct, sort) {
        return structure_head(context, tokens, token, depth);
    }
    if is_mark(Mark::Enum, sort) {
        return enumeration_head(context, tokens, token, depth);
    }
    Ok(Head {
        body: Body::Absent,
        tag: None,
        rest: tokens,
    })
}

/// Behind `struct` or `union`: a tag, a `{`, or both.
fn structure_head<'a>(
    context: Context<'_>,
    tokens: &'a [Token],
    word: Token,
    depth: u32,
) -> Result<Head<'a>, ReadError<'a>>
    requires ended { IsEnded tokens.now }
    requires word { stands_mark sorts_there.struct (view context.types.now (sort_of word.kind)) ≡ true }
    requires room { 1 ≤ depth }
    ensures { MatchResult result
        (λ head. IsHead (context_of context.entry) depth word tokens.now head.body head.tag
        head.rest.now)
        (IsSpecifierStop (context_of context.entry) depth
        (view context.entry.types.now (sort_of word.kind)) word tokens.now) }
{
    let (first, behind) = next_token(tokens);
    if is_mark(Mark::OpenBrace, sort_at(context.types, first.kind)) {
        if depth < 2 {
            return Err(ReadError::TooDeep(tokens));
        }
        return Ok(Head {
            body: Body::Members,
            tag: None,
            rest: behind,
        });
    }
    let Kind::Name(name) = first.kind else {
        return Err(fault(context, AlsoAllowed::Nothing, tokens));
    };
    let (brace, inside) = next_token(behind);
    if is_mark(Mark::OpenBrace, sort_at(context.types, brace.kind)) {
        if depth < 2 {
            return Err(ReadError::TooDeep(behind));
        }
        return Ok(Head {
            body: Body::Members,
            tag: Some(name),
            rest: inside,
        });
    }
    Ok(Head {
        body: Body::Absent,
        tag: Some(name),
        rest: behind,
    })
}

/// Behind `enum`: a tag, a `{`, or both.
fn enumeration_head<'a>(
    context: Context<'_>,
    tokens: &'a [Token],
    word: Token,
    depth: u32,
) -> Result<Head<'a>, ReadError<'a>>
    requires ended { IsEnded tokens.now }
    requires word { stands_mark sorts_there.enum (view context.types.now (sort_of word.kind)) ≡ true }
    ensures { MatchResult result
        (λ head. IsHead (context_of context.entry) depth word tokens.now head.body head.tag
        head.rest.now)
        (IsSpecifierStop (context_of context.entry) depth
        (view context.entry.types.now (sort_of word.kind)) word tokens.now) }
{
    let (first, behind) = next_token(tokens);
    if is_mark(Mark::OpenBrace, sort_at(context.types, first.kind)) {
        return Ok(Head {
            body: Body::Constants,
            tag: None,
            rest: behind,
        });
    }
    let Kind::Name(name) = first.kind else {
        return Err(fault(context, AlsoAllowed::Nothing, tokens));
    };
    let (brace, inside) = next_token(behind);
    if is_mark(Mark::OpenBrace, sort_at(context.types, brace.kind)) {
        return Ok(Head {
            body: Body::Constants,
            tag: Some(name),
            rest: inside,
        });
    }
    Ok(Head {
        body: Body::Absent,
        tag: Some(name),
        rest: behind,
    })
}

/// The specifier that is its first token, or that and a tag.
pub fn whole_specifier<'a>(
    context: Context<'_>,
    tokens: &'a [Token],
    token: Token,
    head: Head<'a>,
    depth: u32,
) -> Result<Part<'a, Specifier>, ReadError<'a>>
    requires head { IsWithoutBody (context_of context) depth (view context.types.now (sort_of token.kind))
        tokens.now head.tag head.rest.now }
    ensures { MatchResult result
        (λ part. IsSpecifier (context_of context.entry) depth
        (view context.entry.types.now (sort_of token.kind)) token tokens.now part.tree
        part.depth part.rest.now)
        (IsSpecifierStop (context_of context.entry) depth
        (view context.entry.types.now (sort_of token.kind)) token tokens.now) }
{
    let rest = head.rest;
    let Some(tag) = head.tag else {
        return Ok(Part {
            tree: word_specifier(token),
            depth: 0,
            rest,
        });
    };
    if is_mark(Mark::Struct, sort_at(context.types, token.kind)) {
        return Ok(Part {
            tree: tagged_structure(context.alloc, token, tag)?,
            depth: 1,
            rest,
        });
    }
    Ok(Part {
        tree: tagged_enumeration(context.alloc, token, tag)?,
        depth: 0,
        rest,
    })
}
