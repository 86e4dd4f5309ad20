//! The members of structures and unions (C90 6.5.2.1).
ghost use Rattle.std.specs.Prelude.{◌≡◌, ◌+◌, ◌-◌, ◌≤◌, MatchResult, map, length, true, false};
ghost use Rattle.sp_parse_grammar.specs.CTokens.{view};
ghost use Rattle.sp_parse_grammar.specs.CTable as grammar;
ghost use Rattle.sp_parse_trees.specs.View.{declaration_of};
ghost use Rattle.sp_parse_tokens.specs.Sorts.{sort_of};
ghost use Rattle.sp_parse_tokens.specs.Ended.{IsEnded};
ghost use Rattle.sp_parse_tokens.specs.Scopes.{context_of};
ghost use Rattle.sp_parse_expr_steps.specs.Reading.{Answers};
ghost use Rattle.sp_parse_expr_steps.specs.Declaring.{IsSpecifier, IsSpecifierStop};
ghost use Rattle.sp_parse_expr_lists.specs.Heads.{IsHead};
ghost use Rattle.sp_parse_expr_lists.specs.Bodies.{HasMembers};
ghost use Rattle.sp_parse_expr_lists.specs.declared.heads.Body.TheVariants as bodies;

use crate::heads::Head;
use crate::lists::{Listed, with_one};
use sp_base_kept::keeping;
use sp_parse_expr_steps::structure;
use sp_parse_tokens::{
    AlsoAllowed, Context, Mark, Part, ReadError, Scope, begins_specifiers, expect, next_token,
    sort_at,
};
use sp_parse_trees::{Declaration, Specifier};
use sp_tree::Token;

/// The context of the members of a structure, by that around it.
pub fn inside_structure<'a>(context: Context<'a>) -> Context<'a>
    ensures types { result.types.now ≡ context.entry.types.now }
    ensures scope { result.scope ≡ record context.entry.scope { in_struct = true } }
{
    Context {
        scope: Scope {
            in_struct: true,
            ..context.scope
        },
        ..context
    }
}

/// Behind the `{` of a structure, where its first member is left.
pub fn no_members<'a>(
    context: Context<'_>,
    inside: &'a [Token],
    depth: u32,
) -> Listed<'a, Declaration>
    requires { IsEnded inside.now }
    ensures { HasMembers (context_of context.entry) (record context.entry.scope { in_struct = true }) depth
        inside.now result.more (map declaration_of result.all.items) result.depth result.rest.now }
{
    Listed {
        all: Vec::new(context.alloc),
        depth: 0,
        rest: inside,
        more: true,
    }
}

/// The members and one more.
pub fn with_member<'a>(
    context: Context<'_>,
    tokens: &'a [Token],
    word: Token,
    head: Head<'a>,
    members: Listed<'a, Declaration>,
    depth: u32,
    next: Result<Part<'a, Declaration>, ReadError<'a>>,
) -> Result<Listed<'a, Declaration>, ReadError<'a>>
    requires head { IsHead (context_of context) depth word tokens.now bodies.Members head.tag head.rest.now }
    requires before { HasMembers (context_of context) (record context.scope { in_struct = true }) depth
        head.rest.now true (map declaration_of members.all.items) members.depth
        members.rest.now }
    requires read { Answers (grammar.in_structure (context_of context)) grammar.member (depth - 1)
        members.rest.now declaration_of next }
    ensures { MatchResult result
        (λ now. HasMembers (context_of context.entry) (record context.entry.scope {
          in_struct = true;
        }) depth head.entry.rest.now now.more (map declaration_of now.all.items) now.depth
        now.rest.now
        × (1 + length now.rest.now ≤ length members.entry.rest.now))
        (IsSpecifierStop (context_of context.entry) depth
        (view context.entry.types.now (sort_of word.kind)) word tokens.now) }
{
    let (part, all) = keeping(next, members.all)?;
    let rest = part.rest;
    let (token, _) = next_token(rest);
    let sort = sort_at(context.types, token.kind);
    let more = begins_specifiers(false, context.scope.in_function, sort);
    let reached = members.depth.max(part.depth);
    let all = with_one(context.alloc, all, part.tree)?;
    Ok(Listed {
        all,
        depth: reached,
        rest,
        more,
    })
}

/// The structure of these members, and its `}`.
pub fn closed_structure<'a>(
    context: Context<'_>,
    tokens: &'a [Token],
    word: Token,
    head: Head<'a>,
    members: Listed<'a, Declaration>,
    depth: u32,
) -> Result<Part<'a, Specifier>, ReadError<'a>>
    requires head { IsHead (context_of context) depth word tokens.now bodies.Members head.tag head.rest.now }
    requires behind { HasMembers (context_of context) (record context.scope { in_struct = true }) depth
        head.rest.now false (map declaration_of members.all.items) members.depth
        members.rest.now }
    ensures { MatchResult result
        (λ part. IsSpecifier (context_of context.entry) depth
        (view context.entry.types.now (sort_of word.kind)) word tokens.now part.tree part.depth
        part.rest.now)
        (IsSpecifierStop (context_of context.entry) depth
        (view context.entry.types.now (sort_of word.kind)) word tokens.now) }
{
    let next = expect(
        inside_structure(context),
        AlsoAllowed::TypeSpecifier,
        Mark::CloseBrace,
        members.rest,
    );
    let (rest, all) = keeping(next, members.all)?;
    Ok(Part {
        tree: structure(context.alloc, word, head.tag, all)?,
        depth: 1 + members.depth,
        rest,
    })
}
