//! Declarations of members (C90 6.5.2.1): specifiers, and declarators with commas between them.
ghost use Rattle.std.specs.Prelude.{◌+◌, ◌≤◌, MatchResult, if◌then◌else◌, length, true, false};
ghost use Rattle.sp_parse_grammar.specs.CTable as grammar;
ghost use Rattle.sp_parse_trees.specs.View.{declaration_of};
ghost use Rattle.sp_parse_tokens.specs.Ended.{IsEnded};
ghost use Rattle.sp_parse_tokens.specs.Scopes.{context_of};
ghost use Rattle.sp_parse_expr_steps.specs.Reading.{Answers, IsStop};
ghost use Rattle.sp_parse_expr_steps.specs.Declaring.{AreSpecified, IsDeclared};
ghost use Rattle.sp_parse_expr_lists.specs.Items.{HasItems};

use crate::lists::{past_comma, with_one};
use sp_base_kept::keeping;
use sp_parse_expr_steps::{closed, item_of};
use sp_parse_tokens::{
    AlsoAllowed, Context, Declared, Mark, MemberDeclarators, Part, ReadError, SpecifierList,
    expect, next_token,
};
use sp_parse_trees::Declaration;
use sp_tree::Token;

/// A declaration of members that is being read: its specifiers, its declarators and their depth,
/// the tokens left, and whether another declarator comes there.
#[derive(Drop)]
pub struct Member<'a> {
    pub specifiers: Part<'a, SpecifierList>,
    pub declarators: MemberDeclarators,
    pub depth: u32,
    pub rest: &'a [Token],
    pub more: bool,
}

/// The declaration with these specifiers, of which the first declarator is left.
pub fn member_of<'a>(
    context: Context<'_>,
    tokens: &'a [Token],
    specifiers: Part<'a, SpecifierList>,
    depth: u32,
) -> Member<'a>
    requires ended { IsEnded tokens.now }
    requires specified { AreSpecified (context_of context) false depth tokens.now specifiers.tree
        specifiers.depth specifiers.rest.now }
    ensures { HasItems (context_of context.entry) depth tokens.now result.specifiers.tree
        result.specifiers.depth result.specifiers.rest.now result.more
        result.declarators.all.items result.declarators.behind result.depth result.rest.now }
{
    let rest = specifiers.rest;
    let all = Vec::new(context.alloc);
    let behind = AlsoAllowed::Nothing;
    Member {
        specifiers,
        declarators: MemberDeclarators { all, behind },
        depth: 0,
        rest,
        more: true,
    }
}

/// The declaration with one declarator more.
pub fn with_item<'a>(
    context: Context<'_>,
    tokens: &'a [Token],
    member: Member<'a>,
    depth: u32,
    next: Result<Part<'a, Declared>, ReadError<'a>>,
) -> Result<Member<'a>, ReadError<'a>>
    requires ended { IsEnded tokens.now }
    requires before { HasItems (context_of context) depth tokens.now member.specifiers.tree
        member.specifiers.depth member.specifiers.rest.now true member.declarators.all.items
        member.declarators.behind member.depth member.rest.now }
    requires read { MatchResult next
        (λ part. IsDeclared (context_of context) (grammar.declarator grammar.concrete) (λ a. a)
        depth member.rest.now part.tree part.depth part.rest.now)
        (IsStop (context_of context) (grammar.declarator grammar.concrete) depth
        member.rest.now) }
    ensures { MatchResult result
        (λ now. HasItems (context_of context.entry) depth tokens.now now.specifiers.tree
        now.specifiers.depth now.specifiers.rest.now now.more now.declarators.all.items
        now.declarators.behind now.depth now.rest.now
        × ((if now.more then 1 else 0) + length now.rest.now ≤ length member.entry.rest.now))
        (IsStop (context_of context.entry) grammar.member depth tokens.now) }
{
    let reached = member.depth;
    let (part, (specifiers, all)) = keeping(next, (member.specifiers, member.declarators.all))?;
    let behind = closed(part.tree.behind);
    let (more, rest) = past_comma(context, part.rest);
    let longer = with_one(context.alloc, all, item_of(part.tree.tree));
    let (all, specifiers) = keeping(longer, specifiers)?;
    Ok(Member {
        specifiers,
        declarators: MemberDeclarators { all, behind },
        depth: reached.max(part.depth),
        rest,
        more,
    })
}

/// The declaration of these declarators, and its `;`.
pub fn closed_member<'a>(
    context: Context<'_>,
    tokens: &'a [Token],
    member: Member<'a>,
    depth: u32,
) -> Result<Part<'a, Declaration>, ReadError<'a>>
    requires ended { IsEnded tokens.now }
    requires behind { HasItems (context_of context) depth tokens.now member.specifiers.tree
        member.specifiers.depth member.specifiers.rest.now false member.declarators.all.items
        member.declarators.behind member.depth member.rest.now }
    ensures { Answers (context_of context.entry) grammar.member depth tokens.now declaration_of result }
{
    let place = next_token(tokens).0.place;
    let reached = member.specifiers.depth.max(member.depth);
    let behind = member.declarators.behind;
    let next = expect(context, behind, Mark::Semicolon, member.rest);
    let (rest, (specifiers, items)) = keeping(
        next,
        (member.specifiers.tree.all, member.declarators.all),
    )?;
    Ok(Part {
        tree: Declaration {
            specifiers,
            items,
            place,
        },
        depth: reached,
        rest,
    })
}
