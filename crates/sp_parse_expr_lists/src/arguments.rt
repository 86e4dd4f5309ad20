//! The arguments of calls (C90 6.3.2.2).
ghost use Rattle.std.specs.Prelude.{◌+◌, ◌≤◌, MatchResult, map, length, true};
ghost use Rattle.sp_parse_grammar.specs.CTable as grammar;
ghost use Rattle.sp_parse_trees.specs.View.{tree_of};
ghost use Rattle.sp_parse_tokens.specs.Ended.{IsEnded};
ghost use Rattle.sp_parse_tokens.specs.Scopes.{context_of};
ghost use Rattle.sp_parse_expr_steps.specs.Reading.{Answers, IsStop, operand_seen};
ghost use Rattle.sp_parse_expr_lists.specs.Given.{HasArguments};

use crate::lists::{Listed, past_comma, with_one};
use sp_base_kept::keeping;
use sp_parse_tokens::{Context, Operand, Part, ReadError, begins_expression, next_token, sort_at};
use sp_parse_trees::Expr;
use sp_tree::Token;

/// Behind the `(` of a call, where its first argument is left, if there is one.
pub fn no_arguments<'a>(context: Context<'_>, tokens: &'a [Token], depth: u32) -> Listed<'a, Expr>
    requires { IsEnded tokens.now }
    ensures { HasArguments (context_of context.entry) depth tokens.now result.more
        (map tree_of result.all.items) result.depth result.rest.now }
{
    let (token, _) = next_token(tokens);
    Listed {
        all: Vec::new(context.alloc),
        depth: 0,
        rest: tokens,
        more: begins_expression(sort_at(context.types, token.kind)),
    }
}

/// The arguments and one more.
pub fn with_argument<'a>(
    context: Context<'_>,
    tokens: &'a [Token],
    arguments: Listed<'a, Expr>,
    depth: u32,
    next: Result<Part<'a, Operand>, ReadError<'a>>,
) -> Result<Listed<'a, Expr>, ReadError<'a>>
    requires before { HasArguments (context_of context) depth tokens.now true
        (map tree_of arguments.all.items) arguments.depth arguments.rest.now }
    requires read { Answers (context_of context) (grammar.level 12) depth arguments.rest.now operand_seen
        next }
    ensures { MatchResult result
        (λ now. HasArguments (context_of context.entry) depth tokens.now now.more
        (map tree_of now.all.items) now.depth now.rest.now
        × (1 + length now.rest.now ≤ length arguments.entry.rest.now))
        (IsStop (context_of context.entry) grammar.arguments depth tokens.now) }
{
    let (part, all) = keeping(next, arguments.all)?;
    let (more, rest) = past_comma(context, part.rest);
    let reached = arguments.depth.max(part.depth);
    let all = with_one(context.alloc, all, part.tree.tree)?;
    Ok(Listed {
        all,
        depth: reached,
        rest,
        more,
    })
}
