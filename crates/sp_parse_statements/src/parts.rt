//! The readers of the parts of statements that hold no statement: conditions, the expressions of a
//! `for`, the end of a `do` (C90 6.6.4, 6.6.5).
ghost use Rattle.std.specs.Prelude.{◌≡◌, ◌<◌, MatchResult, option_map};
ghost use Rattle.sp_parse_grammar.specs.CTokens.{number_of};
ghost use Rattle.sp_parse_grammar.specs.CTable as grammar;
ghost use Rattle.sp_parse_trees.specs.View.{tree_of};
ghost use Rattle.sp_parse_tokens.specs.Codes.{mark_seen};
ghost use Rattle.sp_parse_tokens.specs.Ended.{IsEnded};
ghost use Rattle.sp_parse_tokens.specs.Makers.{first_place};
ghost use Rattle.sp_parse_tokens.specs.Scopes.{context_of, allowed_seen};
ghost use Rattle.sp_parse_expr_steps.specs.Reading.{Answers};
ghost use Rattle.sp_parse_statements.specs.Parts.{IsCondition, IsConditionStop, IsClause, IsClauseStop, IsDoEnd, IsDoEndStop};

use sp_base_kept::keeping;
use sp_parse_expr_reader::read_level;
use sp_parse_expr_steps::COMMA;
use sp_parse_tokens::{
    AlsoAllowed, Context, Mark, Part, ReadError, begins_expression, expect, next_token, sort_at,
};
use sp_parse_trees::Expr;
use sp_tree::{Place, Token};

/// An expression or none, and the place of the mark after it.
#[derive(Drop)]
pub(crate) struct Clause {
    pub(crate) value: Option<Expr>,
    pub(crate) end: Place,
}

/// The condition after the body of a `do`, and the place of the `;` after it.
#[derive(Drop)]
pub(crate) struct DoEnd {
    pub(crate) condition: Expr,
    pub(crate) end: Place,
}

/// The place of the first token.
pub(crate) fn first_place(tokens: &[Token]) -> Place
    requires { IsEnded tokens.now }
    ensures { result ≡ first_place tokens.now }
{
    let (first, _) = next_token(tokens);
    first.place
}

/// `(`, an expression and `)`.
pub(crate) fn read_condition<'a>(
    context: Context<'_>,
    tokens: &'a [Token],
    depth: u32,
) -> Result<Part<'a, Expr>, ReadError<'a>>
    requires { IsEnded tokens.now }
    ensures { MatchResult result
        (λ part. IsCondition (context_of context.entry) depth tokens.now (tree_of part.tree)
        part.depth part.rest.now)
        (IsConditionStop (context_of context.entry) depth tokens.now) }
{
    let inner = expect(context, AlsoAllowed::Nothing, Mark::OpenParen, tokens)?;
    let condition = read_level(context, inner, COMMA, depth)?;
    let next = expect(
        context,
        AlsoAllowed::Nothing,
        Mark::CloseParen,
        condition.rest,
    );
    let (rest, tree) = keeping(next, condition.tree.tree)?;
    Ok(Part {
        tree,
        depth: condition.depth,
        rest,
    })
}

/// An expression, where one is given. The depth of none is 0.
pub(crate) fn read_optional<'a>(
    context: Context<'_>,
    tokens: &'a [Token],
    depth: u32,
) -> Result<Part<'a, Option<Expr>>, ReadError<'a>>
    requires { IsEnded tokens.now }
    ensures { Answers (context_of context.entry) grammar.optional_expression depth tokens.now
        (λ value. option_map tree_of value) result }
{
    let (token, _) = next_token(tokens);
    if !begins_expression(sort_at(context.types, token.kind)) {
        return Ok(Part {
            tree: None,
            depth: 0,
            rest: tokens,
        });
    }
    let value = read_level(context, tokens, COMMA, depth)?;
    Ok(Part {
        tree: Some(value.tree.tree),
        depth: value.depth,
        rest: value.rest,
    })
}

/// What might be after an expression, or where there is none: a name.
fn if_missing(value: &Option<Expr>) -> AlsoAllowed
    ensures { allowed_seen result ≡ grammar.if_missing (option_map tree_of value.now) }
{
    match value {
        Some(_) => AlsoAllowed::Nothing,
        None => AlsoAllowed::Name,
    }
}

/// An expression or none, and the mark after it.
pub(crate) fn read_clause<'a>(
    context: Context<'_>,
    mark: Mark,
    tokens: &'a [Token],
    depth: u32,
) -> Result<Part<'a, Clause>, ReadError<'a>>
    requires ended { IsEnded tokens.now }
    requires mark { number_of (mark_seen mark) < 34 }
    ensures { MatchResult result
        (λ part. IsClause (context_of context.entry) (mark_seen mark) depth tokens.now
        (option_map tree_of part.tree.value) part.tree.end part.depth part.rest.now)
        (IsClauseStop (context_of context.entry) (mark_seen mark) depth tokens.now) }
{
    let value = read_optional(context, tokens, depth)?;
    let end = first_place(value.rest);
    let next = expect(context, if_missing(&value.tree), mark, value.rest);
    let inner = value.depth;
    let (rest, value) = keeping(next, value.tree)?;
    Ok(Part {
        tree: Clause { value, end },
        depth: inner,
        rest,
    })
}

/// `while`, a condition and `;`.
pub(crate) fn read_do_end<'a>(
    context: Context<'_>,
    tokens: &'a [Token],
    depth: u32,
) -> Result<Part<'a, DoEnd>, ReadError<'a>>
    requires { IsEnded tokens.now }
    ensures { MatchResult result
        (λ part. IsDoEnd (context_of context.entry) depth tokens.now
        (tree_of part.tree.condition) part.tree.end part.depth part.rest.now)
        (IsDoEndStop (context_of context.entry) depth tokens.now) }
{
    let inner = expect(context, AlsoAllowed::Nothing, Mark::While, tokens)?;
    let condition = read_condition(context, inner, depth)?;
    let end = first_place(condition.rest);
    let next = expect(
        context,
        AlsoAllowed::Nothing,
        Mark::Semicolon,
        condition.rest,
    );
    let inner = condition.depth;
    let (rest, condition) = keeping(next, condition.tree)?;
    Ok(Part {
        tree: DoEnd { condition, end },
        depth: inner,
        rest,
    })
}
