//! The readers of what stands before the body of a statement (C90 6.6.1, 6.6.4.2, 6.6.5).
ghost use Rattle.std.specs.Prelude.{◌≡◌, ◌≤◌, MatchResult};
ghost use Rattle.sp_parse_grammar.specs.CTable as grammar;
ghost use Rattle.sp_parse_tokens.specs.Ended.{IsEnded};
ghost use Rattle.sp_parse_tokens.specs.Scopes.{context_of};
ghost use Rattle.sp_parse_expr_steps.specs.Reading.{IsStop};
ghost use Rattle.sp_parse_statements.specs.Heads.{head_of};
ghost use Rattle.sp_parse_statements.specs.Parts.{IsPrefix};
ghost use Rattle.sp_parse_statements.specs.declared.heads.Head.TheVariants.{Prefix as Before};
ghost use Rattle.sp_parse_statements.specs.declared.heads.PrefixKind.TheVariants as kinds;

use crate::heads::PrefixKind;
use crate::makers::for_clauses;
use crate::parts::{read_clause, read_condition};
use crate::simple::number_of;
use sp_base_kept::keeping;
use sp_parse_expr_reader::read_level;
use sp_parse_expr_steps::CONDITIONAL;
use sp_parse_tokens::{AlsoAllowed, Context, Mark, Part, ReadError, expect, next_token};
use sp_parse_trees::{Expr, ForClauses};
use sp_tree::Token;

/// What was read before a body.
#[derive(Drop)]
pub(crate) enum Prefix {
    /// `name:`
    Label(u32),
    /// `case value:`
    Case(Expr),
    /// `default:`
    Default,
    /// `switch (value)`
    Switch(Expr),
    /// `while (condition)`
    While(Expr),
    /// `for (start; test; step)`
    For(Box<ForClauses>),
}

/// What stands before the body of a statement.
pub(crate) fn read_prefix<'a>(
    context: Context<'_>,
    kind: PrefixKind,
    tokens: &'a [Token],
    depth: u32,
) -> Result<Part<'a, Prefix>, ReadError<'a>>
    requires ended { IsEnded tokens.now }
    requires head { head_of context.types.now tokens.now ≡ Before kind }
    requires room { 2 ≤ depth }
    ensures { MatchResult result
        (λ part. IsPrefix (context_of context.entry) depth tokens.now part.tree part.depth
        part.rest.now)
        (IsStop (context_of context.entry) grammar.statement depth tokens.now) }
{
    match kind {
        PrefixKind::Label => read_label(context, tokens, depth),
        PrefixKind::Case => read_case(context, tokens, depth),
        PrefixKind::Default => read_default(context, tokens, depth),
        PrefixKind::Switch => read_switch(context, tokens, depth),
        PrefixKind::While => read_while(context, tokens, depth),
        PrefixKind::For => read_for(context, tokens, depth),
    }
}

/// A name and `:`.
fn read_label<'a>(
    context: Context<'_>,
    tokens: &'a [Token],
    depth: u32,
) -> Result<Part<'a, Prefix>, ReadError<'a>>
    requires ended { IsEnded tokens.now }
    requires head { head_of context.types.now tokens.now ≡ Before kinds.Label }
    requires room { 2 ≤ depth }
    ensures { MatchResult result
        (λ part. IsPrefix (context_of context.entry) depth tokens.now part.tree part.depth
        part.rest.now)
        (IsStop (context_of context.entry) grammar.statement depth tokens.now) }
{
    let (name, inner) = next_token(tokens);
    let (_, rest) = next_token(inner);
    Ok(Part {
        tree: Prefix::Label(number_of(name.kind)),
        depth: 0,
        rest,
    })
}

/// `case`, a constant expression and `:`.
fn read_case<'a>(
    context: Context<'_>,
    tokens: &'a [Token],
    depth: u32,
) -> Result<Part<'a, Prefix>, ReadError<'a>>
    requires ended { IsEnded tokens.now }
    requires head { head_of context.types.now tokens.now ≡ Before kinds.Case }
    requires room { 2 ≤ depth }
    ensures { MatchResult result
        (λ part. IsPrefix (context_of context.entry) depth tokens.now part.tree part.depth
        part.rest.now)
        (IsStop (context_of context.entry) grammar.statement depth tokens.now) }
{
    let (_, inner) = next_token(tokens);
    let value = read_level(context, inner, CONDITIONAL, depth - 1)?;
    let next = expect(context, AlsoAllowed::Nothing, Mark::Colon, value.rest);
    let (rest, tree) = keeping(next, value.tree.tree)?;
    Ok(Part {
        tree: Prefix::Case(tree),
        depth: value.depth,
        rest,
    })
}

/// `default` and `:`.
fn read_default<'a>(
    context: Context<'_>,
    tokens: &'a [Token],
    depth: u32,
) -> Result<Part<'a, Prefix>, ReadError<'a>>
    requires ended { IsEnded tokens.now }
    requires head { head_of context.types.now tokens.now ≡ Before kinds.Default }
    requires room { 2 ≤ depth }
    ensures { MatchResult result
        (λ part. IsPrefix (context_of context.entry) depth tokens.now part.tree part.depth
        part.rest.now)
        (IsStop (context_of context.entry) grammar.statement depth tokens.now) }
{
    let (_, inner) = next_token(tokens);
    let rest = expect(context, AlsoAllowed::Nothing, Mark::Colon, inner)?;
    Ok(Part {
        tree: Prefix::Default,
        depth: 0,
        rest,
    })
}

/// `switch` and a condition.
fn read_switch<'a>(
    context: Context<'_>,
    tokens: &'a [Token],
    depth: u32,
) -> Result<Part<'a, Prefix>, ReadError<'a>>
    requires ended { IsEnded tokens.now }
    requires head { head_of context.types.now tokens.now ≡ Before kinds.Switch }
    requires room { 2 ≤ depth }
    ensures { MatchResult result
        (λ part. IsPrefix (context_of context.entry) depth tokens.now part.tree part.depth
        part.rest.now)
        (IsStop (context_of context.entry) grammar.statement depth tokens.now) }
{
    let (_, inner) = next_token(tokens);
    let value = read_condition(context, inner, depth - 1)?;
    Ok(Part {
        tree: Prefix::Switch(value.tree),
        depth: value.depth,
        rest: value.rest,
    })
}

/// `while` and a condition.
fn read_while<'a>(
    context: Context<'_>,
    tokens: &'a [Token],
    depth: u32,
) -> Result<Part<'a, Prefix>, ReadError<'a>>
    requires ended { IsEnded tokens.now }
    requires head { head_of context.types.now tokens.now ≡ Before kinds.While }
    requires room { 2 ≤ depth }
    ensures { MatchResult result
        (λ part. IsPrefix (context_of context.entry) depth tokens.now part.tree part.depth
        part.rest.now)
        (IsStop (context_of context.entry) grammar.statement depth tokens.now) }
{
    let (_, inner) = next_token(tokens);
    let condition = read_condition(context, inner, depth - 1)?;
    Ok(Part {
        tree: Prefix::While(condition.tree),
        depth: condition.depth,
        rest: condition.rest,
    })
}

/// `for` and its three expressions between parentheses, each of them where it is given.
fn read_for<'a>(
    context: Context<'_>,
    tokens: &'a [Token],
    depth: u32,
) -> Result<Part<'a, Prefix>, ReadError<'a>>
    requires ended { IsEnded tokens.now }
    requires head { head_of context.types.now tokens.now ≡ Before kinds.For }
    requires room { 2 ≤ depth }
    ensures { MatchResult result
        (λ part. IsPrefix (context_of context.entry) depth tokens.now part.tree part.depth
        part.rest.now)
        (IsStop (context_of context.entry) grammar.statement depth tokens.now) }
{
    let (_, inner) = next_token(tokens);
    let inner = expect(context, AlsoAllowed::Nothing, Mark::OpenParen, inner)?;
    let start = read_clause(context, Mark::Semicolon, inner, depth - 1)?;
    let next = read_clause(context, Mark::Semicolon, start.rest, depth - 1);
    let (test, first) = keeping(next, start.tree.value)?;
    let next = read_clause(context, Mark::CloseParen, test.rest, depth - 1);
    let (step, (first, second)) = keeping(next, (first, test.tree.value))?;
    let reached = start.depth.max(test.depth).max(step.depth);
    let rest = step.rest;
    let clauses = for_clauses(context.alloc, first, second, step.tree.value)?;
    Ok(Part {
        tree: Prefix::For(clauses),
        depth: reached,
        rest,
    })
}
