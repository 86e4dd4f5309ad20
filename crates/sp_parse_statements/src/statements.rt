//! The readers of statements that hold statements (C90 6.6): one small cycle of calls.
ghost use Rattle.std.specs.Prelude.{◌≡◌, ◌≤◌, MatchResult, map, option_map, []};
ghost use Rattle.sp_parse_grammar.specs.CTable as grammar;
ghost use Rattle.sp_parse_trees.specs.View.{statement_of};
ghost use Rattle.sp_parse_tokens.specs.Ended.{IsEnded};
ghost use Rattle.sp_parse_tokens.specs.Scopes.{context_of};
ghost use Rattle.sp_parse_expr_steps.specs.Reading.{Answers};
ghost use Rattle.sp_parse_declarations.specs.Taking.{Takes};
ghost use Rattle.sp_parse_statements.specs.Heads.{head_of};
ghost use Rattle.sp_parse_statements.specs.Parts.{IsCompound, IsCompoundStop};
ghost use Rattle.sp_parse_statements.specs.declared.heads.Head.TheVariants.{Block, If, Do, Prefix};

use crate::heads::{Head, PrefixKind, begins_statement, head_of, least_of, too_deep};
use crate::makers::{block, do_while, if_else, prefixed};
use crate::parts::{first_place, read_condition, read_do_end};
use crate::prefixes::read_prefix;
use crate::simple::read_simple;
use sp_base_kept::{keeping, pushed};
use sp_parse_declarations::read_declarations;
use sp_parse_tokens::{
    AlsoAllowed, Context, Mark, Part, ReadError, expect, is_mark, next_token, sort_at,
};
use sp_parse_trees::Statement;
use sp_tree::{Place, Token};

/// A statement.
#[cycle(statement)]
pub fn read_statement<'a>(
    context: Context<'_>,
    tokens: &'a [Token],
    depth: u32,
) -> Result<Part<'a, Statement>, ReadError<'a>>
    requires { IsEnded tokens.now }
    ensures { Takes (context_of context.entry) grammar.statement depth tokens.now statement_of result }
{
    let head = head_of(context.types, tokens);
    if depth < least_of(head) {
        return Err(too_deep(context, head, tokens, depth));
    }
    match head {
        Head::Simple(kind) => read_simple(context, kind, tokens, depth),
        Head::Prefix(kind) => read_prefixed(context, kind, tokens, depth),
        Head::Block => read_block(context, tokens, depth),
        Head::If => read_if(context, tokens, depth),
        Head::Do => read_do(context, tokens, depth),
    }
}

/// What stands before a body, and the body.
#[cycle(statement)]
fn read_prefixed<'a>(
    context: Context<'_>,
    kind: PrefixKind,
    tokens: &'a [Token],
    depth: u32,
) -> Result<Part<'a, Statement>, ReadError<'a>>
    requires ended { IsEnded tokens.now }
    requires head { head_of context.types.now tokens.now ≡ Prefix kind }
    requires room { 2 ≤ depth }
    ensures { Takes (context_of context.entry) grammar.statement depth tokens.now statement_of result }
{
    let prefix = read_prefix(context, kind, tokens, depth)?;
    let next = read_statement(context, prefix.rest, depth - 1);
    let (body, before) = keeping(next, prefix.tree)?;
    let reached = 1 + prefix.depth.max(body.depth);
    let rest = body.rest;
    let tree = prefixed(context.alloc, before, first_place(tokens), body.tree)?;
    Ok(Part {
        tree,
        depth: reached,
        rest,
    })
}

/// `if`, a condition, a statement, and `else` with another where it is there.
#[cycle(statement)]
fn read_if<'a>(
    context: Context<'_>,
    tokens: &'a [Token],
    depth: u32,
) -> Result<Part<'a, Statement>, ReadError<'a>>
    requires ended { IsEnded tokens.now }
    requires head { head_of context.types.now tokens.now ≡ If }
    requires room { 2 ≤ depth }
    ensures { Takes (context_of context.entry) grammar.statement depth tokens.now statement_of result }
{
    let (word, inner) = next_token(tokens);
    let condition = read_condition(context, inner, depth - 1)?;
    let next = read_statement(context, condition.rest, depth - 1);
    let (branch, tested) = keeping(next, condition.tree)?;
    let next = read_else(context, branch.rest, depth - 1);
    let (other, (tested, first)) = keeping(next, (tested, branch.tree))?;
    let reached = 1 + condition.depth.max(branch.depth.max(other.depth));
    let rest = other.rest;
    let tree = if_else(context.alloc, word.place, tested, first, other.tree)?;
    Ok(Part {
        tree,
        depth: reached,
        rest,
    })
}

/// `else` and a statement, where it is there. The depth of none is 0.
#[cycle(statement)]
fn read_else<'a>(
    context: Context<'_>,
    tokens: &'a [Token],
    depth: u32,
) -> Result<Part<'a, Option<Statement>>, ReadError<'a>>
    requires { IsEnded tokens.now }
    ensures { Answers (context_of context.entry) grammar.else_part depth tokens.now
        (option_map statement_of) result }
{
    let (token, rest) = next_token(tokens);
    if !is_mark(Mark::Else, sort_at(context.types, token.kind)) {
        return Ok(Part {
            tree: None,
            depth: 0,
            rest: tokens,
        });
    }
    let other = read_statement(context, rest, depth)?;
    Ok(Part {
        tree: Some(other.tree),
        depth: other.depth,
        rest: other.rest,
    })
}

/// `do`, a statement, `while`, a condition and `;`.
#[cycle(statement)]
fn read_do<'a>(
    context: Context<'_>,
    tokens: &'a [Token],
    depth: u32,
) -> Result<Part<'a, Statement>, ReadError<'a>>
    requires ended { IsEnded tokens.now }
    requires head { head_of context.types.now tokens.now ≡ Do }
    requires room { 2 ≤ depth }
    ensures { Takes (context_of context.entry) grammar.statement depth tokens.now statement_of result }
{
    let (word, inner) = next_token(tokens);
    let body = read_statement(context, inner, depth - 1)?;
    let next = read_do_end(context, body.rest, depth - 1);
    let (end, repeated) = keeping(next, body.tree)?;
    let reached = 1 + body.depth.max(end.depth);
    let rest = end.rest;
    let tree = do_while(
        context.alloc,
        word.place,
        repeated,
        end.tree.condition,
        end.tree.end,
    )?;
    Ok(Part {
        tree,
        depth: reached,
        rest,
    })
}

/// A block.
#[cycle(statement)]
fn read_block<'a>(
    context: Context<'_>,
    tokens: &'a [Token],
    depth: u32,
) -> Result<Part<'a, Statement>, ReadError<'a>>
    requires ended { IsEnded tokens.now }
    requires head { head_of context.types.now tokens.now ≡ Block }
    requires room { 1 ≤ depth }
    ensures { Takes (context_of context.entry) grammar.statement depth tokens.now statement_of result }
{
    let (brace, inner) = next_token(tokens);
    read_compound(context, brace.place, inner, depth)
}

/// After the `{` at this place: declarations, statements and `}`. So a function's body is read too.
#[cycle(statement)]
pub fn read_compound<'a>(
    context: Context<'_>,
    brace: Place,
    tokens: &'a [Token],
    depth: u32,
) -> Result<Part<'a, Statement>, ReadError<'a>>
    requires ended { IsEnded tokens.now }
    requires room { 1 ≤ depth }
    ensures { MatchResult result
        (λ part. IsCompound (context_of context.entry) depth brace tokens.now
        (statement_of part.tree) part.depth part.rest.now)
        (IsCompoundStop (context_of context.entry) depth tokens.now) }
{
    let declarations = read_declarations(context, tokens, depth - 1)?;
    let next = read_statements(context, declarations.rest, depth - 1);
    let (statements, declared) = keeping(next, declarations.tree)?;
    let end = first_place(statements.rest);
    let next = expect(
        context,
        AlsoAllowed::Name,
        Mark::CloseBrace,
        statements.rest,
    );
    let (rest, (declared, all)) = keeping(next, (declared, statements.tree))?;
    Ok(Part {
        depth: 1 + declarations.depth.max(statements.depth),
        tree: block(declared, all, brace, end),
        rest,
    })
}

/// Statements, none or more. The depth of none is 0.
#[cycle(statement)]
fn read_statements<'a>(
    context: Context<'_>,
    tokens: &'a [Token],
    depth: u32,
) -> Result<Part<'a, Vec<Statement>>, ReadError<'a>>
    requires { IsEnded tokens.now }
    ensures { Answers (context_of context.entry) (grammar.statements []) depth tokens.now
        (λ all. map statement_of all.items) result }
{
    let mut all = Vec::new(context.alloc);
    let mut reached: u32 = 0;
    let mut rest = tokens;
    'statements: loop {
        let (token, _) = next_token(rest);
        if !begins_statement(sort_at(context.types, token.kind)) {
            break;
        }
        let (next, read) = keeping(read_statement(context, rest, depth), all)?;
        all = pushed(read, next.tree)?;
        reached = reached.max(next.depth);
        rest = next.rest;
    }
    // A list that grew has room for more, and most blocks have few statements.
    all.shrink_to_fit();
    Ok(Part {
        tree: all,
        depth: reached,
        rest,
    })
}
