//! The readers of statements without a statement inside (C90 6.6.3, 6.6.6).
ghost use Rattle.std.specs.Prelude.{◌≡◌, ◌≤◌};
ghost use Rattle.sp_parse_grammar.specs.CTokens.{is_name};
ghost use Rattle.sp_parse_grammar.specs.CTable as grammar;
ghost use Rattle.sp_parse_trees.specs.View.{statement_of};
ghost use Rattle.sp_parse_tokens.specs.Ended.{IsEnded};
ghost use Rattle.sp_parse_tokens.specs.Makers.{number_of};
ghost use Rattle.sp_parse_tokens.specs.Scopes.{context_of};
ghost use Rattle.sp_parse_tokens.specs.Sorts.{sort_of};
ghost use Rattle.sp_parse_declarations.specs.Taking.{Takes};
ghost use Rattle.sp_parse_statements.specs.Heads.{head_of, least_simple};
ghost use Rattle.sp_parse_statements.specs.declared.heads.Head.TheVariants.{Simple};
ghost use Rattle.sp_parse_statements.specs.declared.heads.SimpleKind.TheVariants.{
  Empty,
  Named,
  Expression,
  Goto,
  Jump,
  Return,
};

use crate::heads::SimpleKind;
use crate::makers::{empty, expression, goto, jump, return_of};
use crate::parts::{first_place, read_clause};
use sp_base_kept::keeping;
use sp_parse_expr_reader::{read_level, read_suffixes, read_tail};
use sp_parse_expr_steps::COMMA;
use sp_parse_tokens::{
    AlsoAllowed, Context, Mark, Operand, Part, ReadError, expect, fault, next_token,
};
use sp_parse_trees::{Expr, Statement};
use sp_tree::{Kind, Token};

/// A statement without a statement inside.
pub(crate) fn read_simple<'a>(
    context: Context<'_>,
    kind: SimpleKind,
    tokens: &'a [Token],
    depth: u32,
) -> Result<Part<'a, Statement>, ReadError<'a>>
    requires ended { IsEnded tokens.now }
    requires head { head_of context.types.now tokens.now ≡ Simple kind }
    requires room { least_simple kind ≤ depth }
    ensures { Takes (context_of context.entry) grammar.statement depth tokens.now statement_of result }
{
    match kind {
        SimpleKind::Empty => read_empty(context, tokens, depth),
        SimpleKind::Named => read_named(context, tokens, depth),
        SimpleKind::Expression => read_expression(context, tokens, depth),
        SimpleKind::Goto => read_goto(context, tokens, depth),
        SimpleKind::Jump => read_jump(context, tokens, depth),
        SimpleKind::Return => read_return(context, tokens, depth),
    }
}

/// `;`
fn read_empty<'a>(
    context: Context<'_>,
    tokens: &'a [Token],
    depth: u32,
) -> Result<Part<'a, Statement>, ReadError<'a>>
    requires ended { IsEnded tokens.now }
    requires head { head_of context.types.now tokens.now ≡ Simple Empty }
    requires room { 1 ≤ depth }
    ensures { Takes (context_of context.entry) grammar.statement depth tokens.now statement_of result }
{
    let (semicolon, rest) = next_token(tokens);
    Ok(Part {
        tree: empty(semicolon.place),
        depth: 1,
        rest,
    })
}

/// An expression that begins with no name, and `;`.
fn read_expression<'a>(
    context: Context<'_>,
    tokens: &'a [Token],
    depth: u32,
) -> Result<Part<'a, Statement>, ReadError<'a>>
    requires ended { IsEnded tokens.now }
    requires head { head_of context.types.now tokens.now ≡ Simple Expression }
    requires room { 2 ≤ depth }
    ensures { Takes (context_of context.entry) grammar.statement depth tokens.now statement_of result }
{
    let value = read_level(context, tokens, COMMA, depth - 1)?;
    let end = first_place(value.rest);
    let next = expect(context, AlsoAllowed::Nothing, Mark::Semicolon, value.rest);
    let (rest, tree) = keeping(next, value.tree.tree)?;
    let inner = value.depth;
    Ok(Part {
        tree: expression(tree, end),
        depth: 1 + inner,
        rest,
    })
}

/// The number of a name.
pub(crate) fn number_of(kind: Kind) -> u32
    ensures { result ≡ number_of kind }
{
    match kind {
        Kind::Name(number) | Kind::Text(number) => number,
        _ => 0,
    }
}

/// An expression that begins with a name, and `;`.
fn read_named<'a>(
    context: Context<'_>,
    tokens: &'a [Token],
    depth: u32,
) -> Result<Part<'a, Statement>, ReadError<'a>>
    requires ended { IsEnded tokens.now }
    requires head { head_of context.types.now tokens.now ≡ Simple Named }
    requires room { 2 ≤ depth }
    ensures { Takes (context_of context.entry) grammar.statement depth tokens.now statement_of result }
{
    let (name, rest) = next_token(tokens);
    let tree = Expr::name(number_of(name.kind), name.place);
    let first = read_suffixes(context, rest, tree, 1, depth - 1)?;
    let left = Operand {
        tree: first.tree,
        unary: true,
    };
    let value = read_tail(context, first.rest, left, first.depth, depth - 1)?;
    let end = first_place(value.rest);
    let next = expect(context, AlsoAllowed::Nothing, Mark::Semicolon, value.rest);
    let (rest, tree) = keeping(next, value.tree.tree)?;
    let inner = value.depth;
    Ok(Part {
        tree: expression(tree, end),
        depth: 1 + inner,
        rest,
    })
}

/// Whether the token is a name, that of a type or not.
fn is_name(kind: Kind) -> bool
    ensures { result ≡ is_name (sort_of kind) }
{
    matches!(kind, Kind::Name(_))
}

/// `goto`, a name and `;`.
fn read_goto<'a>(
    context: Context<'_>,
    tokens: &'a [Token],
    depth: u32,
) -> Result<Part<'a, Statement>, ReadError<'a>>
    requires ended { IsEnded tokens.now }
    requires head { head_of context.types.now tokens.now ≡ Simple Goto }
    requires room { 1 ≤ depth }
    ensures { Takes (context_of context.entry) grammar.statement depth tokens.now statement_of result }
{
    let (word, inner) = next_token(tokens);
    let (name, behind) = next_token(inner);
    if !is_name(name.kind) {
        return Err(fault(context, AlsoAllowed::Nothing, inner));
    }
    let end = first_place(behind);
    let rest = expect(context, AlsoAllowed::Nothing, Mark::Semicolon, behind)?;
    Ok(Part {
        tree: goto(number_of(name.kind), word.place, end),
        depth: 1,
        rest,
    })
}

/// `continue` or `break`, and `;`.
fn read_jump<'a>(
    context: Context<'_>,
    tokens: &'a [Token],
    depth: u32,
) -> Result<Part<'a, Statement>, ReadError<'a>>
    requires ended { IsEnded tokens.now }
    requires head { head_of context.types.now tokens.now ≡ Simple Jump }
    requires room { 1 ≤ depth }
    ensures { Takes (context_of context.entry) grammar.statement depth tokens.now statement_of result }
{
    let (word, inner) = next_token(tokens);
    let end = first_place(inner);
    let rest = expect(context, AlsoAllowed::Nothing, Mark::Semicolon, inner)?;
    Ok(Part {
        tree: jump(word.kind, word.place, end),
        depth: 1,
        rest,
    })
}

/// `return`, an expression or none, and `;`.
fn read_return<'a>(
    context: Context<'_>,
    tokens: &'a [Token],
    depth: u32,
) -> Result<Part<'a, Statement>, ReadError<'a>>
    requires ended { IsEnded tokens.now }
    requires head { head_of context.types.now tokens.now ≡ Simple Return }
    requires room { 1 ≤ depth }
    ensures { Takes (context_of context.entry) grammar.statement depth tokens.now statement_of result }
{
    let (word, inner) = next_token(tokens);
    let value = read_clause(context, Mark::Semicolon, inner, depth - 1)?;
    let inner = value.depth;
    Ok(Part {
        tree: return_of(value.tree.value, word.place, value.tree.end),
        depth: 1 + inner,
        rest: value.rest,
    })
}
