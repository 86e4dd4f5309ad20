//! The readers of expressions (C90 6.3), one for each ask of the grammar's table.
ghost use Rattle.std.specs.Prelude.{◌≡◌, ◌≤◌, ◌<◌, ◌∷◌, MatchResult, map, true};
ghost use Rattle.sp_parse_grammar.specs.CTokens.{view};
ghost use Rattle.sp_parse_grammar.specs.CTable as grammar;
ghost use Rattle.sp_parse_trees.specs.View.{tree_of};
ghost use Rattle.sp_parse_trees.specs.Depth.{depth as depth_of};
ghost use Rattle.sp_parse_tokens.specs.Sorts.{terminal, sort_of};
ghost use Rattle.sp_parse_tokens.specs.Ended.{IsEnded};
ghost use Rattle.sp_parse_tokens.specs.Scopes.{context_of};
ghost use Rattle.sp_parse_expr_steps.specs.Reading.{Answers, IsStop, IsSuffixed, IsGrouped, IsGroupedStop, operand_seen, is_suffix};

use crate::declarators::read_type_name;
use sp_base_kept::keeping;
use sp_parse_expr_ends::{
    assigned, called, chosen, closed_group, converted, grouped_operand, indexed, measured,
    measured_group, measured_type, prefixed, prefixed_unary, unary_operand, until_colon,
    until_target,
};
use sp_parse_expr_lists::{no_arguments, with_argument};
use sp_parse_expr_steps::{
    ASSIGNMENT, COMMA, CONDITIONAL, begins_nested, is_prefix, is_suffix, joined, next_level,
    read_member_or_step, read_operand,
};
use sp_parse_tokens::{
    Context, Mark, Operand, Part, ReadError, continues_level, is_mark, is_specifier, next_token,
    sort_at,
};
use sp_parse_trees::Expr;
use sp_tree::Token;

/// An expression of the level: 0 casts, 1 to 10 binary operators, 11 conditional, 12 assignment, 13
/// comma.
#[cycle(reader)]
pub fn read_level<'a>(
    context: Context<'_>,
    tokens: &'a [Token],
    level: u32,
    depth: u32,
) -> Result<Part<'a, Operand>, ReadError<'a>>
    requires ended { IsEnded tokens.now }
    requires loosest { level ≤ 13 }
    ensures { Answers (context_of context.entry) (grammar.level level) depth tokens.now operand_seen
        result }
{
    let mut part = read_cast(context, tokens, depth)?;
    let mut reached = 0;
    'levels: while reached < level {
        let Part {
            tree,
            depth: inner,
            rest,
        } = part;
        reached = next_level(context, rest, reached, level);
        part = read_operators(context, rest, reached, tree, inner, depth)?;
    }
    Ok(part)
}

/// What is after a left part of an expression, whose depth is given: operators of all levels with
/// their operands. So a name that was taken to see what follows it goes on as an expression, once
/// its suffixes are read ([`read_suffixes`]).
pub fn read_tail<'a>(
    context: Context<'_>,
    tokens: &'a [Token],
    left: Operand,
    inner: u32,
    depth: u32,
) -> Result<Part<'a, Operand>, ReadError<'a>>
    requires ended { IsEnded tokens.now }
    requires deep { inner ≡ depth_of (tree_of left.tree) }
    requires shallow { inner ≤ depth }
    ensures { Answers (context_of context.entry) (grammar.tail 13 (operand_seen left)) depth tokens.now
        operand_seen result }
{
    let mut part = Part {
        tree: left,
        depth: inner,
        rest: tokens,
    };
    let mut reached = 0;
    'levels: while reached < COMMA {
        let Part {
            tree,
            depth: inner,
            rest,
        } = part;
        reached = next_level(context, rest, reached, COMMA);
        part = read_operators(context, rest, reached, tree, inner, depth)?;
    }
    Ok(part)
}

/// Behind a left part of the level, whose depth is given: operators of the level with their
/// operands.
#[cycle(reader)]
fn read_operators<'a>(
    context: Context<'_>,
    tokens: &'a [Token],
    level: u32,
    left: Operand,
    inner: u32,
    depth: u32,
) -> Result<Part<'a, Operand>, ReadError<'a>>
    requires ended { IsEnded tokens.now }
    requires tightest { 1 ≤ level }
    requires loosest { level ≤ 13 }
    requires deep { inner ≡ depth_of (tree_of left.tree) }
    requires shallow { inner ≤ depth }
    ensures { Answers (context_of context.entry) (grammar.after level (operand_seen left)) depth
        tokens.now operand_seen result }
{
    if level == ASSIGNMENT || level == CONDITIONAL {
        return read_right_operand(context, tokens, level, left, inner, depth);
    }
    let Operand {
        mut tree,
        mut unary,
    } = left;
    let mut reached = inner;
    let mut rest = tokens;
    'operators: loop {
        let (token, behind) = next_token(rest);
        if !continues_level(level, unary, sort_at(context.types, token.kind)) {
            break;
        }
        if reached >= depth {
            drop(tree);
            return Err(ReadError::TooDeep(rest));
        }
        let next = read_level(context, behind, level - 1, depth - 1);
        let (right, left) = keeping(next, tree)?;
        tree = joined(context.alloc, level, left, token, right.tree.tree)?;
        unary = false;
        reached = 1 + reached.max(right.depth);
        rest = right.rest;
    }
    Ok(Part {
        tree: Operand { tree, unary },
        depth: reached,
        rest,
    })
}

/// Behind a left part: an assignment, where the left part is a unary expression, or the `?` of a
/// conditional expression.
#[cycle(reader)]
fn read_right_operand<'a>(
    context: Context<'_>,
    tokens: &'a [Token],
    level: u32,
    left: Operand,
    inner: u32,
    depth: u32,
) -> Result<Part<'a, Operand>, ReadError<'a>>
    requires ended { IsEnded tokens.now }
    requires tightest { 11 ≤ level }
    requires loosest { level ≤ 12 }
    requires deep { inner ≡ depth_of (tree_of left.tree) }
    requires shallow { inner ≤ depth }
    ensures { Answers (context_of context.entry) (grammar.after level (operand_seen left)) depth
        tokens.now operand_seen result }
{
    let (token, behind) = next_token(tokens);
    if !continues_level(level, left.unary, sort_at(context.types, token.kind)) {
        return Ok(Part {
            tree: left,
            depth: inner,
            rest: tokens,
        });
    }
    if inner >= depth {
        drop(left);
        return Err(ReadError::TooDeep(tokens));
    }
    if level == ASSIGNMENT {
        let value = read_level(context, behind, ASSIGNMENT, depth - 1);
        return assigned(context, behind, token, left, inner, depth, value);
    }
    let first = read_level(context, behind, COMMA, depth - 1);
    let (first, left) = until_colon(context, behind, token, left, depth, first)?;
    let second = read_level(context, first.rest, CONDITIONAL, depth - 1);
    chosen(context, behind, token, left, first, inner, depth, second)
}

/// A cast, or a unary expression.
#[cycle(reader)]
pub fn read_cast<'a>(
    context: Context<'_>,
    tokens: &'a [Token],
    depth: u32,
) -> Result<Part<'a, Operand>, ReadError<'a>>
    requires { IsEnded tokens.now }
    ensures { Answers (context_of context.entry) (grammar.level 0) depth tokens.now operand_seen result }
{
    let (opening, behind) = next_token(tokens);
    if !is_mark(Mark::OpenParen, sort_at(context.types, opening.kind)) {
        let part = read_unary(context, tokens, depth);
        return unary_operand(context, tokens, depth, part);
    }
    if depth < 2 {
        return Err(ReadError::TooDeep(tokens));
    }
    let (token, _) = next_token(behind);
    if !is_specifier(sort_at(context.types, token.kind)) {
        let part = read_grouped(context, behind, opening, depth);
        return grouped_operand(context, behind, opening, depth, part);
    }
    let name = read_type_name(context, behind, depth - 1);
    let target = until_target(context, behind, opening, depth, name)?;
    let operand = read_cast(context, target.rest, depth - 1);
    converted(context, behind, opening, target, depth, operand)
}

/// Behind a `(`: an expression, `)` and suffixes.
#[cycle(reader)]
fn read_grouped<'a>(
    context: Context<'_>,
    tokens: &'a [Token],
    opening: Token,
    depth: u32,
) -> Result<Part<'a, Expr>, ReadError<'a>>
    requires ended { IsEnded tokens.now }
    requires room { 1 ≤ depth }
    ensures { MatchResult result
        (λ part. IsGrouped (context_of context.entry) opening depth tokens.now
        (tree_of part.tree) part.depth part.rest.now)
        (IsGroupedStop (context_of context.entry) context.entry.scope opening depth tokens.now) }
{
    let inner = read_level(context, tokens, COMMA, depth - 1);
    let group = closed_group(context, tokens, opening, depth, inner)?;
    read_suffixes(context, group.rest, group.tree, group.depth, depth)
}

/// A unary expression.
#[cycle(reader)]
fn read_unary<'a>(
    context: Context<'_>,
    tokens: &'a [Token],
    depth: u32,
) -> Result<Part<'a, Expr>, ReadError<'a>>
    requires { IsEnded tokens.now }
    ensures { Answers (context_of context.entry) grammar.unary depth tokens.now tree_of result }
{
    let (token, rest) = next_token(tokens);
    let sort = sort_at(context.types, token.kind);
    if depth < 2 && begins_nested(sort) {
        return Err(ReadError::TooDeep(tokens));
    }
    if is_mark(Mark::OpenParen, sort) {
        return read_grouped(context, rest, token, depth);
    }
    if is_mark(Mark::Sizeof, sort) {
        return read_after_sizeof(context, rest, token, depth);
    }
    if is_mark(Mark::Step, sort) {
        let operand = read_unary(context, rest, depth - 1);
        return prefixed_unary(context, rest, token, depth, operand);
    }
    if is_prefix(sort) {
        let operand = read_cast(context, rest, depth - 1);
        return prefixed(context, rest, token, depth, operand);
    }
    let part = read_operand(context, tokens, depth)?;
    read_suffixes(context, part.rest, part.tree, part.depth, depth)
}

/// Behind `sizeof`: a type name in parentheses, or a unary expression.
#[cycle(reader)]
fn read_after_sizeof<'a>(
    context: Context<'_>,
    tokens: &'a [Token],
    word: Token,
    depth: u32,
) -> Result<Part<'a, Expr>, ReadError<'a>>
    requires ended { IsEnded tokens.now }
    requires room { 2 ≤ depth }
    ensures { Answers (context_of context.entry) (grammar.behind_sizeof (terminal word)) depth tokens.now
        tree_of result }
{
    let (opening, inside) = next_token(tokens);
    if !is_mark(Mark::OpenParen, sort_at(context.types, opening.kind)) {
        let operand = read_unary(context, tokens, depth - 1);
        return measured(context, tokens, word, depth, operand);
    }
    let (token, _) = next_token(inside);
    if !is_specifier(sort_at(context.types, token.kind)) {
        let operand = read_grouped(context, inside, opening, depth - 1);
        return measured_group(context, inside, word, opening, depth, operand);
    }
    let name = read_type_name(context, inside, depth - 1);
    measured_type(context, inside, word, opening, depth, name)
}

/// What stands behind a postfix expression, whose depth is given.
#[cycle(reader)]
pub fn read_suffixes<'a>(
    context: Context<'_>,
    tokens: &'a [Token],
    inner: Expr,
    reached: u32,
    depth: u32,
) -> Result<Part<'a, Expr>, ReadError<'a>>
    requires ended { IsEnded tokens.now }
    requires deep { reached ≡ depth_of (tree_of inner) }
    requires shallow { reached ≤ depth }
    ensures { Answers (context_of context.entry) (grammar.suffixes (tree_of inner)) depth tokens.now
        tree_of result }
{
    let mut part = Part {
        tree: inner,
        depth: reached,
        rest: tokens,
    };
    'suffixes: loop {
        let (token, behind) = next_token(part.rest);
        if !is_suffix(sort_at(context.types, token.kind)) {
            break;
        }
        if part.depth >= depth {
            let rest = part.rest;
            drop(part);
            return Err(ReadError::TooDeep(rest));
        }
        part = read_suffix(context, behind, token, part.tree, part.depth, depth)?;
    }
    Ok(part)
}

/// One suffix, of which the first token is read: an index, arguments, a member, or a step.
#[cycle(reader)]
fn read_suffix<'a>(
    context: Context<'_>,
    tokens: &'a [Token],
    token: Token,
    inner: Expr,
    reached: u32,
    depth: u32,
) -> Result<Part<'a, Expr>, ReadError<'a>>
    requires ended { IsEnded tokens.now }
    requires suffix { is_suffix (view context.types.now (sort_of token.kind)) ≡ true }
    requires deep { reached ≡ depth_of (tree_of inner) }
    requires shallow { reached < depth }
    ensures { MatchResult result
        (λ part. IsSuffixed (context_of context.entry) (tree_of inner) depth
        (token ∷ tokens.now) (tree_of part.tree) part.depth part.rest.now)
        (IsStop (context_of context.entry) (grammar.suffixes (tree_of inner)) depth
        (token ∷ tokens.now)) }
{
    let sort = sort_at(context.types, token.kind);
    if is_mark(Mark::OpenBracket, sort) {
        let index = read_level(context, tokens, COMMA, depth - 1);
        return indexed(context, tokens, token, inner, reached, depth, index);
    }
    if is_mark(Mark::OpenParen, sort) {
        let arguments = read_arguments(context, tokens, depth - 1);
        return called(context, tokens, token, inner, reached, depth, arguments);
    }
    read_member_or_step(context, tokens, token, inner, reached)
}

/// The arguments of a call. Their depth is that of the deepest, 0 where there are none.
#[cycle(reader)]
fn read_arguments<'a>(
    context: Context<'_>,
    tokens: &'a [Token],
    depth: u32,
) -> Result<Part<'a, Vec<Expr>>, ReadError<'a>>
    requires { IsEnded tokens.now }
    ensures { Answers (context_of context.entry) grammar.arguments depth tokens.now
        (λ all. map tree_of all.items) result }
{
    let mut arguments = no_arguments(context, tokens, depth);
    'arguments: while arguments.more {
        let next = read_level(context, arguments.rest, ASSIGNMENT, depth);
        arguments = with_argument(context, tokens, arguments, depth, next)?;
    }
    Ok(Part {
        tree: arguments.all,
        depth: arguments.depth,
        rest: arguments.rest,
    })
}
