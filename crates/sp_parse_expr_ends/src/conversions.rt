//! The closings of `sizeof` and of casts (C90 6.3.3.4, 6.3.4), whose `(` may begin a group or a type
//! name.
ghost use Rattle.std.specs.Prelude.{◌≡◌, ◌-◌, ◌≤◌, ◌∷◌, MatchResult, true, false};
ghost use Rattle.sp_parse_grammar.specs.CTokens.{view, is_mark as stands_mark, is_specifier as stands_specifier};
ghost use Rattle.sp_parse_grammar.specs.CTokens as sorts_there;
ghost use Rattle.sp_parse_grammar.specs.CTable as grammar;
ghost use Rattle.sp_parse_trees.specs.View.{tree_of, type_name_of};
ghost use Rattle.sp_parse_tokens.specs.Sorts.{terminal, sort_of};
ghost use Rattle.sp_parse_tokens.specs.Ended.{IsEnded};
ghost use Rattle.sp_parse_tokens.specs.Scopes.{context_of};
ghost use Rattle.sp_parse_expr_steps.specs.Reading.{Answers, IsStop, IsGrouped, IsGroupedStop, IsTypeName, operand_seen, first_sort};
ghost use Rattle.sp_parse_expr_ends.specs.Closing.{IsTarget};

use sp_base_kept::keeping;
use sp_parse_expr_steps::as_operand;
use sp_parse_tokens::{Context, Mark, Operand, Part, ReadError, TypeNamePart, expect};
use sp_parse_trees::{Expr, TypeName};
use sp_tree::Token;

/// `sizeof` of a unary expression that begins with no `(`.
pub fn measured<'a>(
    context: Context<'_>,
    tokens: &'a [Token],
    word: Token,
    depth: u32,
    operand: Result<Part<'a, Expr>, ReadError<'a>>,
) -> Result<Part<'a, Expr>, ReadError<'a>>
    requires ended { IsEnded tokens.now }
    requires room { 1 ≤ depth }
    requires begun { stands_mark sorts_there.opening (first_sort context.types.now tokens.now) ≡ false }
    requires read { Answers (context_of context) grammar.unary (depth - 1) tokens.now tree_of operand }
    ensures { Answers (context_of context.entry) (grammar.behind_sizeof (terminal word)) depth tokens.now
        tree_of result }
{
    let operand = operand?;
    let tree = Expr::sizeof_expr(context.alloc, word.place, operand.tree)?;
    Ok(Part {
        tree,
        depth: 1 + operand.depth,
        rest: operand.rest,
    })
}

/// `sizeof` of a group with its suffixes, behind the `(`.
pub fn measured_group<'a>(
    context: Context<'_>,
    tokens: &'a [Token],
    word: Token,
    opening: Token,
    depth: u32,
    operand: Result<Part<'a, Expr>, ReadError<'a>>,
) -> Result<Part<'a, Expr>, ReadError<'a>>
    requires ended { IsEnded tokens.now }
    requires room { 2 ≤ depth }
    requires opening { stands_mark sorts_there.opening (view context.types.now (sort_of opening.kind)) ≡ true }
    requires begun { stands_specifier (first_sort context.types.now tokens.now) ≡ false }
    requires read { MatchResult operand
        (λ part. IsGrouped (context_of context) opening (depth - 1) tokens.now
        (tree_of part.tree) part.depth part.rest.now)
        (IsGroupedStop (context_of context) context.scope opening (depth - 1) tokens.now) }
    ensures { Answers (context_of context.entry) (grammar.behind_sizeof (terminal word)) depth
        (opening ∷ tokens.now) tree_of result }
{
    let operand = operand?;
    let tree = Expr::sizeof_expr(context.alloc, word.place, operand.tree)?;
    Ok(Part {
        tree,
        depth: 1 + operand.depth,
        rest: operand.rest,
    })
}

/// `sizeof` of a type name, behind the `(`.
pub fn measured_type<'a>(
    context: Context<'_>,
    tokens: &'a [Token],
    word: Token,
    opening: Token,
    depth: u32,
    name: Result<Part<'a, TypeNamePart>, ReadError<'a>>,
) -> Result<Part<'a, Expr>, ReadError<'a>>
    requires ended { IsEnded tokens.now }
    requires room { 2 ≤ depth }
    requires opening { stands_mark sorts_there.opening (view context.types.now (sort_of opening.kind)) ≡ true }
    requires begun { stands_specifier (first_sort context.types.now tokens.now) ≡ true }
    requires read { MatchResult name
        (λ part. IsTypeName (context_of context) (depth - 1) tokens.now
        (type_name_of part.tree.tree) part.tree.behind part.depth part.rest.now)
        (IsStop (context_of context) grammar.type_name (depth - 1) tokens.now) }
    ensures { Answers (context_of context.entry) (grammar.behind_sizeof (terminal word)) depth
        (opening ∷ tokens.now) tree_of result }
{
    let name = name?;
    let next = expect(context, name.tree.behind, Mark::CloseParen, name.rest);
    let (rest, measured) = keeping(next, name.tree.tree)?;
    let tree = Expr::sizeof_type(context.alloc, word.place, measured)?;
    Ok(Part {
        tree,
        depth: 1 + name.depth,
        rest,
    })
}

/// The type name of a cast and its `)`, behind the `(`.
pub fn until_target<'a>(
    context: Context<'_>,
    tokens: &'a [Token],
    opening: Token,
    depth: u32,
    name: Result<Part<'a, TypeNamePart>, ReadError<'a>>,
) -> Result<Part<'a, TypeName>, ReadError<'a>>
    requires ended { IsEnded tokens.now }
    requires room { 2 ≤ depth }
    requires opening { stands_mark sorts_there.opening (view context.types.now (sort_of opening.kind)) ≡ true }
    requires begun { stands_specifier (first_sort context.types.now tokens.now) ≡ true }
    requires read { MatchResult name
        (λ part. IsTypeName (context_of context) (depth - 1) tokens.now
        (type_name_of part.tree.tree) part.tree.behind part.depth part.rest.now)
        (IsStop (context_of context) grammar.type_name (depth - 1) tokens.now) }
    ensures { MatchResult result
        (λ part. IsTarget (context_of context.entry) (depth - 1) tokens.now part.tree part.depth
        part.rest.now)
        (IsStop (context_of context.entry) (grammar.level 0) depth (opening ∷ tokens.now)) }
{
    let name = name?;
    let next = expect(context, name.tree.behind, Mark::CloseParen, name.rest);
    let (rest, tree) = keeping(next, name.tree.tree)?;
    Ok(Part {
        tree,
        depth: name.depth,
        rest,
    })
}

/// A cast, of which the type name and its `)` are read.
pub fn converted<'a>(
    context: Context<'_>,
    tokens: &'a [Token],
    opening: Token,
    target: Part<'a, TypeName>,
    depth: u32,
    operand: Result<Part<'a, Operand>, ReadError<'a>>,
) -> Result<Part<'a, Operand>, ReadError<'a>>
    requires ended { IsEnded tokens.now }
    requires room { 2 ≤ depth }
    requires opening { stands_mark sorts_there.opening (view context.types.now (sort_of opening.kind)) ≡ true }
    requires begun { stands_specifier (first_sort context.types.now tokens.now) ≡ true }
    requires target { IsTarget (context_of context) (depth - 1) tokens.now target.tree target.depth
        target.rest.now }
    requires read { Answers (context_of context) (grammar.level 0) (depth - 1) target.rest.now operand_seen
        operand }
    ensures { Answers (context_of context.entry) (grammar.level 0) depth (opening ∷ tokens.now)
        operand_seen result }
{
    let (operand, name) = keeping(operand, target.tree)?;
    let tree = Expr::cast(context.alloc, opening.place, name, operand.tree.tree)?;
    Ok(Part {
        tree: Operand { tree, unary: false },
        depth: 1 + target.depth.max(operand.depth),
        rest: operand.rest,
    })
}

/// A unary expression that begins with no `(`, as an operand.
pub fn unary_operand<'a>(
    context: Context<'_>,
    tokens: &'a [Token],
    depth: u32,
    part: Result<Part<'a, Expr>, ReadError<'a>>,
) -> Result<Part<'a, Operand>, ReadError<'a>>
    requires ended { IsEnded tokens.now }
    requires begun { stands_mark sorts_there.opening (first_sort context.types.now tokens.now) ≡ false }
    requires read { Answers (context_of context) grammar.unary depth tokens.now tree_of part }
    ensures { Answers (context_of context.entry) (grammar.level 0) depth tokens.now operand_seen
        result }
{
    let part = part?;
    Ok(as_operand(part))
}

/// A group with its suffixes, behind the `(`, as an operand.
pub fn grouped_operand<'a>(
    context: Context<'_>,
    tokens: &'a [Token],
    opening: Token,
    depth: u32,
    part: Result<Part<'a, Expr>, ReadError<'a>>,
) -> Result<Part<'a, Operand>, ReadError<'a>>
    requires ended { IsEnded tokens.now }
    requires opening { stands_mark sorts_there.opening (view context.types.now (sort_of opening.kind)) ≡ true }
    requires begun { stands_specifier (first_sort context.types.now tokens.now) ≡ false }
    requires read { MatchResult part
        (λ part. IsGrouped (context_of context) opening depth tokens.now (tree_of part.tree)
        part.depth part.rest.now)
        (IsGroupedStop (context_of context) context.scope opening depth tokens.now) }
    ensures { Answers (context_of context.entry) (grammar.level 0) depth (opening ∷ tokens.now)
        operand_seen result }
{
    let part = part?;
    Ok(as_operand(part))
}
