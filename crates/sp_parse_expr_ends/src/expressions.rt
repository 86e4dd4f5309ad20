//! The closings of expressions (C90 6.3).
ghost use Rattle.std.specs.Prelude.{◌≡◌, ◌-◌, ◌≤◌, ◌<◌, ◌∷◌, MatchResult, map, true, false};
ghost use Rattle.sp_parse_grammar.specs.CTokens.{view, is_mark as stands_mark};
ghost use Rattle.sp_parse_grammar.specs.CTokens as sorts_there;
ghost use Rattle.sp_parse_grammar.specs.CTable as grammar;
ghost use Rattle.sp_parse_trees.specs.View.{tree_of};
ghost use Rattle.sp_parse_trees.specs.Depth.{depth as depth_of};
ghost use Rattle.sp_parse_tokens.specs.Sorts.{sort_of};
ghost use Rattle.sp_parse_tokens.specs.Scopes.{context_of};
ghost use Rattle.sp_parse_expr_steps.specs.Reading.{Answers, IsGroupedStop, IsStop, IsSuffixed, operand_seen, is_prefix};
ghost use Rattle.sp_parse_expr_ends.specs.Closing.{IsBehindColon, IsGroup};

use sp_base_kept::keeping;
use sp_parse_expr_steps::{call_allowed, punct_of};
use sp_parse_tokens::{AlsoAllowed, Context, Mark, Operand, Part, ReadError, expect};
use sp_parse_trees::Expr;
use sp_tree::Token;

/// An index of what stands before the `[`.
pub fn indexed<'a>(
    context: Context<'_>,
    tokens: &'a [Token],
    opening: Token,
    inner: Expr,
    reached: u32,
    depth: u32,
    index: Result<Part<'a, Operand>, ReadError<'a>>,
) -> Result<Part<'a, Expr>, ReadError<'a>>
    requires opening { stands_mark sorts_there.bracket (view context.types.now (sort_of opening.kind)) ≡ true }
    requires deep { reached ≡ depth_of (tree_of inner) }
    requires shallow { reached < depth }
    requires read { Answers (context_of context) (grammar.level 13) (depth - 1) tokens.now operand_seen index }
    ensures { MatchResult result
        (λ part. IsSuffixed (context_of context.entry) (tree_of inner) depth
        (opening ∷ tokens.now) (tree_of part.tree) part.depth part.rest.now)
        (IsStop (context_of context.entry) (grammar.suffixes (tree_of inner)) depth
        (opening ∷ tokens.now)) }
{
    let (index, inner) = keeping(index, inner)?;
    let next = expect(
        context,
        AlsoAllowed::Nothing,
        Mark::CloseBracket,
        index.rest,
    );
    let (rest, (inner, at)) = keeping(next, (inner, index.tree.tree))?;
    let tree = Expr::index(context.alloc, inner, opening.place, at)?;
    Ok(Part {
        tree,
        depth: 1 + reached.max(index.depth),
        rest,
    })
}

/// A call of what stands before the `(`.
pub fn called<'a>(
    context: Context<'_>,
    tokens: &'a [Token],
    opening: Token,
    inner: Expr,
    reached: u32,
    depth: u32,
    arguments: Result<Part<'a, Vec<Expr>>, ReadError<'a>>,
) -> Result<Part<'a, Expr>, ReadError<'a>>
    requires opening { stands_mark sorts_there.opening (view context.types.now (sort_of opening.kind)) ≡ true }
    requires deep { reached ≡ depth_of (tree_of inner) }
    requires shallow { reached < depth }
    requires read { Answers (context_of context) grammar.arguments (depth - 1) tokens.now
        (λ all. map tree_of all.items) arguments }
    ensures { MatchResult result
        (λ part. IsSuffixed (context_of context.entry) (tree_of inner) depth
        (opening ∷ tokens.now) (tree_of part.tree) part.depth part.rest.now)
        (IsStop (context_of context.entry) (grammar.suffixes (tree_of inner)) depth
        (opening ∷ tokens.now)) }
{
    let (arguments, called) = keeping(arguments, inner)?;
    let also_allowed = call_allowed(&arguments.tree);
    let next = expect(context, also_allowed, Mark::CloseParen, arguments.rest);
    let (rest, (called, given)) = keeping(next, (called, arguments.tree))?;
    let tree = Expr::call(context.alloc, called, opening.place, given)?;
    Ok(Part {
        tree,
        depth: 1 + reached.max(arguments.depth),
        rest,
    })
}

/// An assignment to what stands before the operator.
pub fn assigned<'a>(
    context: Context<'_>,
    tokens: &'a [Token],
    operator: Token,
    left: Operand,
    inner: u32,
    depth: u32,
    value: Result<Part<'a, Operand>, ReadError<'a>>,
) -> Result<Part<'a, Operand>, ReadError<'a>>
    requires operator { grammar.stands_behind 12 left.unary (view context.types.now (sort_of operator.kind)) ≡ true }
    requires deep { inner ≡ depth_of (tree_of left.tree) }
    requires shallow { inner < depth }
    requires read { Answers (context_of context) (grammar.level 12) (depth - 1) tokens.now operand_seen value }
    ensures { Answers (context_of context.entry) (grammar.after 12 (operand_seen left)) depth
        (operator ∷ tokens.now) operand_seen result }
{
    let (value, target) = keeping(value, left.tree)?;
    let punct = punct_of(operator.kind);
    let tree = Expr::assign(
        context.alloc,
        target,
        operator.place,
        punct,
        value.tree.tree,
    )?;
    Ok(Part {
        tree: Operand { tree, unary: false },
        depth: 1 + inner.max(value.depth),
        rest: value.rest,
    })
}

/// What stands between the `?` and the `:` of a conditional expression, beside what stands before
/// the `?`.
pub fn until_colon<'a>(
    context: Context<'_>,
    tokens: &'a [Token],
    operator: Token,
    left: Operand,
    depth: u32,
    first: Result<Part<'a, Operand>, ReadError<'a>>,
) -> Result<(Part<'a, Operand>, Operand), ReadError<'a>>
    requires operator { grammar.stands_behind 11 left.unary (view context.types.now (sort_of operator.kind)) ≡ true }
    requires room { 1 ≤ depth }
    requires read { Answers (context_of context) (grammar.level 13) (depth - 1) tokens.now operand_seen first }
    ensures { MatchResult result
        (λ read. IsBehindColon (context_of context.entry) (depth - 1) tokens.now read.0.tree
        read.0.depth read.0.rest.now × (read.1 ≡ left))
        (IsStop (context_of context.entry) (grammar.after 11 (operand_seen left)) depth
        (operator ∷ tokens.now)) }
{
    let (first, left) = keeping(first, left)?;
    let next = expect(context, AlsoAllowed::Nothing, Mark::Colon, first.rest);
    let (rest, (tree, left)) = keeping(next, (first.tree, left))?;
    Ok((
        Part {
            tree,
            depth: first.depth,
            rest,
        },
        left,
    ))
}

/// A conditional expression, of which all is read up to the `:`.
pub fn chosen<'a>(
    context: Context<'_>,
    tokens: &'a [Token],
    operator: Token,
    left: Operand,
    first: Part<'a, Operand>,
    inner: u32,
    depth: u32,
    second: Result<Part<'a, Operand>, ReadError<'a>>,
) -> Result<Part<'a, Operand>, ReadError<'a>>
    requires operator { grammar.stands_behind 11 left.unary (view context.types.now (sort_of operator.kind)) ≡ true }
    requires deep { inner ≡ depth_of (tree_of left.tree) }
    requires shallow { inner < depth }
    requires first { IsBehindColon (context_of context) (depth - 1) tokens.now first.tree
        first.depth first.rest.now }
    requires read { Answers (context_of context) (grammar.level 11) (depth - 1) first.rest.now operand_seen second }
    ensures { Answers (context_of context.entry) (grammar.after 11 (operand_seen left)) depth
        (operator ∷ tokens.now) operand_seen result }
{
    let (second, (left, when_true)) = keeping(second, (left.tree, first.tree.tree))?;
    let when_false = second.tree.tree;
    let tree = Expr::choice(context.alloc, left, operator.place, when_true, when_false)?;
    Ok(Part {
        tree: Operand { tree, unary: false },
        depth: 1 + inner.max(first.depth.max(second.depth)),
        rest: second.rest,
    })
}

/// A step before a unary expression.
pub fn prefixed_unary<'a>(
    context: Context<'_>,
    tokens: &'a [Token],
    operator: Token,
    depth: u32,
    operand: Result<Part<'a, Expr>, ReadError<'a>>,
) -> Result<Part<'a, Expr>, ReadError<'a>>
    requires operator { stands_mark sorts_there.step (view context.types.now (sort_of operator.kind)) ≡ true }
    requires read { Answers (context_of context) grammar.unary (depth - 1) tokens.now tree_of operand }
    ensures { Answers (context_of context.entry) grammar.unary depth (operator ∷ tokens.now) tree_of result }
{
    let operand = operand?;
    let punct = punct_of(operator.kind);
    let tree = Expr::unary(context.alloc, operator.place, punct, operand.tree)?;
    Ok(Part {
        tree,
        depth: 1 + operand.depth,
        rest: operand.rest,
    })
}

/// An operator before a cast: neither a step nor `sizeof`.
pub fn prefixed<'a>(
    context: Context<'_>,
    tokens: &'a [Token],
    operator: Token,
    depth: u32,
    operand: Result<Part<'a, Operand>, ReadError<'a>>,
) -> Result<Part<'a, Expr>, ReadError<'a>>
    requires operator { is_prefix (view context.types.now (sort_of operator.kind)) ≡ true }
    requires no_sizeof { stands_mark sorts_there.sizeof (view context.types.now (sort_of operator.kind)) ≡ false }
    requires no_step { stands_mark sorts_there.step (view context.types.now (sort_of operator.kind)) ≡ false }
    requires read { Answers (context_of context) (grammar.level 0) (depth - 1) tokens.now operand_seen operand }
    ensures { Answers (context_of context.entry) grammar.unary depth (operator ∷ tokens.now) tree_of result }
{
    let operand = operand?;
    let punct = punct_of(operator.kind);
    let tree = Expr::unary(context.alloc, operator.place, punct, operand.tree.tree)?;
    Ok(Part {
        tree,
        depth: 1 + operand.depth,
        rest: operand.rest,
    })
}

/// An expression between parentheses, behind the `(`.
pub fn closed_group<'a>(
    context: Context<'_>,
    tokens: &'a [Token],
    opening: Token,
    depth: u32,
    inner: Result<Part<'a, Operand>, ReadError<'a>>,
) -> Result<Part<'a, Expr>, ReadError<'a>>
    requires room { 1 ≤ depth }
    requires read { Answers (context_of context) (grammar.level 13) (depth - 1) tokens.now operand_seen inner }
    ensures { MatchResult result
        (λ part. IsGroup (context_of context.entry) opening depth tokens.now (tree_of part.tree)
        part.depth part.rest.now)
        (IsGroupedStop (context_of context.entry) context.entry.scope opening depth tokens.now) }
{
    let inner = inner?;
    let next = expect(context, AlsoAllowed::Nothing, Mark::CloseParen, inner.rest);
    let (rest, tree) = keeping(next, inner.tree.tree)?;
    Ok(Part {
        tree: Expr::paren(context.alloc, opening.place, tree)?,
        depth: 1 + inner.depth,
        rest,
    })
}
