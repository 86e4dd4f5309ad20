//! Makers and tests of the readers of expressions, and the reader of suffixes that hold none (C90
//! 6.3).
ghost use Rattle.std.specs.Prelude.{◌≡◌, ℕ, ◌<◌, ◌∷◌, ◌||◌, MatchResult, IfOk, map, true, false};
ghost use Rattle.sp_parse_grammar.specs.CTokens.{is_mark as stands_mark, view};
ghost use Rattle.sp_parse_grammar.specs.CTable as grammar;
ghost use Rattle.sp_parse_grammar.specs.CTokens as sorts_there;
ghost use Rattle.sp_tree.specs.declared.token.Token.{Token};
ghost use Rattle.sp_parse_trees.specs.View.{tree_of};
ghost use Rattle.sp_parse_trees.specs.Depth.{depth as depth_of};
ghost use Rattle.sp_parse_tokens.specs.Makers.{punct_of, make_member, number_of};
ghost use Rattle.sp_parse_tokens.specs.Sorts.{terminal, sort_of};
ghost use Rattle.sp_parse_tokens.specs.Ended.{IsEnded};
ghost use Rattle.sp_parse_tokens.specs.Scopes.{context_of, allowed_seen};
ghost use Rattle.sp_parse_tokens.specs.Codes.{sort_seen};
ghost use Rattle.sp_parse_expr_steps.specs.Reading.{IsStop, IsSuffixed, joined_tree, operand_seen, is_suffix, is_prefix};

use crate::primaries::number_of;
use sp_parse_tokens::{
    AlsoAllowed, Context, Mark, Operand, Part, ReadError, Sort, fault, is_mark, next_token, sort_at,
};
use sp_parse_trees::Expr;
use sp_tree::{Kind, Punct, Token};
use std::alloc::{AllocError, Global};

/// The loosest level: the comma.
pub const COMMA: u32 = 13;
/// The level of assignments.
pub const ASSIGNMENT: u32 = 12;
/// The level of conditional expressions.
pub const CONDITIONAL: u32 = 11;

/// The punctuator that the token is.
pub fn punct_of(kind: Kind) -> Punct
    ensures { result ≡ punct_of kind }
{
    match kind {
        Kind::Mark(punct) => punct,
        _ => Punct::Comma,
    }
}

/// Whether the token is an operator before its operand, `sizeof` among them.
pub fn is_prefix(sort: Sort) -> bool
    ensures { result ≡ is_prefix (sort_seen sort) }
{
    matches!(
        sort,
        Sort::Mark(
            Mark::Step | Mark::Star | Mark::Ampersand | Mark::Additive | Mark::Tilde | Mark::Sizeof
        )
    )
}

/// Whether the token begins a unary expression that holds another part: an operator or a `(`.
pub fn begins_nested(sort: Sort) -> bool
    ensures { result ≡
        (is_prefix (sort_seen sort) || stands_mark sorts_there.opening (sort_seen sort)) }
{
    is_prefix(sort) || is_mark(Mark::OpenParen, sort)
}

/// Whether the token goes on with a postfix expression.
pub fn is_suffix(sort: Sort) -> bool
    ensures { result ≡ is_suffix (sort_seen sort) }
{
    matches!(
        sort,
        Sort::Mark(Mark::OpenBracket | Mark::OpenParen | Mark::Member | Mark::Step)
    )
}

/// Whether the token is a name, that of a type or not.
fn is_name(kind: Kind) -> bool
    ensures { result ≡ sorts_there.is_name (sort_of kind) }
{
    matches!(kind, Kind::Name(_))
}

/// The member of this number, behind a `.` or a `->`.
fn member_of(alloc: Global, inner: Expr, token: Token, number: u32) -> Result<Expr, AllocError>
    ensures { IfOk result
        (λ e. (name : Token) → number ≡ number_of name.kind → tree_of e ≡ make_member
        (tree_of inner) token name) }
{
    match token.kind {
        Kind::Mark(Punct::Arrow) => Expr::arrow(alloc, inner, token.place, number),
        _ => Expr::member(alloc, inner, token.place, number),
    }
}

/// An operation of the level with its operands: the comma, or a binary one.
pub fn joined(
    alloc: Global,
    level: u32,
    left: Expr,
    operator: Token,
    right: Expr,
) -> Result<Expr, AllocError>
    ensures { IfOk result
        (λ e. tree_of e ≡ joined_tree level (terminal operator) (tree_of left) (tree_of right)) }
{
    if level == COMMA {
        return Expr::comma(alloc, left, operator.place, right);
    }
    let punct = punct_of(operator.kind);
    Expr::binary(alloc, left, operator.place, punct, right)
}

/// What might stand where the arguments of a call end: one more where there are none.
pub fn call_allowed(arguments: &Vec<Expr>) -> AlsoAllowed
    ensures { allowed_seen result ≡ grammar.at_first (map tree_of arguments.now.items) }
{
    if arguments.is_empty() {
        AlsoAllowed::Name
    } else {
        AlsoAllowed::Nothing
    }
}

/// A suffix that holds no expression, of which the first token is read: a member or a step.
pub fn read_member_or_step<'a>(
    context: Context<'_>,
    tokens: &'a [Token],
    token: Token,
    inner: Expr,
    reached: u32,
) -> Result<Part<'a, Expr>, ReadError<'a>>
    requires ended { IsEnded tokens.now }
    requires suffix { is_suffix (view context.types.now (sort_of token.kind)) ≡ true }
    requires no_index { stands_mark sorts_there.bracket (view context.types.now (sort_of token.kind)) ≡ false }
    requires no_call { stands_mark sorts_there.opening (view context.types.now (sort_of token.kind)) ≡ false }
    requires deep { reached ≡ depth_of (tree_of inner) }
    requires room { reached < 4294967295 }
    ensures { (depth : ℕ) → reached < depth → MatchResult result
        (λ part. IsSuffixed (context_of context.entry) (tree_of inner) depth
        (token ∷ tokens.now) (tree_of part.tree) part.depth part.rest.now)
        (IsStop (context_of context.entry) (grammar.suffixes (tree_of inner)) depth
        (token ∷ tokens.now)) }
{
    if is_mark(Mark::Member, sort_at(context.types, token.kind)) {
        let (name, rest) = next_token(tokens);
        if !is_name(name.kind) {
            drop(inner);
            return Err(fault(context, AlsoAllowed::Nothing, tokens));
        }
        let tree = member_of(context.alloc, inner, token, number_of(name.kind))?;
        return Ok(Part {
            tree,
            depth: 1 + reached,
            rest,
        });
    }
    let punct = punct_of(token.kind);
    let tree = Expr::after(context.alloc, inner, token.place, punct)?;
    Ok(Part {
        tree,
        depth: 1 + reached,
        rest: tokens,
    })
}

/// A unary expression, as an operand.
pub fn as_operand<'a>(part: Part<'a, Expr>) -> Part<'a, Operand>
    ensures tree { operand_seen result.tree ≡ grammar.operand (tree_of part.entry.tree) true }
    ensures depth { result.depth ≡ part.entry.depth }
    ensures rest { result.rest.now ≡ part.entry.rest.now }
{
    Part {
        tree: Operand {
            tree: part.tree,
            unary: true,
        },
        depth: part.depth,
        rest: part.rest,
    }
}
