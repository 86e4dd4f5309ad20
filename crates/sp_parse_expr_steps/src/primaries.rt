//! Names, constants and strings (C90 6.3.1): what the readers of expressions take without a call of
//! each other.
ghost use Rattle.std.specs.Prelude.{◌≡◌, ◌∷◌, MatchResult, map, true, false};
ghost use Rattle.sp_parse_grammar.specs.CTokens as sorts_there;
ghost use Rattle.sp_parse_grammar.specs.CTokens.{view, is_mark as stands_mark};
ghost use Rattle.sp_parse_grammar.specs.CTable as grammar;
ghost use Rattle.sp_tree.specs.declared.token.Token.{Token};
ghost use Rattle.sp_parse_trees.specs.View.{tree_of};
ghost use Rattle.sp_parse_tokens.specs.Makers.{number_of};
ghost use Rattle.sp_parse_tokens.specs.Sorts.{sort_of};
ghost use Rattle.sp_parse_tokens.specs.Ended.{IsEnded};
ghost use Rattle.sp_parse_tokens.specs.Scopes.{context_of};
ghost use Rattle.sp_parse_expr_steps.specs.Reading.{Answers, IsRead, AreTexts, first_sort, is_operand};
ghost use Rattle.sp_parse_tokens.specs.Codes.{sort_seen};
ghost use Rattle.sp_parse_tokens.specs.declared.part.ReadError.TheVariants.{NoMemory};

use sp_parse_tokens::{AlsoAllowed, Context, Part, ReadError, Sort, fault, next_token, sort_at};
use sp_parse_trees::Expr;
use sp_tree::{Kind, Token};

/// Whether the token is a name, a constant or a string.
fn is_operand(sort: Sort) -> bool
    ensures { result ≡ is_operand (sort_seen sort) }
{
    matches!(sort, Sort::Name(_) | Sort::Constant | Sort::Text)
}

/// A name, a constant or strings, where no `(` stands.
pub fn read_operand<'a>(
    context: Context<'_>,
    tokens: &'a [Token],
    depth: u32,
) -> Result<Part<'a, Expr>, ReadError<'a>>
    requires ended { IsEnded tokens.now }
    requires no_group { stands_mark sorts_there.opening (first_sort context.types.now tokens.now) ≡ false }
    ensures { Answers (context_of context.entry) grammar.primary depth tokens.now tree_of result }
{
    let (token, rest) = next_token(tokens);
    if !is_operand(sort_at(context.types, token.kind)) {
        return Err(fault(context, AlsoAllowed::Name, tokens));
    }
    if depth < 1 {
        return Err(ReadError::TooDeep(tokens));
    }
    read_leaf(context, rest, token)
}

/// A name, a constant or strings, of which the first token is read.
fn read_leaf<'a>(
    context: Context<'_>,
    tokens: &'a [Token],
    token: Token,
) -> Result<Part<'a, Expr>, ReadError<'a>>
    requires ended { IsEnded tokens.now }
    requires operand { is_operand (view context.types.now (sort_of token.kind)) ≡ true }
    ensures { MatchResult result
        (λ part. IsRead (context_of context.entry) grammar.primary 1 (token ∷ tokens.now)
        (tree_of part.tree) part.depth part.rest.now)
        (λ stop. stop ≡ NoMemory) }
{
    match token.kind {
        Kind::Text(_) => {
            let (tree, rest) = read_texts(context, tokens, token)?;
            Ok(Part {
                tree,
                depth: 1,
                rest,
            })
        }
        Kind::Number(number) => Ok(Part {
            tree: Expr::number(number, token.place),
            depth: 1,
            rest: tokens,
        }),
        Kind::Char(value) => Ok(Part {
            tree: Expr::character(value, token.place),
            depth: 1,
            rest: tokens,
        }),
        _ => Ok(Part {
            tree: Expr::name(number_of(token.kind), token.place),
            depth: 1,
            rest: tokens,
        }),
    }
}

/// The number of a name or a text.
pub(crate) fn number_of(kind: Kind) -> u32
    ensures { result ≡ number_of kind }
{
    match kind {
        Kind::Name(number) | Kind::Text(number) => number,
        _ => 0,
    }
}

/// Adjacent strings, of which the first is read, and the tokens behind them.
fn read_texts<'a>(
    context: Context<'_>,
    tokens: &'a [Token],
    first: Token,
) -> Result<(Expr, &'a [Token]), ReadError<'a>>
    requires { IsEnded tokens.now }
    ensures { MatchResult result
        (λ read. AreTexts (context_of context.entry) first tokens.now (tree_of read.0)
        read.1.now)
        (λ stop. stop ≡ NoMemory) }
{
    let mut texts = Vec::new(context.alloc);
    texts.push(number_of(first.kind))?;
    let mut rest = tokens;
    'texts: loop {
        let (token, behind) = next_token(rest);
        match sort_at(context.types, token.kind) {
            Sort::Text => {
                texts.push(number_of(token.kind))?;
                rest = behind;
            }
            _ => break,
        }
    }
    Ok((Expr::text(texts, first.place), rest))
}
