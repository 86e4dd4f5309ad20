//! The parameters of functions (C90 6.5.4.3).
ghost use Rattle.std.specs.Prelude.{◌+◌, ◌≤◌, MatchResult, length, true};
ghost use Rattle.sp_parse_grammar.specs.CTable as grammar;
ghost use Rattle.sp_parse_tokens.specs.Ended.{IsEnded};
ghost use Rattle.sp_parse_tokens.specs.Scopes.{context_of};
ghost use Rattle.sp_parse_expr_steps.specs.Reading.{IsStop};
ghost use Rattle.sp_parse_expr_steps.specs.Declaring.{IsGiven};
ghost use Rattle.sp_parse_expr_lists.specs.Given.{HasParameters, IsListEnd};

use crate::lists::with_one;
use sp_base_kept::keeping;
use sp_parse_tokens::{
    AlsoAllowed, Context, Mark, ParameterPart, Parameters, Part, ReadError, begins_specifiers,
    is_mark, next_token, sort_at,
};
use sp_tree::Token;

/// Parameters that are being read, their depth, the tokens left, and whether another comes there.
#[derive(Drop)]
pub struct ParameterList<'a> {
    pub given: Parameters,
    pub depth: u32,
    pub rest: &'a [Token],
    pub more: bool,
}

/// What is behind a parameter: whether another comes, or `...`, what else might be there, and the
/// tokens left.
#[derive(Clone, Copy)]
struct ListEnd<'a> {
    more: bool,
    dots: bool,
    also_allowed: AlsoAllowed,
    rest: &'a [Token],
}

/// Behind the `(` of a function's declarator, where its first parameter is left, if there is one.
pub fn no_parameters<'a>(context: Context<'_>, tokens: &'a [Token], depth: u32) -> ParameterList<'a>
    requires { IsEnded tokens.now }
    ensures { HasParameters (context_of context.entry) depth tokens.now result.given result.more result.depth
        result.rest.now }
{
    let (token, _) = next_token(tokens);
    let sort = sort_at(context.types, token.kind);
    let more = begins_specifiers(true, context.scope.in_function, sort);
    ParameterList {
        given: Parameters {
            all: Vec::new(context.alloc),
            dots: false,
            behind: AlsoAllowed::Parameter,
        },
        depth: 0,
        rest: tokens,
        more,
    }
}

/// What is behind a parameter, which says what else might be there.
fn list_end<'a>(context: Context<'_>, tokens: &'a [Token], behind: AlsoAllowed) -> ListEnd<'a>
    requires { IsEnded tokens.now }
    ensures { IsListEnd context.entry.types.now tokens.now behind result.more result.dots result.also_allowed
        result.rest.now }
{
    let (comma, rest) = next_token(tokens);
    if !is_mark(Mark::Comma, sort_at(context.types, comma.kind)) {
        return ListEnd {
            more: false,
            dots: false,
            also_allowed: behind,
            rest: tokens,
        };
    }
    let (ellipsis, last) = next_token(rest);
    if is_mark(Mark::Ellipsis, sort_at(context.types, ellipsis.kind)) {
        return ListEnd {
            more: false,
            dots: true,
            also_allowed: AlsoAllowed::Nothing,
            rest: last,
        };
    }
    ListEnd {
        more: true,
        dots: false,
        also_allowed: behind,
        rest,
    }
}

/// The parameters and one more, or that and `...`.
pub fn with_parameter<'a>(
    context: Context<'_>,
    tokens: &'a [Token],
    parameters: ParameterList<'a>,
    depth: u32,
    next: Result<Part<'a, ParameterPart>, ReadError<'a>>,
) -> Result<ParameterList<'a>, ReadError<'a>>
    requires before { HasParameters (context_of context) depth tokens.now parameters.given true
        parameters.depth parameters.rest.now }
    requires read { MatchResult next
        (λ part. IsGiven (context_of context) depth parameters.rest.now part.tree.tree
        part.tree.behind part.depth part.rest.now)
        (IsStop (context_of context) grammar.parameter depth parameters.rest.now) }
    ensures { MatchResult result
        (λ now. HasParameters (context_of context.entry) depth tokens.now now.given now.more
        now.depth now.rest.now
        × (1 + length now.rest.now ≤ length parameters.entry.rest.now))
        (IsStop (context_of context.entry) grammar.parameters depth tokens.now) }
{
    let (part, all) = keeping(next, parameters.given.all)?;
    let end = list_end(context, part.rest, part.tree.behind);
    let reached = parameters.depth.max(part.depth);
    let all = with_one(context.alloc, all, part.tree.tree)?;
    Ok(ParameterList {
        given: Parameters {
            all,
            dots: end.dots,
            behind: end.also_allowed,
        },
        depth: reached,
        rest: end.rest,
        more: end.more,
    })
}
