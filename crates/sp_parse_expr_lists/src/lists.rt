//! Lists that are being read.
ghost use Rattle.std.specs.Prelude.{◌≡◌, ◌++◌, ◌∷◌, [], IfOk};
ghost use Rattle.sp_parse_tokens.specs.Ended.{IsEnded};
ghost use Rattle.sp_parse_expr_lists.specs.Heads.{IsPastComma};

use sp_base_kept::pushed;
use sp_parse_tokens::{Context, Mark, is_mark, next_token, sort_at};
use sp_tree::Token;
use std::alloc::{AllocError, Global};

/// What is listed so far, its depth, the tokens left, and whether more of the list comes there.
#[derive(Drop)]
pub struct Listed<'a, T: Drop> {
    pub all: Vec<T>,
    pub depth: u32,
    pub rest: &'a [Token],
    pub more: bool,
}

/// Whether a comma stands first, and the tokens behind it, or all where none does.
pub fn past_comma<'a>(context: Context<'_>, tokens: &'a [Token]) -> (bool, &'a [Token])
    requires { IsEnded tokens.now }
    ensures { IsPastComma context.entry.types.now tokens.now result.0 result.1.now }
{
    let (token, behind) = next_token(tokens);
    if is_mark(Mark::Comma, sort_at(context.types, token.kind)) {
        (true, behind)
    } else {
        (false, tokens)
    }
}

/// The items and one more. The first has no room for another beside it, since most lists of a
/// program have one.
pub fn with_one<T: Drop>(alloc: Global, all: Vec<T>, item: T) -> Result<Vec<T>, AllocError>
    ensures { IfOk result (λ more. more.items ≡ all.items ++ item ∷ []) }
{
    if !all.is_empty() {
        return pushed(all, item);
    }
    let mut first = Vec::with_capacity(alloc, 1)?;
    first.push(item)?;
    Ok(first)
}
