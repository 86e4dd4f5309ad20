//! Some of a text's tokens.
ghost use Rattle.std.specs.Prelude.{◌≡◌, ◌≤◌, ◌<◌, ◌+◌, ◌-◌, length, take, drop};
ghost use Rattle.sp_parse_tokens.specs.Ended.{IsEnded};

use sp_tree::Token;

/// The tokens from this one on.
pub(crate) fn tokens_from(tokens: &[Token], at: usize) -> &[Token]
    requires ended { IsEnded tokens.now }
    requires within { at < length tokens.now }
    ensures from { result.now ≡ drop at tokens.now }
    ensures ended { IsEnded result.now }
{
    &tokens[at..]
}

/// How many tokens are before these last ones.
pub(crate) fn count_before(tokens: &[Token], rest: &[Token]) -> usize
    requires { length rest.now ≤ length tokens.now }
    ensures { result + length rest.now ≡ length tokens.now }
{
    tokens.len() - rest.len()
}

/// The first tokens, so many.
pub(crate) fn first_tokens(tokens: &[Token], count: usize) -> &[Token]
    requires { count ≤ length tokens.now }
    ensures { result.now ≡ take count tokens.now }
{
    &tokens[..count]
}

/// The tokens from one number up to another.
pub(crate) fn part_of(tokens: &[Token], from: usize, to: usize) -> &[Token]
    requires forward { from ≤ to }
    requires within { to ≤ length tokens.now }
    ensures { result.now ≡ take (to - from) (drop from tokens.now) }
{
    &tokens[from..to]
}
