//! Which level of operators goes on behind a part of an expression (C90 6.3).
ghost use Rattle.std.specs.Prelude.{◌≡◌, ◌<◌, ◌≤◌};
ghost use Rattle.sp_parse_tokens.specs.Ended.{IsEnded};
ghost use Rattle.sp_parse_expr_steps.specs.Levels.{NoneBetween, next_level};

use sp_parse_tokens::{Context, looseness, next_token, sort_at};
use sp_tree::Token;

/// The next level to be read behind a part whose operators up to a level are read: that of the first
/// token, where it is an operator of a looser level, and else the loosest. The levels between take
/// nothing.
pub fn next_level(context: Context<'_>, tokens: &[Token], reached: u32, loosest: u32) -> u32
    requires ended { IsEnded tokens.now }
    requires more { reached < loosest }
    ensures exact { result ≡ next_level context.entry.types.now tokens.now reached loosest }
    ensures looser { reached < result }
    ensures within { result ≤ loosest }
    ensures between { NoneBetween context.entry.types.now tokens.now reached result }
{
    let (token, _) = next_token(tokens);
    let found = looseness(sort_at(context.types, token.kind));
    if reached < found && found < loosest {
        found
    } else {
        loosest
    }
}
