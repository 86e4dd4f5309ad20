//! Texts that end.
ghost use Rattle.std.specs.Prelude.{IsTrue, ◌↔◌};
ghost use Rattle.sp_parse_tokens.specs.Ended.{IsEnded};

use sp_tree::{Kind, Token};

/// Whether the tokens end with `End`, which is nowhere else, as the parsers want them.
pub fn is_ended(tokens: &[Token]) -> bool
    ensures { IsTrue result ↔ (IsEnded tokens.now) }
{
    let mut rest = tokens;
    'tokens: loop {
        match rest {
            [] => return false,
            [last] => return matches!(last.kind, Kind::End),
            [first, more @ ..] => {
                if matches!(first.kind, Kind::End) {
                    return false;
                }
                rest = more;
            }
        }
    }
}
