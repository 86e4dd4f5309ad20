//! The parser of units.
ghost use Rattle.std.specs.Prelude.{◌≡◌, ◌-◌, ◌≤◌, length, take};
ghost use Rattle.sp_parse_tokens.specs.Ended.{IsEnded};
ghost use Rattle.sp_decl_parser.specs.Parsing.{UnitAnswers, UnitRefused};
ghost use Rattle.sp_decl_parser.specs.Units.{IsUnitStop};

use crate::units::read_unit;
use sp_expr_parser::ParseError;
use sp_parse_laws::units_are_parsed;
use sp_parse_tokens::{ReadError, next_token, refined};
use sp_parse_trees::Unit;
use sp_tree::{Fault, FaultKind, Token};
use std::alloc::Global;

/// How many expressions, declarators, specifiers of structures, initialisers and statements may lie
/// inside one another at most.
pub const MAX_DEPTH: u32 = 200;

/// The one levelled unit (C90 6.7) that the tokens spell, with its places.
///
/// Else the failing token, the first with which no unit goes on, with `UnexpectedToken` or one of `OldStyleParameters` to `LongLong`;
/// or `NestingTooDeep` at a token up to which, itself included, units go on, each of them deeper than
/// [`MAX_DEPTH`]; or want of memory. The tokens end with `End`, which is nowhere else
/// ([`crate::is_ended`]).
pub fn parse_unit(alloc: Global, tokens: &[Token]) -> Result<Unit, ParseError>
    requires { IsEnded tokens.now }
    ensures { UnitAnswers MAX_DEPTH tokens.now result }
{
    units_are_parsed();
    match read_unit(alloc, tokens, MAX_DEPTH) {
        Ok(part) => Ok(Unit { items: part.tree }),
        Err(stop) => Err(error_of(tokens, stop)),
    }
}

/// The tokens before these last ones.
fn tokens_before<'a>(tokens: &'a [Token], rest: &[Token]) -> &'a [Token]
    requires { length rest.now ≤ length tokens.now }
    ensures { result.now ≡ take (length tokens.now - length rest.now) tokens.now }
{
    &tokens[..tokens.len() - rest.len()]
}

/// The error of a stop at some of these tokens.
fn error_of(tokens: &[Token], stop: ReadError<'_>) -> ParseError
    requires { IsUnitStop MAX_DEPTH tokens.now stop }
    ensures { UnitRefused MAX_DEPTH tokens.now result }
{
    units_are_parsed();
    match stop {
        ReadError::Fault(kind, rest) => {
            let (bad, _) = next_token(rest);
            let before = tokens_before(tokens, rest);
            ParseError::Fault(Fault {
                kind: refined(kind, before, bad),
                place: bad.place,
            })
        }
        ReadError::TooDeep(rest) => {
            let (bad, _) = next_token(rest);
            ParseError::Fault(Fault {
                kind: FaultKind::NestingTooDeep,
                place: bad.place,
            })
        }
        ReadError::NoMemory => ParseError::NoMemory,
    }
}
