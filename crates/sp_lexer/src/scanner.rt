//! The tokens of a text, piece by piece.
ghost use Rattle.std.specs.Prelude.{◌≡◌, ◌+◌, ◌-◌, ◌^◌, ◌<◌, ◌≤◌, length, IfOk};
ghost use Rattle.sp_tree.specs.Names.{AreDistinct, Extends};
ghost use Rattle.sp_lexer.specs.Scan.{start};
ghost use Rattle.sp_lexer.specs.Named.{CollectsAll};
ghost use Rattle.sp_lexer.specs.Answers.{Answers, error_at};

use crate::pieces::pass_piece;
use crate::spot::{Spot, piece_at};
use crate::stop::Stop;
use sp_tree::{Fault, FaultKind, Kind, Names, Place, Token};
use std::alloc::Global;

/// Why a text isn't scanned.
#[derive(Clone, Copy, Debug, PartialEq, Eq)]
pub enum ScanError {
    /// The first fault of the text, or the fault that it has too many tokens.
    Fault(Fault),
    /// Memory ran out.
    NoMemory,
}

/// The error of a piece that isn't passed, at its place.
fn error_at(stop: Stop, place: Place) -> ScanError
    ensures { result ≡ error_at stop place }
{
    match stop {
        Stop::Fault(kind) => ScanError::Fault(Fault { kind, place }),
        Stop::NoMemory => ScanError::NoMemory,
    }
}

/// The tokens of a text, with `End` last, where it has at most `room` others.
///
/// A `Fault` is the first fault of the text, or `TooManyTokens` at the first token past `room` where that stands before it. `name` is the
/// number of the text's name. A text that is scanned adds its own names to `names`, each once, in the order in which they
/// stand in it: its identifiers, the bytes that its string literals stand for, and the names that marker lines give the line
/// after them. A text that is refused may add names too. The old ones keep their numbers.
pub fn scan(
    alloc: Global,
    text: &[u8],
    name: u32,
    room: u64,
    names: &mut Names,
) -> Result<Vec<Token>, ScanError>
    requires held { length names.old + length text.now < 2 ^ 32 - 1 }
    requires named { name < length names.old }

    // The result is what the text is, and the text is nothing else.
    ensures answer { Answers names.new text.now (start name) room result }

    // A text that is scanned adds its own names, in the order in which they stand in it, and nothing else is added.
    ensures named { IfOk result (λ tokens. CollectsAll text.now (start name) names.old names.new) }

    ensures kept { Extends names.old names.new }
    ensures distinct { AreDistinct names.new }
    ensures count { length names.new ≤ length names.old + length text.now }
{
    // No two names have the same bytes, as `len` tells, and each `add` keeps it so.
    let _held = names.len();
    let mut tokens = Vec::new(alloc);
    let mut rest = text;
    let mut spot = Spot::start(name);
    'pieces: while let Some(piece) = piece_at(rest, spot.fresh) {
        let (kind, next, beyond) = match pass_piece(alloc, piece, rest, spot, names) {
            Ok(passed) => passed,
            Err(stop) => return Err(error_at(stop, spot.place)),
        };
        if let Some(kind) = kind {
            let place = spot.place;
            if tokens.len() as u64 == room {
                let kind = FaultKind::TooManyTokens;
                return Err(ScanError::Fault(Fault { kind, place }));
            }
            let Ok(()) = tokens.push(Token { kind, place }) else {
                return Err(ScanError::NoMemory);
            };
        }
        rest = next;
        spot = beyond;
    }
    let end = Token {
        kind: Kind::End,
        place: spot.place,
    };
    match tokens.push(end) {
        Ok(()) => Ok(tokens),
        Err(_) => Err(ScanError::NoMemory),
    }
}
