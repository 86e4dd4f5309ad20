//! Where a piece of a text begins, and what begins there.
ghost use Rattle.std.specs.Prelude.{◌≡◌, ◌+◌, ◌^◌, ◌<◌, length};
ghost use Rattle.sp_lexer.specs.Scan.{piece_at, start, after_blank, along, beyond_comment};

use crate::bytes::is_blank;
use sp_tree::Place;

/// Where a piece of a text begins.
#[derive(Clone, Copy)]
pub struct Spot {
    pub place: Place,
    /// Whether only blanks stand before it on its line.
    pub fresh: bool,
}

/// What begins at a spot.
#[derive(Clone, Copy)]
pub enum Piece {
    Blank,
    LineComment,
    BlockComment,
    MarkerLine,
    Spelling,
}

/// What begins a text, if it isn't empty; `fresh` says whether only blanks stand before it on its line.
#[tactic(auto, unfolding(crate::specs::Scan::piece_at))]
pub(crate) fn piece_at(text: &[u8], fresh: bool) -> Option<Piece>
    ensures { result ≡ piece_at fresh text.now }
{
    let (first, rest) = text.split_first()?;
    if is_blank(*first) {
        return Some(Piece::Blank);
    }
    match (*first, rest.first()) {
        (b'/', Some(b'/')) => Some(Piece::LineComment),
        (b'/', Some(b'*')) => Some(Piece::BlockComment),
        (b'#', _) if fresh => Some(Piece::MarkerLine),
        _ => Some(Piece::Spelling),
    }
}

impl Spot {
    /// Where a text begins.
    pub(crate) fn start(name: u32) -> Spot
        ensures { result ≡ start name }
    {
        Spot {
            place: Place {
                name,
                line: 1,
                column: 1,
            },
            fresh: true,
        }
    }

    /// The spot after a blank.
    pub(crate) fn after_blank(self, blank: u8) -> Spot
        requires line { self.place.line + 1 < 2 ^ 64 }
        requires column { self.place.column + 1 < 2 ^ 64 }
        ensures { result ≡ after_blank self blank }
    {
        let Place { name, line, column } = self.place;
        if blank == b'\n' {
            Spot {
                place: Place {
                    name,
                    line: line + 1,
                    column: 1,
                },
                fresh: true,
            }
        } else {
            Spot {
                place: Place {
                    name,
                    line,
                    column: column + 1,
                },
                fresh: self.fresh,
            }
        }
    }

    /// The spot after a piece on one line that isn't blank.
    pub(crate) fn along(self, length: usize) -> Spot
        requires { self.place.column + length < 2 ^ 64 }
        ensures { result ≡ along self length }
    {
        let Place { name, line, column } = self.place;
        Spot {
            place: Place {
                name,
                line,
                column: column + length as u64,
            },
            fresh: false,
        }
    }

    /// The spot after a comment of several lines.
    pub(crate) fn after_comment(self, comment: &[u8]) -> Spot
        requires line { self.place.line + length comment.now < 2 ^ 64 }
        requires column { self.place.column + length comment.now < 2 ^ 64 }
        ensures { result ≡ beyond_comment self comment.now }
    {
        let Place {
            name,
            mut line,
            mut column,
        } = self.place;
        for b in comment {
            if *b == b'\n' {
                line += 1;
                column = 1;
            } else {
                column += 1;
            }
        }
        Spot {
            place: Place { name, line, column },
            fresh: false,
        }
    }
}
