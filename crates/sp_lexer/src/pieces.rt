//! Passing one piece of a text.
ghost use Rattle.std.specs.Prelude.{◌≡◌, ℕ, ◌-◌, ◌^◌, ◌<◌, List, length, Some, None, IfOk, IfErr};
ghost use Rattle.sp_lexer.specs.Scan.{piece_at, Step};
ghost use Rattle.sp_lexer.specs.Named.{Adds};
ghost use Rattle.sp_lexer.specs.Steps.{Fits, Grows, IfStands, Passed, token_of};

use crate::bytes::split_line;
use crate::extents::comment_length;
use crate::markers::{Marker, read_marker};
use crate::spellings::token_at;
use crate::spot::{Piece, Spot};
use crate::stop::Stop;
use sp_tree::{FaultKind, Kind, Names, Place};
use std::alloc::Global;

/// What follows a blank, and its spot.
fn pass_blank(text: &[u8], spot: Spot) -> (&[u8], Spot)
    requires piece { piece_at spot.fresh text.now ≡ Some Piece.Blank }
    requires some { 0 < length text.now }
    requires fits { Fits spot text.now }
    ensures step { (names : List (List ℕ)) → Step names text.now spot None result.0.now result.1 }
    ensures passed { Passed text.now result.0.now result.1 }
{
    let Some((blank, next)) = text.split_first() else {
        unreachable!()
    };
    (next, spot.after_blank(*blank))
}

/// What follows a comment to the end of its line, and its spot.
fn pass_line_comment(text: &[u8], spot: Spot) -> (&[u8], Spot)
    requires piece { piece_at spot.fresh text.now ≡ Some Piece.LineComment }
    requires some { 0 < length text.now }
    requires fits { Fits spot text.now }
    ensures step { (names : List (List ℕ)) → Step names text.now spot None result.0.now result.1 }
    ensures passed { Passed text.now result.0.now result.1 }
{
    let (line, next) = split_line(text);
    (next, spot.along(line.len()))
}

/// What follows a comment between `/*` and `*/`, and its spot.
fn pass_block_comment(text: &[u8], spot: Spot) -> Result<(&[u8], Spot), Stop>
    requires piece { piece_at spot.fresh text.now ≡ Some Piece.BlockComment }
    requires fits { Fits spot text.now }
    ensures step { IfOk result (λ r. (names : List (List ℕ)) → Step names text.now spot None r.0.now r.1) }
    ensures passed { IfOk result (λ r. Passed text.now r.0.now r.1) }
    ensures fault { IfErr result (IfStands text.now spot) }
{
    let Some(length) = comment_length(text) else {
        return Err(Stop::Fault(FaultKind::OpenComment));
    };
    let (comment, next) = text.split_at(length);
    Ok((next, spot.after_comment(comment)))
}

/// What follows a marker line, and its spot.
fn pass_marker_line<'a>(
    text: &'a [u8],
    spot: Spot,
    names: &mut Names,
) -> Result<(&'a [u8], Spot), Stop>
    requires piece { piece_at spot.fresh text.now ≡ Some Piece.MarkerLine }
    requires some { 0 < length text.now }
    requires fits { Fits spot text.now }
    requires room { length names.old < 2 ^ 32 - 1 }
    ensures step { IfOk result (λ r. Step names.new text.now spot None r.0.now r.1) }
    ensures passed { IfOk result (λ r. Passed text.now r.0.now r.1) }
    ensures fault { IfErr result (IfStands text.now spot) }
    ensures names { Grows names.old names.new }
    ensures named { IfOk result (λ r. Adds names.old names.new text.now spot r.0.now r.1) }
{
    let (line, rest) = split_line(text);
    let Some(marker) = read_marker(line) else {
        return Err(Stop::Fault(FaultKind::BadMarker));
    };
    let beyond = spot.along(line.len());
    let Marker::Named { line, name } = marker else {
        return Ok((rest, beyond));
    };
    let Some((_, next)) = rest.split_first() else {
        return Ok((rest, beyond));
    };
    let name = names.add(name)?;
    let place = Place {
        name,
        line,
        column: 1,
    };
    Ok((next, Spot { place, fresh: true }))
}

/// What follows a spelling, its spot, and the kind of its token.
fn pass_spelling<'a>(
    alloc: Global,
    text: &'a [u8],
    spot: Spot,
    names: &mut Names,
) -> Result<(Kind, &'a [u8], Spot), Stop>
    requires piece { piece_at spot.fresh text.now ≡ Some Piece.Spelling }
    requires some { 0 < length text.now }
    requires fits { Fits spot text.now }
    requires room { length names.old < 2 ^ 32 - 1 }
    ensures step { IfOk result (λ r. Step names.new text.now spot (token_of (Some r.0) spot.place) r.1.now r.2) }
    ensures passed { IfOk result (λ r. Passed text.now r.1.now r.2) }
    ensures fault { IfErr result (IfStands text.now spot) }
    ensures names { Grows names.old names.new }
    ensures named { IfOk result (λ r. Adds names.old names.new text.now spot r.1.now r.2) }
{
    let (kind, length) = token_at(alloc, text, names)?;
    let (_, next) = text.split_at(length);
    Ok((kind, next, spot.along(length)))
}

/// What follows a piece, its spot, and the kind of its token where it is a spelling.
pub(crate) fn pass_piece<'a>(
    alloc: Global,
    piece: Piece,
    text: &'a [u8],
    spot: Spot,
    names: &mut Names,
) -> Result<(Option<Kind>, &'a [u8], Spot), Stop>
    requires piece { piece_at spot.fresh text.now ≡ Some piece }
    requires some { 0 < length text.now }
    requires fits { Fits spot text.now }
    requires room { length names.old < 2 ^ 32 - 1 }
    ensures step { IfOk result (λ r. Step names.new text.now spot (token_of r.0 spot.place) r.1.now r.2) }
    ensures passed { IfOk result (λ r. Passed text.now r.1.now r.2) }
    ensures fault { IfErr result (IfStands text.now spot) }
    ensures names { Grows names.old names.new }
    ensures named { IfOk result (λ r. Adds names.old names.new text.now spot r.1.now r.2) }
{
    match piece {
        Piece::Blank => {
            let (next, beyond) = pass_blank(text, spot);
            Ok((None, next, beyond))
        }
        Piece::LineComment => {
            let (next, beyond) = pass_line_comment(text, spot);
            Ok((None, next, beyond))
        }
        Piece::BlockComment => {
            let (next, beyond) = pass_block_comment(text, spot)?;
            Ok((None, next, beyond))
        }
        Piece::MarkerLine => {
            let (next, beyond) = pass_marker_line(text, spot, names)?;
            Ok((None, next, beyond))
        }
        Piece::Spelling => {
            let (kind, next, beyond) = pass_spelling(alloc, text, spot, names)?;
            Ok((Some(kind), next, beyond))
        }
    }
}
