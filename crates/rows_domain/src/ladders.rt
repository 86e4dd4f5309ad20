//! Rows on the ladder: `ladder CONSTANTS down V`, `ladder CONSTANTS up V`, `ladder CONSTANTS
//! points`.
use crate::fields;
use sp_lattice::{HIGHEST, LOWEST, Ladder, MOST_CONSTANTS};
use std::alloc::{AllocError, Global};

// Where the ladder moves the number, down or up; none where it is out of the ladder's bounds.
fn snapped(ladder: &Ladder, way: &str, number: &str) -> Option<i128> {
    let number: i128 = number.parse().ok()?;
    if number < LOWEST || HIGHEST < number {
        return None;
    }
    match way {
        "down" => Some(ladder.snap_down(number)),
        "up" => Some(ladder.snap_up(number)),
        _ => None,
    }
}

// The points, apart by commas.
fn points(alloc: Global, ladder: &Ladder) -> Result<String, AllocError> {
    let mut text = String::new(alloc);
    for point in ladder.points() {
        if !text.is_empty() {
            text.push(',')?;
        }
        text.push_str(format!(in alloc; "{point}")?.as_str())?;
    }
    Ok(text)
}

/// The answer to a row.
pub(crate) fn answer(
    alloc: Global,
    constants: &str,
    way: &str,
    number: &str,
) -> Result<Option<String>, AllocError> {
    let ladder = Ladder::new(alloc, &fields::constants(alloc, constants)?, MOST_CONSTANTS)?;
    if way == "points" {
        return Ok(Some(points(alloc, &ladder)?));
    }
    match snapped(&ladder, way, number) {
        Some(point) => Ok(Some(format!(in alloc; "{point}")?)),
        None => Ok(None),
    }
}
