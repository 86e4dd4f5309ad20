//! Triples as rows that may be kept: for each node its pairs of location and target, ascending.
ghost use Rattle.std.specs.Prelude.{◌≡◌, ◌<◌, ◌^◌, true, length, All, IfOk, IfSome};
ghost use Rattle.sp_engine_keeping.specs.Triples.{is_before, Ascends, AreWithin};

use sp_lattice::rows::Rows;
use std::alloc::{AllocError, Global};

fn is_before(one: (u32, u32), other: (u32, u32)) -> bool
    ensures { result ≡ is_before one other }
{
    one.0 < other.0 || one.0 == other.0 && one.1 < other.1
}

// Whether each pair comes before the next.
fn ascends(row: &[(u32, u32)]) -> bool
    ensures { result ≡ true → Ascends row.now }
{
    for place in 1..row.len() {
        if !is_before(row[place - 1], row[place]) {
            return false;
        }
    }
    true
}

// Whether locations and targets are below these counts.
fn are_within(row: &[(u32, u32)], locations: u32, nodes: u32) -> bool
    ensures { result ≡ true → AreWithin locations nodes row.now }
{
    for (location, target) in row {
        if *location >= locations || *target >= nodes {
            return false;
        }
    }
    true
}

/// The rows of these lists; none where one doesn't ascend, or has a location or a target past the
/// counts.
pub(crate) fn checked(
    alloc: Global,
    lists: &[Vec<(u32, u32)>],
    locations: u32,
) -> Result<Option<Rows<(u32, u32)>>, AllocError>
    ensures { IfOk result (λ made. IfSome made (λ rows.
        (length rows < 2 ^ 32) × All Ascends rows × All (AreWithin locations (length rows)) rows)) }
{
    let Ok(nodes) = u32::try_from(lists.len()) else {
        return Ok(None);
    };
    let mut rows = Rows::with_capacity(alloc, lists.len(), 0)?;
    for list in lists {
        if !ascends(list) || !are_within(list, locations, nodes) {
            return Ok(None);
        }
        rows.push_row(list)?;
    }
    Ok(Some(rows))
}
