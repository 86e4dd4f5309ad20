//! Rows on decision diagrams: the sets of two rows of 60 bits, their union and their meet.
ghost use Rattle.std.specs.Prelude.{◌≡◌, ◌<◌, ◌^◌, IfOk};
ghost use Rattle.sp_bdd.specs.Table.{Belongs};

use crate::fields::field;
use sp_bdd::{Bdd, BddError, Manager};
use std::alloc::{AllocError, Global};

/// The count of rows.
const ROWS: u64 = 1 << 60;

// What a row asks: the limit of the nodes, the two rows, and the span in which rows are listed.
#[derive(Clone, Copy)]
struct Asked {
    limit: u64,
    left: u64,
    right: u64,
    first: u64,
    last: u64,
}

fn asked_of(row: &[&str]) -> Option<Asked> {
    Some(Asked {
        limit: field(row, 1).parse().ok()?,
        left: field(row, 2).parse().ok()?,
        right: field(row, 3).parse().ok()?,
        first: field(row, 4).parse().ok()?,
        last: field(row, 5).parse().ok()?,
    })
}

// The rows of a set within a span, and whether it has each of two rows.
fn show(alloc: Global, manager: &Manager, set: Bdd, asked: Asked) -> Result<String, AllocError>
    requires set { Belongs manager.now set }
    requires bits { manager.now.bits ≡ 60 }
    requires last { asked.last < 2 ^ 60 }
{
    let has_left = manager.member(set, asked.left);
    let has_right = manager.member(set, asked.right);
    let mut text = format!(in alloc; "{has_left} {has_right}")?;
    for row in &manager.rows(set, asked.first, asked.last)? {
        let row = format!(in alloc; " {row}")?;
        text.push_str(row.as_str())?;
    }
    Ok(text)
}

// The nodes behind each set that is made, the union, the meet and the first set.
fn tell(alloc: Global, asked: Asked) -> Result<String, BddError>
    requires left { asked.left < 2 ^ 60 }
    requires right { asked.right < 2 ^ 60 }
    requires last { asked.last < 2 ^ 60 }
{
    let mut manager = Manager::new(alloc, 60, asked.limit);
    let left = manager.row(asked.left)?;
    let one = manager.nodes();
    let right = manager.row(asked.right)?;
    let two = manager.nodes();
    let either = manager.or(left, right)?;
    let both = manager.and(left, right)?;
    let all = manager.nodes();
    let is_same = manager.is_same(left, right);
    let union = show(alloc, &manager, either, asked)?;
    let meet = show(alloc, &manager, both, asked)?;
    let first = show(alloc, &manager, left, asked)?;
    let text = format!(in alloc; "{one} {two} {all} {is_same}; {union}; {meet}; {first}")?;
    Ok(text)
}

/// The answer to a row `diagrams LIMIT LEFT RIGHT FIRST LAST`: `full` where the manager may not hold
/// the nodes of all sets, else how many nodes it holds after each row and after all, whether both
/// rows are the same, and of the union, the meet and the first set whether they have each row, and
/// their rows in the span.
pub(crate) fn answer(alloc: Global, row: &[&str]) -> Result<Option<String>, AllocError> {
    let Some(asked) = asked_of(row) else {
        return Ok(None);
    };
    if asked.left >= ROWS || asked.right >= ROWS || asked.last >= ROWS {
        return Ok(None);
    }
    match tell(alloc, asked) {
        Ok(text) => Ok(Some(text)),
        Err(BddError::Full) => Ok(Some(String::from_str(alloc, "full")?)),
        Err(BddError::NoMemory) => Err(AllocError),
    }
}
