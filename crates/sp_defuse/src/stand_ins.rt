//! One location for those next to it that the same functions touch.
//!
//! Most locations are those of one function, and stand side by side. So what functions access is
//! found for a few of them alone, and kept for these.
ghost use Rattle.std.specs.Prelude.{◌≡◌, ◌<◌, ◌^◌, true, length, IfOk};
ghost use Rattle.sp_base_sets.specs.Reached.{row};
ghost use Rattle.sp_defuse.specs.StandIns.{StandFor};

use sp_base_sets::NumberSet;
use std::alloc::{AllocError, Global};

/// Whether two locations have the same owners, the one before the other.
fn are_alike(owners: &[NumberSet], one: u32, other: u32) -> bool
    requires { other < length owners.now }
    ensures before { result ≡ true → one < other }
    ensures same { result ≡ true → row owners.now one ≡ row owners.now other }
{
    one < other && owners[one as usize].as_slice() == owners[other as usize].as_slice()
}

/// The location that stands for each. The others have no owners any more.
pub(crate) fn stand_ins_of(
    alloc: Global,
    owners: &mut Vec<NumberSet>,
) -> Result<Vec<u32>, AllocError>
    requires { length owners.old.items < 2 ^ 32 }
    ensures { IfOk result (λ stand_ins.
        StandFor owners.old.items (length owners.old.items) owners.new.items stand_ins.items) }
{
    let mut stand_ins = Vec::new(alloc);
    let mut last = 0;
    for location in 0..owners.len() as u32 {
        if are_alike(owners, last, location) {
            owners[location as usize] = NumberSet::new(alloc);
        } else {
            last = location;
        }
        stand_ins.push(last)?;
    }
    Ok(stand_ins)
}
