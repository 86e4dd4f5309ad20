//! Linking.
ghost use Rattle.std.specs.Prelude.{map};
ghost use Rattle.sp_base_checked.specs.Units.{checked_unit_of};
ghost use Rattle.sp_link_units.specs.Links.{LinksTo};

use crate::by_matching::link_by;
use sp_base_checked::{CheckError, CheckedUnit};
use sp_link_conflicts::check_declarations;
use sp_link_structs::matching;
use sp_tree::{Names, Place};
use sp_types::Program;
use std::alloc::Global;

/// The program of these units, in order, or its fault. `names` tells the bytes of each name; where no
/// unit defines `main` the fault NoMain stands at `first`.
pub fn link(
    alloc: Global,
    units: &[CheckedUnit],
    first: Place,
    names: &Names,
) -> Result<Program, CheckError>
    ensures { LinksTo names.now first (map checked_unit_of units.now) result }
{
    check_declarations(alloc, units)?;
    let matching = matching(alloc, units)?;
    link_by(alloc, units, &matching, first, names)
}
