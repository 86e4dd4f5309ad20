//! The matching of the structs of several units.
ghost use Rattle.std.specs.Prelude.{◌≡◌, IfOk, map};
ghost use Rattle.sp_base_checked.specs.Units.{checked_unit_of};
ghost use Rattle.sp_link_structs.specs.Matching.{matching_of};
ghost use Rattle.sp_link_agreement.specs.Depths.{tables};
ghost use Rattle.sp_link_structs.specs.Matched.{of_units, AreStandIns, AreMatched};

use crate::entities::{entities, in_turn};
use crate::heads::heads_of;
use crate::leaders::leaders_of;
use crate::numbers::{Taken, number};
use crate::record::Matching;
use crate::stand_ins::all_stand_ins;
use sp_base_checked::CheckedUnit;
use sp_link_agreement::Entity;
use std::alloc::{AllocError, Global};

/// Each struct with what stands for it.
fn stand_ins_of(
    alloc: Global,
    units: &[CheckedUnit],
    all: &[Entity],
) -> Result<Vec<Taken>, AllocError>
    requires { all.now ≡ of_units 0 (tables units.now) }
    ensures { IfOk result (λ ps. AreStandIns (tables units.now) ps.items) }
{
    let turn = in_turn(alloc, units, all)?;
    let heads = heads_of(alloc, units, &turn)?;
    let leaders = leaders_of(alloc, units, all)?;
    all_stand_ins(alloc, units, &heads, &leaders, all)
}

/// Which structs of the units are one (C90 6.1.2.6).
pub fn matching(alloc: Global, units: &[CheckedUnit]) -> Result<Matching, AllocError>
    ensures { IfOk result (λ m.
        AreMatched (map (λ u. u.structs) (map checked_unit_of units.now)) (matching_of m)) }
{
    let all = entities(alloc, units)?;
    let stand_ins = stand_ins_of(alloc, units, &all)?;
    number(alloc, units, &all, &stand_ins)
}
