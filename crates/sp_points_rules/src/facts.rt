//! What the rules of points-to read: a program, and what each cell may point to so far.
ghost use Rattle.sp_ir.specs.Programs.{lowered_of};
ghost use Rattle.sp_points_rules.specs.Paths.{AreGroups};

use crate::groups::Groups;
use sp_base_sets::NumberSet;
use sp_ir::Lowered;

/// A program with its groups, and where each cell may point so far.
#[derive(Drop)]
pub struct Facts<'a> {
    pub lowered: &'a Lowered,
    pub groups: &'a Groups,
    pub rows: &'a [NumberSet],
    ghost grouped: { AreGroups (lowered_of lowered.now) groups.now },
}
