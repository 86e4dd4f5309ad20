//! The laws.
ghost use Rattle.sp_link_follow_laws.specs.Laws.{LinkedStructsFollow, LinkedStructsHaveMembers};

use sp_link_structs::matching_laws;

/// The structs of a linked program follow those of each unit, and none is without a member.
pub fn structs_follow()
    ensures follow { LinkedStructsFollow }
    ensures members { LinkedStructsHaveMembers }
{
    matching_laws();
}
