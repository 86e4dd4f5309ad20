//! The laws of assignments as a contract.
ghost use Rattle.sp_effect_assign.specs.Laws.{AssignLaws};

/// Where points-to is closed, an assignment is a lawful row (`AssignLaws` of `specs.Laws`). The call
/// does nothing.
pub fn assignments_are_lawful()
    ensures laws { AssignLaws }
{}
