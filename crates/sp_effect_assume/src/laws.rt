//! The laws of conditions as a contract.
ghost use Rattle.sp_effect_assume.specs.Laws.{ConditionLaws};

/// A condition is a lawful row (`ConditionLaws` of `specs.Laws`). The call does nothing.
pub fn conditions_are_lawful()
    ensures laws { ConditionLaws }
{}
