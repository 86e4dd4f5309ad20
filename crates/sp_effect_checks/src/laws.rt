//! The laws of cuts as a contract.
ghost use Rattle.sp_effect_checks.specs.Laws.{CheckLaws};

/// A cut behind a lawful row is lawful, and so are the cuts of any accesses (`CheckLaws` of
/// `specs.Laws`). The call does nothing.
pub fn checks_are_lawful()
    ensures laws { CheckLaws }
{}
