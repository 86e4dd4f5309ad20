//! The laws of these rows as a contract.
ghost use Rattle.sp_effect_call.specs.Laws.{CallLaws};

/// In a whole analysis the rows of copies, calls, returns and of what comes from outside are lawful
/// (`CallLaws` of `specs.Laws`). The call does nothing.
pub fn calls_are_lawful()
    ensures laws { CallLaws }
{}
