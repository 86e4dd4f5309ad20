//! The law of indirect calls as a contract.
ghost use Rattle.sp_run_indirect.specs.Laws.{CallsEqual};

/// A program has no two texts of its indirect calls. The call does nothing.
pub fn calls_are_one()
    ensures { CallsEqual }
{}
