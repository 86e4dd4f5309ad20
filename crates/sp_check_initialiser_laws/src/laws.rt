//! The law.
ghost use Rattle.sp_check_initialiser_laws.specs.Leaves.{LeavesAreTyped};

/// Values between braces that the checks accept are typed. The call does nothing.
pub fn leaves_are_typed()
    ensures { LeavesAreTyped }
{}
