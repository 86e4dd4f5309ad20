//! The law.
ghost use Rattle.sp_check_formed_laws.specs.Units.{UnitsAreFormed};

/// A unit that the checks accept is formed.
pub fn units_are_formed()
    ensures formed { UnitsAreFormed }
{}
