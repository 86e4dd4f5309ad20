//! The law.
ghost use Rattle.sp_check_unit_laws.specs.Starts.{StaticsAreTyped};
ghost use Rattle.sp_check_unit_laws.specs.Units.{UnitsAreTyped};

/// A unit that the checks accept is well typed. Values of objects that last are constants. The call
/// does nothing.
pub fn units_are_typed()
    ensures typed { UnitsAreTyped }
    ensures statics { StaticsAreTyped }
{}
