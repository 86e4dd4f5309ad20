//! The law.
ghost use Rattle.sp_check_expr_laws.specs.Laws.{ExpressionsAreTyped};

/// An expression that the checks accept is well typed, and so is its value.
pub fn expressions_are_typed()
    ensures typed { ExpressionsAreTyped }
{}
