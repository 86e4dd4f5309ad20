//! The law.
ghost use Rattle.sp_lower_expr_laws.specs.Uses.{ExpressionsAreGood};

/// Each use of a well-typed expression adds what is formed. The call does nothing.
pub fn expressions_are_good()
    ensures { ExpressionsAreGood }
{}
