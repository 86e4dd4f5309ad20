//! What statements add is formed.
ghost use Rattle.sp_lower_body_laws.specs.Bodies.{StatementsAreGood};

/// A well-typed statement adds what is formed. The call does nothing.
pub fn statements_are_good()
    ensures { StatementsAreGood }
{}
