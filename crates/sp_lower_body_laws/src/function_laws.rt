//! What functions add is formed.
ghost use Rattle.sp_lower_body_laws.specs.Functions.{FunctionsAreGood};

/// Functions whose bodies are well typed add what is formed. The call does nothing.
pub fn functions_are_good()
    ensures { FunctionsAreGood }
{}
