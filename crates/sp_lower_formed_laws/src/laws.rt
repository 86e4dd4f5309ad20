//! The law.
ghost use Rattle.sp_lower_formed_laws.specs.Formed.{LoweringsAreFormed};

/// Lowerings of well-typed programs are formed. The call does nothing.
pub fn lowerings_are_formed()
    ensures { LoweringsAreFormed }
{}
