//! The law.
ghost use Rattle.sp_lower_starts_laws.specs.Laws.{StartsHold};

/// The start values of the objects of a well-typed program are formed, where its regions are within
/// the limit. The call does nothing.
pub fn starts_hold()
    ensures { StartsHold }
{}
