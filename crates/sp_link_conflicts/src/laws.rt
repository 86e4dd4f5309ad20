//! What follows from the definition of conflicts, as contracts.
ghost use Rattle.sp_link_conflicts.specs.Laws.{ConflictsAreOne, ConflictsExclude, AgreementIsHarmony};

/// Of the conflicts of some units one stands first; where units agree on their names none stands;
/// and they do where any two declarations of one name do.
///
/// It computes nothing: a layer that rests on a law calls it and has the law from its contract.
pub fn conflict_laws()
    ensures one { ConflictsAreOne }
    ensures exclude { ConflictsExclude }
    ensures pairs { AgreementIsHarmony }
{}
