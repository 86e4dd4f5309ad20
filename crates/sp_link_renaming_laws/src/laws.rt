//! The laws.
ghost use Rattle.sp_link_renaming_laws.specs.Laws.{BodiesAreRenamed, ConstantsAreRenamed, ExpressionsAreRenamed};

/// Well-typed expressions and bodies of a unit are well typed in its program, and its constants are
/// constants there. The call does nothing.
pub fn renamed_are_typed()
    ensures expressions { ExpressionsAreRenamed }
    ensures bodies { BodiesAreRenamed }
    ensures constants { ConstantsAreRenamed }
{}
