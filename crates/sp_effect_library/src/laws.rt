//! The law of these rows as a contract.
ghost use Rattle.sp_effect_library.specs.Laws.{LibraryLaws};

/// In a whole analysis the row of each call of the library is lawful (`LibraryLaws` of
/// `specs.Laws`). The call does nothing.
pub fn library_is_lawful()
    ensures laws { LibraryLaws }
{}
