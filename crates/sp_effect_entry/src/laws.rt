//! The laws of these rows as a contract.
ghost use Rattle.sp_effect_entry.specs.Laws.{EntryLaws};

/// In a whole analysis the rows of starts, entries and initialisers are lawful (`EntryLaws` of
/// `specs.Laws`). The call does nothing.
pub fn entries_are_lawful()
    ensures laws { EntryLaws }
{}
