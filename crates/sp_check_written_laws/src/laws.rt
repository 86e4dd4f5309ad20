//! The laws.
ghost use Rattle.sp_check_written_laws.specs.Laws.{UnitsAreWritten, NamesAreBytes};

/// The unit of a text is written as a text can have it, and the names that a text adds are bytes.
/// The call does nothing.
pub fn units_are_written()
    ensures written { UnitsAreWritten }
    ensures names { NamesAreBytes }
{}
