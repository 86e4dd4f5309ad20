//! The laws.
ghost use Rattle.sp_check_written_laws.specs.Laws.{UnitsAreWritten, NamesAreBytes};
ghost use Rattle.sp_lower_formed_laws.specs.Formed.{LoweringsAreFormed};
ghost use Rattle.sp_front_laws.specs.Programs.{ProgramsAreTyped};

use sp_check_unit_laws::units_are_typed;
use sp_check_written_laws::units_are_written;
use sp_link_typed_laws::linked_follow;
use sp_lower_formed_laws::lowerings_are_formed;

/// A program whose units the checks accept is well typed, and its lowering, within the limits, is
/// formed. The units of texts are written as the checks expect them, and their names are bytes. The
/// call does nothing.
pub fn programs_are_typed()
    ensures typed { ProgramsAreTyped }
    ensures formed { LoweringsAreFormed }
    ensures written { UnitsAreWritten }
    ensures names { NamesAreBytes }
{
    units_are_written();
    units_are_typed();
    linked_follow();
    lowerings_are_formed();
}
