//! The laws.
ghost use Rattle.sp_link_entries_laws.specs.Joined.{
  FunctionsAreNumbered,
  LinkedArraysAreComplete,
  LinkedDefinitions,
  LinkedDefinitionsAreThere,
  LinkedEntriesAreTold,
  LinkedFunctionsAreTold,
  LinkedFunctionsStand,
  LinkedObjectsStand,
  ObjectsAreNumbered,
  OwnObjectsAreApart,
};

use sp_link_structs::matching_laws;

/// Each object and each function of a unit has a number and an entry in the program, each entry comes
/// from a unit, and what units define the program does. The call does nothing.
pub fn joined_stand()
    ensures objects { LinkedObjectsStand }
    ensures arrays { LinkedArraysAreComplete }
    ensures functions { LinkedFunctionsStand }
    ensures entries { LinkedEntriesAreTold }
    ensures function_entries { LinkedFunctionsAreTold }
    ensures apart { OwnObjectsAreApart }
    ensures numbered { ObjectsAreNumbered }
    ensures functions_numbered { FunctionsAreNumbered }
    ensures definitions { LinkedDefinitions }
    ensures definitions_there { LinkedDefinitionsAreThere }
{
    matching_laws();
}
