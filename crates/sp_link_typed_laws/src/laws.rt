//! The laws.
ghost use Rattle.sp_link_typed_laws.specs.Linked.{
  LinkedArraysAreMeasured,
  LinkedDefinitionsAreApart,
  LinkedFunctionsAreFormed,
  LinkedFunctionsAreTyped,
  LinkedMainIsDefined,
  LinkedObjectsAreOwned,
  LinkedOwnersAreOne,
  LinkedProgramsAreTyped,
  LinkedStartsAreKnown,
  LinkedStaticsFollow,
  LinkedUnitsFollow,
};

use sp_link_entries_laws::joined_stand;
use sp_link_follow_laws::structs_follow;
use sp_link_shape_laws::shapes_stay;
use sp_link_structs::matching_laws;
use sp_link_structs_laws::table_laws;

/// A linked program of well-typed units is well typed. What a function sees in its unit, it sees in the
/// program; each is defined once there, an object is one function's own, and where the starts of units'
/// objects are known before they run, so are those of the program. The call does nothing.
pub fn linked_follow()
    ensures programs { LinkedProgramsAreTyped }
    ensures follow { LinkedUnitsFollow }
    ensures statics { LinkedStaticsFollow }
    ensures functions { LinkedFunctionsAreFormed }
    ensures definitions { LinkedDefinitionsAreApart }
    ensures main { LinkedMainIsDefined }
    ensures owners { LinkedOwnersAreOne }
    ensures owned { LinkedObjectsAreOwned }
    ensures typed { LinkedFunctionsAreTyped }
    ensures starts { LinkedStartsAreKnown }
    ensures arrays { LinkedArraysAreMeasured }
{
    matching_laws();
    structs_follow();
    table_laws();
    joined_stand();
    shapes_stay();
}
