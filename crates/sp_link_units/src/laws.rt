//! What the definition of linking settles.
ghost use Rattle.sp_link_units.specs.Links.{LinksAreOne};

use sp_link_conflicts::conflict_laws;
use sp_link_structs::matching_laws;

/// Units are one program, or have one fault. The call does nothing.
pub fn links_are_one()
    ensures { LinksAreOne }
{
    conflict_laws();
    matching_laws();
}
