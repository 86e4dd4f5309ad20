//! The law.
ghost use Rattle.sp_link_shape_laws.specs.Shapes.{LinkedTypesKeepLeaves};

use sp_link_structs::matching_laws;

/// The types of a unit have the same leaves in a linked program.
pub fn shapes_stay()
    ensures leaves { LinkedTypesKeepLeaves }
{
    matching_laws();
}
