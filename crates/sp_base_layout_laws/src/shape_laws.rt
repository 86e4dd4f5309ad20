//! The law of shapes.
ghost use Rattle.std.specs.Prelude.{map};
ghost use Rattle.sp_types.specs.View.{type_of, struct_of};
ghost use Rattle.sp_base_layout_laws.specs.Laws.{IsShaped};

use sp_types::{CType, StructType};

/// A type with a layout has its shape.
pub fn relates(structs: &[StructType], of: &CType)
    ensures { IsShaped (map struct_of structs.now) (type_of of.now) }
{
    let _structs = structs;
    let _of = of;
}
