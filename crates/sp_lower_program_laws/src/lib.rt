//! Laws of lowered programs, which only proofs use.
//!
//! They begin the law that what is lowered is formed (`IsFormed` of `sp_ir`). The regions that
//! `sp_lower_objects` gives the objects are those that a formed program has; and a struct has a leaf
//! of pointer type just where lowering is told so, by which the sites of unknown functions are made.
//! And a program has no two lowerings.
#![tactic(auto)]

ghost use Rattle.std.specs.Prelude.{map};
ghost use Rattle.sp_types.specs.View.{type_of, struct_of};
ghost use Rattle.sp_ir.specs.Programs.{object_of, lowered_of};
ghost use Rattle.sp_types.specs.Programs.{program_of};
ghost use Rattle.sp_lower_program_laws.specs.Laws.{
  RegionsHold,
  PointersHold,
  LoweringsEqual,
  LoweredRegionsHold,
};

use sp_ir::{Lowered, Object};
use sp_tree::Names;
use sp_types::{CType, Program, StructType};

/// The objects have the regions that they are given.
pub fn regions_law(structs: &[StructType], objects: &[Object])
    ensures { RegionsHold (map struct_of structs.now) (map object_of objects.now) }
{
    let _structs = structs;
    let _objects = objects;
}

/// A type has a leaf of pointer type just where the table of structs says so.
pub fn pointers_law(structs: &[StructType], of: &CType)
    ensures { PointersHold (map struct_of structs.now) (type_of of.now) }
{
    let _structs = structs;
    let _of = of;
}

/// The regions of a lowered program are those that a formed one has.
pub fn lowered_regions_law(program: &Program, names: &Names, lowered: &Lowered)
    ensures { LoweredRegionsHold (program_of program.now) names.now (lowered_of lowered.now) }
{
    let _program = program;
    let _names = names;
    let _lowered = lowered;
}

/// A program has no two lowerings.
pub fn lowerings_law(program: &Program, names: &Names, lowered: &Lowered, other: &Lowered)
    ensures { LoweringsEqual (program_of program.now) names.now (lowered_of lowered.now)
        (lowered_of other.now) }
{
    let _program = program;
    let _names = names;
    let _lowered = lowered;
    let _other = other;
}
