//! The types of objects in the program, and what the trees of each unit name there.
ghost use Rattle.std.specs.Prelude.{◌≡◌, IfOk, map, slice_index_or};
ghost use Rattle.std.specs.List.{list_any};
ghost use Rattle.sp_types.specs.Types.{void};
ghost use Rattle.sp_types.specs.View.{type_of};
ghost use Rattle.sp_link_renaming.specs.View.{renaming_of};
ghost use Rattle.sp_link_entries.specs.Views.{object_entry_of, numbers_of};
ghost use Rattle.sp_link_units.specs.Making.{lacks_length, completed, final_types, renaming, no_renaming};

use sp_link_entries::{ObjectEntry, UnitNumbers};
use sp_link_renaming::Renaming;
use sp_types::CType;
use std::alloc::{AllocError, Global};

/// Whether this is an array without a length.
fn lacks_length(of: &CType) -> bool
    ensures { result ≡ lacks_length (type_of of.now) }
{
    match of {
        CType::Array(array) => array.length.is_none(),
        CType::Void
        | CType::Int(_)
        | CType::Float(_)
        | CType::Pointer(_)
        | CType::Struct(_)
        | CType::Function(_) => false,
    }
}

/// Whether one of these objects is an array without a length.
pub(crate) fn any_lacks_length(objects: &[ObjectEntry<'_>]) -> bool
    ensures { result ≡ list_any (λ e. lacks_length e.of) (map object_entry_of objects.now) }
{
    for object in objects {
        if lacks_length(&object.of) {
            return true;
        }
    }
    false
}

/// The type of an object in the program: an array without a length has one element (C90 6.7.2).
pub(crate) fn completed(alloc: Global, of: &CType) -> Result<CType, AllocError>
    ensures { IfOk result (λ t. type_of t ≡ completed (type_of of.now)) }
{
    match of {
        CType::Array(array) => match array.length {
            None => CType::shared_array(alloc, array.element.clone()?, Some(1)),
            Some(_) => of.copy(alloc),
        },
        CType::Void
        | CType::Int(_)
        | CType::Float(_)
        | CType::Pointer(_)
        | CType::Struct(_)
        | CType::Function(_) => of.copy(alloc),
    }
}

/// The types of the objects of the program.
pub(crate) fn final_types(
    alloc: Global,
    objects: &[ObjectEntry<'_>],
) -> Result<Vec<CType>, AllocError>
    ensures { IfOk result (λ ts. map type_of ts.items ≡
        final_types (map object_entry_of objects.now)) }
{
    let mut all = Vec::new(alloc);
    for object in objects {
        all.push(completed(alloc, &object.of)?)?;
    }
    Ok(all)
}

/// The type of the object of a number.
fn type_at(alloc: Global, types: &[CType], number: u32) -> Result<CType, AllocError>
    ensures { IfOk result (λ t. type_of t ≡ slice_index_or (map type_of types.now) number void) }
{
    match types.get(number as usize) {
        Some(of) => of.copy(alloc),
        None => Ok(CType::Void),
    }
}

/// The types of the objects of these numbers.
fn types_at(alloc: Global, types: &[CType], numbers: &[u32]) -> Result<Vec<CType>, AllocError>
    ensures { IfOk result (λ ts. map type_of ts.items ≡
        map (λ k. slice_index_or (map type_of types.now) k void) numbers.now) }
{
    let mut all = Vec::new(alloc);
    for number in numbers {
        all.push(type_at(alloc, types, *number)?)?;
    }
    Ok(all)
}

/// What the trees of a unit name in the program, whose objects have these types.
fn renaming(alloc: Global, types: &[CType], unit: &UnitNumbers) -> Result<Renaming, AllocError>
    ensures { IfOk result (λ r. renaming_of r ≡
        renaming (map type_of types.now) (numbers_of unit.now)) }
{
    Ok(Renaming {
        structs: unit.structs.clone()?,
        objects: unit.objects.clone()?,
        functions: unit.functions.clone()?,
        types: types_at(alloc, types, &unit.objects)?,
    })
}

/// The same of each unit.
pub(crate) fn renamings(
    alloc: Global,
    types: &[CType],
    units: &[UnitNumbers],
) -> Result<Vec<Renaming>, AllocError>
    ensures { IfOk result (λ rs. map renaming_of rs.items ≡
        map (renaming (map type_of types.now)) (map numbers_of units.now)) }
{
    let mut all = Vec::new(alloc);
    for unit in units {
        all.push(renaming(alloc, types, unit)?)?;
    }
    Ok(all)
}

/// What a unit that isn't there names.
pub(crate) fn no_renaming(alloc: Global) -> Renaming
    ensures { renaming_of result ≡ no_renaming }
{
    Renaming {
        structs: Vec::new(alloc),
        objects: Vec::new(alloc),
        functions: Vec::new(alloc),
        types: Vec::new(alloc),
    }
}

/// What the trees of the unit of a number name; of one that isn't there it is `none`.
pub(crate) fn renaming_of_unit<'a>(
    renamings: &'a [Renaming],
    unit: u32,
    none: &'a Renaming,
) -> &'a Renaming
    ensures { renaming_of result.now ≡
        slice_index_or (map renaming_of renamings.now) unit (renaming_of none.now) }
{
    match renamings.get(unit as usize) {
        Some(renaming) => renaming,
        None => none,
    }
}
