//! How a report names regions and locations.
ghost use Rattle.std.specs.Prelude.{◌≡◌, ◌++◌, map, slice_get, option_map, OnOk};
ghost use Rattle.sp_types.specs.View.{type_of, struct_of};
ghost use Rattle.sp_ir.specs.Programs.{lowered_of, object_of};
ghost use Rattle.sp_report.specs.Places.{member_in, member_at, element_of, type_below, step_text, path_text, object_text, region_name, location_name};

use crate::lines::name_of;
use sp_ir::{Lowered, Object, Step};
use sp_tree::Names;
use sp_types::{CType, StructType};
use sp_value::Locations;
use std::alloc::AllocError;

// A member of a struct: the number of its name, and its type.
fn member_in(found: &StructType, number: u32) -> Option<&(u32, CType)>
    ensures { option_map (λ m. (m.now.0, type_of m.now.1)) result ≡
        member_in (Some (struct_of found.now)) number }
{
    match &found.members {
        Some(members) => members.get(number as usize),
        None => None,
    }
}

// The member of this number of the struct of a number.
fn member_of(structs: &[StructType], whole: u32, number: u32) -> Option<&(u32, CType)>
    ensures { option_map (λ m. (m.now.0, type_of m.now.1)) result ≡
        member_in (slice_get (map struct_of structs.now) whole) number }
{
    match structs.get(whole as usize) {
        Some(found) => member_in(found, number),
        None => None,
    }
}

// The member of this number of a type that may be there.
fn member_at<'a>(
    structs: &'a [StructType],
    of: Option<&CType>,
    number: u32,
) -> Option<&'a (u32, CType)>
    ensures { option_map (λ m. (m.now.0, type_of m.now.1)) result ≡ member_at
        (map struct_of structs.now) (option_map (λ t. type_of t.now) of.entry) number }
{
    match of {
        Some(CType::Struct(whole)) => member_of(structs, *whole, number),
        _ => None,
    }
}

// The type of the elements of an array that may be there.
fn element_of(of: Option<&CType>) -> Option<&CType>
    ensures { option_map (λ t. type_of t.now) result ≡
        element_of (option_map (λ t. type_of t.now) of.entry) }
{
    match of {
        Some(CType::Array(array)) => Some(&array.element),
        _ => None,
    }
}

// The type one step below another.
fn type_below<'a>(structs: &'a [StructType], of: Option<&'a CType>, step: Step) -> Option<&'a CType>
    ensures { option_map (λ t. type_of t.now) result ≡ type_below
        (map struct_of structs.now) (option_map (λ t. type_of t.now) of.entry) step }
{
    match step {
        Step::Field(number) => match member_at(structs, of, number) {
            Some(member) => Some(&member.1),
            None => None,
        },
        Step::Element => element_of(of),
    }
}

/// What names the parts of a program: the names of its texts, and the program.
#[derive(Drop)]
pub(crate) struct Legend<'a> {
    pub names: &'a Names,
    pub lowered: &'a Lowered,
}

// Adds a step from a part of this type.
fn add_step(
    legend: &Legend<'_>,
    of: Option<&CType>,
    step: Step,
    text: &mut Vec<u8>,
) -> Result<(), AllocError>
    ensures { OnOk result (text.new.items ≡ text.old.items ++ step_text legend.now.names.now
        (map struct_of legend.now.lowered.now.structs.items)
        (option_map (λ t. type_of t.now) of.entry) step) }
{
    match step {
        Step::Field(number) => {
            text.push(b'.')?;
            if let Some(member) = member_at(legend.lowered.structs.as_slice(), of, number) {
                text.extend_from_slice(name_of(legend.names, member.0))?;
            }
        }
        Step::Element => text.extend_from_slice(b"[]")?,
    }
    Ok(())
}

// Adds the steps of a path from a part of this type.
fn add_path(
    legend: &Legend<'_>,
    of: Option<&CType>,
    path: &[Step],
    text: &mut Vec<u8>,
) -> Result<(), AllocError>
    ensures { OnOk result (text.new.items ≡ text.old.items ++ path_text legend.now.names.now
        (map struct_of legend.now.lowered.now.structs.items)
        (option_map (λ t. type_of t.now) of.entry) path.now) }
{
    let mut at = of;
    for step in path {
        add_step(legend, at, *step, text)?;
        at = type_below(legend.lowered.structs.as_slice(), at, *step);
    }
    Ok(())
}

// Adds the region at a path of an object.
fn add_object(
    legend: &Legend<'_>,
    object: &Object,
    path: &[Step],
    text: &mut Vec<u8>,
) -> Result<(), AllocError>
    ensures { OnOk result (text.new.items ≡ text.old.items ++ object_text legend.now.names.now
        (map struct_of legend.now.lowered.now.structs.items) (Some (object_of object.now))
        path.now) }
{
    text.extend_from_slice(object.name.as_slice())?;
    add_path(legend, object.of.as_ref(), path, text)?;
    Ok(())
}

/// Adds the region of a number.
pub(crate) fn add_region(
    legend: &Legend<'_>,
    region: u32,
    text: &mut Vec<u8>,
) -> Result<(), AllocError>
    ensures { OnOk result (text.new.items ≡ text.old.items ++
        region_name legend.now.names.now (lowered_of legend.now.lowered.now) region) }
{
    if let Some(found) = legend.lowered.regions.get(region) {
        if let Some(object) = legend.lowered.objects.get(found.object as usize) {
            add_object(legend, object, found.path.as_slice(), text)?;
        }
    }
    Ok(())
}

/// Adds a location.
pub(crate) fn add_location(
    legend: &Legend<'_>,
    locations: &Locations,
    location: u32,
    text: &mut Vec<u8>,
) -> Result<(), AllocError>
    ensures { OnOk result (text.new.items ≡ text.old.items ++
        location_name legend.now.names.now (lowered_of legend.now.lowered.now)
        locations.now.cells.items location) }
{
    if let Some(region) = locations.cells.get(location as usize) {
        add_region(legend, *region, text)?;
    }
    Ok(())
}
