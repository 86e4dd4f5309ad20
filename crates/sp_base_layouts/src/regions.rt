//! The regions of objects.
ghost use Rattle.std.specs.Prelude.{◌≡◌, ◌+◌, ◌*◌, ◌++◌, ◌∷◌, [], map, option_map, slice_get, Some, IfOk, OnOk};
ghost use Rattle.sp_types.specs.Types.{structure};
ghost use Rattle.sp_types.specs.View.{type_of, struct_of};
ghost use Rattle.sp_ir.specs.Regions.{region_of};
ghost use Rattle.sp_ir.specs.Shapes.{region, regions, member_regions, region_count, is_floating_shape, next_shape, no_shapes};
ghost use Rattle.sp_ir.specs.Terrain.{size_of};
ghost use Rattle.sp_base_layouts.specs.Layouts.{layout_of, shape_of_struct, member_shapes, first_shape};
ghost use Rattle.sp_base_layouts.specs.Seen.{seen_members};
ghost use Rattle.sp_base_layouts.specs.Summaries.{AreSummaries};

use crate::summaries::{Summary, is_floating, summary_by, times};
use sp_ir::{Region, Step};
use sp_types::{CType, StructType, layout};
use std::alloc::{AllocError, Global};

/// The structs, with what each comes to.
#[derive(Clone, Copy)]
pub struct Layouts<'a> {
    pub structs: &'a [StructType],
    pub summaries: &'a [Summary],
}

/// What stands at a path of an object, so often.
#[derive(Clone, Copy)]
pub struct Part<'a> {
    pub object: u32,
    pub path: &'a [Step],
    pub count: Option<u64>,
}

/// Whether it is of floating type.
pub(crate) fn is_floating_member(layouts: &Layouts<'_>, of: &CType) -> bool
    ensures { result ≡
        is_floating_shape (layout_of (map struct_of layouts.now.structs.now) (type_of of.now)) }
{
    is_floating(of)
}

/// Its size in bytes; 0 without a layout.
fn size_of(structs: &[StructType], of: &CType) -> u64
    ensures { result ≡ size_of (map struct_of structs.now) (type_of of.now) }
{
    match layout(of, structs) {
        Some(extent) => extent.size,
        None => 0,
    }
}

/// Adds a region of an object.
pub fn push_region(
    alloc: Global,
    regions: &mut Vec<Region>,
    part: &Part<'_>,
    element: Option<&CType>,
    size: u64,
) -> Result<(), AllocError>
    ensures { OnOk result (map region_of regions.new.items ≡ map region_of regions.old.items ++
        region part.now.object part.now.path.now (option_map (λ t. type_of t.now) element.entry)
        size part.now.count ∷ []) }
{
    let element = match element {
        Some(of) => Some(of.copy(alloc)?),
        None => None,
    };
    regions.push(Region {
        object: part.object,
        path: Vec::from_slice(alloc, part.path)?,
        element,
        size,
        count: part.count,
    })?;
    Ok(())
}

/// The path to what is one step behind.
fn behind(alloc: Global, path: &[Step], step: Step) -> Result<Vec<Step>, AllocError>
    ensures { IfOk result (λ steps. steps.items ≡ path.now ++ step ∷ []) }
{
    let mut steps = Vec::from_slice(alloc, path)?;
    steps.push(step)?;
    Ok(steps)
}

/// How many bytes so many are.
fn bytes(count: Option<u64>, size: u64) -> Result<Option<u64>, AllocError>
    ensures { IfOk result (λ n. n ≡ option_map (λ k. k * size) count) }
{
    match count {
        Some(count) => Ok(Some(times(count, size)?)),
        None => Ok(None),
    }
}

/// How many regions an object of a type has. Past 2^64 it wants memory.
pub fn region_count(layouts: &Layouts<'_>, of: &CType) -> Result<u64, AllocError>
    requires { AreSummaries (map struct_of layouts.now.structs.now) layouts.now.summaries.now }
    ensures { IfOk result (λ n. n ≡
        region_count (layout_of (map struct_of layouts.now.structs.now) (type_of of.now))) }
{
    Ok(summary_by(layouts.summaries, of)?.regions)
}

/// Adds the regions of what stands at a path of an object: its own, with so many elements, and
/// those under it, members in order.
#[cycle(regions)]
pub fn add_regions(
    alloc: Global,
    layouts: &Layouts<'_>,
    all: &mut Vec<Region>,
    part: &Part<'_>,
    of: &CType,
) -> Result<(), AllocError>
    requires { AreSummaries (map struct_of layouts.now.structs.now) layouts.now.summaries.now }
    ensures { OnOk result (map region_of all.new.items ≡ map region_of all.old.items ++
        regions part.now.object part.now.path.now part.now.count
        (layout_of (map struct_of layouts.now.structs.now) (type_of of.now))) }
{
    match of {
        CType::Int(_) | CType::Pointer(_) | CType::Float(_) => {
            push_region(alloc, all, part, Some(of), size_of(layouts.structs, of))
        }
        CType::Array(array) => {
            let Some(length) = array.length else {
                return push_region(alloc, all, part, Some(of), 0);
            };
            push_region(alloc, all, part, Some(of), size_of(layouts.structs, of))?;
            let path = behind(alloc, part.path, Step::Element)?;
            let inside = Part {
                object: part.object,
                path: path.as_slice(),
                count: Some(length),
            };
            add_regions(alloc, layouts, all, &inside, &array.element)
        }
        CType::Struct(number) => add_struct(alloc, layouts, all, part, *number, of),
        CType::Void | CType::Function(_) => push_region(alloc, all, part, Some(of), 0),
    }
}

/// Adds those of a struct of this number.
#[cycle(regions)]
fn add_struct(
    alloc: Global,
    layouts: &Layouts<'_>,
    all: &mut Vec<Region>,
    part: &Part<'_>,
    number: u32,
    of: &CType,
) -> Result<(), AllocError>
    requires laid { AreSummaries (map struct_of layouts.now.structs.now) layouts.now.summaries.now }
    requires is { type_of of.now ≡ structure number }
    ensures { OnOk result (map region_of all.new.items ≡ map region_of all.old.items ++
        regions part.now.object part.now.path.now part.now.count
        (layout_of (map struct_of layouts.now.structs.now) (structure number))) }
{
    match layouts.structs.get(number as usize) {
        Some(found) => add_found(alloc, layouts, all, part, found, of),
        None => push_region(alloc, all, part, Some(of), 0),
    }
}

/// Adds those of this struct.
#[cycle(regions)]
fn add_found(
    alloc: Global,
    layouts: &Layouts<'_>,
    all: &mut Vec<Region>,
    part: &Part<'_>,
    found: &StructType,
    of: &CType,
) -> Result<(), AllocError>
    requires { AreSummaries (map struct_of layouts.now.structs.now) layouts.now.summaries.now }
    ensures { OnOk result (map region_of all.new.items ≡ map region_of all.old.items ++
        regions part.now.object part.now.path.now part.now.count (shape_of_struct (type_of of.now)
        (size_of (map struct_of layouts.now.structs.now) (type_of of.now))
        (layout_of (map struct_of layouts.now.structs.now)) (Some (struct_of found.now)))) }
{
    match &found.members {
        None => push_region(alloc, all, part, Some(of), 0),
        Some(members) if found.union => {
            add_union(alloc, layouts, all, part, members.as_slice(), of)
        }
        Some(members) => {
            push_region(alloc, all, part, Some(of), size_of(layouts.structs, of))?;
            add_members(alloc, layouts, all, part, members.as_slice())
        }
    }
}

/// Adds the one region of a union of these members, whose elements are its bytes.
fn add_union(
    alloc: Global,
    layouts: &Layouts<'_>,
    all: &mut Vec<Region>,
    part: &Part<'_>,
    members: &[(u32, CType)],
    of: &CType,
) -> Result<(), AllocError>
    ensures { OnOk result (map region_of all.new.items ≡ map region_of all.old.items ++
        regions part.now.object part.now.path.now part.now.count (first_shape (type_of of.now)
        (size_of (map struct_of layouts.now.structs.now) (type_of of.now))
        (layout_of (map struct_of layouts.now.structs.now)) (seen_members members.now))) }
{
    match members {
        [] => push_region(alloc, all, part, Some(of), 0),
        [_, ..] => {
            let count = bytes(part.count, size_of(layouts.structs, of))?;
            let part = Part {
                object: part.object,
                path: part.path,
                count,
            };
            push_region(alloc, all, &part, None, 1)
        }
    }
}

/// Adds those of members, in order.
#[cycle(regions)]
fn add_members(
    alloc: Global,
    layouts: &Layouts<'_>,
    all: &mut Vec<Region>,
    part: &Part<'_>,
    members: &[(u32, CType)],
) -> Result<(), AllocError>
    requires { AreSummaries (map struct_of layouts.now.structs.now) layouts.now.summaries.now }
    ensures { OnOk result (map region_of all.new.items ≡ map region_of all.old.items ++
        member_regions part.now.object part.now.path.now 0
        (member_shapes (layout_of (map struct_of layouts.now.structs.now))
        (seen_members members.now))) }
{
    for (k, member) in members.iter().enumerate() {
        let Ok(number) = u32::try_from(k) else {
            return Err(AllocError);
        };
        add_member(alloc, layouts, all, part, number, &member.1)?;
    }
    Ok(())
}

/// Adds those of the member of this number; one of floating type has none.
#[cycle(regions)]
fn add_member(
    alloc: Global,
    layouts: &Layouts<'_>,
    all: &mut Vec<Region>,
    part: &Part<'_>,
    number: u32,
    of: &CType,
) -> Result<(), AllocError>
    requires { AreSummaries (map struct_of layouts.now.structs.now) layouts.now.summaries.now }
    ensures { OnOk result (map region_of all.new.items ≡ map region_of all.old.items ++
        member_regions part.now.object part.now.path.now number
        (next_shape (layout_of (map struct_of layouts.now.structs.now) (type_of of.now))
        no_shapes)) }
{
    if is_floating_member(layouts, of) {
        return Ok(());
    }
    let path = behind(alloc, part.path, Step::Field(number))?;
    let inside = Part {
        object: part.object,
        path: path.as_slice(),
        count: Some(1),
    };
    add_regions(alloc, layouts, all, &inside, of)
}
