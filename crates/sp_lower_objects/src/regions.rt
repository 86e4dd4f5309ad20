//! The regions of objects.
ghost use Rattle.std.specs.Prelude.{◌≡◌, ◌++◌, ◌∷◌, [], nat_le, length, map, option_map, IfOk, OnOk};
ghost use Rattle.sp_types.specs.View.{type_of, struct_of};
ghost use Rattle.sp_ir.specs.Programs.{object_of};
ghost use Rattle.sp_ir.specs.Regions.{region_of, region_list};
ghost use Rattle.sp_ir.specs.Formed.{root_count};
ghost use Rattle.sp_base_layouts.specs.Summaries.{AreSummaries};
ghost use Rattle.sp_lower_objects.specs.Regions.{is_function, typed_regions, kind_regions, object_regions, all_regions, kind_count, all_counts};

use sp_base_layouts::{Layouts, Part, add_regions, push_region, region_count, summaries_of};
use sp_ir::{Object, ObjectKind, Region, Regions};
use sp_lower_draft::size_of;
use sp_types::{CType, StructType};
use std::alloc::{AllocError, Global};

/// The most regions of a program.
pub const MAX_REGIONS: u64 = 200_000;

fn root_count(kind: ObjectKind) -> Option<u64>
    ensures { result ≡ root_count kind }
{
    match kind {
        ObjectKind::Heap(_) => None,
        ObjectKind::Foreign(_) => None,
        ObjectKind::Static => Some(1),
        ObjectKind::Outside => Some(1),
        ObjectKind::Text => Some(1),
        ObjectKind::Auto => Some(1),
        ObjectKind::Formal => Some(1),
        ObjectKind::Temp => Some(1),
        ObjectKind::Result => Some(1),
        ObjectKind::Function(_) => Some(1),
    }
}

/// The object of this number, so often.
fn root_of<'a>(object: u32, count: Option<u64>) -> Part<'a>
    ensures object { result.object ≡ object }
    ensures path { result.path.now ≡ [] }
    ensures count { result.count ≡ count }
{
    Part {
        object,
        path: &[],
        count,
    }
}

/// Adds the regions of an object of this type, which isn't a function.
fn add_typed_regions(
    alloc: Global,
    layouts: &Layouts<'_>,
    object: u32,
    count: Option<u64>,
    of: &CType,
    all: &mut Vec<Region>,
) -> Result<(), AllocError>
    requires { AreSummaries (map struct_of layouts.now.structs.now) layouts.now.summaries.now }
    ensures { OnOk result (map region_of all.new.items ≡ map region_of all.old.items ++
        typed_regions (map struct_of layouts.now.structs.now) object count (type_of of.now)) }
{
    if size_of(layouts.structs, of) == 0 {
        push_region(alloc, all, &root_of(object, Some(0)), None, 1)
    } else {
        add_regions(alloc, layouts, all, &root_of(object, count), of)
    }
}

/// Adds the regions of an object of this kind and type.
fn add_object_regions(
    alloc: Global,
    layouts: &Layouts<'_>,
    number: u32,
    object: &Object,
    all: &mut Vec<Region>,
) -> Result<(), AllocError>
    requires { AreSummaries (map struct_of layouts.now.structs.now) layouts.now.summaries.now }
    ensures { OnOk result (map region_of all.new.items ≡ map region_of all.old.items ++
        object_regions (map struct_of layouts.now.structs.now) number (object_of object.now).kind
        (object_of object.now).of) }
{
    let Some(of) = &object.of else {
        return push_region(alloc, all, &root_of(number, None), None, 1);
    };
    if is_function(object.kind) {
        push_region(alloc, all, &root_of(number, Some(1)), Some(of), 1)
    } else {
        add_typed_regions(alloc, layouts, number, root_count(object.kind), of, all)
    }
}

fn is_function(kind: ObjectKind) -> bool
    ensures { result ≡ is_function kind }
{
    match kind {
        ObjectKind::Function(_) => true,
        ObjectKind::Heap(_) => false,
        ObjectKind::Foreign(_) => false,
        ObjectKind::Static => false,
        ObjectKind::Outside => false,
        ObjectKind::Text => false,
        ObjectKind::Auto => false,
        ObjectKind::Formal => false,
        ObjectKind::Temp => false,
        ObjectKind::Result => false,
    }
}

/// Adds a region that isn't held: one that is held is want of memory.
fn push_new(regions: &mut Regions, region: Region) -> Result<(), AllocError>
    ensures { OnOk result (region_list regions.new ≡
        region_list regions.old ++ region_of region ∷ []) }
{
    let Ok(count) = u32::try_from(regions.len()) else {
        return Err(AllocError);
    };
    if count == u32::MAX {
        return Err(AllocError);
    }
    let number = regions.add(region)?;
    if number == count {
        Ok(())
    } else {
        Err(AllocError)
    }
}

/// Adds regions that aren't held.
fn push_each(regions: &mut Regions, more: Vec<Region>) -> Result<(), AllocError>
    ensures { OnOk result (region_list regions.new ≡
        region_list regions.old ++ map region_of more.items) }
{
    for region in more {
        push_new(regions, region)?;
    }
    Ok(())
}

/// The regions of all objects, in their order.
pub fn regions_of(
    alloc: Global,
    structs: &[StructType],
    objects: &[Object],
) -> Result<Regions, AllocError>
    ensures { IfOk result (λ rs. region_list rs ≡
        all_regions (map struct_of structs.now) 0 (map object_of objects.now)) }
{
    let summaries = summaries_of(alloc, structs)?;
    let layouts = Layouts {
        structs,
        summaries: summaries.as_slice(),
    };
    let mut regions = Regions::new(alloc);
    for (k, object) in objects.iter().enumerate() {
        let Ok(number) = u32::try_from(k) else {
            return Err(AllocError);
        };
        let mut own = Vec::new(alloc);
        add_object_regions(alloc, &layouts, number, object, &mut own)?;
        push_each(&mut regions, own)?;
    }
    Ok(regions)
}

/// How many regions an object has.
fn object_count(layouts: &Layouts<'_>, object: &Object) -> Result<u64, AllocError>
    requires { AreSummaries (map struct_of layouts.now.structs.now) layouts.now.summaries.now }
    ensures { IfOk result (λ n. n ≡ kind_count (map struct_of layouts.now.structs.now)
        (object_of object.now).kind (object_of object.now).of) }
{
    let Some(of) = &object.of else {
        return Ok(1);
    };
    if is_function(object.kind) || size_of(layouts.structs, of) == 0 {
        Ok(1)
    } else {
        region_count(layouts, of)
    }
}

/// Whether the objects have at most so many regions, before any is made.
fn counts_fit(layouts: &Layouts<'_>, objects: &[Object], most: u64) -> Result<bool, AllocError>
    requires { AreSummaries (map struct_of layouts.now.structs.now) layouts.now.summaries.now }
    ensures { IfOk result (λ fit. fit ≡ nat_le
        (all_counts (map struct_of layouts.now.structs.now) (map object_of objects.now)) most) }
{
    let mut left = most;
    for object in objects {
        let count = object_count(layouts, object)?;
        if left < count {
            return Ok(false);
        }
        left -= count;
    }
    Ok(true)
}

/// Whether the objects have at most so many regions, before any is made.
pub fn regions_fit(
    alloc: Global,
    structs: &[StructType],
    objects: &[Object],
    most: u64,
) -> Result<bool, AllocError>
    ensures { IfOk result (λ fit. fit ≡ nat_le (length
        (all_regions (map struct_of structs.now) 0 (map object_of objects.now))) most) }
{
    let summaries = summaries_of(alloc, structs)?;
    let layouts = Layouts {
        structs,
        summaries: summaries.as_slice(),
    };
    counts_fit(&layouts, objects, most)
}
