//! Where start values go.
ghost use Rattle.std.specs.Prelude.{◌≡◌, ◌+◌, min, nat_lt, map, IfOk};
ghost use Rattle.sp_types.specs.View.{type_of, struct_of};
ghost use Rattle.sp_types.specs.Programs.{object_of};
ghost use Rattle.sp_base_layouts.specs.Summaries.{AreSummaries};
ghost use Rattle.sp_lower_body.specs.View.{initial_view};
ghost use Rattle.sp_lower_objects.specs.Regions.{most_regions};
ghost use Rattle.sp_lower_objects.specs.Initials.{object_region_count, all_cells, initial_at, initials_from};

use crate::regions::MAX_REGIONS;
use sp_base_layouts::{Layouts, cells_left, region_count, start_cells, summaries_of};
use sp_lower_body::Initial;
use sp_lower_draft::size_of;
use sp_types::{CType, ObjectDef, StructType};
use std::alloc::{AllocError, Global};

/// How many regions an object of a type has; one without a layout has one.
fn object_region_count(layouts: &Layouts<'_>, of: &CType) -> Result<u64, AllocError>
    requires { AreSummaries (map struct_of layouts.now.structs.now) layouts.now.summaries.now }
    ensures { IfOk result (λ n. n ≡ object_region_count
        (map struct_of layouts.now.structs.now) (type_of of.now)) }
{
    if size_of(layouts.structs, of) == 0 {
        Ok(1)
    } else {
        region_count(layouts, of)
    }
}

/// Whether one of so many regions from a root on is past the limit.
fn is_past(root: u64, count: u64) -> bool
    ensures { result ≡ nat_lt most_regions (root + count) }
{
    root > MAX_REGIONS || count > MAX_REGIONS - root
}

/// The region that is so far behind a root, or the first past the limit.
fn region_behind(root: u64, count: u64) -> u64
    ensures { result ≡ min (root + count) (most_regions + 1) }
{
    if is_past(root, count) {
        MAX_REGIONS + 1
    } else {
        root + count
    }
}

/// The cells of an object whose root is this region.
fn all_cells(
    alloc: Global,
    layouts: &Layouts<'_>,
    root: u64,
    object: &ObjectDef,
) -> Result<Initial, AllocError>
    requires { AreSummaries (map struct_of layouts.now.structs.now) layouts.now.summaries.now }
    ensures { IfOk result (λ i. initial_view i ≡ all_cells
        (map struct_of layouts.now.structs.now) root (object_of object.now)) }
{
    let cells = start_cells(alloc, layouts, &object.of, root, object.start.as_slice())?;
    let zero = cells_left(alloc, layouts, &object.of, root, cells.as_slice())?;
    Ok(Initial { cells, zero })
}

/// Where the start values go of an object of so many regions whose root is this region.
fn initial_at(
    alloc: Global,
    layouts: &Layouts<'_>,
    root: u64,
    count: u64,
    object: &ObjectDef,
) -> Result<Initial, AllocError>
    requires laid { AreSummaries (map struct_of layouts.now.structs.now) layouts.now.summaries.now }
    requires counted { count ≡ object_region_count
        (map struct_of layouts.now.structs.now) (object_of object.now).of }
    ensures { IfOk result (λ i. initial_view i ≡ initial_at
        (map struct_of layouts.now.structs.now) root (object_of object.now)) }
{
    if size_of(layouts.structs, &object.of) == 0 || is_past(root, count) {
        Ok(Initial {
            cells: Vec::new(alloc),
            zero: Vec::new(alloc),
        })
    } else {
        all_cells(alloc, layouts, root, object)
    }
}

/// Where the start values of the objects of the units go. The limit of regions is tested behind the
/// limit of nodes, so objects may be past it, which have no cells. Of the others only cells are gone
/// through, of which a struct has few.
pub fn initials_of(
    alloc: Global,
    structs: &[StructType],
    objects: &[ObjectDef],
) -> Result<Vec<Initial>, AllocError>
    ensures { IfOk result (λ is. map initial_view is.items ≡
        initials_from (map struct_of structs.now) 0 (map object_of objects.now)) }
{
    let summaries = summaries_of(alloc, structs)?;
    let layouts = Layouts {
        structs,
        summaries: summaries.as_slice(),
    };
    let mut initials = Vec::new(alloc);
    let mut root = 0;
    for object in objects {
        let count = object_region_count(&layouts, &object.of)?;
        initials.push(initial_at(alloc, &layouts, root, count, object)?)?;
        root = region_behind(root, count);
    }
    Ok(initials)
}
