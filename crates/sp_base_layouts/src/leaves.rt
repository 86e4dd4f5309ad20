//! The leaves and the cells of objects.
ghost use Rattle.std.specs.Prelude.{◌≡◌, false, ◌%◌, ◌+◌, ◌*◌, ◌++◌, ◌∷◌, [], ◌==◌, nat_lt, cond, map, option_map, count_by, slice_get, Some, IfOk, OnOk};
ghost use Rattle.sp_types.specs.Types.{structure};
ghost use Rattle.sp_types.specs.View.{type_of, struct_of};
ghost use Rattle.sp_types.specs.TypedView.{typed_of};
ghost use Rattle.sp_ir.specs.Shapes.{leaf_count, leaf_cell, member_leaf_cell, region_count, is_floating_shape};
ghost use Rattle.sp_ir.specs.Terrain.{size_of};
ghost use Rattle.sp_base_layouts.specs.Layouts.{layout_of, shape_of_struct, shape_of_members, member_shapes, first_shape};
ghost use Rattle.sp_base_layouts.specs.Leaves.{leaf_region, start_cells, cell_leaves, member_cell_leaves, cells_left};
ghost use Rattle.sp_base_layouts.specs.Seen.{seen_members};
ghost use Rattle.sp_base_layouts.specs.Summaries.{has_cell, AreSummaries};

use crate::regions::{Layouts, is_floating_member};
use crate::summaries::{plus, summary_by, times};
use sp_types::{CType, StructType, TypedExpr};
use std::alloc::{AllocError, Global};

/// So many more, where it is there.
fn further(count: u64, cell: Option<u64>) -> Result<Option<u64>, AllocError>
    ensures { IfOk result (λ n. n ≡ option_map (λ c. count + c) cell) }
{
    match cell {
        Some(cell) => Ok(Some(plus(count, cell)?)),
        None => Ok(None),
    }
}

/// What is left behind whole multiples of so many; of none it wants memory.
fn remainder(leaf: u64, each: u64) -> Result<u64, AllocError>
    ensures { IfOk result (λ n. n ≡ leaf % each) }
{
    if each == 0 {
        Err(AllocError)
    } else {
        Ok(leaf % each)
    }
}

/// The region that is so far behind another. Past 2^32 it wants memory.
fn region_behind(root: u64, cell: u64) -> Result<u32, AllocError>
    ensures { IfOk result (λ n. n ≡ root + cell) }
{
    match u32::try_from(plus(root, cell)?) {
        Ok(region) => Ok(region),
        Err(_) => Err(AllocError),
    }
}

/// How many of these cells are the given region.
fn count_of(cells: &[u32], region: u64) -> usize
    ensures { result ≡ count_by (λ c. c == region) cells.now }
{
    cells.iter().filter(|c| u64::from(**c) == region).count()
}

fn has_more(count: u64, known: usize) -> bool
    ensures { result ≡ nat_lt known count }
{
    match u64::try_from(known) {
        Ok(known) => known < count,
        Err(_) => false,
    }
}

/// How many scalar leaves an object of a type has. Past 2^64 it wants memory.
pub fn leaf_count(layouts: &Layouts<'_>, of: &CType) -> Result<u64, AllocError>
    requires { AreSummaries (map struct_of layouts.now.structs.now) layouts.now.summaries.now }
    ensures { IfOk result (λ n. n ≡
        leaf_count (layout_of (map struct_of layouts.now.structs.now) (type_of of.now))) }
{
    Ok(summary_by(layouts.summaries, of)?.leaves)
}

/// How many regions it has as a member.
fn own_count(layouts: &Layouts<'_>, of: &CType) -> Result<u64, AllocError>
    requires { AreSummaries (map struct_of layouts.now.structs.now) layouts.now.summaries.now }
    ensures { IfOk result (λ n. n ≡ cond
        (is_floating_shape (layout_of (map struct_of layouts.now.structs.now) (type_of of.now))) 0
        (region_count (layout_of (map struct_of layouts.now.structs.now) (type_of of.now)))) }
{
    if is_floating_member(layouts, of) {
        Ok(0)
    } else {
        Ok(summary_by(layouts.summaries, of)?.regions)
    }
}

fn has_cell(layouts: &Layouts<'_>, of: &CType) -> Result<bool, AllocError>
    requires { AreSummaries (map struct_of layouts.now.structs.now) layouts.now.summaries.now }
    ensures { IfOk result (λ b. b ≡
        has_cell (layout_of (map struct_of layouts.now.structs.now) (type_of of.now))) }
{
    Ok(summary_by(layouts.summaries, of)?.cells)
}

/// Which of its regions is the cell of a leaf.
#[cycle(cells)]
pub fn leaf_cell(layouts: &Layouts<'_>, of: &CType, leaf: u64) -> Result<Option<u64>, AllocError>
    requires { AreSummaries (map struct_of layouts.now.structs.now) layouts.now.summaries.now }
    ensures { IfOk result (λ cell. cell ≡
        leaf_cell (layout_of (map struct_of layouts.now.structs.now) (type_of of.now)) leaf) }
{
    match of {
        CType::Int(_) | CType::Pointer(_) => Ok(Some(0)),
        CType::Float(_) => Ok(None),
        CType::Array(array) => {
            if array.length.is_none() {
                return Ok(None);
            }
            let inside = remainder(leaf, leaf_count(layouts, &array.element)?)?;
            further(1, leaf_cell(layouts, &array.element, inside)?)
        }
        CType::Struct(number) => struct_cell(layouts, *number, of, leaf),
        CType::Void | CType::Function(_) => Ok(None),
    }
}

/// Of a struct of this number.
#[cycle(cells)]
fn struct_cell(
    layouts: &Layouts<'_>,
    number: u32,
    of: &CType,
    leaf: u64,
) -> Result<Option<u64>, AllocError>
    requires laid { AreSummaries (map struct_of layouts.now.structs.now) layouts.now.summaries.now }
    requires is { type_of of.now ≡ structure number }
    ensures { IfOk result (λ cell. cell ≡
        leaf_cell (layout_of (map struct_of layouts.now.structs.now) (structure number)) leaf) }
{
    match layouts.structs.get(number as usize) {
        Some(found) => found_cell(layouts, found, of, leaf),
        None => Ok(None),
    }
}

/// Of this struct.
#[cycle(cells)]
fn found_cell(
    layouts: &Layouts<'_>,
    found: &StructType,
    of: &CType,
    leaf: u64,
) -> Result<Option<u64>, AllocError>
    requires { AreSummaries (map struct_of layouts.now.structs.now) layouts.now.summaries.now }
    ensures { IfOk result (λ cell. cell ≡ leaf_cell (shape_of_struct (type_of of.now)
        (size_of (map struct_of layouts.now.structs.now) (type_of of.now))
        (layout_of (map struct_of layouts.now.structs.now)) (Some (struct_of found.now))) leaf) }
{
    match &found.members {
        None => Ok(None),
        Some(members) if found.union => union_cell(layouts, members.as_slice(), of, leaf),
        Some(members) => {
            let cell = struct_members_cell(layouts, members.as_slice(), of, leaf)?;
            Ok(cell)
        }
    }
}

/// Of a struct of these members.
#[cycle(cells)]
fn struct_members_cell(
    layouts: &Layouts<'_>,
    members: &[(u32, CType)],
    of: &CType,
    leaf: u64,
) -> Result<Option<u64>, AllocError>
    requires { AreSummaries (map struct_of layouts.now.structs.now) layouts.now.summaries.now }
    ensures { IfOk result (λ cell. cell ≡ leaf_cell (shape_of_members (type_of of.now)
        (size_of (map struct_of layouts.now.structs.now) (type_of of.now))
        (layout_of (map struct_of layouts.now.structs.now)) false
        (Some (seen_members members.now))) leaf) }
{
    further(1, member_cell(layouts, members, leaf)?)
}

/// Of a union of these members.
fn union_cell(
    layouts: &Layouts<'_>,
    members: &[(u32, CType)],
    of: &CType,
    leaf: u64,
) -> Result<Option<u64>, AllocError>
    ensures { IfOk result (λ cell. cell ≡ leaf_cell (first_shape (type_of of.now)
        (size_of (map struct_of layouts.now.structs.now) (type_of of.now))
        (layout_of (map struct_of layouts.now.structs.now)) (seen_members members.now)) leaf) }
{
    let _layouts = layouts;
    let _of = of;
    let _leaf = leaf;
    match members {
        [] => Ok(None),
        [_, ..] => Ok(Some(0)),
    }
}

/// Which region of members is the cell of a leaf.
#[cycle(cells)]
fn member_cell(
    layouts: &Layouts<'_>,
    members: &[(u32, CType)],
    leaf: u64,
) -> Result<Option<u64>, AllocError>
    requires { AreSummaries (map struct_of layouts.now.structs.now) layouts.now.summaries.now }
    ensures { IfOk result (λ cell. cell ≡ member_leaf_cell (member_shapes
        (layout_of (map struct_of layouts.now.structs.now)) (seen_members members.now)) leaf) }
{
    let mut before = 0;
    let mut left = leaf;
    for member in members {
        let count = leaf_count(layouts, &member.1)?;
        if left < count {
            return further(before, leaf_cell(layouts, &member.1, left)?);
        }
        left -= count;
        before = plus(before, own_count(layouts, &member.1)?)?;
    }
    Ok(None)
}

/// The region of the cell of a leaf of an object whose root is this region.
fn leaf_region(layouts: &Layouts<'_>, of: &CType, root: u64, leaf: u64) -> Result<u32, AllocError>
    requires { AreSummaries (map struct_of layouts.now.structs.now) layouts.now.summaries.now }
    ensures { IfOk result (λ n. n ≡ leaf_region
        (layout_of (map struct_of layouts.now.structs.now) (type_of of.now)) root leaf) }
{
    match leaf_cell(layouts, of, leaf)? {
        Some(cell) => region_behind(root, cell),
        None => Ok(0),
    }
}

/// The cells of the leaves that have a value, of an object whose root is this region.
pub fn start_cells(
    alloc: Global,
    layouts: &Layouts<'_>,
    of: &CType,
    root: u64,
    starts: &[(u64, TypedExpr)],
) -> Result<Vec<u32>, AllocError>
    requires { AreSummaries (map struct_of layouts.now.structs.now) layouts.now.summaries.now }
    ensures { IfOk result (λ cells. cells.items ≡ start_cells
        (layout_of (map struct_of layouts.now.structs.now) (type_of of.now)) root
        (map (λ s. (s.0, typed_of s.1)) starts.now)) }
{
    let mut cells = Vec::new(alloc);
    for start in starts {
        cells.push(leaf_region(layouts, of, root, start.0)?)?;
    }
    Ok(cells)
}

/// Adds a region that is the cell of so many leaves, if more than have it among these cells.
fn push_left(cells: &[u32], left: &mut Vec<u32>, region: u64, count: u64) -> Result<(), AllocError>
    ensures { OnOk result (left.new.items ≡
        left.old.items ++ cells_left cells.now region (count ∷ [])) }
{
    if has_more(count, count_of(cells, region)) {
        let Ok(region) = u32::try_from(region) else {
            return Err(AllocError);
        };
        left.push(region)?;
    }
    Ok(())
}

/// Adds the cells of more leaves than have them among these cells, of so many objects of a type
/// whose root is this region. What has no cell isn't gone through.
#[cycle(left)]
fn add_left(
    layouts: &Layouts<'_>,
    cells: &[u32],
    left: &mut Vec<u32>,
    root: u64,
    count: u64,
    of: &CType,
) -> Result<(), AllocError>
    requires { AreSummaries (map struct_of layouts.now.structs.now) layouts.now.summaries.now }
    ensures { OnOk result (left.new.items ≡ left.old.items ++ cells_left cells.now root
        (cell_leaves count (layout_of (map struct_of layouts.now.structs.now) (type_of of.now)))) }
{
    if !has_cell(layouts, of)? {
        return Ok(());
    }
    match of {
        CType::Int(_) | CType::Pointer(_) => push_left(cells, left, root, count),
        CType::Array(array) => match array.length {
            Some(length) => {
                let count = times(count, length)?;
                add_left(layouts, cells, left, plus(root, 1)?, count, &array.element)
            }
            None => push_left(cells, left, root, 0),
        },
        CType::Struct(number) => struct_left(layouts, cells, left, root, count, *number, of),
        CType::Float(_) | CType::Void | CType::Function(_) => push_left(cells, left, root, 0),
    }
}

/// Adds those of a struct of this number.
#[cycle(left)]
fn struct_left(
    layouts: &Layouts<'_>,
    cells: &[u32],
    left: &mut Vec<u32>,
    root: u64,
    count: u64,
    number: u32,
    of: &CType,
) -> Result<(), AllocError>
    requires laid { AreSummaries (map struct_of layouts.now.structs.now) layouts.now.summaries.now }
    requires is { type_of of.now ≡ structure number }
    ensures { OnOk result (left.new.items ≡ left.old.items ++ cells_left cells.now root
        (cell_leaves count (layout_of (map struct_of layouts.now.structs.now) (structure number)))) }
{
    match layouts.structs.get(number as usize) {
        Some(found) => found_left(layouts, cells, left, root, count, found, of),
        None => push_left(cells, left, root, 0),
    }
}

/// Adds those of this struct.
#[cycle(left)]
fn found_left(
    layouts: &Layouts<'_>,
    cells: &[u32],
    left: &mut Vec<u32>,
    root: u64,
    count: u64,
    found: &StructType,
    of: &CType,
) -> Result<(), AllocError>
    requires { AreSummaries (map struct_of layouts.now.structs.now) layouts.now.summaries.now }
    ensures { OnOk result (left.new.items ≡ left.old.items ++ cells_left cells.now root
        (cell_leaves count (shape_of_struct (type_of of.now)
        (size_of (map struct_of layouts.now.structs.now) (type_of of.now))
        (layout_of (map struct_of layouts.now.structs.now)) (Some (struct_of found.now))))) }
{
    match &found.members {
        None => push_left(cells, left, root, 0),
        Some(members) if found.union => {
            union_left(layouts, cells, left, root, count, members.as_slice(), of)
        }
        Some(members) => {
            members_left(
                layouts,
                cells,
                left,
                plus(root, 1)?,
                count,
                members.as_slice(),
            )
        }
    }
}

/// Adds the cell of a union of these members.
fn union_left(
    layouts: &Layouts<'_>,
    cells: &[u32],
    left: &mut Vec<u32>,
    root: u64,
    count: u64,
    members: &[(u32, CType)],
    of: &CType,
) -> Result<(), AllocError>
    requires { AreSummaries (map struct_of layouts.now.structs.now) layouts.now.summaries.now }
    ensures { OnOk result (left.new.items ≡ left.old.items ++ cells_left cells.now root
        (cell_leaves count (first_shape (type_of of.now)
        (size_of (map struct_of layouts.now.structs.now) (type_of of.now))
        (layout_of (map struct_of layouts.now.structs.now)) (seen_members members.now)))) }
{
    let _of = of;
    match members {
        [] => push_left(cells, left, root, 0),
        [first, ..] => {
            let count = times(count, leaf_count(layouts, &first.1)?)?;
            push_left(cells, left, root, count)
        }
    }
}

/// Adds those of members, from this region on.
#[cycle(left)]
fn members_left(
    layouts: &Layouts<'_>,
    cells: &[u32],
    left: &mut Vec<u32>,
    root: u64,
    count: u64,
    members: &[(u32, CType)],
) -> Result<(), AllocError>
    requires { AreSummaries (map struct_of layouts.now.structs.now) layouts.now.summaries.now }
    ensures { OnOk result (left.new.items ≡ left.old.items ++ cells_left cells.now root
        (member_cell_leaves count (member_shapes
        (layout_of (map struct_of layouts.now.structs.now)) (seen_members members.now)))) }
{
    let mut region = root;
    for member in members {
        add_left(layouts, cells, left, region, count, &member.1)?;
        region = plus(region, own_count(layouts, &member.1)?)?;
    }
    Ok(())
}

/// The cells with a leaf that has no value, of an object whose root is this region, where those
/// with a value have these cells.
pub fn cells_left(
    alloc: Global,
    layouts: &Layouts<'_>,
    of: &CType,
    root: u64,
    cells: &[u32],
) -> Result<Vec<u32>, AllocError>
    requires { AreSummaries (map struct_of layouts.now.structs.now) layouts.now.summaries.now }
    ensures { IfOk result (λ left. left.items ≡ cells_left cells.now root
        (cell_leaves 1 (layout_of (map struct_of layouts.now.structs.now) (type_of of.now)))) }
{
    let mut left = Vec::new(alloc);
    add_left(layouts, cells, &mut left, root, 1, of)?;
    Ok(left)
}
