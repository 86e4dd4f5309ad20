//! Where paths lead, and what regions are.
ghost use Rattle.std.specs.Prelude.{◌≡◌, ◌&&◌, ◌||◌, ◌≤◌, ℕ, true, false, length, drop, take, Option, Some, None, option_map};
ghost use Rattle.sp_ir.specs.Programs.{lowered_of};
ghost use Rattle.sp_base_sets.specs.Sets.{has};
ghost use Rattle.sp_base_sets.specs.Reached.{row};
ghost use Rattle.sp_points_rules.specs.Paths.{step_to, next, descend, path_in, between, reaches, only_cell, mirrored, object_at, pairs, is_text, pointer_element, AreGroups, pointer_region, points_under, leaf_points_under, is_heap_root, is_heap_object, is_heap_kind, option_region, option_object};

use crate::groups::Groups;
use sp_ir::{Lowered, ObjectKind, Step, matches};
use sp_types::{CType, IntKind};

fn step_to(lowered: &Lowered, region: u32, step: Step) -> Option<u32>
    ensures { result ≡ step_to (lowered_of lowered.now) region step }
{
    if lowered.is_collapsed(region) {
        Some(region)
    } else {
        lowered.regions.child(region, step)
    }
}

fn next(lowered: &Lowered, at: Option<u32>, step: Step) -> Option<u32>
    ensures { result ≡ next (lowered_of lowered.now) at step }
{
    match at {
        None => None,
        Some(region) => step_to(lowered, region, step),
    }
}

/// Where a path leads from a region.
fn descend(lowered: &Lowered, region: u32, steps: &[Step]) -> Option<u32>
    ensures { result ≡ descend (lowered_of lowered.now) (Some region) steps.now }
{
    let mut at = Some(region);
    for step in steps {
        at = next(lowered, at, *step);
    }
    at
}

/// How long the path of a region is.
fn depth(lowered: &Lowered, region: u32) -> usize
    ensures { result ≡ length (path_in (option_region (lowered_of lowered.now) region)) }
{
    match lowered.regions.get(region) {
        None => 0,
        Some(found) => found.path.len(),
    }
}

/// The path from a region to one under it.
fn between(lowered: &Lowered, region: u32, cell: u32) -> &[Step]
    ensures { result.now ≡ between (lowered_of lowered.now) region cell }
{
    let from = depth(lowered, region);
    match lowered.regions.get(cell) {
        None => &[],
        Some(found) => behind(found.path.as_slice(), from),
    }
}

fn behind(path: &[Step], from: usize) -> &[Step]
    ensures { result.now ≡ drop from path.now }
{
    if from <= path.len() {
        &path[from..]
    } else {
        &[]
    }
}

/// Whether a cell is under a region.
pub fn reaches(lowered: &Lowered, region: u32, cell: u32) -> bool
    ensures { result ≡ reaches (lowered_of lowered.now) region cell }
{
    let path = between(lowered, region, cell);
    lowered.regions.is_cell(cell) && descend(lowered, region, path) == Some(cell)
}

fn only_cell(lowered: &Lowered, found: Option<u32>) -> Option<u32>
    ensures { result ≡ only_cell (lowered_of lowered.now) found }
{
    match found {
        None => None,
        Some(cell) => {
            if lowered.regions.is_cell(cell) {
                Some(cell)
            } else {
                None
            }
        }
    }
}

/// The cell to which the path from a region to a cell under it leads from another region.
pub fn mirrored(lowered: &Lowered, region: u32, other: u32, cell: u32) -> Option<u32>
    ensures { result ≡ mirrored (lowered_of lowered.now) region other cell }
{
    if reaches(lowered, region, cell) {
        let path = between(lowered, region, cell);
        only_cell(lowered, descend(lowered, other, path))
    } else {
        None
    }
}

/// The object of a region.
pub fn object_at(lowered: &Lowered, region: u32) -> u32
    ensures { result ≡ object_at (lowered_of lowered.now) region }
{
    match lowered.regions.get(region) {
        None => 0,
        Some(found) => found.object,
    }
}

/// What may be under a region: the cells of its object.
pub fn under<'a>(lowered: &Lowered, groups: &'a Groups, region: u32) -> &'a [u32]
    ensures { result.now ≡
        row groups.now.objects.items (object_at (lowered_of lowered.now) region) }
{
    match groups.objects.get(object_at(lowered, region) as usize) {
        Some(group) => group.as_slice(),
        None => &[],
    }
}

/// Whether a region's cells may be copied to another's, cell by cell.
pub fn pairs(lowered: &Lowered, target: u32, source: u32) -> bool
    ensures { result ≡ pairs (lowered_of lowered.now) target source }
{
    let Some(a) = lowered.regions.get(target) else {
        return false;
    };
    let Some(b) = lowered.regions.get(source) else {
        return false;
    };
    match &a.element {
        None => true,
        Some(x) => match &b.element {
            None => true,
            Some(y) => matches(x, y),
        },
    }
}

/// Whether a region has elements of one byte, or is kept as bytes.
pub fn is_text(lowered: &Lowered, region: u32) -> bool
    ensures { result ≡ is_text (lowered_of lowered.now) region }
{
    match lowered.regions.get(region) {
        None => false,
        Some(found) => match &found.element {
            None => true,
            Some(CType::Int(IntKind::Char | IntKind::SChar | IntKind::UChar)) => true,
            Some(_) => false,
        },
    }
}

/// Whether a region's elements are pointers, or are bytes and these hold one.
fn is_pointer(lowered: &Lowered, region: u32, bytes: bool) -> bool
    ensures { result ≡ pointer_region bytes (option_region (lowered_of lowered.now) region) }
{
    match lowered.regions.get(region) {
        None => false,
        Some(found) => match &found.element {
            None => bytes,
            Some(of) => matches!(of, CType::Pointer(_)),
        },
    }
}

/// Whether a cell under a region may hold a pointer, where a value with one comes to the region
/// from outside.
pub(crate) fn points_under(lowered: &Lowered, groups: &Groups, region: u32, cell: u32) -> bool
    requires { AreGroups (lowered_of lowered.now) groups.now }
    ensures { result ≡ points_under (lowered_of lowered.now) region cell }
{
    let bytes = region == cell || groups.pointers.has(cell);
    reaches(lowered, region, cell) && is_pointer(lowered, cell, bytes)
}

/// Whether a cell under a region may hold a pointer by its type.
pub(crate) fn leaf_points_under(lowered: &Lowered, groups: &Groups, region: u32, cell: u32) -> bool
    requires { AreGroups (lowered_of lowered.now) groups.now }
    ensures { result ≡ leaf_points_under (lowered_of lowered.now) region cell }
{
    let bytes = groups.pointers.has(cell);
    reaches(lowered, region, cell) && is_pointer(lowered, cell, bytes)
}

fn is_heap(kind: ObjectKind) -> bool
    ensures { result ≡ is_heap_kind kind }
{
    match kind {
        ObjectKind::Heap(_) => true,
        ObjectKind::Static
        | ObjectKind::Outside
        | ObjectKind::Text
        | ObjectKind::Auto
        | ObjectKind::Formal
        | ObjectKind::Temp
        | ObjectKind::Result
        | ObjectKind::Function(_)
        | ObjectKind::Foreign(_) => false,
    }
}

fn is_heap_object(lowered: &Lowered, object: u32) -> bool
    ensures { result ≡ is_heap_object (option_object (lowered_of lowered.now) object) }
{
    match lowered.objects.get(object as usize) {
        None => false,
        Some(found) => is_heap(found.kind),
    }
}

/// Whether a region is the whole of what the library allocated.
pub fn is_heap_root(lowered: &Lowered, region: u32) -> bool
    ensures { result ≡ is_heap_root (lowered_of lowered.now) region }
{
    match lowered.regions.get(region) {
        None => false,
        Some(found) => found.path.is_empty() && is_heap_object(lowered, found.object),
    }
}
