//! Sets of regions, one step further.
ghost use Rattle.std.specs.Prelude.{◌≡◌, ◌&&◌, ◌||◌, ℕ, List, [], true, length, IfOk, OnOk, slice_index_or};
ghost use Rattle.sp_types.specs.View.{type_of};
ghost use Rattle.sp_ir.specs.Programs.{lowered_of};
ghost use Rattle.sp_ir.specs.View.{lvalue_of};
ghost use Rattle.sp_ir.specs.Terrain.{terrain_of};
ghost use Rattle.sp_ir.specs.Denoted.{member_region, element_region, keeps_targets};
ghost use Rattle.sp_base_sets.specs.Sets.{has, Includes, Gains, Images};
ghost use Rattle.sp_base_sets.specs.Reached.{row};
ghost use Rattle.sp_points_expr.specs.Given.{is_matched};

use sp_base_sets::NumberSet;
use sp_ir::{Lowered, Lvalue};
use sp_types::{CType, IntKind};
use std::alloc::{AllocError, Global};

/// Whether a value converted to a type still points.
pub fn keeps_targets(of: &CType) -> bool
    ensures { result ≡ keeps_targets (type_of of.now) }
{
    match of {
        CType::Int(IntKind::Long | IntKind::ULong) => true,
        CType::Int(
            IntKind::Char
            | IntKind::SChar
            | IntKind::UChar
            | IntKind::Short
            | IntKind::UShort
            | IntKind::Int
            | IntKind::UInt,
        ) => false,
        CType::Pointer(_) => true,
        CType::Void | CType::Float(_) | CType::Struct(_) | CType::Array(_) | CType::Function(_) =>
            false,
    }
}

/// The region of a member, which is the region itself where that is kept as bytes.
pub fn member_at(lowered: &Lowered, region: u32, member: u32) -> u32
    ensures { result ≡ member_region (terrain_of (lowered_of lowered.now)) member region }
{
    if lowered.is_collapsed(region) {
        region
    } else {
        lowered.member_of(region, member)
    }
}

/// The region of the elements, which is the region itself where that is kept as bytes.
pub fn element_at(lowered: &Lowered, region: u32) -> u32
    ensures { result ≡ element_region (terrain_of (lowered_of lowered.now)) region }
{
    if lowered.is_collapsed(region) {
        region
    } else {
        lowered.element_of(region)
    }
}

fn is_matched(lowered: &Lowered, lvalue: &Lvalue, region: u32) -> bool
    ensures { result ≡ is_matched (terrain_of (lowered_of lowered.now)) (lvalue_of lvalue.now) region }
{
    match lvalue {
        Lvalue::Direct(..) => true,
        Lvalue::Through(_, of, _) => lowered.accepts(region, of),
        Lvalue::Field(..) => true,
    }
}

/// Those of the regions at which an access of the lvalue matches.
pub(crate) fn matching(
    alloc: Global,
    lowered: &Lowered,
    lvalue: &Lvalue,
    regions: &NumberSet,
) -> Result<NumberSet, AllocError>
    ensures { IfOk result (λ set. (r : ℕ) → has r set ≡ (has r regions.now && is_matched (terrain_of (lowered_of lowered.now)) (lvalue_of lvalue.now) r)) }
{
    let mut set = NumberSet::new(alloc);
    let numbers = regions.as_slice();
    for region in numbers {
        if is_matched(lowered, lvalue, *region) {
            set.add(*region)?;
        }
    }
    Ok(set)
}

/// The regions of a member of these regions.
pub(crate) fn members(
    alloc: Global,
    lowered: &Lowered,
    regions: &NumberSet,
    member: u32,
) -> Result<NumberSet, AllocError>
    ensures { IfOk result (λ set. Images (λ q r. member_region (terrain_of (lowered_of lowered.now)) member q ≡ r) regions.now set) }
{
    let mut set = NumberSet::new(alloc);
    let numbers = regions.as_slice();
    for region in numbers {
        add_number(&mut set, member_at(lowered, *region, member))?;
    }
    Ok(set)
}

/// The regions of the elements of these regions.
pub(crate) fn elements(
    alloc: Global,
    lowered: &Lowered,
    regions: &NumberSet,
) -> Result<NumberSet, AllocError>
    ensures { IfOk result (λ set. Images (λ q r. element_region (terrain_of (lowered_of lowered.now)) q ≡ r) regions.now set) }
{
    let mut set = NumberSet::new(alloc);
    let numbers = regions.as_slice();
    for region in numbers {
        add_number(&mut set, element_at(lowered, *region))?;
    }
    Ok(set)
}

fn add_number(set: &mut NumberSet, number: u32) -> Result<(), AllocError>
    ensures { OnOk result (Gains (λ n. number ≡ n) set.old set.new) }
{
    set.add(number)?;
    Ok(())
}

/// What these rows hold, which are seen.
pub fn contents(
    alloc: Global,
    rows: &[NumberSet],
    cells: &NumberSet,
    seen: &mut NumberSet,
) -> Result<NumberSet, AllocError>
    ensures contents { IfOk result (λ set. Images (λ c r. has r (row rows.now c) ≡ true) cells.now set) }
    ensures seen { OnOk result (Includes seen.old seen.new) }
    ensures saw { OnOk result (Includes cells.now seen.new) }
{
    let mut set = NumberSet::new(alloc);
    let numbers = cells.as_slice();
    seen.add_all(numbers)?;
    for cell in numbers {
        add_content(rows, &mut set, *cell)?;
    }
    Ok(set)
}

/// Adds what a row holds.
fn add_content(rows: &[NumberSet], set: &mut NumberSet, cell: u32) -> Result<(), AllocError>
    ensures { OnOk result (Gains (λ r. has r (row rows.now cell) ≡ true) set.old set.new) }
{
    if let Some(row) = rows.get(cell as usize) {
        set.add_all(row.as_slice())?;
    }
    Ok(())
}
