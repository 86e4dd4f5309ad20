//! A store to the cells of an lvalue, on a row of slots.
ghost use Rattle.std.specs.Prelude.{◌≡◌, ◌≢◌, ◌<◌, ℕ, true, cond, option_map, slice_get, length, IfOk, OnOk};
ghost use Rattle.std.specs.List.Sorted.{IsStrictlyIncreasing};
ghost use Rattle.sp_types.specs.View.{type_of};
ghost use Rattle.sp_lattice.specs.System.{has, AllBelow};
ghost use Rattle.sp_ir.specs.Programs.{lowered_of};
ghost use Rattle.sp_ir.specs.View.{lvalue_of};
ghost use Rattle.sp_value.specs.declared.slots.Slot.{Slot};
ghost use Rattle.sp_points_rules.specs.Leaves.{type_in};
ghost use Rattle.sp_value.specs.Slots.{slot_join};
ghost use Rattle.sp_effect_rows.specs.Rows.{joins, kept_if, applied};
ghost use Rattle.sp_effect_rows.specs.Setting.{count};
ghost use Rattle.sp_effect_rows.specs.Storing.{may_hit, kept_by};
ghost use Rattle.sp_effect_rows.specs.Updates.{store_of};
ghost use Rattle.sp_effect_scene.specs.Analysed.{setting_of};
ghost use Rattle.sp_effect_scene.specs.View.{analysed_of};
ghost use Rattle.sp_effect_call.specs.Copied.{has_cell};
ghost use Rattle.sp_effect_call.specs.Copies.{leaf_destination};
ghost use Rattle.sp_effect_call.specs.Slots.{cell_slot, bottom_slot, stored_leaves};

use sp_effect_assign::{Scenery, bottom_accepts, region_under};
use sp_effect_entry::join_to;
use sp_effect_rows::put_at;
use sp_effect_scene::Analysis;
use sp_ir::{Lowered, Lvalue};
use sp_points_rules::{is_scalar, reaches};
use sp_types::CType;
use sp_value::{Slot, Target};
use std::alloc::{AllocError, Global};

/// What goes to the cells of an lvalue.
pub trait Gives {
    ghost slots: { Self → ℕ → ℕ → Slot };

    /// What is stored in a cell, from a region that the lvalue may have.
    fn slot(&self, alloc: Global, region: u32, cell: u32) -> Result<Slot, AllocError>
        ensures { IfOk result (λ slot. slot ≡ slots self.now region cell) };
}

// ---- which cells

/// The type of an object.
pub(crate) fn type_at(lowered: &Lowered, object: u32) -> Option<&CType>
    ensures { option_map (λ t. type_of t.now) result ≡
        type_in (slice_get (lowered_of lowered.now).objects object) }
{
    match lowered.objects.get(object as usize) {
        Some(found) => found.of.as_ref(),
        None => None,
    }
}

/// Whether a value of the type that stands at a region has the cell.
fn has_cell(lowered: &Lowered, of: Option<&CType>, region: u32, cell: u32) -> bool
    ensures { result ≡ has_cell (lowered_of lowered.now)
        (option_map (λ t. type_of t.now) of.entry) region cell }
{
    match of {
        Some(of) => {
            if is_scalar(of) {
                region == cell
            } else {
                reaches(lowered, region, cell)
            }
        }
        None => reaches(lowered, region, cell),
    }
}

/// Whether a store at a region of the bottom goes to a location.
pub fn hits(analysis: &Analysis, to: &Lvalue, region: u32, location: u32) -> bool
    requires { location < count (setting_of (analysed_of analysis.now)) }
    ensures { result ≡ (leaf_destination (analysed_of analysis.now) (lvalue_of to.now)).hits
        region location }
{
    let lowered = &analysis.lowered;
    bottom_accepts(lowered, to, region)
        && {
            let cell = analysis.region(location);
            has_cell(
                lowered,
                Some(to.of()),
                region_under(lowered, to, region),
                cell,
            )
        }
}

// ---- what is kept

/// Whether a location that may be hit keeps what it holds.
fn is_kept(analysis: &Analysis, to: &Lvalue, targets: &[Target], location: u32) -> bool
    requires low { location < count (setting_of (analysed_of analysis.now)) }
    requires hit { may_hit (leaf_destination (analysed_of analysis.now) (lvalue_of to.now)) location
        ≡ true }
    ensures { result ≡ kept_by (leaf_destination (analysed_of analysis.now) (lvalue_of to.now))
        targets.now location }
{
    if targets.len() == 0 {
        false
    } else if targets.len() == 1 {
        let is_hit = hits(analysis, to, targets[0].region, location);
        !(is_hit && !analysis.is_summary(location))
    } else {
        true
    }
}

/// Empties a place of a row, unless it keeps what it holds.
fn clear_at(
    analysis: &Analysis,
    to: &Lvalue,
    targets: &[Target],
    place: u32,
    row: &mut [Slot],
    places: &[u32],
)
    requires ascend { IsStrictlyIncreasing places.now }
    requires low { place < count (setting_of (analysed_of analysis.now)) }
    requires hit { may_hit (leaf_destination (analysed_of analysis.now) (lvalue_of to.now)) place
        ≡ true }
    requires there { has place places.now ≡ true }
    requires long { length row.old ≡ length places.now }
    ensures there { store_of places.now row.new place ≡
        kept_if (kept_by (leaf_destination (analysed_of analysis.now) (lvalue_of to.now))
        targets.now place) (store_of places.now row.old place) }
    ensures others { (l : ℕ) → l ≢ place →
        store_of places.now row.new l ≡ store_of places.now row.old l }
{
    if !is_kept(analysis, to, targets, place) {
        put_at(row, places, place, Slot::Nothing);
    }
}

/// Empties a row where it may be hit, unless it keeps what it holds.
fn clear(
    analysis: &Analysis,
    to: &Lvalue,
    targets: &[Target],
    hit: &[u32],
    row: &mut [Slot],
    places: &[u32],
)
    requires ascend { IsStrictlyIncreasing places.now }
    requires low { AllBelow (count (setting_of (analysed_of analysis.now))) places.now }
    requires long { length row.old ≡ length places.now }
    requires defs { (l : ℕ) → has l hit.now ≡
        may_hit (leaf_destination (analysed_of analysis.now) (lvalue_of to.now)) l }
    requires among { (l : ℕ) → has l hit.now ≡ true → has l places.now ≡ true }
    ensures { (l : ℕ) → store_of places.now row.new l ≡ cond (has l hit.now)
        (kept_if (kept_by (leaf_destination (analysed_of analysis.now) (lvalue_of to.now))
        targets.now l) (store_of places.now row.old l)) (store_of places.now row.old l) }
{
    for place in hit {
        clear_at(analysis, to, targets, *place, row, places);
    }
}

// ---- what is put

/// Joins to a row what a cell gets.
fn join_cell<G: Gives>(
    alloc: Global,
    analysis: &Analysis,
    of: Option<&CType>,
    region: u32,
    cell: u32,
    gives: &G,
    row: &mut [Slot],
    places: &[u32],
) -> Result<(), AllocError>
    requires ascend { IsStrictlyIncreasing places.now }
    requires long { length row.old ≡ length places.now }
    ensures { OnOk result ((l : ℕ) → has l places.now ≡ true → store_of places.now row.new l ≡
        slot_join (store_of places.now row.old l)
        (cell_slot (analysed_of analysis.now) (option_map (λ t. type_of t.now) of.entry)
        (G.slots gives.now) region l cell)) }
{
    if has_cell(&analysis.lowered, of, region, cell) {
        let slot = gives.slot(alloc, region, cell)?;
        join_to(alloc, analysis, cell, &slot, row, places)?;
        Ok(())
    } else {
        Ok(())
    }
}

/// Joins to a row what each of these cells gets.
pub fn join_cells<G: Gives>(
    alloc: Global,
    analysis: &Analysis,
    of: Option<&CType>,
    region: u32,
    cells: &[u32],
    gives: &G,
    row: &mut [Slot],
    places: &[u32],
) -> Result<(), AllocError>
    requires ascend { IsStrictlyIncreasing places.now }
    requires long { length row.old ≡ length places.now }
    ensures { OnOk result ((l : ℕ) → has l places.now ≡ true → store_of places.now row.new l ≡
        slot_join (store_of places.now row.old l)
        (joins (cell_slot (analysed_of analysis.now) (option_map (λ t. type_of t.now) of.entry)
        (G.slots gives.now) region l) cells.now)) }
{
    for cell in cells {
        join_cell(alloc, analysis, of, region, *cell, gives, row, places)?;
    }
    Ok(())
}

/// Joins to a row what the cells of an lvalue get at a region of its bottom.
fn join_target<G: Gives>(
    alloc: Global,
    analysis: &Analysis,
    to: &Lvalue,
    region: u32,
    gives: &G,
    row: &mut [Slot],
    places: &[u32],
) -> Result<(), AllocError>
    requires ascend { IsStrictlyIncreasing places.now }
    requires low { AllBelow (count (setting_of (analysed_of analysis.now))) places.now }
    requires long { length row.old ≡ length places.now }
    ensures { OnOk result ((l : ℕ) → has l places.now ≡ true → store_of places.now row.new l ≡
        slot_join (store_of places.now row.old l)
        (bottom_slot (analysed_of analysis.now) (lvalue_of to.now) (G.slots gives.now) l region)) }
{
    if bottom_accepts(&analysis.lowered, to, region) {
        let region = region_under(&analysis.lowered, to, region);
        let cells = analysis.under(region);
        join_cells(
            alloc,
            analysis,
            Some(to.of()),
            region,
            cells,
            gives,
            row,
            places,
        )?;
        Ok(())
    } else {
        Ok(())
    }
}

/// Joins to a row what the cells of an lvalue get at each target.
fn join_targets<G: Gives>(
    alloc: Global,
    analysis: &Analysis,
    to: &Lvalue,
    targets: &[Target],
    gives: &G,
    row: &mut [Slot],
    places: &[u32],
) -> Result<(), AllocError>
    requires ascend { IsStrictlyIncreasing places.now }
    requires low { AllBelow (count (setting_of (analysed_of analysis.now))) places.now }
    requires long { length row.old ≡ length places.now }
    ensures { OnOk result ((l : ℕ) → has l places.now ≡ true → store_of places.now row.new l ≡
        slot_join (store_of places.now row.old l)
        (joins (λ x. bottom_slot (analysed_of analysis.now) (lvalue_of to.now) (G.slots gives.now) l
        x.region) targets.now)) }
{
    for target in targets {
        join_target(alloc, analysis, to, target.region, gives, row, places)?;
    }
    Ok(())
}

/// Stores what is given to the cells of an lvalue whose bottom has these targets. `hit` are the
/// locations that may be hit, all of them among the places.
pub fn store_among<G: Gives>(
    alloc: Global,
    analysis: &Analysis,
    to: &Lvalue,
    targets: &[Target],
    gives: &G,
    hit: &[u32],
    row: &mut [Slot],
    places: &[u32],
) -> Result<(), AllocError>
    requires ascend { IsStrictlyIncreasing places.now }
    requires low { AllBelow (count (setting_of (analysed_of analysis.now))) places.now }
    requires long { length row.old ≡ length places.now }
    requires defs { (l : ℕ) → has l hit.now ≡
        may_hit (leaf_destination (analysed_of analysis.now) (lvalue_of to.now)) l }
    requires among { (l : ℕ) → has l hit.now ≡ true → has l places.now ≡ true }
    ensures { OnOk result ((l : ℕ) → has l places.now ≡ true → store_of places.now row.new l ≡
        slot_join (cond (has l hit.now)
        (kept_if (kept_by (leaf_destination (analysed_of analysis.now) (lvalue_of to.now))
        targets.now l) (store_of places.now row.old l)) (store_of places.now row.old l))
        (joins (λ x. bottom_slot (analysed_of analysis.now) (lvalue_of to.now) (G.slots gives.now) l
        x.region) targets.now)) }
{
    clear(analysis, to, targets, hit, row, places);
    join_targets(alloc, analysis, to, targets, gives, row, places)?;
    Ok(())
}

/// The same, where the places are the locations that may be hit.
pub(crate) fn store_leaves<G: Gives>(
    alloc: Global,
    analysis: &Analysis,
    to: &Lvalue,
    targets: &[Target],
    gives: &G,
    row: &mut [Slot],
    places: &[u32],
) -> Result<(), AllocError>
    requires ascend { IsStrictlyIncreasing places.now }
    requires low { AllBelow (count (setting_of (analysed_of analysis.now))) places.now }
    requires long { length row.old ≡ length places.now }
    requires defs { (l : ℕ) → has l places.now ≡
        may_hit (leaf_destination (analysed_of analysis.now) (lvalue_of to.now)) l }
    ensures { OnOk result ((l : ℕ) → has l places.now ≡ true → store_of places.now row.new l ≡
        applied (stored_leaves (analysed_of analysis.now) (lvalue_of to.now) (G.slots gives.now)
        targets.now) (store_of places.now row.old) l) }
{
    store_among(alloc, analysis, to, targets, gives, places, row, places)?;
    Ok(())
}
