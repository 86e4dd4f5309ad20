//! The cells of objects: of one, of a function's own, and of those that have a value at the start.
ghost use Rattle.std.specs.Prelude.{◌≡◌, ◌&&◌, ◌||◌, not, ℕ, nat_eq, slice_get, OnOk};
ghost use Rattle.std.specs.List.{list_any};
ghost use Rattle.sp_lattice.specs.System.{has};
ghost use Rattle.sp_base_sets.specs.Reached.{row};
ghost use Rattle.sp_ir.specs.Programs.{lowered_of};
ghost use Rattle.sp_effect_scene.specs.Analysed.{is_summary};
ghost use Rattle.sp_effect_scene.specs.View.{analysed_of};
ghost use Rattle.sp_effect_entry.specs.Entries.{fresh_at, entry_defines};
ghost use Rattle.sp_effect_entry.specs.Initials.{is_of, init_defines};
ghost use Rattle.sp_effect_entry.specs.Starts.{is_static, has_kind, main_formals, is_main_formal, start_defines};
ghost use Rattle.sp_effect_uses.specs.Locals.{AreLocals};
ghost use Rattle.sp_effect_uses.specs.Parts.{Adds, AddsAt};

use crate::writes::is_summary;
use sp_base_sets::NumberSet;
use sp_effect_entry::{is_main_formal, main_formals};
use sp_effect_scene::Analysis;
use sp_ir::{Lowered, ObjectKind};
use std::alloc::{AllocError, Global};

/// The set of a number; past the last none.
fn row(sets: &[NumberSet], number: u32) -> &[u32]
    ensures { result.now ≡ row sets.now number }
{
    match sets.get(number as usize) {
        Some(set) => set.as_slice(),
        None => &[],
    }
}

// ---- initialisers

/// Whether a region is of an object.
fn is_of(lowered: &Lowered, object: u32, region: u32) -> bool
    ensures { result ≡ is_of object (slice_get (lowered_of lowered.now).regions region) }
{
    match lowered.regions.get(region) {
        Some(found) => found.object == object,
        None => false,
    }
}

/// Adds a region where it is of an object.
fn add_if_of(
    lowered: &Lowered,
    object: u32,
    region: u32,
    set: &mut NumberSet,
) -> Result<(), AllocError>
    ensures { OnOk result (Adds
        (λ r. is_of object (slice_get (lowered_of lowered.now).regions region) && nat_eq r region)
        set.old set.new) }
{
    if is_of(lowered, object, region) {
        set.add(region)?;
    }
    Ok(())
}

/// Adds those of these regions that are of an object.
fn add_each_of(
    lowered: &Lowered,
    object: u32,
    regions: &[u32],
    set: &mut NumberSet,
) -> Result<(), AllocError>
    ensures { OnOk result (Adds (λ r. list_any
        (λ x. is_of object (slice_get (lowered_of lowered.now).regions x) && nat_eq r x)
        regions.now) set.old set.new) }
{
    for region in regions {
        add_if_of(lowered, object, *region, set)?;
    }
    Ok(())
}

/// Adds the cells of an object.
pub(crate) fn add_object(
    analysis: &Analysis,
    object: u32,
    set: &mut NumberSet,
) -> Result<(), AllocError>
    ensures { OnOk result (AddsAt (analysed_of analysis.now)
        (init_defines (analysed_of analysis.now) object) set.old set.new) }
{
    let regions = row(&analysis.groups.objects, object);
    add_each_of(&analysis.lowered, object, regions, set)?;
    Ok(())
}

// ---- entries

/// Whether a region is of an automatic object, a temporary or the result of a function.
fn is_fresh(lowered: &Lowered, function: u32, region: u32) -> bool
    ensures { result ≡ fresh_at (lowered_of lowered.now) function
        (slice_get (lowered_of lowered.now).regions region) }
{
    match lowered.regions.get(region) {
        Some(found) => match lowered.objects.get(found.object as usize) {
            Some(object) => match object.kind {
                ObjectKind::Auto | ObjectKind::Temp | ObjectKind::Result => {
                    object.function == Some(function)
                }
                ObjectKind::Static
                | ObjectKind::Outside
                | ObjectKind::Text
                | ObjectKind::Formal
                | ObjectKind::Function(_)
                | ObjectKind::Heap(_)
                | ObjectKind::Foreign(_) => false,
            },
            None => false,
        },
        None => false,
    }
}

/// Adds a cell where it is a function's own, and no summary.
fn add_if_fresh(
    analysis: &Analysis,
    function: u32,
    cell: u32,
    set: &mut NumberSet,
) -> Result<(), AllocError>
    ensures { OnOk result (Adds (λ r. (fresh_at (analysed_of analysis.now).program function
        (slice_get (analysed_of analysis.now).program.regions cell)
        && not (is_summary (analysed_of analysis.now).program
        (analysed_of analysis.now).told cell))
        && nat_eq r cell) set.old set.new) }
{
    if is_fresh(&analysis.lowered, function, cell) && !is_summary(analysis, cell) {
        set.add(cell)?;
    }
    Ok(())
}

/// Adds those of these cells that are a function's own, and no summaries.
fn add_each_fresh(
    analysis: &Analysis,
    function: u32,
    cells: &[u32],
    set: &mut NumberSet,
) -> Result<(), AllocError>
    ensures { OnOk result (Adds (λ r. list_any (λ x.
        (fresh_at (analysed_of analysis.now).program function
        (slice_get (analysed_of analysis.now).program.regions x)
        && not (is_summary (analysed_of analysis.now).program (analysed_of analysis.now).told x))
        && nat_eq r x) cells.now) set.old set.new) }
{
    for cell in cells {
        add_if_fresh(analysis, function, *cell, set)?;
    }
    Ok(())
}

/// Adds a function's own cells that are no summaries, but for its formals.
pub(crate) fn add_fresh(
    analysis: &Analysis,
    locals: &[NumberSet],
    function: u32,
    set: &mut NumberSet,
) -> Result<(), AllocError>
    requires { AreLocals (analysed_of analysis.now) locals.now }
    ensures { OnOk result (AddsAt (analysed_of analysis.now)
        (entry_defines (analysed_of analysis.now) function) set.old set.new) }
{
    let cells = row(locals, function);
    add_each_fresh(analysis, function, cells, set)?;
    Ok(())
}

// ---- the start

/// Whether the object of a region is static, or a string.
fn is_static(lowered: &Lowered, region: u32) -> bool
    ensures { result ≡ has_kind is_static (lowered_of lowered.now) region }
{
    match lowered.regions.get(region) {
        Some(found) => match lowered.objects.get(found.object as usize) {
            Some(object) => match object.kind {
                ObjectKind::Static | ObjectKind::Outside | ObjectKind::Text => true,
                ObjectKind::Auto
                | ObjectKind::Formal
                | ObjectKind::Temp
                | ObjectKind::Result
                | ObjectKind::Function(_)
                | ObjectKind::Heap(_)
                | ObjectKind::Foreign(_) => false,
            },
            None => false,
        },
        None => false,
    }
}

/// Adds a cell where it has a value at the start.
fn add_if_start(
    lowered: &Lowered,
    formals: &NumberSet,
    cell: u32,
    set: &mut NumberSet,
) -> Result<(), AllocError>
    requires { (n : ℕ) → has n formals.now ≡ has n (main_formals (lowered_of lowered.now)) }
    ensures { OnOk result (Adds (λ r. (has_kind is_static (lowered_of lowered.now) cell
        || is_main_formal (lowered_of lowered.now) cell) && nat_eq r cell) set.old set.new) }
{
    if is_static(lowered, cell) || is_main_formal(lowered, formals, cell) {
        set.add(cell)?;
    }
    Ok(())
}

/// Adds those of these cells that have a value at the start.
fn add_each_start(
    lowered: &Lowered,
    formals: &NumberSet,
    cells: &[u32],
    set: &mut NumberSet,
) -> Result<(), AllocError>
    requires { (n : ℕ) → has n formals.now ≡ has n (main_formals (lowered_of lowered.now)) }
    ensures { OnOk result (Adds (λ r. list_any (λ x.
        (has_kind is_static (lowered_of lowered.now) x || is_main_formal (lowered_of lowered.now) x)
        && nat_eq r x) cells.now) set.old set.new) }
{
    for cell in cells {
        add_if_start(lowered, formals, *cell, set)?;
    }
    Ok(())
}

/// Adds the cells that have a value at the start.
pub(crate) fn add_start(
    alloc: Global,
    analysis: &Analysis,
    set: &mut NumberSet,
) -> Result<(), AllocError>
    ensures { OnOk result (AddsAt (analysed_of analysis.now)
        (start_defines (analysed_of analysis.now)) set.old set.new) }
{
    let formals = main_formals(alloc, &analysis.lowered)?;
    add_each_start(&analysis.lowered, &formals, &analysis.locations.cells, set)?;
    Ok(())
}
