//! The regions to which commands store.
ghost use Rattle.std.specs.Prelude.{◌≡◌, ◌&&◌, not, nat_eq, Some, option_map, OnOk};
ghost use Rattle.std.specs.List.{list_any};
ghost use Rattle.sp_types.specs.View.{type_of};
ghost use Rattle.sp_ir.specs.Programs.{lowered_of};
ghost use Rattle.sp_ir.specs.Terrain.{terrain_of};
ghost use Rattle.sp_ir.specs.View.{expression_of, lvalue_of};
ghost use Rattle.sp_effect_rows.specs.Storing.{may_hit};
ghost use Rattle.sp_effect_assign.specs.Destinations.{bottom_accepts, region_under, destination};
ghost use Rattle.sp_effect_scene.specs.Analysed.{scene_of, is_summary};
ghost use Rattle.sp_effect_scene.specs.View.{analysed_of};
ghost use Rattle.sp_effect_assume.specs.Conditions.{assume_defines};
ghost use Rattle.sp_effect_assume.specs.Sides.{names};
ghost use Rattle.sp_effect_call.specs.Copied.{has_cell};
ghost use Rattle.sp_effect_call.specs.Copies.{leaf_destination, result_defines};
ghost use Rattle.sp_effect_call.specs.Passed.{formal_has, formals_of, call_defines};
ghost use Rattle.sp_effect_uses.specs.Parts.{Adds, AddsAt, assigned_at};

use crate::structs::add_under;
use sp_base_sets::NumberSet;
use sp_effect_assign::{bottom_accepts, region_under};
use sp_effect_assume::{direct_region, is_direct};
use sp_effect_library::bottoms;
use sp_effect_scene::{Analysis, owner_of};
use sp_ir::{Expr, Lowered, Lvalue};
use sp_types::CType;
use std::alloc::{AllocError, Global};

// ---- stores

/// Adds the region of an lvalue whose bottom has this one, where an access matches there.
fn add_place(
    lowered: &Lowered,
    to: &Lvalue,
    region: u32,
    set: &mut NumberSet,
) -> Result<(), AllocError>
    ensures { OnOk result (Adds
        (λ r. bottom_accepts (terrain_of (lowered_of lowered.now)) (lvalue_of to.now) region
        && nat_eq r (region_under (terrain_of (lowered_of lowered.now)) (lvalue_of to.now) region))
        set.old set.new) }
{
    if bottom_accepts(lowered, to, region) {
        set.add(region_under(lowered, to, region))?;
    }
    Ok(())
}

/// Adds the regions of an lvalue whose bottom has one of these.
fn add_each_place(
    analysis: &Analysis,
    to: &Lvalue,
    regions: &[u32],
    set: &mut NumberSet,
) -> Result<(), AllocError>
    ensures { OnOk result (Adds (λ r. list_any (λ q.
        bottom_accepts (terrain_of (analysed_of analysis.now).program) (lvalue_of to.now) q
        && nat_eq r (region_under (terrain_of (analysed_of analysis.now).program)
        (lvalue_of to.now) q)) regions.now) set.old set.new) }
{
    for region in regions {
        add_place(&analysis.lowered, to, *region, set)?;
    }
    Ok(())
}

/// Adds the regions at which an lvalue may be stored to.
fn add_places(
    alloc: Global,
    analysis: &Analysis,
    to: &Lvalue,
    set: &mut NumberSet,
) -> Result<(), AllocError>
    ensures { OnOk result
        (Adds (assigned_at (analysed_of analysis.now) (lvalue_of to.now)) set.old set.new) }
{
    let regions = bottoms(alloc, analysis, to)?;
    add_each_place(analysis, to, regions.as_slice(), set)?;
    Ok(())
}

/// Adds the cells to which an assignment may go.
pub(crate) fn add_destination(
    alloc: Global,
    analysis: &Analysis,
    to: &Lvalue,
    set: &mut NumberSet,
) -> Result<(), AllocError>
    ensures { OnOk result (AddsAt (analysed_of analysis.now)
        (may_hit (destination (scene_of (analysed_of analysis.now)) (lvalue_of to.now)))
        set.old set.new) }
{
    add_places(alloc, analysis, to, set)?;
    Ok(())
}

/// Adds the cells of a value of a type that stands at a region.
fn add_cells_of(
    analysis: &Analysis,
    of: &CType,
    region: u32,
    set: &mut NumberSet,
) -> Result<(), AllocError>
    ensures { OnOk result (Adds
        (has_cell (analysed_of analysis.now).program (Some (type_of of.now)) region)
        set.old set.new) }
{
    match of {
        CType::Int(_) | CType::Pointer(_) => {
            set.add(region)?;
            Ok(())
        }
        CType::Void | CType::Float(_) | CType::Struct(_) | CType::Array(_) | CType::Function(_) => {
            add_under(analysis, region, set)?;
            Ok(())
        }
    }
}

/// Adds the cells of values of a type that stand at these regions.
fn add_each_cells_of(
    analysis: &Analysis,
    of: &CType,
    regions: &[u32],
    set: &mut NumberSet,
) -> Result<(), AllocError>
    ensures { OnOk result (Adds (λ c. list_any
        (λ q. has_cell (analysed_of analysis.now).program (Some (type_of of.now)) q c) regions.now)
        set.old set.new) }
{
    for region in regions {
        add_cells_of(analysis, of, *region, set)?;
    }
    Ok(())
}

/// Adds the cells of an lvalue to which a store may go.
pub(crate) fn add_stored(
    alloc: Global,
    analysis: &Analysis,
    to: &Lvalue,
    set: &mut NumberSet,
) -> Result<(), AllocError>
    ensures { OnOk result (AddsAt (analysed_of analysis.now)
        (may_hit (leaf_destination (analysed_of analysis.now) (lvalue_of to.now)))
        set.old set.new) }
{
    let mut places = NumberSet::new(alloc);
    add_places(alloc, analysis, to, &mut places)?;
    add_each_cells_of(analysis, to.of(), places.as_slice(), set)?;
    Ok(())
}

/// Adds the cells to which a result may go.
pub(crate) fn add_result_stored(
    alloc: Global,
    analysis: &Analysis,
    to: Option<&Lvalue>,
    set: &mut NumberSet,
) -> Result<(), AllocError>
    ensures { OnOk result (AddsAt (analysed_of analysis.now) (result_defines
        (analysed_of analysis.now) (option_map (λ l. lvalue_of l.now) to.entry)) set.old set.new) }
{
    match to {
        Some(to) => {
            add_stored(alloc, analysis, to, set)?;
            Ok(())
        }
        None => Ok(()),
    }
}

// ---- calls

/// Adds the cells of a formal.
fn add_formal(analysis: &Analysis, object: u32, set: &mut NumberSet) -> Result<(), AllocError>
    ensures { OnOk result
        (Adds (formal_has (analysed_of analysis.now).program object) set.old set.new) }
{
    let root = analysis.lowered.root_of(object);
    match analysis.lowered.objects.get(object as usize) {
        Some(found) => match &found.of {
            Some(of) => {
                add_cells_of(analysis, of, root, set)?;
                Ok(())
            }
            None => {
                add_under(analysis, root, set)?;
                Ok(())
            }
        },
        None => {
            add_under(analysis, root, set)?;
            Ok(())
        }
    }
}

/// Adds the cells of these formals.
fn add_formals(analysis: &Analysis, formals: &[u32], set: &mut NumberSet) -> Result<(), AllocError>
    ensures { OnOk result (Adds
        (λ c. list_any (λ o. formal_has (analysed_of analysis.now).program o c) formals.now)
        set.old set.new) }
{
    for formal in formals {
        add_formal(analysis, *formal, set)?;
    }
    Ok(())
}

/// Adds the cells of the formals of a function.
fn add_formals_of(analysis: &Analysis, function: u32, set: &mut NumberSet) -> Result<(), AllocError>
    ensures { OnOk result (Adds
        (λ c. list_any (λ o. formal_has (analysed_of analysis.now).program o c)
        (formals_of (analysed_of analysis.now).program function)) set.old set.new) }
{
    match analysis.lowered.functions.get(function as usize) {
        Some(code) => {
            add_formals(analysis, &code.formals, set)?;
            Ok(())
        }
        None => Ok(()),
    }
}

/// Adds the cells of the formals of these functions.
fn add_each_formals_of(
    analysis: &Analysis,
    functions: &[u32],
    set: &mut NumberSet,
) -> Result<(), AllocError>
    ensures { OnOk result (Adds
        (λ c. list_any (λ f. list_any (λ o. formal_has (analysed_of analysis.now).program o c)
        (formals_of (analysed_of analysis.now).program f)) functions.now) set.old set.new) }
{
    for function in functions {
        add_formals_of(analysis, *function, set)?;
    }
    Ok(())
}

/// Adds the cells of the formals of all functions that a node calls.
pub(crate) fn add_called(
    analysis: &Analysis,
    call: u32,
    set: &mut NumberSet,
) -> Result<(), AllocError>
    ensures { OnOk result (AddsAt (analysed_of analysis.now)
        (call_defines (analysed_of analysis.now) call) set.old set.new) }
{
    let functions = analysis.pre.calls().callees(call);
    add_each_formals_of(analysis, functions, set)?;
    Ok(())
}

// ---- conditions

/// Whether a region stands for more than one place of the machine.
pub(crate) fn is_summary(analysis: &Analysis, region: u32) -> bool
    ensures { result ≡ is_summary (analysed_of analysis.now).program (analysed_of analysis.now).told
        region }
{
    let is_recursive = match owner_of(&analysis.lowered, region) {
        Some(function) => analysis.pre.is_recursive(function),
        None => false,
    };
    analysis.lowered.regions.is_summary_shape(region) || is_recursive
}

/// Adds a region that is no summary.
fn add_single(analysis: &Analysis, region: u32, set: &mut NumberSet) -> Result<(), AllocError>
    ensures { OnOk result (Adds
        (λ r. nat_eq region r
        && not (is_summary (analysed_of analysis.now).program (analysed_of analysis.now).told r))
        set.old set.new) }
{
    if !is_summary(analysis, region) {
        set.add(region)?;
    }
    Ok(())
}

/// Adds the cell that a side of a condition may name.
fn add_named(analysis: &Analysis, side: &Expr, set: &mut NumberSet) -> Result<(), AllocError>
    ensures { OnOk result (AddsAt (analysed_of analysis.now)
        (names (scene_of (analysed_of analysis.now)) (expression_of side.now)) set.old set.new) }
{
    match side {
        Expr::Read(lvalue) => {
            if is_direct(lvalue) {
                add_single(analysis, direct_region(analysis, lvalue), set)?;
                Ok(())
            } else {
                Ok(())
            }
        }
        Expr::Convert(_, operand) => {
            add_named(analysis, operand, set)?;
            Ok(())
        }
        Expr::Number(_, _)
        | Expr::Address(_)
        | Expr::Decay(_)
        | Expr::Unary(_, _, _)
        | Expr::Binary(_, _, _, _, _)
        | Expr::Compare(_, _, _)
        | Expr::Move { .. }
        | Expr::Distance { .. } => Ok(()),
    }
}

/// Adds the cells that the sides of a condition may name.
pub(crate) fn add_sides(
    analysis: &Analysis,
    left: &Expr,
    right: &Expr,
    set: &mut NumberSet,
) -> Result<(), AllocError>
    ensures { OnOk result (AddsAt (analysed_of analysis.now)
        (assume_defines (scene_of (analysed_of analysis.now)) (expression_of left.now)
        (expression_of right.now)) set.old set.new) }
{
    add_named(analysis, left, set)?;
    add_named(analysis, right, set)?;
    Ok(())
}
