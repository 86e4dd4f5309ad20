//! The cells that are read of structs, of arguments and of results.
ghost use Rattle.std.specs.Prelude.{◌≡◌, ◌&&◌, nat_eq, map, option_map, flat_map, OnOk};
ghost use Rattle.std.specs.List.{list_any};
ghost use Rattle.sp_ir.specs.Programs.{lowered_of, object_of};
ghost use Rattle.sp_ir.specs.View.{expression_of, lvalue_of, leaf_of};
ghost use Rattle.sp_points_rules.specs.Paths.{reaches};
ghost use Rattle.sp_points_rules.specs.Sources.{result_of};
ghost use Rattle.sp_points_rules.specs.Puts.{as_struct};
ghost use Rattle.sp_effect_scene.specs.Analysed.{scene_of};
ghost use Rattle.sp_effect_scene.specs.View.{analysed_of};
ghost use Rattle.sp_effect_entry.specs.Initials.{leaf_reads};
ghost use Rattle.sp_effect_call.specs.Copies.{struct_reads, argument_reads, arguments_read, result_found};
ghost use Rattle.sp_effect_call.specs.Returns.{result_cells, result_reads};
ghost use Rattle.sp_effect_uses.specs.Parts.{Adds, among, struct_of};

use crate::reads::{add_pointer_uses, add_uses, stands_at};
use sp_base_sets::NumberSet;
use sp_effect_scene::Analysis;
use sp_ir::{Expr, Leaf, Lowered, Lvalue, Object};
use sp_points_rules::reaches;
use sp_types::CType;
use std::alloc::{AllocError, Global};

/// Adds a cell where it is under a region.
fn add_if_under(
    lowered: &Lowered,
    region: u32,
    cell: u32,
    set: &mut NumberSet,
) -> Result<(), AllocError>
    ensures { OnOk result (Adds
        (λ r. reaches (lowered_of lowered.now) region cell && nat_eq r cell) set.old set.new) }
{
    if reaches(lowered, region, cell) {
        set.add(cell)?;
    }
    Ok(())
}

/// Adds the cells under a region.
pub(crate) fn add_under(
    analysis: &Analysis,
    region: u32,
    set: &mut NumberSet,
) -> Result<(), AllocError>
    ensures { OnOk result
        (Adds (reaches (analysed_of analysis.now).program region) set.old set.new) }
{
    let cells = analysis.under(region);
    for cell in cells {
        add_if_under(&analysis.lowered, region, *cell, set)?;
    }
    Ok(())
}

/// Adds the cells under these regions.
pub(crate) fn add_all_under(
    analysis: &Analysis,
    regions: &[u32],
    set: &mut NumberSet,
) -> Result<(), AllocError>
    ensures { OnOk result (Adds
        (λ r. list_any (λ q. reaches (analysed_of analysis.now).program q r) regions.now)
        set.old set.new) }
{
    for region in regions {
        add_under(analysis, *region, set)?;
    }
    Ok(())
}

/// Adds the cells that are read of a struct.
pub(crate) fn add_struct(
    alloc: Global,
    analysis: &Analysis,
    from: &Lvalue,
    set: &mut NumberSet,
) -> Result<(), AllocError>
    ensures { OnOk result (Adds
        (among (struct_reads (analysed_of analysis.now) (lvalue_of from.now))) set.old set.new) }
{
    let regions = stands_at(alloc, analysis, from)?;
    add_all_under(analysis, regions.as_slice(), set)?;
    add_pointer_uses(alloc, analysis, from, set)?;
    Ok(())
}

/// The lvalue from which a struct is read.
fn struct_of(expr: &Expr) -> Option<&Lvalue>
    ensures { option_map (λ l. lvalue_of l.now) result ≡
        struct_of (as_struct (expression_of expr.now)) }
{
    match expr {
        Expr::Read(lvalue) => match lvalue.of() {
            CType::Struct(_) => Some(lvalue),
            CType::Void
            | CType::Int(_)
            | CType::Float(_)
            | CType::Pointer(_)
            | CType::Array(_)
            | CType::Function(_) => None,
        },
        Expr::Number(..)
        | Expr::Address(_)
        | Expr::Decay(_)
        | Expr::Convert(..)
        | Expr::Unary(..)
        | Expr::Binary(..)
        | Expr::Compare(..)
        | Expr::Move { .. }
        | Expr::Distance { .. } => None,
    }
}

/// Adds the cells that are read of an argument.
fn add_argument(
    alloc: Global,
    analysis: &Analysis,
    arg: &Expr,
    set: &mut NumberSet,
) -> Result<(), AllocError>
    ensures { OnOk result (Adds (among (argument_reads (analysed_of analysis.now)
        (expression_of arg.now) (as_struct (expression_of arg.now)))) set.old set.new) }
{
    match struct_of(arg) {
        Some(from) => {
            add_struct(alloc, analysis, from, set)?;
            Ok(())
        }
        None => {
            add_uses(alloc, analysis, arg, set)?;
            Ok(())
        }
    }
}

/// Adds the cells that are read of the arguments of a call.
pub(crate) fn add_arguments(
    alloc: Global,
    analysis: &Analysis,
    args: &[Expr],
    set: &mut NumberSet,
) -> Result<(), AllocError>
    ensures { OnOk result (Adds (among (arguments_read (analysed_of analysis.now)
        (map expression_of args.now))) set.old set.new) }
{
    for arg in args {
        add_argument(alloc, analysis, arg, set)?;
    }
    Ok(())
}

/// Adds the cells that are read to find where a result goes.
pub(crate) fn add_found(
    alloc: Global,
    analysis: &Analysis,
    to: Option<&Lvalue>,
    set: &mut NumberSet,
) -> Result<(), AllocError>
    ensures { OnOk result (Adds (among (result_found (analysed_of analysis.now)
        (option_map (λ l. lvalue_of l.now) to.entry))) set.old set.new) }
{
    match to {
        Some(to) => {
            add_pointer_uses(alloc, analysis, to, set)?;
            Ok(())
        }
        None => Ok(()),
    }
}

/// The object of a function's result.
fn result_of(lowered: &Lowered, function: u32) -> Option<u32>
    ensures { result ≡ result_of (lowered_of lowered.now) function }
{
    let code = lowered.functions.get(function as usize)?;
    code.result
}

/// Adds the cells of the result of a function.
fn add_result(analysis: &Analysis, function: u32, set: &mut NumberSet) -> Result<(), AllocError>
    ensures { OnOk result (Adds (among (result_cells (analysed_of analysis.now).program
        (result_of (analysed_of analysis.now).program function))) set.old set.new) }
{
    match result_of(&analysis.lowered, function) {
        Some(object) => {
            add_under(analysis, analysis.lowered.root_of(object), set)?;
            Ok(())
        }
        None => Ok(()),
    }
}

/// Adds the cells of the results of these functions.
fn add_each_result(
    analysis: &Analysis,
    functions: &[u32],
    set: &mut NumberSet,
) -> Result<(), AllocError>
    ensures { OnOk result (Adds (among (flat_map
        (λ f. result_cells (analysed_of analysis.now).program
        (result_of (analysed_of analysis.now).program f)) functions.now)) set.old set.new) }
{
    for function in functions {
        add_result(analysis, *function, set)?;
    }
    Ok(())
}

/// Adds the cells of the results of a call, if they go anywhere.
pub(crate) fn add_results(
    analysis: &Analysis,
    call: u32,
    to: Option<&Lvalue>,
    set: &mut NumberSet,
) -> Result<(), AllocError>
    ensures { OnOk result (Adds (among (result_reads (analysed_of analysis.now) call
        (option_map (λ l. lvalue_of l.now) to.entry))) set.old set.new) }
{
    match to {
        Some(_) => {
            let functions = analysis.pre.calls().callees(call);
            add_each_result(analysis, functions, set)?;
            Ok(())
        }
        None => Ok(()),
    }
}

/// Adds the cells that the values of leaves read.
pub(crate) fn add_leaves(
    alloc: Global,
    analysis: &Analysis,
    leaves: &[Leaf],
    set: &mut NumberSet,
) -> Result<(), AllocError>
    ensures { OnOk result (Adds (among (leaf_reads (scene_of (analysed_of analysis.now))
        (map leaf_of leaves.now))) set.old set.new) }
{
    for leaf in leaves {
        add_uses(alloc, analysis, &leaf.value, set)?;
    }
    Ok(())
}

/// Adds the cells that the start values of objects read.
pub(crate) fn add_starts(
    alloc: Global,
    analysis: &Analysis,
    objects: &[Object],
    set: &mut NumberSet,
) -> Result<(), AllocError>
    ensures { OnOk result (Adds (among (flat_map
        (λ o. leaf_reads (scene_of (analysed_of analysis.now)) o.start)
        (map object_of objects.now))) set.old set.new) }
{
    for object in objects {
        add_leaves(alloc, analysis, &object.start, set)?;
    }
    Ok(())
}
