//! What a command reads, and what it may keep of what it defines.
ghost use Rattle.std.specs.Prelude.{◌≡◌, ◌++◌, map, option_map, OnOk};
ghost use Rattle.sp_ir.specs.View.{expression_of, lvalue_of, command_of};
ghost use Rattle.sp_effect_assign.specs.Destinations.{assigned_reads};
ghost use Rattle.sp_effect_assume.specs.Conditions.{assumed_reads};
ghost use Rattle.sp_effect_scene.specs.Analysed.{scene_of};
ghost use Rattle.sp_effect_scene.specs.View.{analysed_of};
ghost use Rattle.sp_effect_call.specs.Copies.{struct_reads, arguments_read, result_found};
ghost use Rattle.sp_effect_call.specs.Returns.{result_reads};
ghost use Rattle.sp_effect_library.specs.Effects.{library_reads};
ghost use Rattle.sp_effect_uses.specs.Parts.{Adds, AddsAt, among, read_by, found_by, reads_of, may_keep, result_may_keep, keeps_at, joins_at};

use crate::library::{add_moved, add_written};
use crate::reads::{add_pointer_uses, add_uses};
use crate::structs::{add_arguments, add_found, add_leaves, add_results, add_starts, add_struct};
use sp_base_sets::NumberSet;
use sp_effect_assign::Scenery;
use sp_effect_assume::is_direct;
use sp_effect_entry::is_shared;
use sp_effect_library::written_by;
use sp_effect_scene::Analysis;
use sp_ir::{Command, Expr, Lvalue, Routine};
use std::alloc::{AllocError, Global};

// ---- reads

/// Adds the cells that an assignment of a scalar reads.
fn add_assigned(
    alloc: Global,
    analysis: &Analysis,
    to: &Lvalue,
    value: &Expr,
    set: &mut NumberSet,
) -> Result<(), AllocError>
    ensures { OnOk result (Adds (among (assigned_reads (scene_of (analysed_of analysis.now))
        (lvalue_of to.now) (expression_of value.now))) set.old set.new) }
{
    add_uses(alloc, analysis, value, set)?;
    add_pointer_uses(alloc, analysis, to, set)?;
    Ok(())
}

/// Adds the cells that an assignment of a struct reads.
fn add_copied(
    alloc: Global,
    analysis: &Analysis,
    to: &Lvalue,
    from: &Lvalue,
    set: &mut NumberSet,
) -> Result<(), AllocError>
    ensures { OnOk result (Adds (among (struct_reads (analysed_of analysis.now) (lvalue_of from.now)
        ++ found_by (analysed_of analysis.now) (lvalue_of to.now))) set.old set.new) }
{
    add_struct(alloc, analysis, from, set)?;
    add_pointer_uses(alloc, analysis, to, set)?;
    Ok(())
}

/// Adds the cells that a condition reads.
fn add_assumed(
    alloc: Global,
    analysis: &Analysis,
    left: &Expr,
    right: &Expr,
    set: &mut NumberSet,
) -> Result<(), AllocError>
    ensures { OnOk result (Adds (among (assumed_reads (scene_of (analysed_of analysis.now))
        (expression_of left.now) (expression_of right.now))) set.old set.new) }
{
    add_uses(alloc, analysis, left, set)?;
    add_uses(alloc, analysis, right, set)?;
    Ok(())
}

/// Adds the cells that a call reads.
fn add_call(
    alloc: Global,
    analysis: &Analysis,
    callee: &Expr,
    args: &[Expr],
    set: &mut NumberSet,
) -> Result<(), AllocError>
    ensures { OnOk result (Adds (among
        (arguments_read (analysed_of analysis.now) (map expression_of args.now)
        ++ read_by (analysed_of analysis.now) (expression_of callee.now))) set.old set.new) }
{
    add_arguments(alloc, analysis, args, set)?;
    add_uses(alloc, analysis, callee, set)?;
    Ok(())
}

/// Adds the cells that a return from a call reads.
fn add_returned(
    alloc: Global,
    analysis: &Analysis,
    call: u32,
    to: Option<&Lvalue>,
    set: &mut NumberSet,
) -> Result<(), AllocError>
    ensures { OnOk result (Adds (among (result_reads (analysed_of analysis.now) call
        (option_map (λ l. lvalue_of l.now) to.entry)
        ++ result_found (analysed_of analysis.now) (option_map (λ l. lvalue_of l.now) to.entry)))
        set.old set.new) }
{
    add_results(analysis, call, to, set)?;
    add_found(alloc, analysis, to, set)?;
    Ok(())
}

/// Adds the cells that a call of a function that isn't defined reads.
fn add_given(
    alloc: Global,
    analysis: &Analysis,
    to: Option<&Lvalue>,
    args: &[Expr],
    set: &mut NumberSet,
) -> Result<(), AllocError>
    ensures { OnOk result (Adds (among
        (arguments_read (analysed_of analysis.now) (map expression_of args.now)
        ++ result_found (analysed_of analysis.now) (option_map (λ l. lvalue_of l.now) to.entry)))
        set.old set.new) }
{
    add_arguments(alloc, analysis, args, set)?;
    add_found(alloc, analysis, to, set)?;
    Ok(())
}

/// Adds the cells that a call of the library reads.
fn add_routine(
    alloc: Global,
    analysis: &Analysis,
    which: Routine,
    to: Option<&Lvalue>,
    args: &[Expr],
    set: &mut NumberSet,
) -> Result<(), AllocError>
    ensures { OnOk result (Adds (among (library_reads (analysed_of analysis.now)
        (map expression_of args.now) which (option_map (λ l. lvalue_of l.now) to.entry)))
        set.old set.new) }
{
    add_moved(alloc, analysis, written_by(which), args, set)?;
    add_given(alloc, analysis, to, args, set)?;
    Ok(())
}

/// Adds the cells that a command reads.
pub(crate) fn add_reads(
    alloc: Global,
    analysis: &Analysis,
    node: u32,
    command: &Command,
    set: &mut NumberSet,
) -> Result<(), AllocError>
    ensures { OnOk result (Adds
        (among (reads_of (analysed_of analysis.now) node (command_of command.now)))
        set.old set.new) }
{
    match command {
        Command::Start => {
            add_starts(alloc, analysis, &analysis.lowered.objects, set)?;
            Ok(())
        }
        Command::Assign { to, value } => {
            add_assigned(alloc, analysis, to, value, set)?;
            Ok(())
        }
        Command::Copy { to, from } => {
            add_copied(alloc, analysis, to, from, set)?;
            Ok(())
        }
        Command::Init { values, .. } => {
            add_leaves(alloc, analysis, values, set)?;
            Ok(())
        }
        Command::Assume { left, right, .. } => {
            add_assumed(alloc, analysis, left, right, set)?;
            Ok(())
        }
        Command::Eval(value) => {
            add_uses(alloc, analysis, value, set)?;
            Ok(())
        }
        Command::Call { callee, args } => {
            add_call(alloc, analysis, callee, args, set)?;
            Ok(())
        }
        Command::Return { call, to } => {
            add_returned(alloc, analysis, *call, to.as_ref(), set)?;
            Ok(())
        }
        Command::Library {
            which,
            to,
            args,
            ..
        } => {
            add_routine(alloc, analysis, *which, to.as_ref(), args, set)?;
            Ok(())
        }
        Command::Outside { to, args, .. } => {
            add_given(alloc, analysis, to.as_ref(), args, set)?;
            Ok(())
        }
        Command::Entry { .. } | Command::Exit { .. } | Command::Skip => Ok(()),
    }
}

// ---- what is kept

/// Whether a location that is stored to may keep what it holds.
fn may_keep(analysis: &Analysis, to: &Lvalue, location: u32) -> bool
    ensures { result ≡ may_keep (analysed_of analysis.now) (lvalue_of to.now) location }
{
    !is_direct(to) || analysis.is_summary(location)
}

/// The same of where a result goes, if it goes anywhere.
fn result_may_keep(analysis: &Analysis, to: Option<&Lvalue>, location: u32) -> bool
    ensures { result ≡ result_may_keep (analysed_of analysis.now)
        (option_map (λ l. lvalue_of l.now) to.entry) location }
{
    match to {
        Some(to) => may_keep(analysis, to, location),
        None => false,
    }
}

/// Whether a command may keep what a location holds that it defines, or looks at it.
pub(crate) fn keeps(analysis: &Analysis, command: &Command, location: u32) -> bool
    ensures { result ≡ keeps_at (analysed_of analysis.now) (command_of command.now) location }
{
    match command {
        Command::Assign { to, .. } => may_keep(analysis, to, location),
        Command::Copy { to, .. } => may_keep(analysis, to, location),
        Command::Init { object, .. } => is_shared(analysis, *object),
        Command::Assume { .. } => true,
        Command::Call { .. } => analysis.is_summary(location),
        Command::Return { to, .. } => result_may_keep(analysis, to.as_ref(), location),
        Command::Library { to, .. } => result_may_keep(analysis, to.as_ref(), location),
        Command::Outside { to, .. } => result_may_keep(analysis, to.as_ref(), location),
        Command::Start
        | Command::Entry { .. }
        | Command::Exit { .. }
        | Command::Skip
        | Command::Eval(_) => false,
    }
}

/// Adds the cells to whose values a command joins something: these are kept.
pub(crate) fn add_joined(
    alloc: Global,
    analysis: &Analysis,
    command: &Command,
    set: &mut NumberSet,
) -> Result<(), AllocError>
    ensures { OnOk result (AddsAt (analysed_of analysis.now)
        (joins_at (analysed_of analysis.now) (command_of command.now)) set.old set.new) }
{
    match command {
        Command::Library {
            which,
            args,
            site,
            ..
        } => {
            add_written(alloc, analysis, written_by(*which), args, *site, set)?;
            Ok(())
        }
        Command::Start
        | Command::Entry { .. }
        | Command::Exit { .. }
        | Command::Skip
        | Command::Assign { .. }
        | Command::Copy { .. }
        | Command::Init { .. }
        | Command::Assume { .. }
        | Command::Eval(_)
        | Command::Call { .. }
        | Command::Return { .. }
        | Command::Outside { .. } => Ok(()),
    }
}
