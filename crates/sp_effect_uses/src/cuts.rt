//! The locations that the accesses of a node cut.
ghost use Rattle.std.specs.Prelude.{◌≡◌, ◌<◌, ◌&&◌, ℕ, nat_eq, not, true, IfOk, OnOk};
ghost use Rattle.std.specs.List.{list_any};
ghost use Rattle.sp_lattice.specs.System.{has};
ghost use Rattle.sp_ir.specs.View.{command_of};
ghost use Rattle.sp_effect_rows.specs.Setting.{count};
ghost use Rattle.sp_effect_scene.specs.Analysed.{setting_of};
ghost use Rattle.sp_effect_scene.specs.View.{analysed_of};
ghost use Rattle.sp_transfer.specs.Effects.{defined_by, own_at, cut_by, cut_at};
ghost use Rattle.sp_effect_uses.specs.Parts.{Adds, is_condition};

use sp_base_sets::NumberSet;
use sp_effect_checks::named_cells;
use sp_effect_scene::Analysis;
use sp_ir::Command;
use sp_transfer::accessed_by;
use std::alloc::{AllocError, Global};

/// Whether a command is a condition, which writes nothing.
fn is_condition(command: &Command) -> bool
    ensures { result ≡ is_condition (command_of command.now) }
{
    matches!(command, Command::Assume { .. })
}

/// Adds a location that isn't written.
fn add_unwritten(
    written: &NumberSet,
    location: u32,
    places: &mut NumberSet,
) -> Result<(), AllocError>
    ensures { OnOk result (Adds (λ l. not (has location written.now) && nat_eq l location)
        places.old places.new) }
{
    if !written.has(location) {
        places.add(location)?;
    }
    Ok(())
}

/// Adds those of these locations that aren't written.
fn add_all_unwritten(
    written: &NumberSet,
    locations: &[u32],
    places: &mut NumberSet,
) -> Result<(), AllocError>
    ensures { OnOk result (Adds
        (λ l. list_any (λ x. not (has x written.now) && nat_eq l x) locations.now)
        places.old places.new) }
{
    for location in locations {
        add_unwritten(written, *location, places)?;
    }
    Ok(())
}

/// The locations that the accesses of a command cut. `own` are those that it may change.
fn cut_by(
    alloc: Global,
    analysis: &Analysis,
    sharp: bool,
    node: u32,
    command: &Command,
    own: &NumberSet,
) -> Result<NumberSet, AllocError>
    requires { (l : ℕ) → has l own.now ≡
        defined_by (analysed_of analysis.now) node (command_of command.now) l }
    ensures places { IfOk result (λ places. (l : ℕ) → has l places ≡
        cut_by (analysed_of analysis.now) sharp node (command_of command.now) l) }
    ensures low { IfOk result (λ places. (l : ℕ) → has l places ≡ true →
        l < count (setting_of (analysed_of analysis.now))) }
{
    let _node = node;
    let accesses = accessed_by(alloc, sharp, command)?;
    let named = named_cells(alloc, analysis, &accesses)?;
    let mut places = NumberSet::new(alloc);
    if is_condition(command) {
        places.add_all(&named)?;
        return Ok(places);
    }
    add_all_unwritten(own, &named, &mut places)?;
    Ok(places)
}

/// The locations that the accesses of a node cut. `own` are those that its command may change.
pub(crate) fn cut_at(
    alloc: Global,
    analysis: &Analysis,
    sharp: bool,
    node: u32,
    own: &NumberSet,
) -> Result<NumberSet, AllocError>
    requires { (l : ℕ) → has l own.now ≡ own_at (analysed_of analysis.now) node l }
    ensures places { IfOk result (λ places. (l : ℕ) → has l places ≡
        cut_at (analysed_of analysis.now) sharp node l) }
    ensures low { IfOk result (λ places. (l : ℕ) → has l places ≡ true →
        l < count (setting_of (analysed_of analysis.now))) }
{
    match analysis.lowered.nodes.get(node as usize) {
        Some(found) => {
            let places = cut_by(alloc, analysis, sharp, node, &found.command, own)?;
            Ok(places)
        }
        None => Ok(NumberSet::new(alloc)),
    }
}
