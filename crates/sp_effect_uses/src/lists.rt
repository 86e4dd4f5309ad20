//! The lists of locations that each node defines, and that it uses.
ghost use Rattle.std.specs.Prelude.{◌≡◌, ◌&&◌, ◌<◌, ℕ, nat_eq, true, IfOk, OnOk};
ghost use Rattle.std.specs.List.{list_any};
ghost use Rattle.sp_lattice.specs.System.{has};
ghost use Rattle.sp_base_sets.specs.Sets.{Ascends};
ghost use Rattle.sp_ir.specs.View.{command_of};
ghost use Rattle.sp_effect_rows.specs.Setting.{count, cell_of};
ghost use Rattle.sp_effect_scene.specs.Analysed.{setting_of};
ghost use Rattle.sp_effect_scene.specs.View.{analysed_of};
ghost use Rattle.sp_transfer.specs.Effects.{defined_by, own_at, cut_at, defined_at, used_by, used_at};
ghost use Rattle.sp_transfer.specs.Equations.{AreLocations};
ghost use Rattle.sp_transfer.specs.Parts.{AreCuts};
ghost use Rattle.sp_effect_uses.specs.Locals.{AreLocals};
ghost use Rattle.sp_effect_uses.specs.Parts.{Adds, AddsAt, keeps_at};

use crate::commands::{add_joined, add_reads, keeps};
use crate::cuts::cut_at;
use crate::library::add_written;
use crate::objects::{add_fresh, add_object, add_start};
use crate::writes::{add_called, add_destination, add_result_stored, add_sides, add_stored};
use sp_base_sets::NumberSet;
use sp_effect_assign::location_at;
use sp_effect_library::written_by;
use sp_effect_scene::Analysis;
use sp_ir::Command;
use sp_transfer::Cuts;
use std::alloc::{AllocError, Global};

// ---- from regions to locations

/// Adds the location of a region, where it is a cell.
fn add_location(analysis: &Analysis, region: u32, places: &mut NumberSet) -> Result<(), AllocError>
    ensures places { OnOk result (Adds
        (λ l. nat_eq region (cell_of (setting_of (analysed_of analysis.now)) l))
        places.old places.new) }
    ensures low { OnOk result ((l : ℕ) →
        nat_eq region (cell_of (setting_of (analysed_of analysis.now)) l) ≡ true →
        l < count (setting_of (analysed_of analysis.now))) }
{
    match location_at(analysis, region) {
        Some(location) => {
            places.add(location)?;
            Ok(())
        }
        None => Ok(()),
    }
}

/// Adds the locations of these regions.
fn add_locations(
    analysis: &Analysis,
    regions: &[u32],
    places: &mut NumberSet,
) -> Result<(), AllocError>
    requires { (l : ℕ) → has l places.old ≡ true →
        l < count (setting_of (analysed_of analysis.now)) }
    ensures places { OnOk result (Adds (λ l. list_any
        (λ x. nat_eq x (cell_of (setting_of (analysed_of analysis.now)) l)) regions.now)
        places.old places.new) }
    ensures low { OnOk result ((l : ℕ) → has l places.new ≡ true →
        l < count (setting_of (analysed_of analysis.now))) }
{
    for region in regions {
        add_location(analysis, *region, places)?;
    }
    Ok(())
}

/// The locations whose cells are among these regions.
fn to_locations(
    alloc: Global,
    analysis: &Analysis,
    regions: &NumberSet,
) -> Result<NumberSet, AllocError>
    ensures places { IfOk result (λ places. (l : ℕ) →
        has l places ≡ has (cell_of (setting_of (analysed_of analysis.now)) l) regions.now) }
    ensures low { IfOk result (λ places. (l : ℕ) → has l places ≡ true →
        l < count (setting_of (analysed_of analysis.now))) }
{
    let mut places = NumberSet::new(alloc);
    add_locations(analysis, regions.as_slice(), &mut places)?;
    Ok(places)
}

/// The numbers of a set, as a list of its own.
fn to_list(alloc: Global, places: &NumberSet) -> Result<Vec<u32>, AllocError>
    ensures numbers { IfOk result (λ list. list.items ≡ places.now) }
    ensures ascending { IfOk result (λ list. Ascends list.items) }
{
    let numbers = places.as_slice();
    let list = Vec::from_slice(alloc, numbers)?;
    Ok(list)
}

// ---- definitions

/// Adds the cells that a command defines.
fn add_defined_by(
    alloc: Global,
    analysis: &Analysis,
    locals: &[NumberSet],
    node: u32,
    command: &Command,
    set: &mut NumberSet,
) -> Result<(), AllocError>
    requires { AreLocals (analysed_of analysis.now) locals.now }
    ensures { OnOk result (AddsAt (analysed_of analysis.now)
        (defined_by (analysed_of analysis.now) node (command_of command.now)) set.old set.new) }
{
    match command {
        Command::Start => {
            add_start(alloc, analysis, set)?;
            Ok(())
        }
        Command::Entry { function } => {
            add_fresh(analysis, locals, *function, set)?;
            Ok(())
        }
        Command::Assign { to, .. } => {
            add_destination(alloc, analysis, to, set)?;
            Ok(())
        }
        Command::Copy { to, .. } => {
            add_stored(alloc, analysis, to, set)?;
            Ok(())
        }
        Command::Init { object, .. } => {
            add_object(analysis, *object, set)?;
            Ok(())
        }
        Command::Assume { left, right, .. } => {
            add_sides(analysis, left, right, set)?;
            Ok(())
        }
        Command::Call { .. } => {
            add_called(analysis, node, set)?;
            Ok(())
        }
        Command::Return { to, .. } | Command::Outside { to, .. } => {
            add_result_stored(alloc, analysis, to.as_ref(), set)?;
            Ok(())
        }
        Command::Library {
            which,
            to,
            args,
            site,
        } => {
            add_written(alloc, analysis, written_by(*which), args, *site, set)?;
            add_result_stored(alloc, analysis, to.as_ref(), set)?;
            Ok(())
        }
        Command::Exit { .. } | Command::Skip | Command::Eval(_) => Ok(()),
    }
}

/// Adds the cells that the command of a node may change.
fn add_own(
    alloc: Global,
    analysis: &Analysis,
    locals: &[NumberSet],
    node: u32,
    set: &mut NumberSet,
) -> Result<(), AllocError>
    requires { AreLocals (analysed_of analysis.now) locals.now }
    ensures { OnOk result (AddsAt (analysed_of analysis.now)
        (own_at (analysed_of analysis.now) node) set.old set.new) }
{
    match analysis.lowered.nodes.get(node as usize) {
        Some(found) => {
            add_defined_by(alloc, analysis, locals, node, &found.command, set)?;
            Ok(())
        }
        None => Ok(()),
    }
}

/// The locations that the command of a node may change.
fn own_at(
    alloc: Global,
    analysis: &Analysis,
    locals: &[NumberSet],
    node: u32,
) -> Result<NumberSet, AllocError>
    requires { AreLocals (analysed_of analysis.now) locals.now }
    ensures places { IfOk result (λ places. (l : ℕ) → has l places ≡
        own_at (analysed_of analysis.now) node l) }
    ensures low { IfOk result (λ places. (l : ℕ) → has l places ≡ true →
        l < count (setting_of (analysed_of analysis.now))) }
{
    let mut regions = NumberSet::new(alloc);
    add_own(alloc, analysis, locals, node, &mut regions)?;
    let places = to_locations(alloc, analysis, &regions)?;
    Ok(places)
}

/// What a node defines.
#[derive(Drop)]
pub struct Defined {
    /// The locations, ascending.
    pub places: Vec<u32>,
    /// By parts, where accesses cut some.
    pub cuts: Option<Cuts>,
}

/// What a node defines; in the sharp mode its accesses cut what they go through.
pub fn definitions(
    alloc: Global,
    analysis: &Analysis,
    locals: &[NumberSet],
    sharp: bool,
    node: u32,
) -> Result<Defined, AllocError>
    requires { AreLocals (analysed_of analysis.now) locals.now }
    ensures places { IfOk result (λ defined. AreLocations (analysed_of analysis.now)
        (defined_at (analysed_of analysis.now) sharp node) defined.places.items) }
    ensures cuts { IfOk result (λ defined.
        AreCuts (analysed_of analysis.now) sharp node defined.cuts) }
{
    let own = own_at(alloc, analysis, locals, node)?;
    let cut = cut_at(alloc, analysis, sharp, node, &own)?;
    if cut.as_slice().len() == 0 {
        let places = to_list(alloc, &own)?;
        Ok(Defined { places, cuts: None })
    } else {
        parts(alloc, analysis, sharp, node, own, &cut)
    }
}

/// What a node defines by these parts.
fn parts(
    alloc: Global,
    analysis: &Analysis,
    sharp: bool,
    node: u32,
    own: NumberSet,
    cut: &NumberSet,
) -> Result<Defined, AllocError>
    requires own { (l : ℕ) → has l own ≡ own_at (analysed_of analysis.now) node l }
    requires own_low { (l : ℕ) → has l own ≡ true →
        l < count (setting_of (analysed_of analysis.now)) }
    requires cut { (l : ℕ) → has l cut.now ≡ cut_at (analysed_of analysis.now) sharp node l }
    requires cut_low { (l : ℕ) → has l cut.now ≡ true →
        l < count (setting_of (analysed_of analysis.now)) }
    ensures places { IfOk result (λ defined. AreLocations (analysed_of analysis.now)
        (defined_at (analysed_of analysis.now) sharp node) defined.places.items) }
    ensures cuts { IfOk result (λ defined.
        AreCuts (analysed_of analysis.now) sharp node defined.cuts) }
{
    let _analysis = analysis;
    let _sharp = sharp;
    let _node = node;
    let cuts = Cuts {
        own: to_list(alloc, &own)?,
        cut: to_list(alloc, cut)?,
    };
    let mut all = own;
    all.add_all(cut.as_slice())?;
    let places = to_list(alloc, &all)?;
    Ok(Defined {
        places,
        cuts: Some(cuts),
    })
}

// ---- uses

/// Adds a location that a command may keep.
fn add_if_kept(
    analysis: &Analysis,
    command: &Command,
    location: u32,
    places: &mut NumberSet,
) -> Result<(), AllocError>
    ensures { OnOk result (Adds
        (λ l. keeps_at (analysed_of analysis.now) (command_of command.now) location
        && nat_eq l location) places.old places.new) }
{
    if keeps(analysis, command, location) {
        places.add(location)?;
    }
    Ok(())
}

/// Adds those of these locations that a command may keep.
fn add_kept(
    analysis: &Analysis,
    command: &Command,
    locations: &[u32],
    places: &mut NumberSet,
) -> Result<(), AllocError>
    ensures { OnOk result (Adds (λ l. list_any
        (λ x. keeps_at (analysed_of analysis.now) (command_of command.now) x && nat_eq l x)
        locations.now) places.old places.new) }
{
    for location in locations {
        add_if_kept(analysis, command, *location, places)?;
    }
    Ok(())
}

/// The locations that a command reads, those to which it joins something, and those of its
/// definitions that it may keep.
fn used_by(
    alloc: Global,
    analysis: &Analysis,
    definitions: &[u32],
    node: u32,
    command: &Command,
) -> Result<NumberSet, AllocError>
    requires { AreLocations (analysed_of analysis.now)
        (defined_by (analysed_of analysis.now) node (command_of command.now)) definitions.now }
    ensures places { IfOk result (λ places. (l : ℕ) → has l places ≡
        used_by (analysed_of analysis.now) node (command_of command.now) l) }
    ensures low { IfOk result (λ places. (l : ℕ) → has l places ≡ true →
        l < count (setting_of (analysed_of analysis.now))) }
{
    let mut regions = NumberSet::new(alloc);
    add_reads(alloc, analysis, node, command, &mut regions)?;
    add_joined(alloc, analysis, command, &mut regions)?;
    let mut places = to_locations(alloc, analysis, &regions)?;
    add_kept(analysis, command, definitions, &mut places)?;
    Ok(places)
}

/// The locations that a node uses, as a set.
fn used_at(
    alloc: Global,
    analysis: &Analysis,
    definitions: &[u32],
    node: u32,
) -> Result<NumberSet, AllocError>
    requires { AreLocations (analysed_of analysis.now)
        (own_at (analysed_of analysis.now) node) definitions.now }
    ensures places { IfOk result (λ places. (l : ℕ) → has l places ≡
        used_at (analysed_of analysis.now) node l) }
    ensures low { IfOk result (λ places. (l : ℕ) → has l places ≡ true →
        l < count (setting_of (analysed_of analysis.now))) }
{
    match analysis.lowered.nodes.get(node as usize) {
        Some(found) => {
            let places = used_by(alloc, analysis, definitions, node, &found.command)?;
            Ok(places)
        }
        None => Ok(NumberSet::new(alloc)),
    }
}

/// The locations that a node uses, ascending. `definitions` are those that its command may change.
pub fn uses(
    alloc: Global,
    analysis: &Analysis,
    definitions: &[u32],
    node: u32,
) -> Result<Vec<u32>, AllocError>
    requires { AreLocations (analysed_of analysis.now)
        (own_at (analysed_of analysis.now) node) definitions.now }
    ensures { IfOk result (λ places. AreLocations (analysed_of analysis.now)
        (used_at (analysed_of analysis.now) node) places.items) }
{
    let places = used_at(alloc, analysis, definitions, node)?;
    let list = to_list(alloc, &places)?;
    Ok(list)
}
