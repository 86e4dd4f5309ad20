//! The locations that each function accesses.
ghost use Rattle.std.specs.Prelude.{◌≡◌, ◌↔◌, ◌<◌, ◌^◌, ◌&&◌, ◌||◌, ℕ, nat_eq, true, Some, length, IfOk, OnOk};
ghost use Rattle.std.specs.Option.{option_eq};
ghost use Rattle.sp_ir.specs.Programs.{lowered_of};
ghost use Rattle.sp_base_sets.specs.Sets.{has};
ghost use Rattle.sp_base_sets.specs.Reached.{row, Reached};
ghost use Rattle.sp_graph.specs.Calls.{function_of};
ghost use Rattle.sp_effect_scene.specs.Analysed.{locations_of};
ghost use Rattle.sp_effect_scene.specs.View.{analysed_of};
ghost use Rattle.sp_defuse.specs.Nodes.{AreNodes};
ghost use Rattle.sp_defuse.specs.Accessed.{is_touched, is_called, AddsTo, AreAccessed};

use crate::nodes::Node;
use crate::spreading::spread_all;
use crate::stand_ins::stand_ins_of;
use sp_base_sets::NumberSet;
use sp_effect_scene::Analysis;
use sp_graph::Accessed;
use sp_ir::Lowered;
use std::alloc::{AllocError, Global};

fn function_of(lowered: &Lowered, node: u32) -> Option<u32>
    ensures { result ≡ function_of (lowered_of lowered.now) node }
{
    let found = lowered.nodes.get(node as usize)?;
    found.function
}

/// Adds a number to the sets of these rows.
fn add_to_each(sets: &mut Vec<NumberSet>, rows: &[u32], number: u32) -> Result<(), AllocError>
    requires { (r : ℕ) → has r rows.now ≡ true → r < length sets.old.items }
    ensures { OnOk result (AddsTo (λ r n. has r rows.now && nat_eq n number)
        sets.old.items sets.new.items) }
{
    for row in rows {
        sets[*row as usize].add(number)?;
    }
    Ok(())
}

/// Adds a function to the sets of these rows, where there is one.
fn add_function(
    sets: &mut Vec<NumberSet>,
    rows: &[u32],
    function: Option<u32>,
) -> Result<(), AllocError>
    requires { (r : ℕ) → has r rows.now ≡ true → r < length sets.old.items }
    ensures { OnOk result (AddsTo (λ r f. has r rows.now && option_eq nat_eq (Some f) function)
        sets.old.items sets.new.items) }
{
    if let Some(function) = function {
        add_to_each(sets, rows, function)?;
    }
    Ok(())
}

/// For each location the functions of which one of these nodes defines or uses it.
fn owners_of(
    alloc: Global,
    analysis: &Analysis,
    sharp: bool,
    nodes: &[Node],
) -> Result<Vec<NumberSet>, AllocError>
    requires { AreNodes (analysed_of analysis.now) sharp analysis.now.flow.nodes nodes.now }
    ensures long { IfOk result (λ sets.
        length sets.items ≡ length (locations_of (lowered_of analysis.now.lowered))) }
    ensures touched { IfOk result (λ sets. (l f : ℕ) → has f (row sets.items l)
        ≡ is_touched (analysed_of analysis.now) sharp analysis.now.flow.nodes l f) }
{
    let _sharp = sharp;
    let mut sets = NumberSet::empty_sets(alloc, analysis.locations.cells.len())?;
    for node in nodes {
        let function = function_of(&analysis.lowered, node.number);
        add_function(&mut sets, node.defs.as_slice(), function)?;
        add_function(&mut sets, node.uses.as_slice(), function)?;
    }
    Ok(sets)
}

/// For each function those of which one of these nodes calls it.
fn callers_of(
    alloc: Global,
    analysis: &Analysis,
    nodes: &[u32],
) -> Result<Vec<NumberSet>, AllocError>
    ensures long { IfOk result (λ sets.
        length sets.items ≡ length (lowered_of analysis.now.lowered).functions) }
    ensures called { IfOk result (λ sets. (g f : ℕ) → has f (row sets.items g)
        ≡ is_called (analysed_of analysis.now) nodes.now g f) }
{
    let mut sets = NumberSet::empty_sets(alloc, analysis.lowered.functions.len())?;
    let calls = analysis.pre.calls();
    for node in nodes {
        let function = function_of(&analysis.lowered, *node);
        add_function(&mut sets, calls.callees(*node), function)?;
    }
    Ok(sets)
}

/// The locations that each function accesses: those that its own nodes touch, and those of the
/// functions that it calls.
pub(crate) fn accessed(
    alloc: Global,
    analysis: &Analysis,
    sharp: bool,
    nodes: &[Node],
) -> Result<Accessed, AllocError>
    requires { AreNodes (analysed_of analysis.now) sharp analysis.now.flow.nodes nodes.now }
    ensures { IfOk result
        (AreAccessed (analysed_of analysis.now) sharp analysis.now.flow.nodes) }
{
    let callers = callers_of(alloc, analysis, analysis.flow.nodes())?;
    let mut owners = owners_of(alloc, analysis, sharp, nodes)?;
    let stand_ins = stand_ins_of(alloc, &mut owners)?;
    let sets = spread_all(alloc, &callers, &owners)?;
    Ok(Accessed::new(stand_ins, sets))
}
