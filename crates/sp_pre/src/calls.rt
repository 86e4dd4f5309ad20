//! The functions that each node calls.
ghost use Rattle.std.specs.Prelude.{◌≡◌, ◌↔◌, ℕ, length, true, IfOk};
ghost use Rattle.sp_ir.specs.Programs.{lowered_of};
ghost use Rattle.sp_ir.specs.Formed.{IsFormed};
ghost use Rattle.sp_base_sets.specs.Sets.{has};
ghost use Rattle.sp_base_sets.specs.Reached.{row};
ghost use Rattle.sp_points_rules.specs.Paths.{AreGroups};
ghost use Rattle.sp_points_rules.specs.Puts.{CallsBy, as_call, command_at};
ghost use Rattle.sp_pre.specs.PointsTo.{AreCalls};

use sp_base_sets::NumberSet;
use sp_graph::CallGraph;
use sp_ir::Lowered;
use sp_points_rules::{Facts, Groups, callees_of};
use std::alloc::{AllocError, Global};

/// The functions that a node calls, by the rows.
fn callees_at(alloc: Global, facts: &Facts<'_>, node: u32) -> Result<NumberSet, AllocError>
    ensures { IfOk result (λ set. (f : ℕ) → (has f set ≡ true) ↔ CallsBy (lowered_of facts.now.lowered.now) (row facts.now.rows.now) (as_call (command_at (lowered_of facts.now.lowered.now) node)) f) }
{
    match facts.lowered.nodes.get(node as usize) {
        Some(found) => {
            let functions = callees_of(alloc, facts, &found.command)?;
            Ok(functions)
        }
        None => Ok(NumberSet::new(alloc)),
    }
}

/// The functions that each node calls, by the rows.
pub(crate) fn calls_of(
    alloc: Global,
    lowered: &Lowered,
    groups: &Groups,
    rows: &[NumberSet],
) -> Result<CallGraph, AllocError>
    requires formed { IsFormed (lowered_of lowered.now) }
    requires grouped { AreGroups (lowered_of lowered.now) groups.now }
    ensures { IfOk result (AreCalls (lowered_of lowered.now) (row rows.now)) }
{
    let facts = Facts {
        lowered,
        groups,
        rows,
    };
    let mut lists = Vec::new(alloc);
    for node in 0..lowered.nodes.len() as u32 {
        let functions = callees_at(alloc, &facts, node)?;
        lists.push(functions)?;
    }
    Ok(CallGraph::new(lists))
}
