//! Which functions call which.
ghost use Rattle.std.specs.Prelude.{◌≡◌, ◌↔◌, ◌<◌, ◌≤◌, ◌^◌, ℕ, true, false, length, Some, slice_index_or, IfOk, OnOk};
ghost use Rattle.sp_ir.specs.Programs.{lowered_of};
ghost use Rattle.sp_ir.specs.Formed.{IsFormed};
ghost use Rattle.sp_base_sets.specs.Sets.{has};
ghost use Rattle.sp_graph.specs.Calls.{Callees, AreCallees, function_of, IsRecursive};
ghost use Rattle.sp_graph.specs.Rows.{Grows, AreLists};

use crate::lookups::function_of;
use sp_base_sets::{NumberSet, in_circles};
use sp_ir::Lowered;
use std::alloc::{AllocError, Global};
use std::marker::Model;

/// The functions that each node calls. Contracts see the list of these lists, each ascending.
#[derive(Drop)]
pub struct CallGraph {
    callees: Vec<NumberSet>,
}

impl Model for CallGraph {
    ghost use Rattle.sp_graph.specs.Calls.{Callees};

    ghost Value = { Callees };

    ghost view = { λ g. g.callees.items };
}

impl CallGraph {
    ghost use Rattle.sp_base_sets.specs.Sets.{Ascends};
    ghost use Rattle.sp_base_sets.specs.Reached.{row};

    /// From a set of functions for each node.
    pub fn new(callees: Vec<NumberSet>) -> CallGraph
        ensures { result ≡ callees.items }
    {
        CallGraph { callees }
    }

    /// The functions that a node calls, ascending; none past the last node.
    pub fn callees(&self, node: u32) -> &[u32]
        ensures functions { result.now ≡ row self.now node }
        ensures ascending { Ascends result.now }
    {
        match self.callees.get(node as usize) {
            Some(functions) => functions.as_slice(),
            None => &[],
        }
    }

    pub(crate) fn lists(&self) -> &[NumberSet]
        ensures { result.now ≡ self.now }
    {
        self.callees.as_slice()
    }
}

/// Adds functions to those that a function calls, where there is one.
fn add_calls(
    lists: &mut Vec<NumberSet>,
    function: Option<u32>,
    functions: &[u32],
) -> Result<(), AllocError>
    ensures { OnOk result (Grows (λ f g. (function ≡ Some f) × (has g functions.now ≡ true)) lists.old.items lists.new.items) }
{
    if let Some(function) = function {
        if (function as usize) < lists.len() {
            lists[function as usize].add_all(functions)?;
        }
    }
    Ok(())
}

/// The functions that each function calls.
pub(crate) fn lists_of(
    alloc: Global,
    lowered: &Lowered,
    calls: &[NumberSet],
) -> Result<Vec<NumberSet>, AllocError>
    requires formed { IsFormed (lowered_of lowered.now) }
    requires callees { AreCallees (lowered_of lowered.now) calls.now }
    ensures { IfOk result (λ lists. AreLists (lowered_of lowered.now) calls.now lists.items) }
{
    let mut lists = NumberSet::empty_sets(alloc, lowered.functions.len())?;
    for node in 0..calls.len() as u32 {
        let function = function_of(lowered, node);
        add_calls(&mut lists, function, calls[node as usize].as_slice())?;
    }
    Ok(lists)
}

/// Which functions may be called again before they return: a mark for each. There is none for
/// numbers that name no function.
pub fn recursive(
    alloc: Global,
    lowered: &Lowered,
    calls: &CallGraph,
) -> Result<Vec<bool>, AllocError>
    requires formed { IsFormed (lowered_of lowered.now) }
    requires callees { AreCallees (lowered_of lowered.now) calls.now }
    ensures { IfOk result (λ marks. (f : ℕ) →
        (slice_index_or marks.items f false ≡ true) ↔ IsRecursive (lowered_of lowered.now) calls.now f) }
{
    let lists = lists_of(alloc, lowered, calls.lists())?;
    let marks = in_circles(alloc, &lists)?;
    Ok(marks)
}
