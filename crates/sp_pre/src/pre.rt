//! What points-to tells.
ghost use Rattle.std.specs.Prelude.{◌≡◌, ◌↔◌, ℕ, true, false, slice_index_or, IfOk};
ghost use Rattle.sp_ir.specs.Programs.{lowered_of};
ghost use Rattle.sp_ir.specs.Formed.{IsFormed};
ghost use Rattle.sp_base_sets.specs.Sets.{Ascends};
ghost use Rattle.sp_base_sets.specs.Reached.{row};
ghost use Rattle.sp_points_expr.specs.Tables.{IsLeastClosed};
ghost use Rattle.sp_points_rules.specs.Puts.{rules_of};
ghost use Rattle.sp_graph.specs.Calls.{AreCallees, IsRecursive};
ghost use Rattle.sp_pre.specs.PointsTo.{AreCalls};

use crate::calls::calls_of;
use crate::solve::least;
use sp_base_sets::NumberSet;
use sp_graph::{CallGraph, recursive};
use sp_ir::Lowered;
use sp_points_rules::groups_of;
use std::alloc::{AllocError, Global};
use std::marker::Model;

/// What each cell may point to, which functions each node calls, and which functions are recursive.
#[derive(Drop)]
pub struct PointsTo {
    rows: Vec<NumberSet>,
    calls: CallGraph,
    recursive: Vec<bool>,
}

impl Model for PointsTo {
    ghost use Rattle.sp_pre.specs.PointsTo.{Told};

    ghost Value = { Told };

    ghost view = { λ q. record { rows = q.rows.items; calls = q.calls; recursive = q.recursive.items } };
}

impl PointsTo {
    ghost use Rattle.sp_base_sets.specs.Sets.{Ascends};
    ghost use Rattle.sp_base_sets.specs.Reached.{row};
    ghost use Rattle.std.specs.Prelude.{slice_index_or, false};

    /// Where a cell may point, ascending.
    pub fn targets(&self, cell: u32) -> &[u32]
        ensures regions { result.now ≡ row self.now.rows cell }
        ensures ascending { Ascends result.now }
    {
        match self.rows.get(cell as usize) {
            Some(regions) => regions.as_slice(),
            None => &[],
        }
    }

    /// Where each cell may point, a set for each region.
    pub fn rows(&self) -> &[NumberSet]
        ensures { result.now ≡ self.now.rows }
    {
        self.rows.as_slice()
    }

    /// The functions that each node calls.
    pub fn calls(&self) -> &CallGraph
        ensures { result.now ≡ self.now.calls }
    {
        &self.calls
    }

    /// Whether a function may be called again before it returns.
    pub fn is_recursive(&self, function: u32) -> bool
        ensures { result ≡ slice_index_or self.now.recursive function false }
    {
        match self.recursive.get(function as usize) {
            Some(marked) => *marked,
            None => false,
        }
    }
}

/// What the commands of a program let its cells point to, and no more. More objects than 2^32 want
/// memory.
pub fn points_to(alloc: Global, lowered: &Lowered) -> Result<PointsTo, AllocError>
    requires formed { IsFormed (lowered_of lowered.now) }
    ensures least { IfOk result (λ pre. IsLeastClosed (rules_of (lowered_of lowered.now)) (row pre.rows)) }
    ensures ascending { IfOk result (λ pre. (c : ℕ) → Ascends (row pre.rows c)) }
    ensures calls { IfOk result (λ pre. AreCalls (lowered_of lowered.now) (row pre.rows) pre.calls) }
    ensures callees { IfOk result (λ pre. AreCallees (lowered_of lowered.now) pre.calls) }
    ensures recursive { IfOk result (λ pre. (f : ℕ) → (slice_index_or pre.recursive f false ≡ true) ↔ IsRecursive (lowered_of lowered.now) pre.calls f) }
{
    if u32::try_from(lowered.objects.len()).is_err() {
        return Err(AllocError);
    }
    let groups = groups_of(alloc, lowered)?;
    let rows = least(alloc, lowered, &groups)?;
    let calls = calls_of(alloc, lowered, &groups, &rows)?;
    let recursive = recursive(alloc, lowered, &calls)?;
    Ok(PointsTo {
        rows,
        calls,
        recursive,
    })
}
