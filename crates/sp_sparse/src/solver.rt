//! Evaluates the nodes that wait until none does.
ghost use Rattle.std.specs.Prelude.{◌≡◌, ◌≤◌, ◌<◌, ◌+◌, ℕ, length, sum, IfOk, OnOk};
ghost use Rattle.sp_lattice.specs.Bound.{all_evaluations};
ghost use Rattle.sp_lattice.specs.Flat.{row_at};
ghost use Rattle.sp_deps.specs.Rows.{held};
ghost use Rattle.sp_deps.specs.Answer.{AreDependencies};
ghost use Rattle.sp_sparse.specs.inner.Sparse.{EqualsDense};
ghost use Rattle.sp_sparse.specs.Solution.{IsSolved, IsWithinBounds};
ghost use Rattle.sp_sparse.specs.inner.Grid.{IsListGrid, AreLists, table_at};
ghost use Rattle.sp_sparse.specs.inner.Links.{HasLinks};

use crate::evaluation::{evaluate, send_grown};
use crate::links::{Links, links_of};
use crate::pickers::Picker;
use crate::tables::SparseTable;
use crate::waiting::WaitingNodes;
use sp_deps::Deps;
use sp_lattice::rows::{Rows, bottoms};
use sp_lattice::{Lattice, Steps, System, solution_laws};
use std::alloc::{AllocError, Global};
use std::sync::ledger::Ledger;

/// The least solution of `system` at the uses and definitions of its nodes, found along its dependencies.
///
/// The table holds the dense inputs at the uses and the dense outputs at the definitions, whatever is picked. Each node is
/// evaluated once, and then at most as often as the height times the dependencies into it; the counter rises by the
/// sum of the evaluations. Where memory is wanted, it has risen by at most the sum of these bounds.
pub fn solve_sparse<S: System, P: Picker, L: Ledger>(
    alloc: Global,
    system: &S,
    deps: &Deps,
    picker: &mut P,
    steps: &mut Steps<L>,
) -> Result<SparseTable<S::Value>, AllocError>
    requires { AreDependencies (S.meaning system.now) deps.now }
    ensures solved { IfOk result (λ table. IsSolved S.Value.order (S.meaning system.now) table) }
    ensures few { IfOk result (λ table.
        IsWithinBounds (S.meaning system.now) (held deps.now) table.evaluations) }
    ensures ticked { IfOk result (λ table. steps.new ≡ steps.old + sum table.evaluations) }
    ensures bound { steps.new ≤ steps.old + all_evaluations (S.meaning system.now) (held deps.now) }
{
    let uses = used_locations(alloc, system)?;
    let defs = defined_locations(alloc, system)?;
    let mut inputs = Rows::least(alloc, &uses)?;
    let mut outputs = Rows::least(alloc, &defs)?;
    let links = links_of(alloc, system, deps, defs.first(defs.len()))?;
    let evaluations = solve(
        alloc,
        system,
        &links,
        &defs,
        &mut inputs,
        &mut outputs,
        picker,
        steps,
    )?;
    Ok(SparseTable::from_rows(uses, inputs, defs, outputs, evaluations))
}

/// Serves nodes that wait until none does, beginning with least inputs and outputs, and tells how often each was evaluated.
fn solve<S: System, P: Picker, L: Ledger>(
    alloc: Global,
    system: &S,
    links: &Links<'_>,
    defs: &Rows<u32>,
    inputs: &mut Rows<S::Value>,
    outputs: &mut Rows<S::Value>,
    picker: &mut P,
    steps: &mut Steps<L>,
) -> Result<Vec<u64>, AllocError>
    requires deps { AreDependencies (S.meaning system.now) links.now.deps.now }
    requires links { HasLinks (S.meaning system.now) (held links.now.deps.now) links.now.rows }
    requires defs { AreLists (S.meaning system.now).nodes (S.meaning system.now).defs defs.now }
    requires inputs { IsListGrid (S.meaning system.now).nodes (S.meaning system.now).uses inputs.old }
    requires least_inputs { (n l : ℕ) →
        table_at S.Value.order.bottom (S.meaning system.now).uses inputs.old n l ≡ S.Value.order.bottom }
    requires outputs { IsListGrid (S.meaning system.now).nodes (S.meaning system.now).defs outputs.old }
    requires least_outputs { (n l : ℕ) →
        table_at S.Value.order.bottom (S.meaning system.now).defs outputs.old n l ≡ S.Value.order.bottom }
    ensures inputs { OnOk result
        (IsListGrid (S.meaning system.now).nodes (S.meaning system.now).uses inputs.new) }
    ensures outputs { OnOk result
        (IsListGrid (S.meaning system.now).nodes (S.meaning system.now).defs outputs.new) }
    ensures solved { OnOk result (EqualsDense S.Value.order (S.meaning system.now)
        (table_at S.Value.order.bottom (S.meaning system.now).uses inputs.new)
        (table_at S.Value.order.bottom (S.meaning system.now).defs outputs.new)) }
    ensures few { IfOk result (λ counts. IsWithinBounds (S.meaning system.now) (held links.now.deps.now) counts.items) }
    ensures ticked { IfOk result (λ counts. steps.new ≡ steps.old + sum counts.items) }
    ensures bound { steps.new ≤ steps.old + all_evaluations (S.meaning system.now) (held links.now.deps.now) }
{
    // There are few enough that a count of evaluations fits: `count` tells that.
    let _count = links.deps.count();
    let most = longest(defs);
    let mut row = bottoms(alloc, most)?;
    let mut grown = Vec::with_capacity(alloc, most)?;
    let mut waiting = WaitingNodes::all(alloc, system.nodes())?;
    let mut evaluations = vec![in alloc; 0u64; system.nodes() as usize]?;
    'turns: while !waiting.is_empty() {
        solution_laws(system);
        let index = picker.pick(waiting.front());
        let node = waiting.take(index);
        evaluate(
            system, alloc, inputs, outputs, &mut row, &mut grown, node, steps,
        )?;
        evaluations[node as usize] += 1;
        send_grown(
            system,
            alloc,
            &links,
            inputs,
            outputs,
            &mut waiting,
            node,
            &grown,
        )?;
    }
    solution_laws(system);
    Ok(evaluations)
}

/// How long the longest row is.
fn longest(rows: &Rows<u32>) -> usize
    ensures { (n : ℕ) → n < length rows.now → length (row_at rows.now n) ≤ result }
{
    let mut most = 0;
    for row in 0..rows.len() {
        most = most.max(rows.row(row).len());
    }
    most
}

/// The locations that each node uses.
fn used_locations<S: System>(alloc: Global, system: &S) -> Result<Rows<u32>, AllocError>
    ensures { IfOk result (AreLists (S.meaning system.now).nodes (S.meaning system.now).uses) }
{
    let mut count = 0usize;
    'counts: for node in 0..system.nodes() {
        count = count.saturating_add(system.uses(node).len());
    }
    let mut lists = Rows::with_capacity(alloc, system.nodes() as usize, count)?;
    for node in 0..system.nodes() {
        lists.push_row(system.uses(node))?;
    }
    Ok(lists)
}

/// The locations that each node defines.
fn defined_locations<S: System>(alloc: Global, system: &S) -> Result<Rows<u32>, AllocError>
    ensures { IfOk result (AreLists (S.meaning system.now).nodes (S.meaning system.now).defs) }
{
    let mut count = 0usize;
    'counts: for node in 0..system.nodes() {
        count = count.saturating_add(system.defs(node).len());
    }
    let mut lists = Rows::with_capacity(alloc, system.nodes() as usize, count)?;
    for node in 0..system.nodes() {
        lists.push_row(system.defs(node))?;
    }
    Ok(lists)
}
