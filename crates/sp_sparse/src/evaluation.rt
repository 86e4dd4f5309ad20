//! One node's turn: it is evaluated, and what grew of its outputs is sent along their links.
ghost use Rattle.std.specs.Prelude.{◌≡◌, ◌≤◌, ◌<◌, ◌+◌, ℕ, true, length, vec_len, OnOk};
ghost use Rattle.sp_lattice.specs.System.{has};
ghost use Rattle.sp_lattice.specs.Flat.{row_at};
ghost use Rattle.sp_lattice.specs.Dense.{Under};
ghost use Rattle.sp_deps.specs.Rows.{held};
ghost use Rattle.sp_deps.specs.Answer.{AreDependencies};
ghost use Rattle.sp_sparse.specs.inner.Grid.{IsListGrid, table_at, BeginsWith};
ghost use Rattle.sp_sparse.specs.inner.Links.{HasLinks};
ghost use Rattle.sp_sparse.specs.inner.Engine.{IsWorking, Every, EveryBut, Evaluates, UpdatesRow, IsPaid, locations_at};

use crate::links::Links;
use crate::waiting::WaitingNodes;
use sp_lattice::rows::Rows;
use sp_lattice::{Lattice, Steps, System, solution_laws};
use std::alloc::{AllocError, Global};
use std::sync::ledger::Ledger;

/// Makes the outputs of `node` the effect of its inputs where that isn't below them, and tells the places of those that
/// grew. `row` has room for the effect. Counts one step.
pub(crate) fn evaluate<S: System, L: Ledger>(
    system: &S,
    alloc: Global,
    inputs: &Rows<S::Value>,
    outputs: &mut Rows<S::Value>,
    row: &mut Vec<S::Value>,
    grown: &mut Vec<usize>,
    node: u32,
    steps: &mut Steps<L>,
) -> Result<(), AllocError>
    requires node { node < (S.meaning system.now).nodes }
    requires inputs { IsListGrid (S.meaning system.now).nodes (S.meaning system.now).uses inputs.now }
    requires outputs { IsListGrid (S.meaning system.now).nodes (S.meaning system.now).defs outputs.old }
    requires row { length ((S.meaning system.now).defs node) ≤ vec_len row.old }
    requires under { Under S.Value.order (S.meaning system.now)
        (table_at S.Value.order.bottom (S.meaning system.now).uses inputs.now) }
    ensures grid { OnOk result
        (IsListGrid (S.meaning system.now).nodes (S.meaning system.now).defs outputs.new) }
    ensures evaluated { OnOk result (Evaluates S.Value.order (S.meaning system.now)
        (table_at S.Value.order.bottom (S.meaning system.now).uses inputs.now)
        (table_at S.Value.order.bottom (S.meaning system.now).defs outputs.old)
        (table_at S.Value.order.bottom (S.meaning system.now).defs outputs.new) node
        (locations_at (S.meaning system.now) node grown.new.items)) }
    ensures low { OnOk result ((p : ℕ) → has p grown.new.items ≡ true → p < length ((S.meaning system.now).defs node)) }
    ensures row { vec_len row.new ≡ vec_len row.old }
    ensures ticked { steps.new ≡ steps.old + 1 }
{
    let count = outputs.row(node as usize).len();
    fill(system, alloc, inputs, row, node, steps)?;
    update(outputs, row, grown, node as usize, count)?;
    Ok(())
}

/// Fills the front of a row with the effect of the inputs of `node`, at its definitions. Counts one step.
fn fill<S: System, L: Ledger>(
    system: &S,
    alloc: Global,
    inputs: &Rows<S::Value>,
    row: &mut [S::Value],
    node: u32,
    steps: &mut Steps<L>,
) -> Result<(), AllocError>
    requires node { node < (S.meaning system.now).nodes }
    requires inputs { IsListGrid (S.meaning system.now).nodes (S.meaning system.now).uses inputs.now }
    requires row { length ((S.meaning system.now).defs node) ≤ length row.old }
    requires under { Under S.Value.order (S.meaning system.now)
        (table_at S.Value.order.bottom (S.meaning system.now).uses inputs.now) }
    ensures filled { OnOk result (BeginsWith (S.meaning system.now) S.Value.order.bottom node
        (table_at S.Value.order.bottom (S.meaning system.now).uses inputs.now node) row.new) }
    ensures ticked { steps.new ≡ steps.old + 1 }
{
    let count = system.defs(node).len();
    let output = &mut row[..count];
    system.evaluate(alloc, node, inputs.row(node as usize), output, steps)?;
    Ok(())
}

/// Brings a row of outputs up to date with the values made anew, and tells the places of those that grew. The values
/// that they replace go into `made`.
fn update<V: Lattice>(
    outputs: &mut Rows<V>,
    made: &mut Vec<V>,
    grown: &mut Vec<usize>,
    node: usize,
    count: usize,
) -> Result<(), AllocError>
    requires node { node < length outputs.old }
    requires count { count ≡ length (row_at outputs.old node) }
    requires room { count ≤ vec_len made.old }
    ensures updated { OnOk result
        (UpdatesRow V.order made.old.items outputs.old outputs.new node grown.new.items) }
    ensures row { vec_len made.new ≡ vec_len made.old }
{
    grown.clear();
    'places: for place in 0..count {
        let value = &mut made[place];
        if !value.leq(&outputs.row(node)[place]) {
            outputs.swap_at(node, place, value);
            grown.push(place)?;
        }
    }
    Ok(())
}

/// Sends the outputs of `node` that grew along their links. Where an input grows, its node waits.
pub(crate) fn send_grown<S: System>(
    system: &S,
    alloc: Global,
    links: &Links<'_>,
    inputs: &mut Rows<S::Value>,
    outputs: &Rows<S::Value>,
    waiting: &mut WaitingNodes,
    node: u32,
    grown: &Vec<usize>,
) -> Result<(), AllocError>
    requires node { node < (S.meaning system.now).nodes }
    requires deps { AreDependencies (S.meaning system.now) links.now.deps.now }
    requires links { HasLinks (S.meaning system.now) (held links.now.deps.now) links.now.rows }
    requires inputs { IsListGrid (S.meaning system.now).nodes (S.meaning system.now).uses inputs.old }
    requires outputs { IsListGrid (S.meaning system.now).nodes (S.meaning system.now).defs outputs.now }
    requires grown { (p : ℕ) → has p grown.now.items ≡ true → p < length ((S.meaning system.now).defs node) }
    requires nodes { waiting.old.nodes ≡ (S.meaning system.now).nodes }
    requires working { IsWorking S.Value.order (S.meaning system.now) (held links.now.deps.now)
        (EveryBut (held links.now.deps.now) node (locations_at (S.meaning system.now) node grown.now.items))
        (table_at S.Value.order.bottom (S.meaning system.now).uses inputs.old)
        (table_at S.Value.order.bottom (S.meaning system.now).defs outputs.now) waiting.old.waiting }
    ensures grid { OnOk result
        (IsListGrid (S.meaning system.now).nodes (S.meaning system.now).uses inputs.new) }
    ensures nodes { waiting.new.nodes ≡ waiting.old.nodes }
    ensures working { OnOk result (IsWorking S.Value.order (S.meaning system.now) (held links.now.deps.now)
        (Every (held links.now.deps.now))
        (table_at S.Value.order.bottom (S.meaning system.now).uses inputs.new)
        (table_at S.Value.order.bottom (S.meaning system.now).defs outputs.now) waiting.new.waiting) }
    ensures still { OnOk result ((n : ℕ) → has n waiting.old.waiting ≡ true → has n waiting.new.waiting ≡ true) }
    ensures paid { OnOk result ((counts : ℕ → ℕ) →
        IsPaid S.Value.order (S.meaning system.now)
        (table_at S.Value.order.bottom (S.meaning system.now).uses inputs.old) waiting.old.waiting counts →
        IsPaid S.Value.order (S.meaning system.now)
        (table_at S.Value.order.bottom (S.meaning system.now).uses inputs.new) waiting.new.waiting counts) }
{
    solution_laws(system);
    let first = outputs.first(node as usize);
    let output = outputs.row(node as usize);
    'places: for place in grown {
        let value = &output[*place];
        let targets = links.rows.row(first + *place);
        'targets: for target in targets {
            let to = target.0;
            let grew = inputs.raise_at(alloc, to as usize, target.1 as usize, value)?;
            if grew {
                waiting.add(to);
            }
        }
    }
    Ok(())
}
