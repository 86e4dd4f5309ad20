//! What a visit of a node does: its input, the effect of that, and what the effect adds to the node's row.
ghost use Rattle.std.specs.Prelude.{◌≡◌, ◌≤◌, ◌<◌, ◌+◌, ℕ, length, vec_len, IfOk, OnOk};
ghost use Rattle.sp_lattice.specs.System.{AllBelow, Below, written};
ghost use Rattle.sp_lattice.specs.Dense.{input, Partial, store_of, table_of};
ghost use Rattle.sp_dense.specs.inner.Visit.{IsStoreGrid, IsStore, JoinsPassed, Visits};

use sp_lattice::rows::{bottoms, raise, values_of};
use sp_lattice::{Lattice, Steps, System, solution_laws};
use std::alloc::{AllocError, Global};
use std::sync::ledger::Ledger;

/// Raises the row of `node` by the effect of its input, and says whether it grew. Counts at most one step.
pub(crate) fn visit<S: System, L: Ledger>(
    alloc: Global,
    system: &S,
    rows: &mut Vec<Vec<S::Value>>,
    node: u32,
    steps: &mut Steps<L>,
) -> Result<bool, AllocError>
    requires node { node < (S.meaning system.now).nodes }
    requires grid { IsStoreGrid (S.meaning system.now) rows.old.items }
    requires part { Partial S.Value.order (S.meaning system.now) (table_of S.Value.order.bottom rows.old.items) }
    ensures visited { IfOk result
        (λ grew. Visits S.Value.order (S.meaning system.now) rows.old.items rows.new.items node grew) }
    ensures ticked { steps.new ≤ steps.old + 1 }
{
    solution_laws(system);
    let mut effect = input_row(alloc, system, rows, node)?;
    apply_effect(alloc, system, node, &mut effect, steps)?;
    let row = &mut rows[node as usize];
    let grew = raise(alloc, row, &effect)?;
    Ok(grew)
}

/// The input of `node`: at each location the join of its predecessors' rows over the edges that pass it.
pub(crate) fn input_row<S: System>(
    alloc: Global,
    system: &S,
    rows: &Vec<Vec<S::Value>>,
    node: u32,
) -> Result<Vec<S::Value>, AllocError>
    requires node { node < (S.meaning system.now).nodes }
    requires grid { IsStoreGrid (S.meaning system.now) rows.now.items }
    ensures { IfOk result (λ row. IsStore S.Value.order (S.meaning system.now) row.items
        (input S.Value.order (S.meaning system.now) (table_of S.Value.order.bottom rows.now.items) node)) }
{
    let mut row = bottoms(alloc, system.locations() as usize)?;
    let edges = system.edges_into(node);
    for from in edges {
        let other = &rows[*from as usize];
        join_passed(alloc, system, &mut row, other, *from, node)?;
    }
    Ok(row)
}

/// Joins the row of `from` into `row`, at the locations that the edge to `node` passes.
fn join_passed<S: System>(
    alloc: Global,
    system: &S,
    row: &mut Vec<S::Value>,
    other: &Vec<S::Value>,
    from: u32,
    node: u32,
) -> Result<(), AllocError>
    requires from { from < (S.meaning system.now).nodes }
    requires node { node < (S.meaning system.now).nodes }
    requires row { vec_len row.old ≡ (S.meaning system.now).locations }
    requires other { vec_len other.now ≡ (S.meaning system.now).locations }
    ensures { OnOk result (JoinsPassed S.Value.order (S.meaning system.now) from node
        other.now.items row.old.items row.new.items) }
{
    for location in 0..system.locations() {
        if system.passes(from, node, location) {
            let place = location as usize;
            row[place].join_into(alloc, &other[place])?;
        }
    }
    Ok(())
}

/// Makes of the input of `node` its effect: the node is evaluated at what it uses, and what it defines is
/// written over the row. Counts at most one step.
fn apply_effect<S: System, L: Ledger>(
    alloc: Global,
    system: &S,
    node: u32,
    row: &mut Vec<S::Value>,
    steps: &mut Steps<L>,
) -> Result<(), AllocError>
    requires node { node < (S.meaning system.now).nodes }
    requires row { vec_len row.old ≡ (S.meaning system.now).locations }
    requires under { Below S.Value.order (S.meaning system.now)
        (store_of S.Value.order.bottom row.old.items) (S.meaning system.now).ceiling }
    ensures effect { OnOk result (IsStore S.Value.order (S.meaning system.now) row.new.items
        ((S.meaning system.now).effect node (store_of S.Value.order.bottom row.old.items))) }
    ensures ticked { steps.new ≤ steps.old + 1 }
{
    let used = values_of(alloc, row, system.uses(node))?;
    let defs = system.defs(node);
    let mut defined = bottoms(alloc, defs.len())?;
    system.evaluate(alloc, node, &used, &mut defined, steps)?;
    write_values(row, defs, defined);
    Ok(())
}

/// Writes the values over the row at these places. From the back, so that no value has to be copied.
fn write_values<V: Drop>(row: &mut Vec<V>, places: &[u32], mut values: Vec<V>)
    requires places { AllBelow (vec_len row.old) places.now }
    requires values { vec_len values ≡ length places.now }
    ensures length { vec_len row.new ≡ vec_len row.old }
    ensures values { (l : ℕ) (d : V) → l < vec_len row.old →
        store_of d row.new.items l ≡ written (store_of d row.old.items) places.now values.items l }
{
    'values: while let Some(value) = values.pop() {
        row[places[values.len()] as usize] = value;
    }
}
