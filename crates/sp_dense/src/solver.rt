//! Solves a system by visits to the nodes that wait, until none does.
ghost use Rattle.std.specs.Prelude.{◌≡◌, ◌≤◌, ◌<◌, ◌+◌, ℕ, map, replicate, ◌∷◌, IfOk, OnOk, IfErr};
ghost use Rattle.sp_lattice.specs.Dense.{input, IsLeast, Partial, table_of};
ghost use Rattle.sp_lattice.specs.Bound.{most_steps};
ghost use Rattle.sp_dense.specs.inner.Visit.{IsStoreGrid, HasSuccessors, IsWorking, Works};
ghost use Rattle.sp_dense.specs.Solution.{IsSolved, cells, most_cells};
ghost use Rattle.sp_dense.specs.Cause.{IsCause};

use crate::edges::successors;
use crate::evaluation::{input_row, visit};
use crate::tables::Table;
use crate::worklist::Worklist;
use sp_lattice::rows::bottoms;
use sp_lattice::{Lattice, Steps, System, solution_laws};
use std::alloc::{AllocError, Global};
use std::sync::ledger::Ledger;
use thiserror::Error;

/// The most cells, nodes times locations, of a system that is solved.
pub const MOST_CELLS: u64 = 1_048_576;

/// Why a system isn't solved.
#[derive(Clone, Copy, Debug, PartialEq, Eq, Error)]
pub enum DenseError {
    /// Its nodes times its locations, `cells`, are more than [`MOST_CELLS`]; nothing was evaluated.
    #[error("{cells} dense slots")]
    TooLarge { cells: u64 },
    /// Memory ran out.
    #[error("out of memory")]
    NoMemory,
}

impl From<AllocError> for DenseError {
    ghost use Rattle.std.specs.Prelude.{◌≡◌};
    ghost use Rattle.sp_dense.specs.declared.solver.DenseError.TheVariants.{NoMemory};

    ghost from_gives = { λ _ error. error ≡ NoMemory };

    fn from(_error: AllocError) -> DenseError {
        DenseError::NoMemory
    }
}

/// The least solution of the dense equations of `system`, with the inputs of its nodes.
///
/// `TooLarge` comes exactly where the nodes times the locations are more than [`MOST_CELLS`], with that
/// product; then nothing is evaluated, also where memory is wanted. With N nodes, P locations and height H
/// at most N * (1 + N * P * H) evaluations are counted, also where memory is wanted.
pub fn solve_dense<S: System, L: Ledger>(
    alloc: Global,
    system: &S,
    steps: &mut Steps<L>,
) -> Result<Table<S::Value>, DenseError>
    ensures solved { IfOk result (λ table. IsSolved S.Value.order (S.meaning system.now) table) }
    ensures fits { OnOk result (cells (S.meaning system.now) ≤ most_cells) }
    ensures refused { IfErr result (IsCause (S.meaning system.now) steps.old steps.new) }
    ensures bound { steps.new ≤ steps.old + most_steps (S.meaning system.now) }
    ensures untouched { most_cells < cells (S.meaning system.now) → steps.new ≡ steps.old }
{
    let cells = u64::from(system.nodes()) * u64::from(system.locations());
    if cells > MOST_CELLS {
        return Err(DenseError::TooLarge { cells });
    }
    let outputs = solve_rows(alloc, system, steps)?;
    let inputs = input_rows(alloc, system, &outputs)?;
    Ok(Table::from_rows(inputs, outputs))
}

/// The rows of the least solution.
fn solve_rows<S: System, L: Ledger>(
    alloc: Global,
    system: &S,
    steps: &mut Steps<L>,
) -> Result<Vec<Vec<S::Value>>, AllocError>
    ensures grid { IfOk result (λ rows. IsStoreGrid (S.meaning system.now) rows.items) }
    ensures least { IfOk result
        (λ rows. IsLeast S.Value.order (S.meaning system.now) (table_of S.Value.order.bottom rows.items)) }
    ensures bound { steps.new ≤ steps.old + most_steps (S.meaning system.now) }
{
    solution_laws(system);
    let mut rows = bottom_rows(alloc, system)?;
    let successors = successors(alloc, system)?;
    let mut waiting = Worklist::all(alloc, system.nodes())?;
    'visits: while let Some(node) = waiting.take() {
        work(
            alloc,
            system,
            &mut rows,
            &successors,
            &mut waiting,
            node,
            steps,
        )?;
    }
    Ok(rows)
}

/// Visits a node that waited. Where its row grew, the nodes behind it wait again.
fn work<S: System, L: Ledger>(
    alloc: Global,
    system: &S,
    rows: &mut Vec<Vec<S::Value>>,
    successors: &Vec<Vec<u32>>,
    waiting: &mut Worklist,
    node: u32,
    steps: &mut Steps<L>,
) -> Result<(), AllocError>
    requires node { node < (S.meaning system.now).nodes }
    requires nodes { waiting.old.nodes ≡ (S.meaning system.now).nodes }
    requires grid { IsStoreGrid (S.meaning system.now) rows.old.items }
    requires successors { HasSuccessors (S.meaning system.now) successors.now.items }
    requires working { IsWorking S.Value.order (S.meaning system.now)
        (table_of S.Value.order.bottom rows.old.items) (node ∷ waiting.old.waiting) }
    ensures nodes { waiting.new.nodes ≡ waiting.old.nodes }
    ensures worked { OnOk result (Works S.Value.order (S.meaning system.now)
        rows.old.items rows.new.items waiting.old.waiting waiting.new.waiting) }
    ensures ticked { steps.new ≤ steps.old + 1 }
{
    solution_laws(system);
    if !visit(alloc, system, rows, node, steps)? {
        return Ok(());
    }
    let next = &successors[node as usize];
    waiting.add(next)?;
    Ok(())
}

/// A row of least values for each node.
fn bottom_rows<S: System>(alloc: Global, system: &S) -> Result<Vec<Vec<S::Value>>, AllocError>
    ensures { IfOk result (λ rows. map (λ row. row.items) rows.items ≡
        replicate (S.meaning system.now).nodes
        (replicate (S.meaning system.now).locations S.Value.order.bottom)) }
{
    let mut rows = Vec::new(alloc);
    for _ in 0..system.nodes() {
        rows.push(bottoms(alloc, system.locations() as usize)?)?;
    }
    Ok(rows)
}

/// The input of each node, where these are the rows of all.
fn input_rows<S: System>(
    alloc: Global,
    system: &S,
    rows: &Vec<Vec<S::Value>>,
) -> Result<Vec<Vec<S::Value>>, AllocError>
    requires { IsStoreGrid (S.meaning system.now) rows.now.items }
    ensures grid { IfOk result (λ inputs. IsStoreGrid (S.meaning system.now) inputs.items) }
    ensures values { IfOk result (λ inputs. (n l : ℕ) → n < (S.meaning system.now).nodes →
        l < (S.meaning system.now).locations →
        table_of S.Value.order.bottom inputs.items n l ≡
        input S.Value.order (S.meaning system.now) (table_of S.Value.order.bottom rows.now.items) n l) }
{
    let mut inputs = Vec::new(alloc);
    for node in 0..system.nodes() {
        inputs.push(input_row(alloc, system, rows, node)?)?;
    }
    Ok(inputs)
}
