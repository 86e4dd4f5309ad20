//! The dense engine: it solves any system of equations with a whole store at each node.
//!
//! Each node has a *row*, a value for each location. All begin with the least values, and every node *waits*.
//! A *visit* takes the node that has waited longest, joins its predecessors' rows over the edges that pass a
//! location into its *input*, and raises its row by the *effect* of that; where the row grew, the nodes behind
//! it wait again. Where none waits, the rows are the least solution of the dense equations (`IsLeast` of
//! `sp_lattice.specs.Dense`), the *outputs*.
//!
//! A [`System`](sp_lattice::System) goes in with a counter of evaluations, and a [`Table`] comes out: for each
//! node and location the input and the output. The layer above uses the contract of [`solve_dense`]: the table
//! `IsSolved` (`specs.Solution`), a refusal has its `IsCause` (`specs.Cause`), and the evaluations are at most
//! `most_steps` of `sp_lattice.specs.Bound`.
#![tactic(auto)]

mod edges;
mod evaluation;
mod solver;
mod tables;
mod worklist;

pub use solver::{DenseError, MOST_CELLS, solve_dense};
pub use tables::Table;
