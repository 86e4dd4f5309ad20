//! The sparse engine: it solves any system of equations with values at the uses and definitions of nodes alone.
//!
//! A node has *inputs*, a value for each location that it uses, and *outputs*, one for each that it defines: rows, one
//! behind another in flat lists. All begin with the least values, and every node *waits*. A *turn* takes a waiting node
//! that a [`Picker`] picks and makes its outputs the effect of its inputs. Those that grew are *sent* along their *links*: a
//! link leads from a definition to a node that depends on it (`sp_deps`), and tells the place of the location among that
//! node's uses. A node of which an input grew waits again. Where none waits, inputs and outputs are those of the dense
//! least solution, whatever was picked: they lie below every table under the ceiling whose rows lie above the effects of
//! their inputs (`proofs/Working`), and spread to every node along the edges they are such a table themselves
//! (`proofs/Spreading`). After Oh et al. 2012, over a frame and a support.
//!
//! [`order_of`] numbers the nodes in an order of service; [`ByOrder`] serves the least number first, and [`BySweeps`] goes
//! through the numbers again and again.
//!
//! A [`System`](sp_lattice::System) goes in with its dependencies, a picker and a counter of evaluations, and a
//! [`SparseTable`] comes out. The layer above uses the contract of [`solve_sparse`]: the table `IsSolved`, and the evaluations
//! of each node are within `IsWithinBounds` (`specs.Solution`).
//!
//! With intervals as values, the facts of each node of
//!
//! ```text
//! x = 1; y = 1;      // 0: sends x = [1,1] to 2 and 4, and y = [1,1] to 4
//! while (..) {       // 1: uses and defines nothing, so nothing is kept here; evaluated once
//!     y = x;         // 2: its input x is [1,1] from 0 and [2,2] from 3; it sends y = [1,2] to 4
//!     x = 2;         // 3: sends x = [2,2] to 2 and 4
//! }
//! f(x, y);           // 4: its inputs are x = [1,2] and y = [1,2]
//! ```
#![tactic(auto)]

mod evaluation;
mod links;
mod order;
mod pickers;
mod places;
mod solver;
mod tables;
mod waiting;

pub use order::order_of;
pub use pickers::{ByOrder, BySweeps, First, Last, Picker};
pub use solver::solve_sparse;
pub use tables::SparseTable;
pub use waiting::MOST_SHOWN;
