//! The data dependencies of a system: from each definition of a location to the uses that it reaches.
//!
//! A *dependency* is a triple of two nodes and a location: the first node, *from*, defines the location, the
//! second, the *target*, uses it, and a path of edges that pass the location leads there, with no node strictly
//! between that defines it (`Depends` of `sp_lattice.specs.Dependency`; Oh et al., "Design and Implementation of
//! Sparse Global Analyses for C-like Languages", 2012). A sparse engine sends a value along dependencies alone.
//!
//! ```text
//! x = 1; y = 1;     node 0: defines x and y; no edge leads there
//! while (more())    node 1: from 0 and 3
//!     y = x,        node 2: from 1; defines y, uses x
//!     x = 2;        node 3: from 2; defines x
//! return x + y;     node 4: from 1; uses x and y
//! ```
//!
//! Its dependencies: x from 0 to 2 and 4, and from 3 to 2 and 4; y from 0 and from 2 to 4. The y of node 0 reaches
//! node 4 by the path 0, 1, 4, beside node 2.
//!
//! A [`System`](sp_lattice::System) goes in. For each location, and for each of its uses in the order of nodes, a
//! *walk* goes backward along edges that pass the location. It *reaches* nodes; at one that defines the location it
//! stops, and that node is *found*; behind another it goes on. At a node whose own use was walked to before, it takes
//! over what that walk found. Work and marks are only of what a walk reaches.
//!
//! Where every location passes into a node, and the caller says so ([`dependencies_with`]), nodes join in *stretches*
//! that a path enters by the first alone (`stretches`). A walk crosses one that doesn't touch its location in one step.
//!
//! [`Deps`] comes out, which tells for each node the pairs of location and target that *leave* it, ascending. The
//! layer above uses the contract of [`dependencies`]: `AreDependencies` of `specs.Answer`, exactly the dependencies;
//! and `TooMany` exactly where there are more than [`MOST_DEPENDENCIES`].
#![tactic(auto)]

mod collect;
mod earlier;
mod groups;
mod stretches;
mod triples;
mod users;
mod walk;

pub use collect::{dependencies, dependencies_with};
pub use triples::{DepError, Deps, MOST_DEPENDENCIES};
