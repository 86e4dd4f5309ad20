//! Points-to: to which regions each cell may point, which functions each node calls, and which
//! functions are recursive, all of a whole program and in whatever order its commands run.
//!
//! ```text
//! int x, y; int *p, *q;
//! void f(void){ q = p; }
//! int main(void){ void (*g)(void); g = f; p = &x; g(); p = &y; return *q; }
//! p -> x, y     q -> x, y     g -> f     g() calls f     no function is recursive
//! ```
//!
//! [`points_to`] is exact: a cell points to a region just where each set that is closed under the
//! commands says so (`IsLeastClosed` of `sp_points_expr` for `rules_of` of `sp_points_rules`). A node calls just
//! the functions to which its callee may point and that take as many arguments (`AreCalls` of
//! `specs.PointsTo`). The table is made by a worklist of nodes (`solve`), in which a node waits
//! again when a cell grew that it looked at. This is Andersen's analysis ("Program Analysis and
//! Specialization for the C Programming Language", 1994, chapter 4).
#![tactic(auto)]

mod calls;
mod pre;
mod solve;

pub use pre::{PointsTo, points_to};
