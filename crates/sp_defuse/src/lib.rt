//! An analysed program as a system of equations.
//!
//! A [`CProgram`] has the nodes of the supergraph, in the order of their numbers in the program. Of
//! each it keeps the locations that it defines and uses ([`Node`]), and the edges that lead into
//! it, by the nodes from which they lead ([`Sources`]).
//!
//! Its calls are *localised*. A function *accesses* a location where a node of it, or of a function
//! that calls lead to from it, defines or uses the location. What it accesses passes into it and
//! back, and what it doesn't access passes beside it.
//!
//! ```text
//! int x, y;                     f accesses x
//! void f(void){ x = 2; }        call -> entry of f, exit of f -> return   pass x
//! int main(void){               call -> return                            passes y
//!   y = 1; f(); return y; }     the node of y = 1 defines y, that of return y uses it
//! ```
//!
//! What functions access is found after the nodes' own locations, by one walk along calls backwards
//! for each location (`spreading`), or for one of those that the same functions touch (`stand_ins`).
//!
//! The layer above uses that a [`CProgram`] is a `System` of `sp_lattice`, whose meaning is
//! `meaning_of` of `sp_transfer.specs.Equations` at its equations (`equations_in` of
//! `specs.Program`), and that these are those of its analysis (`AreEquations` there).
#![tactic(auto)]

mod accessed;
mod edges;
mod groups;
mod nodes;
mod open;
mod places;
mod programs;
mod sources;
mod spreading;
mod stand_ins;

pub use nodes::Node;
pub use open::open_nodes;
pub use programs::CProgram;
pub use sources::Sources;
