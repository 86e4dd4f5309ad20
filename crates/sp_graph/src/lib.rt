//! The supergraph of a program: the nodes that the program may come to, and the edges between them,
//! inside functions and between them.
//!
//! Node numbers are those of the program. The *callees* of a call node are the functions that it
//! calls ([`CallGraph`]; points-to tells them). A function is *reached* where calls lead to it from
//! the function with which the program starts, and *recursive* where they lead from it to itself.
//! The graph has the start node and the nodes of functions that are reached.
//!
//! ```text
//! int x;                             start -> entry of main
//! int f(void){ x = 2; return 0; }    call  -> entry of f     passes what f accesses, as x
//! int main(void){                    exit of f -> return     passes what f accesses, as x
//!   int y; f(); return y; }          call  -> return         passes what f doesn't access, as y
//! ```
//!
//! So is it once calls are *localised* ([`localise`]); before ([`supergraph`]) every location passes
//! along every edge, and no edge leads past a call. The layer above uses `IsSupergraph` of
//! `specs.Supergraph`, which says just which nodes and edges there are, and `passes_by`, which says
//! what passes along an edge. Localised calls are those of Oh et al., "Design and Implementation of
//! Sparse Global Analyses for C-like Languages", 2012.
#![tactic(auto)]

mod accessed;
mod edge;
mod flow;
mod functions;
mod lookups;
mod rows;

pub use accessed::Accessed;
pub use edge::{Edge, Pass};
pub use flow::{Flow, localise, supergraph};
pub use functions::{CallGraph, recursive};
