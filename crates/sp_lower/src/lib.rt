//! The lowering of a checked program: nodes and edges, objects and regions.
//!
//! Node 0 starts the program; then come the nodes of each defined function in the order of the
//! text: its entry, those of its body, its exit. A pure expression on a node names objects by their
//! numbers: those of the units, the functions, of each function its temporaries and its result, and
//! the *sites*, where a pointer from the library or from outside points.
//!
//! So `int x; int main(void) { x++; return 0; }` has the objects `x`, `main` and `main.%ret`, and the
//! nodes start, entry, `x := x + 1`, `main.%ret := 0` and exit.
//!
//! The number of a function's result stands on how many temporaries it and the functions before it
//! have, and that of a site on all. So a lowering is one under a numbering: under the numbering that
//! its own temporaries make, lowering gives just them (`IsLowering` of `specs.Programs`). The
//! contract of `lower` says that its answer is such a lowering within the limits, or that there is
//! one past a limit (`Lowers` of `specs.Answers`).
#![tactic(auto)]

mod building;
mod limits;
mod passes;
mod program;

pub use program::{LowerError, lower};
