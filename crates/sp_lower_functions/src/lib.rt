//! The nodes and edges of the functions of a program.
//!
//! A function's nodes are its *entry*, those of its body, and its *exit*. The ends of the body and
//! those that `return` leaves go to the exit, and those of a `goto` to the node of its label. A
//! function has objects of its own: the *temporaries* that its lowering makes, and its *result*.
//! They are numbered behind those of the function before it.
//!
//! So for `int f(void) { return g() + 1; } int g(void) { return 2; }` with first object 7 the
//! objects 7 and 8 are the temporary and the result of `f`, and 9 is the result of `g`.
//!
//! How many temporaries a function has is told before it is lowered: the number of its result
//! stands on it. `lower_functions` says what is made where these counts are told. The layer above
//! tells those that come out.
#![tactic(auto)]

mod functions;
mod gotos;

pub use functions::{Functions, Part, lower_functions};
