//! What the joining of units settles, as laws of its definition (C90 6.1.2.2).
//!
//! A name with external linkage has one object or one function in the whole program: units that
//! agree on their names give it one number, by which the program's entry of that name is found. An
//! object or a function whose name isn't external has an entry of its own. So of `extern int a;
//! static int c;` and `int b; int a;` both `a` have the number 0, `c` has 1, and `b` has 2.
//!
//! It computes nothing: a layer that rests on a law calls [`joining_laws`] and has it from its
//! contract.
#![tactic(auto)]

mod laws;

pub use laws::joining_laws;
