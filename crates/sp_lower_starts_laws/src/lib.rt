//! The start values of a well-typed program's objects are formed: a law that only proofs use.
//!
//! Static objects have constants as start values, whose expressions (`start_value` of
//! `sp_lower_starts`) name no local object, so they are formed outside of all functions. An automatic
//! object's leaves have the values that its block computes. In both each value goes to the cell of
//! its leaf, which is kept as bytes or has elements of the leaf's type, and the cells with a leaf
//! that has no value are the ones that the object's start lists (`IsStart` of `sp_ir`). An object past
//! the limit of regions has no cells, so the law is that of programs within it.
//!
//! So `static int *p = &a[2];` starts with the address of an element of `a` in the one cell of `p`.
#![tactic(auto)]

mod laws;

pub use laws::starts_hold;
