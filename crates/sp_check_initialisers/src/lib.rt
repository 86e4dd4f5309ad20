//! Initialisers (C90 6.5.7): which value goes to which part of an object.
//!
//! The *leaves* of an object are its scalars in the order of declaration, of a union those of its
//! first member. The values of a list between braces go to the parts in order. One without braces
//! of its own goes inwards, to the first scalar of the next part; braces take that part whole. A
//! string gives an array of characters its bytes, and a zero where there is room. An array without
//! a length gets as many elements as reach to its last value.
//!
//! So `int x[][2] = {1, {2}, 3};` has values for the leaves 0, 1 and 2, and the type `int[2][2]`:
//! behind 1 the next part is the second scalar of `x[0]`, and the braces stand round that.
//!
//! The layer above uses [`check_initialiser`]. It answers exactly what `started` in
//! `specs/Initialisers.antt` gives for the type of the object, with the environment behind it, or
//! its fault.
#![tactic(auto)]

mod lists;
mod objects;
mod runs;
mod static_values;
mod strings;
mod targets;
mod values;

pub use objects::{Started, check_initialiser};
pub use static_values::is_static_storage;
pub use targets::Target;
