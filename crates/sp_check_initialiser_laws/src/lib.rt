//! The values between the braces of an array or a struct are well typed (C90 6.5.7).
//!
//! Each goes to a scalar of the object, a *leaf*, and is an integer or a pointer as it is; no leaf
//! has two. So in `struct { int a[2]; char *p; } s = { 1, 2, "x" };` the leaves are `s.a[0]`,
//! `s.a[1]` and `s.p`. An array without a length gets as many elements as its values reach.
//!
//! The proof follows the runs of parts that are still to be initialised. A run begins behind the
//! last value and lies in the object, leaf by leaf. An expression may complete a struct, as
//! `sizeof(struct t { int i; })` does. That changes no run: its parts have complete types.
//!
//! It computes nothing: a layer that rests on the law calls [`leaves_are_typed`] and has it from
//! its contract.
#![tactic(auto)]

mod laws;

pub use laws::leaves_are_typed;
