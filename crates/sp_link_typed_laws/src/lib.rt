//! A linked program of well-typed units is well typed, as a law that only proofs use (C90 6.1.2.6,
//! 6.7).
//!
//! Each function that a unit defines sees in the program the structs, objects and functions that it
//! sees in its unit (`Follows` of `sp_link_renaming_laws`). So `a[1]` of `extern int a[];` is well typed
//! there too, with the `a` that another unit defines. Each function is defined once, each object of a
//! block is one function's own, and start values that are known in a unit are known in the program.
//! What the units have to give beside being well typed is told by `AreTypedUnits` (specs/Linked.antt).
#![tactic(auto)]

mod laws;

pub use laws::linked_follow;
