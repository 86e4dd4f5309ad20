//! A program has what its units name: structs of the sizes and with the members that they have there
//! (C90 6.1.2.6).
//!
//! So where `struct s { int a; }` stands in two units, both have the program's one struct `s`, and
//! member 0 of it is an `int` for both. Of several structs that are one the program has the first;
//! what another unit tells of a member behind a pointer may differ, its name and its sort don't.
//!
//! It computes nothing: a layer that rests on the law calls [`structs_follow`] and has it from its
//! contract.
#![tactic(auto)]

mod laws;

pub use laws::structs_follow;
