//! A linked program has a table of structs as its units have (C90 6.1.2.6, 6.5.2.1).
//!
//! The structs of a program are structs of its units, with the numbers that the program gives to
//! what their members name. Where the table of each unit is formed (`IsTable` of `sp_types`), the
//! program's is formed too: a struct that stands for others has their size, level and counts.
//!
//! It computes nothing: a layer that rests on the law calls [`table_laws`] and has it from its
//! contract.
#![tactic(auto)]

mod laws;

pub use laws::table_laws;
