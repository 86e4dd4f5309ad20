//! The types and trees of a unit, as a program of several units has them (C90 6.1.2.6, 6.7).
//!
//! Where units are linked, their structs, objects and functions get the numbers that the program
//! has for them. A [`Renaming`] has the new number of each, and the type that each object has in the
//! program: another unit may give an array its length. A tree is made anew with these; all else in it
//! stays as it is.
//!
//! So where `x` is the object 2 of its unit and 5 of the program, `x + 1` there is the sum of the
//! object 5 and 1. Where `extern int a[];` stands in this unit and `int a[4];` in another, `a` is of
//! the type `int[4]` in the program.
//!
//! The layer above uses that each call makes exactly what the definition of its name in
//! `specs/Renaming.antt` gives, unless memory runs out.
#![tactic(auto)]

mod expressions;
mod statements;
mod types;

pub use expressions::renamed;
pub use statements::renamed_statement;
pub use types::{Renaming, renamed_signature, renamed_type};
