//! Checked units: what a translation unit is once its declarations are checked, and before units
//! are linked (C90 6.7).
//!
//! A [`CheckedUnit`] has the tables of its unit: structs, objects and functions, each named by its
//! number there, the constants of its text, and the numbers of the functions that it defines, in
//! the order of their text. An object or a function that the unit declares and doesn't define is
//! there too, with its linkage. Of an external name the unit also keeps each declarator that gives
//! it its type or changes it: a [`Typing`].
//!
//! So `extern int a; int f(void) { return a; }` has one object, stored outside, one function with a
//! body, and the list of definitions 0.
//!
//! The checks of units make one for each unit, the linker joins them. Contracts see it by
//! `checked_unit_of` (`specs/Units.antt`). What a check answers is said here, too: [`CheckError`],
//! and `Answers` (`specs/Answers.antt`).
#![tactic(auto)]

mod error;
mod unit;

pub use error::{CheckError, fault};
pub use unit::{CheckedUnit, Typing};
