//! Well-typed expressions and bodies of a unit are well typed in the program of several units: a law
//! that only proofs use.
//!
//! A program has for each struct, object and function of a unit a number of its own, and perhaps
//! more of a type than the unit knew: the length of an array, the members of a struct
//! (`Follows`, specs/Follows.antt). So `a[1]` of `extern int a[];` is well typed too where another
//! unit has `int a[4];`.
#![tactic(auto)]

mod laws;

pub use laws::renamed_are_typed;
