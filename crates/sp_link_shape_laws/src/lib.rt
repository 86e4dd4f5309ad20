//! A type of a unit has in the program the leaves that it has in the unit (C90 6.1.2.6, 6.5.7).
//!
//! Start values between braces go to the scalar leaves of an object by number: so in
//! `struct s { int a; char *p; } x = { 1, "b" };` the leaf 1 is a pointer. Another unit may have a
//! struct that is the same one, and the program has one of the two. This law says that the program's
//! type has as many leaves, and that each is an integer or a pointer where the unit's is.
//!
//! It computes nothing: a layer that rests on the law calls [`shapes_stay`] and has it from its
//! contract.
#![tactic(auto)]

mod laws;

pub use laws::shapes_stay;
