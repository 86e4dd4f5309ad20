//! The values of integer constant expressions (C90 6.4).
//!
//! [`constant`] takes a typed expression and tells its value; `None` exactly where it is no integer
//! constant expression, where it divides by zero, or where a result of a signed type isn't
//! representable. [`is_null_constant`] tells whether it is a null pointer constant (6.2.2.3). Both
//! equal the definitions of their names in `specs/Constants.antt`.
//!
//! So `-1 + 2u` is 1: the balance is `unsigned`, in which the result is reduced modulo 2^32
//! (6.1.2.5). `2147483647 + 1` has no value.
#![tactic(auto)]

mod constants;

pub use constants::{constant, is_null_constant};
