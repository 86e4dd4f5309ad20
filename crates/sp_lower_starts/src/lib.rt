//! The start values of static objects (C90 6.4, 6.5.7).
//!
//! They are constant expressions, known before the program runs, so no node can stand for one. An
//! integer constant expression and an address constant have the value that they have in a function.
//! But `?:`, `&&` and `||` make nodes there. An integer constant expression around one of these is
//! its value as a number. So for `int x = 3 && 4, *p = a + (1 ? 2 : 3);` the start values are `1:int`
//! and `move+4(decay(a), 2:int)`.
//!
//! The layer above uses [`start_value`]: `start_value` of `specs.Starts`.
#![tactic(auto)]

mod starts;

pub use starts::start_value;
