//! The leaves of expressions: names, literals and strings (C90 6.3.1), with what they leave behind
//! in the environment of their unit.
//!
//! A name is what it is declared to be: an object, a function or an enumeration constant. A name
//! that is called and isn't declared is declared there, as `extern int f()` (6.3.2.2). Two
//! declarations of one function have compatible types, and the function then has their *composite*
//! (6.1.2.6): what either tells of lengths and parameters. Each literal is a constant of the
//! threshold ladder, and each string literal an object of its own, with its bytes and a zero as
//! start values (6.1.4).
//!
//! So `f("ab")` in a unit that doesn't declare `f` adds the function `f` with the type `int()`, an
//! object of type `char[3]` with the values 97, 98 and 0, and the constant 3.
//!
//! The checks of expressions use the calls. Each answers exactly what the definition of its name in
//! `specs/` gives for the environment before it, with the environment behind it, or its fault.
#![tactic(auto)]

mod composites;
mod functions;
mod literals;
mod names;
mod strings;

pub use composites::{composite, composite_signature};
pub use functions::{extern_linkage, function_declared, is_retyped, retype};
pub use literals::{character_checked, number_checked, size_checked};
pub use names::{implicit_name, name_checked};
pub use strings::text_checked;
