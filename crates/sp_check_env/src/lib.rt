//! The environment of a translation unit: what the checks know at a place of its text, and what
//! they have found so far.
//!
//! An [`Env`] has the scopes that are open ([`sp_check_scopes`]), the *tables* of the unit, and its
//! *links*. It also knows how deep each struct is. The tables ([`UnitTables`]) are what stays
//! behind the text: structs and unions, objects, functions, the constants for the threshold ladder,
//! and the types that external names take, each in the order of the text, so that a number names an
//! entry. The links are the names with linkage (C90 6.1.2.2), whether they are visible here or not,
//! each with its one object or function.
//!
//! So behind `int f(void) { extern int x; }` the name `x` isn't visible any more, the table of
//! objects has one entry, and the links have `f` and `x`: a later `char x;` is found to speak of
//! the same object.
//!
//! Contracts see an environment as the record `Env` of `specs/Env.antt`, by `env_of`. Each call is
//! the definition of its name there; a number that names no entry changes nothing, and where memory
//! runs out nothing changes. The layers above read and change environments by these calls alone.
#![tactic(auto)]

mod env;
mod tables;

pub use env::{Entity, Env};
pub use tables::UnitTables;
