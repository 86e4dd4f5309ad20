//! The objects and functions of several units as those of one program (C90 6.1.2.2, 6.7).
//!
//! Units are joined one behind another. A name with external linkage is one object or one function
//! in all of them; each other declaration is an entry of its own. An *entry* has the type that the
//! program gives it, the *composite* of the types of its declarations (6.1.2.6), and the
//! declaration that tells all else: the one that defines it, else the first that has the members of
//! its struct, else the first. Its trees still have the numbers of their unit. A [`Joined`] is what
//! is joined by now, and [`UnitNumbers`] has the program's number of each struct, object and
//! function of a unit. A parameter of a prototype is no object of the program, nor is
//! another object of automatic storage duration that no function of the unit lists.
//!
//! So `extern int a[]; int f(void) { return a[0]; }` and `int a[4];` give the object `a` of the type
//! `int[4]`, told by the second unit, and the function `f`, told by the first.
//!
//! It is given units that agree on their names ([`sp_link_conflicts`]), and no fault comes here: where a
//! name were an object of one unit and a function of another, each would be an entry of its own.
//!
//! The layer above uses one contract: [`join_units`] answers exactly what `units_joined` in
//! `specs/Units.antt` gives.
#![tactic(auto)]

mod entries;
mod functions;
mod joined;
mod objects;
mod units;

pub use entries::{FunctionEntry, ObjectEntry, UnitNumbers};
pub use joined::{Joined, nothing_joined};
pub use units::{join_units, renumbered};
