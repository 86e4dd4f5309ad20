//! The checks of translation units: the tables that a unit declares, or a fault that stands (C90
//! 6.7).
//!
//! [`check_unit`] takes the tree of a unit and goes over its external declarations in order, from
//! an empty environment. A declaration adds to the tables. A definition of a function declares it
//! and its parameters, and its body is checked in their scope. At the end of the unit each
//! *tentative definition* (an object without initialiser and storage class, 6.7.2) has a complete
//! type, and each internal function that an expression mentions has a body.
//!
//! So for `static int f(void); int main(void) { return f(); }` the fault BadOperand stands at `f`, and for
//! `struct s x; struct s { int a; };` there is none.
//!
//! Of the tentative definitions [`open_tentative`] gives the place of the first declarator whose
//! object has a struct without members: so for `struct s x; struct s { int a; };` there is none, and
//! for `struct s x;` alone it is the place of `x`.
//!
//! The layer above uses one contract: `check_unit` answers exactly what `unit_checked` in
//! `specs/Units.antt` gives, or its fault; where memory runs out it says nothing.
#![tactic(auto)]

mod definitions;
mod tentative;
mod unit;

pub use unit::check_unit;
