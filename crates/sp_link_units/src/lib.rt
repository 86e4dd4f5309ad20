//! Programs of units: the one that several checked units are together, or the fault that stands
//! (C90 5.1.1.2, 6.1.2.2, 6.1.2.6, 6.7).
//!
//! [`link`] looks for declarations of one name that are in conflict ([`sp_link_conflicts`]), finds which
//! structs of the units are one ([`sp_link_structs`]), and joins the units by that ([`link_by`]). A
//! program has the external names of all units, one definition of each, and `main`.
//!
//! So `struct s { int a; } x;` and `extern struct s { int a; } x; int main(void) { return x.a; }` are a
//! program with one struct and one object. With `extern struct s { char a; } x;` in the second unit the
//! fault IncompatibleDeclaration stands there at `x`.
//!
//! The units' objects and functions are joined ([`sp_link_entries`]): an external name is one entity
//! in all units. Then each tree is made anew with the program's numbers, and with the types that all
//! units together tell. An array to which no unit gives a length has one element (6.7.2).
//!
//! The layer above uses one contract: `link` answers what `LinksTo` in `specs/Links.antt` says; and by
//! [`links_are_one`] it says that of one answer alone.
#![tactic(auto)]

mod by_matching;
mod laws;
mod linking;
mod renamings;
mod structs;
mod tables;

pub use laws::links_are_one;
pub use linking::link;
