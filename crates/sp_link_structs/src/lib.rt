//! Which structs of several units are one struct of their program (C90 6.1.2.6).
//!
//! A struct is named by its unit and its number there. Two structs with members, of different
//! units, that agree (`sp_link_agreement`) are one. So those that a chain of such pairs joins are one,
//! and no others. Agreement isn't transitive where structs without members, lengths or parameter
//! lists stand inside. The first by unit and number stands for all (`Joined` in
//! `specs/Joined.antt`).
//!
//! *Namesakes* are of one tag, or have none, and are both structs or both unions. A struct without
//! members joins its first namesake of another unit, one with members if it can. So where the unit
//! 0 has `struct s;`, and the units 1 and 2 both have `struct s { int a; };`, the program has one
//! struct: that of the unit 1. The types `typedef struct { int a; } P;` and
//! `typedef struct { int a; } V;` of one unit are two structs. They are one where another unit has
//! such a struct too, since it is compatible with both.
//!
//! A [`Matching`] has the structs of the program, each by the one struct of a unit that stands for
//! it, and the program's number of each struct of each unit. Contracts see it by `matching_of`
//! (`specs/Matching.antt`).
//!
//! The layer above uses the one contract of [`matching`]: its answer is the matching of the units'
//! structs (`AreMatched` in `specs/Matched.antt`), of which there is one.
//!
//! Structs are looked up by tag and names of members. One is compared with those of its key that
//! have another leader yet, so mostly once. Pairs that have been compared are kept.
#![tactic(auto)]

mod entities;
mod groups;
mod heads;
mod laws;
mod leaders;
mod matchings;
mod numbers;
mod record;
mod stand_ins;

pub use laws::matching_laws;
pub use matchings::matching;
pub use record::Matching;
