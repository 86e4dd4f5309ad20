//! Which structs of several units agree (C90 6.1.2.6).
//!
//! A struct is named by its unit and its number there. Two structs *agree to a depth* where nothing
//! differs so far down: they have one tag, both are structs or both unions, and where both have
//! members, these have the same names in the same order and compatible types, when the structs
//! inside are compared to one level less. They *agree* where they do to every depth. So a struct
//! without members agrees with each of its tag, and structs that name each other are no trouble.
//!
//! So `struct s { struct s *next; struct t *of; };` of one unit agrees with the same text in
//! another where one of them has no members of `t`, and otherwise where the two `t` agree.
//!
//! The layers above use two contracts. [`agree`] answers exactly whether two structs agree (`Agree` in
//! `specs/Depths.antt`), given what is [`Known`] of other pairs, to which it adds what it finds: the
//! pairs that agree with this one, or that this one differs. In a call each pair of structs is
//! compared once. [`types_agree`] answers alike whether types of two units are compatible
//! (`TypesAgree`).
#![tactic(auto)]

mod compared;
mod compatible;
mod pairs;
mod types;

pub use compatible::types_agree;
pub use pairs::{Entity, Known, agree, struct_at};
