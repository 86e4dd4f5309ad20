//! The laws of C90's grammar that its parsers rest on (C90 6.3 to 6.7): laws alone.
//!
//! `sp_parse_tokens` has the grammar as a table over this repository's trees and tokens. Here come
//! the laws of what it reads: that it spells its tokens, with their places ([`spelling_laws`]); that of
//! expressions, type names, specifiers and declarators it is the longest tree, and the failing
//! token at a fault ([`expression_laws`]); and the same of statements, external declarations and units
//! ([`unit_laws`]).
//!
//! For example from `a-b c` the grammar reads `a-b`, and no expression begins with `a-b c`; in
//! `a-)` it fails at the `)`, since some expression begins with `a-` and none with `a-)`.
//!
//! The layer above uses the statements of specs/Answers.antt (`IsLongest`, `IsFault`, `IsNested`)
//! and specs/UnitAnswers.antt, through the contracts of the calls below.
#![tactic(auto)]

mod expression_laws;
mod spelling_laws;
mod unit_laws;

pub use expression_laws::{
    declarators_are_parsed, declarators_are_read_again, expressions_are_parsed,
    expressions_are_read_again, specifiers_are_parsed, specifiers_are_read_again,
    type_names_are_parsed, type_names_are_read_again,
};
pub use spelling_laws::readings_are_spelled;
pub use unit_laws::{
    units_are_levelled, units_are_parsed, units_are_read, units_are_read_again, units_are_spelled,
};
