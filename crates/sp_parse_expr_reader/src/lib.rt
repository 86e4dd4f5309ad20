//! The readers of expressions, type names, specifiers and declarators (C90 6.3, 6.5), by recursive
//! descent over the tokens left.
//!
//! The grammar is the table of `sp_parse_tokens`. A *reader* answers one *ask* of that table: a
//! [`sp_parse_tokens::Part`] that the table reads for it, or a [`sp_parse_tokens::ReadError`] where that
//! ends (`Answers`, specs/Reading.antt of `sp_parse_expr_steps`). A reader sees a token by its *sort*, as the
//! table does.
//! Its *depth* is how deep its part may be; a part says how deep it is. Chains of operators,
//! suffixes and lists are loops, so that calls lie no deeper inside one another than a small
//! multiple of the depth. The readers are one cycle, since an expression may hold a type name, a
//! type name a structure, and a structure an expression.
//!
//! So from `a-b c` the reader of expressions reads `a-b`, with `c` left; from `a-)` it fails at the
//! `)`; and `(a)` passes a depth of 1 at its `(`.
//!
//! The layer above uses the readers that are public here, by the contract `Answers` and those of
//! specs/Declaring.antt there for what waits for the token after it: a declarator and a type name.
//! What calls no reader stands in `sp_parse_expr_steps` and `sp_parse_expr_lists`. What a production does with the
//! answer of its last reader stands in `sp_parse_expr_ends`, and what a list does with the answer for an
//! item in `sp_parse_expr_lists`: a cycle of calls costs the prover most.
#![tactic(auto)]

mod declarators;
mod expressions;
mod specifiers;

pub use declarators::{read_declarator, read_type_name};
pub use expressions::{read_level, read_suffixes, read_tail};
pub use specifiers::read_specifiers;
