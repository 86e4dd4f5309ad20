//! The parser of units (C90 6.7): all external declarations of one text.
//!
//! In go the tokens of a text, which end with `End`. Out comes the one unit that they spell, with its
//! places; or the failing token with the kind of its fault; or the token at which every unit that
//! goes on is too deep ([`MAX_DEPTH`]). External declarations and what they declare are loops over
//! the readers of `sp_parse_expr_reader`, `sp_parse_declarations` and `sp_parse_statements`. The names that a
//! `typedef` declares are type names from the next external declaration on.
//!
//! So `typedef int T;T f(T);` is read as two external declarations; `typedef int T;int T;` fails at
//! the second `T`, which is a type name in the place of a name (TypedefAsOrdinaryName); and `int f(void){return 0;`
//! fails at its end.
//!
//! The layer above uses [`parse_unit`] alone.
#![tactic(auto)]

mod externals;
mod parser;
mod units;

pub use parser::{MAX_DEPTH, parse_unit};
pub use sp_expr_parser::{ParseError, is_ended};
