//! The readers of statements (C90 6.6).
//!
//! They go on from the readers of `sp_parse_expr_reader` and `sp_parse_declarations`, and answer as those do: the
//! part that the grammar's table reads for an ask, or the error where that ends (`Answers`,
//! specs/Reading.antt of `sp_parse_expr_steps`). The *head* of a statement says which it is, by its first
//! token and of a name by the next one too. A *prefix* is what stands before the body of a label, a
//! `case`, a `default`, a `switch`, a `while` and a `for`. Only what reads a statement inside
//! another is in the cycle of calls; lists of statements are a loop. So calls lie no deeper inside
//! one another than a small multiple of the depth.
//!
//! So of `if(a)b;else c;d` the reader of statements reads all up to `d`; of `while(a b` it fails at
//! the `b`; and `{;}` passes a depth of 1 at its `;`.
//!
//! The layer above uses the readers that are public here, by their contracts.
#![tactic(auto)]

mod heads;
mod makers;
mod parts;
mod prefixes;
mod simple;
mod statements;

pub use statements::{read_compound, read_statement};
