//! The parsers of expressions, specifiers, declarators and type names (C90 6.3 and 6.5).
//!
//! In go the tokens of a text, which end with `End`, the names that are type names, and how deep a
//! tree may be. Out comes the longest tree of its kind that begins at a token, with its places; or
//! the failing token with the kind of its fault; or the token at which every tree that goes on is
//! too deep. The readers are those of `sp_parse_expr_reader`; here their readings become trees, by the laws
//! of `sp_parse_laws`, and what is left of the tokens becomes the number of a token.
//!
//! So `a-b c` is read as `a-b`, with `c` left; `a-)` fails at the `)`; and `(a)` passes a depth of
//! 1 at its `(`.
//!
//! The layer above uses the four `parse_` functions, [`is_ended`] and [`TypeNames`] alone.
#![tactic(auto)]

mod call;
mod error;
mod parser;
mod parts;

pub use error::ParseError;
pub use parser::{parse_declarator, parse_expression, parse_specifiers, parse_type_name};
pub use sp_parse_tokens::{TypeNames, is_ended};
