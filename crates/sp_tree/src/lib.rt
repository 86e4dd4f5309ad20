//! What the whole front end speaks of: places in the text, faults, names by number, and tokens.
//!
//! A *name* is a list of bytes, an identifier or the name of a file or the bytes of a string literal. [`Names`] holds each
//! name once and gives it a number, so that everything else holds numbers. A *place* is a name, a line and a column. A *fault*
//! is a reason why a text is refused, with the place at which it stands. A *token* is what the scanner makes of a spelling: a kind and a place.
//!
//! The layers above use one contract: [`Names::add`] answers the number that the bytes have, old or next, and no number ever
//! changes its bytes.
#![tactic(auto)]

mod fault;
mod names;
mod token;

pub use fault::{Fault, FaultKind, Place};
pub use names::Names;
pub use token::{Keyword, Kind, Number, Punct, Token};
