//! The rules of C90 on specifiers and declarators: which type they name (C90 6.5.2, 6.5.4).
//!
//! A *specifier* names a type by words, by a tag or by the name of a type. A *derivation* is what
//! one step of a declarator makes of a type: a pointer to it, an array of it, a function that
//! returns it. They are kept in a list from the declared name outwards, and the last of them is
//! derived first.
//!
//! So in `unsigned char *a[3]` the words name `unsigned char`, and the list is an array of 3 and a
//! pointer: `a` is an array of 3 pointers to it (6.5.4.2). A type in which more than 200
//! derivations lie inside one another is the fault NestingTooDeep at its declarator, and one of more than 1,000
//! parts TooManyParts.
//!
//! The checks of declarations use the calls. Each answers exactly what the definition of its name
//! in `specs/` gives, or its fault.
#![tactic(auto)]

mod derivations;
mod tags;
mod words;

pub use derivations::{Derivation, MAX_DERIVATIONS, MAX_PARTS, made};
pub use tags::{enum_referred, named_checked, struct_at, struct_referred, tag_found};
pub use words::words_type;
