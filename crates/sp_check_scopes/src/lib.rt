//! Scopes: what the names and the tags of a translation unit stand for at a place of its text (C90
//! 6.1.2.1, 6.1.2.3).
//!
//! A *name* is the number of an identifier. It stands for an object or a function, by the number of
//! its entry in the tables of the unit, for an enumeration constant, or for a type ([`Meaning`]). A
//! *tag* is a name of its own space, and stands for a struct, a union or an enumeration ([`Tag`]).
//! A [`Scope`] has the names and the tags that one block declares, the file, or a list of parameters;
//! [`Scopes`] are those that are open at a place, one inside the other.
//!
//! So in `int x; int f(void) { char x; { return x; } }` three scopes are open at the `return`: that
//! of the file with `x` and `f`, that of the function's block with another `x`, and an empty one.
//! The visible `x` is the `char`.
//!
//! The layer above uses one contract: contracts see `Scopes` as the innermost scope and the list of
//! those around it (`specs/Scopes.antt`), each call is the definition of its name there, and where
//! memory runs out nothing changes.
#![tactic(auto)]

mod meaning;
mod scope;
mod scopes;
mod space;

pub use meaning::{Meaning, Tag};
pub use scope::{Scope, ScopeKind};
pub use scopes::Scopes;
