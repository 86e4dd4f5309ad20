//! What a C program is once it is lowered: objects and their regions, pure expressions, commands on
//! nodes, and edges between the nodes of a function.
//!
//! An *object* is a variable, a string, a function, a temporary or a site of allocation. It has
//! *regions*: its own, the *root*, and those under it, one for each member and one for all elements
//! of an array. A region that is kept as bytes, as a union's is, is *collapsed*. A *cell* is a
//! region of integer or pointer type, or a collapsed one. A *pure expression* changes nothing. An
//! *lvalue* says where a value stands: an object itself, what a pointer points to, or a member. A
//! *node* has one *command*. A program is *formed* where its parts fit together (`IsFormed` of
//! `specs.Formed`); each layer above takes formed programs alone.
//!
//! So for `int a[3]; int i;` and `a[i] = 1;` there are the regions `a`, `a[]` and `i`, and one node
//! with the command `assign (through (move (decay a) (read i) 4) int) 1`.
//!
//! Contracts see expressions, commands and programs without their pointers (`specs/Commands.antt`,
//! `specs/Programs.antt`, by `expression_of` and its like). What evaluation and points-to need to
//! know of a program is its `Terrain` (`specs.Terrain`), and the regions of an expression by it
//! (`specs.Denoted`).
#![tactic(auto)]

mod command;
mod expr;
mod makers;
mod program;
mod region;
mod regions;
mod terrain;

pub use command::{Command, Leaf, Node, Routine};
pub use expr::{Expr, Lvalue};
pub use program::{Code, Lowered, Object, ObjectKind};
pub use region::{Region, Step};
pub use regions::Regions;
pub use terrain::{element_accepts, matches};
