//! What each command lets cells point to, by what each cell may point to so far.
//!
//! [`puts_of`] gathers the *puts* of a command: which regions go to which cells, by the rows (a set
//! of regions for each cell). `Puts` of `specs.Puts` says what they are, one line for each command;
//! it names each set by a `Source`: what an lvalue or an expression tells, the parameters or results
//! of what is called, some of these, or what these may point to.
//!
//! ```text
//! int x; int *p, *q; struct s { int *a; } s, t;
//! p = &x;               x goes to p
//! t = s;                where s.a points goes to t.a: one path leads from s and from t to them
//! f(p);                 where p points goes to the first parameter of each f of one parameter
//! q = realloc(p, 8);    what is allocated here goes to q, and where p points, if it is the whole of
//!                       what was allocated
//! ```
//!
//! A value that comes from outside has the call's site in each leaf that is a pointer. A union is
//! one cell with the leaves of its first member, so it gets the site where one of these is a pointer
//! (`leaf_points` of `specs.Leaves`). [`groups_of`] finds such cells once for a program.
//!
//! The rules ask only what the rows have, never what they lack. So more in the rows is no less in the
//! puts (`proofs.Putting`). The cells that were looked at are gathered too: a worklist needs just
//! that. This is Andersen's
//! analysis ("Program Analysis and Specialization for the C Programming Language", 1994, chapter 4),
//! with a cell for each scalar member.
#![tactic(auto)]

mod commands;
mod facts;
mod gathered;
mod groups;
mod leaves;
mod library;
mod paths;
mod rules;
mod sources;
mod structs;

pub use commands::{callees_of, puts_of};
pub use facts::Facts;
pub use gathered::Gathered;
pub use groups::{Groups, groups_of};
pub use library::{Given, Moved, given_by, moved_by};
pub use paths::{is_heap_root, is_text, mirrored, object_at, pairs, reaches, under};
pub use sources::{Only, Test, is_of, is_scalar, result_of};
pub use structs::{as_struct, struct_at};
