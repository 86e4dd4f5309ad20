//! Checks: a run goes on as its checks say.
//!
//! An *access* follows a pointer, to read, write or step into what it points to (C90 6.3.3.2, 6.3.2.3).
//! A run ends where an access goes through a number, to a target that is *punned*, or outside its region.
//! So where it goes on, the cells that the pointer *names* are *cut* to what the access asks: the cell of
//! the pointer itself, as in `*p`, or that of the pointer and that of the step, as in `p[i]`. A cell is
//! named where it is read directly, with no conversion, and is no summary.
//!
//! So behind `p[i] = 0;`, where `p` points to `int a[10]` at [0,0] and `i` is [-4,12], `i` is [0,9]. Behind
//! `*p = 0;`, where `p` is 0 or points to `a` at [5,12], `p` points to `a` at [5,9].
//!
//! The cut stands behind the row of a command, at what that makes of a location, and leaves what the row
//! writes. Where the pointer or the step is nothing, nothing is left, so that a greater store has the
//! greater effect.
//!
//! The layer above uses that [`check`] cuts a node's row of slots as `checked` says (`specs.Cuts`) by the
//! accesses that [`accesses_of`] finds (`command_accesses` of `specs.Accesses`), at the cells that
//! [`named_cells`] gives less those that the node writes; and that a cut behind a lawful row is lawful
//! (`CheckLaws` of `specs.Laws`, which [`checks_are_lawful`] ensures).
#![tactic(auto)]

mod accesses;
mod cells;
mod checks;
mod cuts;
mod laws;
mod steps;

pub use accesses::{Access, accesses_of};
pub use cells::named_cells;
pub use checks::check;
pub use laws::checks_are_lawful;
