//! The rows of calls of the library: `malloc`, `memcpy`, `strlen` and ten more (C90 7.10.3, 7.10.4,
//! 7.11).
//!
//! A routine may *write* where its first argument points, or in the block that it allocates
//! (`specs.Written`). That is joined to what was there: how much is written isn't known. What it
//! *gives* goes to where its result is assigned, by the rule of strong and weak updates
//! (`specs.Given`): a block (`specs.Blocks`), its first argument, or the length of a text.
//!
//! ```text
//! char *p = malloc(8);   p points to the block of this call, with offset 0 and size 8
//! memcpy(d, s, n);       each cell under what d points to joins what the cell holds to which its
//!                        path leads from what s points to; bytes join every number
//! ```
//!
//! The layer above uses that [`call_routine`] changes a node's row of slots by exactly `library_row` of
//! `specs.Effects`, and that this row is lawful in a whole analysis (`LibraryLaws` of `specs.Laws`,
//! which [`library_is_lawful`] ensures). Which locations it defines and uses, `library_defines` and
//! `library_uses` say.
#![tactic(auto)]

mod blocks;
mod effects;
mod given;
mod hits;
mod joins;
mod laws;
mod pointed;
mod written;

pub use effects::{RoutineCall, call_routine};
pub use laws::library_is_lawful;
pub use pointed::{bottoms, points_at};
pub use written::{Written, written_by};
