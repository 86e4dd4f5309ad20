//! The effects of the commands that write at cells known beforehand: the start of the program, the
//! entry of a function, and the initialiser of a local object.
//!
//! Each is a row of `sp_effect_rows` that is made by `placing`. At the *start* each static cell has the join
//! of its start values, and 0 for leaves without one. Cells of objects that are defined nowhere have
//! every number. In the formals of `main` integers have every number, and pointers point to what
//! comes from outside. At an *entry* the function's own cells have every number, but for its formals
//! and for summaries. An *initialiser* (C90 6.5.7) replaces each cell of its object, or joins where
//! the function is recursive.
//!
//! ```text
//! int g = 7, *p = &g, a[3] = {1, 5};         start: g [7,7], p to g, a[] [0,5]
//! int main(int argc, char **argv){           start: argc every int, argv to %ext.0
//!   int i; int b[2] = {4}; return i; }       entry: i every int; initialiser: b[] [0,4]
//! ```
//!
//! The layer above uses that [`begin`], [`enter`] and [`initialise`] change a node's row of slots by
//! exactly these rows (`starting`, `entering` and `initialising` of `specs`). That the rows are lawful
//! is `EntryLaws` of `specs.Laws`, which [`entries_are_lawful`] ensures.
#![tactic(auto)]

mod entries;
mod given;
mod initials;
mod joining;
mod laws;
mod starts;

pub use entries::enter;
pub use given::{
    every_in, every_value, foreign_bytes, foreign_type, foreign_value, site_value, zero_value,
};
pub use initials::{initialise, is_shared};
pub use joining::join_to;
pub use laws::entries_are_lawful;
pub use starts::{begin, is_main_formal, main_formals};
