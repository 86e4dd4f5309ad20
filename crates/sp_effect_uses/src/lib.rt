//! The locations that each node of an analysed program defines, and those that it uses, as lists.
//!
//! What a command reads and where it stores are sets of *regions*, which are found first, by where
//! cells may point. Each region that is a cell is then named by its *location*. So a list takes
//! time about its own size and that of the objects that it touches. Only at the start of the
//! program all locations are seen. To what a command reads comes what it may *keep* of its own
//! definitions: a store through a pointer, or to a summary, may leave a cell as it is. What a
//! routine of the library writes is joined to what was there: all of that is kept.
//!
//! ```text
//! int a, b, *p, *q;
//! *p = *q;         p points to a and b, q to b
//!                  defines a, b       uses p, q, b (which are read), a and b (which may be kept)
//! ```
//!
//! The layer above gets from [`definitions`] and [`uses`] exactly the locations that `defined_at`
//! and `used_at` of `sp_transfer` name, ascending (`AreLocations`). Where accesses cut some, the
//! definitions come by parts, too (`AreCuts`). [`local_cells`] gives once, for
//! all entries, the cells that are local to each function.
#![tactic(auto)]

mod commands;
mod cuts;
mod library;
mod lists;
mod locals;
mod objects;
mod reads;
mod structs;
mod writes;

pub use lists::{Defined, definitions, uses};
pub use locals::local_cells;
