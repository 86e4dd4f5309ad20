//! How objects are laid out in regions and cells.
//!
//! A *shape* is a type with its structs written out. From it come the *regions* of an object: its
//! own, and one for each member and for the elements of an array; the *cell* of each scalar *leaf*,
//! which is a region of integer or pointer type, or one that is kept as bytes; and the cells with a
//! leaf that has no start value.
//!
//! So `struct { int a[3]; char c; } s = { { 1 } };` has the regions `s`, `s.a`, `s.a[]` and `s.c`.
//! Its leaves 0 to 2 have the cell `s.a[]`, and leaf 3 has `s.c`. Only leaf 0 has a value, so both
//! cells have a leaf without one.
//!
//! A shape is never built. Structs are summed up once, each from what its members come to
//! (`summaries_of`), so that counts take no time by how deep structs lie inside one another. Calls
//! that go down a type then go as far as its regions. The contracts say all by `layout_of` of the
//! type (`specs.Layouts`): its regions, its counts, the cells of its leaves.
#![tactic(auto)]

mod leaves;
mod regions;
mod summaries;

pub use leaves::{cells_left, leaf_cell, leaf_count, start_cells};
pub use regions::{Layouts, Part, add_regions, push_region, region_count};
pub use summaries::{Summary, pointer_flags, summaries_of, summary_by};
