//! Laws of layouts, which only proofs use.
//!
//! *Shapes* ([`relates`]). `sp_base_layouts` goes down a type by the table of structs, as deep as
//! structs lie inside one another. The law says that in a table that is formed this is deep enough:
//! the shape of a type with a layout is the one that `HasShape` of `sp_ir` relates to it.
//!
//! *Start values* ([`zeros_are_left`]). An object with start values has, beside the leaves with a
//! value, the list of the cells with a leaf that has none. `sp_base_layouts` finds that list by
//! counting: a cell of more leaves than have a value there is left. The law says that these are just
//! the cells with a leaf that has no value, as formed programs ask for them (`IsStart` of `sp_ir`).
//! So of `int a[3] = { 1 };` the one cell `a[]` is of three leaves, one with a value: it is left.
#![tactic(auto)]

mod shape_laws;
mod zero_laws;

pub use shape_laws::relates;
pub use zero_laws::zeros_are_left;
