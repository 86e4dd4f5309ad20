//! What is at hand while more comes, kept by calls that drop it at an error.
//!
//! A `?` drops all that is at hand where it returns. With a typed tree at hand its proof looks at
//! each form of trees, once for each such `?`. So a reader, or a walk over trees, hands what it has
//! to [`keeping`] or [`pushed`]: the drop is proved here once, for all types.
#![tactic(auto)]

mod kept;

pub use kept::{keeping, pushed};
