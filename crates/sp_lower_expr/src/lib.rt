//! The nodes and edges of expressions.
//!
//! `value`, `place`, `unused` and `branch` lower an expression by how it is used: they add its
//! nodes to a draft, and hand back the pure expression, the lvalue, nothing, or the ends of the
//! condition that is left. What each must be is `meaning` of `sp_lower_draft` (`specs.Expressions`),
//! one short clause for each form of C90. The contracts say that the draft becomes just that, and
//! what is left is just that, where no memory is wanted.
//!
//! So `unused` of `a[i] = f()` adds four nodes: the address of `a[i]` goes to a temporary, the
//! call, its return, and the assignment through the kept address.
//!
//! The functions call each other down the tree, so they are a cycle. All that doesn't go down is
//! in the layers below.
#![tactic(auto)]

mod leaves;
mod uses;
mod walks;

pub use uses::{branch, place, unused, value};
pub use walks::adds;
