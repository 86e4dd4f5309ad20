//! Bodies of functions as they are lowered, and what each statement of C90 does to one.
//!
//! A *body* is a draft with the ends that jump: those that `break`, `continue` and `return` leave
//! behind, those that `goto` sends to a label, the labels' nodes, and the nodes that assume the
//! cases of the innermost `switch`. No edge is patched: a jump moves the loose ends into a list,
//! and the loop or the function that they leave takes them up. The ends of `goto` are collected
//! here; their edges are for the layer above, when all labels are known.
//!
//! So `while (a) { if (b) break; f(); }` is a `skip` as head, two nodes for each condition, and
//! the call. The true ends of `b` go into `breaks` and are loose behind the loop, beside the
//! false end of `a`; the ends of the body go back to the head.
//!
//! `specs.Statements` says what each statement does. The functions here do what jumps, labels and
//! loops do around their parts: the contract of each says that the body becomes just that of the
//! definition (`specs.Bodies`), where it doesn't want memory. They don't go down a statement; the
//! layer above does.
#![tactic(auto)]

mod body;
mod cases;
mod frame;

pub use body::{Body, Outer};
pub use cases::{case_values, has_default};
pub use frame::{Frame, Initial};
