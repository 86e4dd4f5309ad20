//! What each form of expression does with its operands once these are lowered.
//!
//! Nothing here goes down an expression: each function is handed what is left of the operands, a
//! pure expression or an lvalue, with the tree of the whole, for its type and its place. Its
//! contract says that the answer, and the draft where it adds nodes, are just those of the
//! definitions of `sp_lower_draft` (`specs.Steps`, `specs.Calls`). The layer above adds the recursion.
//!
//! So for `a[i]` with `int a[3]`, `indexed` gets `decay(a)` and `i`, and answers
//! `*int(move+4(decay(a), i))`.
#![tactic(auto)]

mod assignments;
mod calls;
mod lvalues;
mod values;

pub use assignments::{assigned, assigned_used, stepped_used, updated, updated_used};
pub use calls::{defined_called, result_place, undefined_called, undefined_callee};
pub use lvalues::{addressed, arrow_taken, followed, indexed, loaded, member_taken};
pub use values::{negated, operated};
