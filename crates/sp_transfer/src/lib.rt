//! The effect of each node of an analysed program.
//!
//! A node makes a store of the store that reaches it, by its command: the *effect* (`effect_at` of
//! `specs.Effects`). It is a row that says of each location whether what it held is kept, and what
//! is put beside that. What a node may change it *defines*, and that hangs on what it *uses* alone.
//! So for `*p = q;` where `p` may point to `a` and to `b`, the node defines `a` and `b`. It uses `p`
//! and `q`, and `a` and `b` too, which may keep what they hold.
//!
//! These effects over the supergraph are the equations of a program (`specs.Equations`). Calls are
//! localised there: into a function passes what it accesses (`Accesses` of `specs.Accesses`), and
//! past a call what some function that it calls doesn't access. From one node to another a location
//! passes where some edge passes it.
//!
//! The layer above uses that [`effect`] fills a node's row of slots by exactly `effect_at`. It uses
//! that effects keep the laws of a system (`TransferLaws` of `specs.Laws`, which
//! [`effects_are_lawful`] ensures).
#![tactic(auto)]

mod effects;
mod laws;
mod parts;

pub use effects::{Cuts, Definitions, accessed_by, effect};
pub use laws::effects_are_lawful;
