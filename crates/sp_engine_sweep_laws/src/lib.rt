//! Sweeps over the nodes that touch a location: what they find is exactly the data dependencies.
//!
//! A node *touches* a location where it defines or uses it. Nodes that touch it are *bridged* where
//! a path of edges that pass it leads from one to the other through nodes alone that don't touch
//! it. A *sweep* goes backward over bridges from a use, and on behind nodes that use the location
//! but don't define it.
#![tactic(auto)]

mod laws;

pub use laws::sweep_laws;
