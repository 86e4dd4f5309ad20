//! Drafts of lowered functions, and what each expression of C90 adds to one.
//!
//! A *draft* is the list of nodes and edges so far with its *loose ends*: the nodes that still need
//! a successor. A new node gets an edge from each loose end and becomes the only loose end. What is
//! left of an expression behind its nodes is a *pure* expression. A value that a later operand may
//! change is *kept* in a *temporary*, an object that lowering makes. A *site* is an object that a
//! call of the library or of an unknown function gives.
//!
//! So for `f() + a` the nodes of the call leave the temporary `t`, and the sum is the pure expression
//! `+:int(t, a)`. For `f() + g()` the value of `t` is kept in a temporary of its own before the nodes
//! of `g()`.
//!
//! `specs.Expressions` says what each expression does by how it is used: as a value, as an lvalue,
//! unused, or as a condition. The functions here add nodes, keep values and branch: the contract of
//! each says that the draft becomes just that of the definition, where it doesn't want memory.
#![tactic(auto)]

mod draft;
mod keeping;
mod operators;
mod scope;
mod types;

pub use draft::{Draft, Ends, Site, number_behind};
pub use keeping::{evaluated, fork, joined, keep, keep_place, met, save, stored, stored_at, truth};
pub use operators::{
    Circuit, Prefix, circuit_of, is_minus, is_plain_assign, is_shift, operator_of, prefix_of,
    same_kind,
};
pub use scope::Scope;
pub use types::{
    Member, has_pointer, is_pointer, is_scalar, is_struct, is_void, kind_of, member_of, pointee,
    pointee_size, size_of,
};
