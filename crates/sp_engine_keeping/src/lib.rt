//! Triples of a node, a location and a node, kept in whichever of two forms takes less memory.
//!
//! A *list* has for each node the pairs of location and *target* of the triples that leave it,
//! ascending: eight bytes a triple. A *diagram* (`sp_bdd`) has the triples as rows of 60 bits, the
//! node that they leave first, then the location, then the target. Where many nodes send a location
//! to the same many targets it takes a thousandth of the list; where each has a few targets of its
//! own it takes fifteen times as much.
//!
//! A list goes in, with the most nodes that its diagram may have, and a [`Keeping`] comes out. The
//! layer above uses that the keeping has the rows of the list, and that its calls tell what these
//! hold (`held` of `specs.Triples`). No clause tells which form it is.
#![tactic(auto)]

mod codes;
mod keeping;

pub use keeping::Keeping;
