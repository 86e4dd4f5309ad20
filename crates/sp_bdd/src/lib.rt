//! Sets of rows of bits, kept as reduced ordered binary decision diagrams (Bryant 1986).
//!
//! A *row* is a number of so many bits. A *diagram* tells which rows are in a set: an *end* says
//! yes or no, and a *test* of one bit goes on with the diagram of the rows without that bit (*low*)
//! or of those with it (*high*). Diagrams are *ordered*, the highest bit first, and *reduced*: no
//! test has two equal parts. So each set has one diagram.
//!
//! ```text
//! the rows 5 and 9 of four bits,     bit 3 ── low ──► bit 2 ── high ─► bit 1 ── low ─► bit 0 ── high ─► yes
//! 0101 and 1001: five nodes                ── high ─► bit 2 ── low ──► the same node of bit 1
//! ```
//!
//! A [`Manager`] makes the *nodes* of diagrams, each once (the *unique table*), and gives out a
//! [`Bdd`] for each set. It may hold so many nodes and no more. Where a set wants more the answer
//! is [`BddError::Full`], and all is as it was. Nodes once made stay. To build a set at once from
//! its rows in ascending order ([`Manager::set_of`]) is much cheaper than to add them one by one.
//!
//! The layer above uses two definitions of `specs.Table`: `Makes`, that a set has exactly these
//! rows, its diagram is reduced and ordered, older sets keep theirs, and no node was made but those
//! that its diagram lacked; and `IsCause`, that `Full` comes exactly where these would be too many.
//! [`canonical`] tells that each set has one diagram.
#![tactic(auto)]

mod bits;
mod building;
mod combining;
mod laws;
mod listing;
mod manager;
mod nodes;

pub use laws::canonical;
pub use manager::{Bdd, BddError, Manager};
