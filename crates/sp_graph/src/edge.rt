//! Edges, and what passes along them.

/// What passes along an edge.
#[derive(Clone, Copy, Debug, PartialEq, Eq)]
pub enum Pass {
    /// Every location.
    All,
    /// The locations that a function accesses, by its number.
    Inside(u32),
    /// The locations that some function called by a node doesn't access.
    Beside(u32),
}

/// An edge between two nodes of a program.
#[derive(Clone, Copy, Debug, PartialEq, Eq)]
pub struct Edge {
    pub from: u32,
    pub to: u32,
    pub pass: Pass,
}
