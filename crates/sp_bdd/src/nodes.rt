//! The nodes of diagrams.

/// A test of one bit of a row. Its edges are numbers: 0 and 1 are the two ends, and `k + 2` is node
/// `k`.
#[derive(Clone, Copy, Debug, PartialEq, Eq, Hash)]
pub struct Node {
    pub bit: u32,
    pub low: u32,
    pub high: u32,
}
