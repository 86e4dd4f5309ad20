//! The manager of diagrams, and what it is asked.
ghost use Rattle.std.specs.Prelude.{◌≡◌, ◌≤◌, ◌<◌, ◌+◌, ◌^◌, ◌==◌, ◌&&◌, ◌||◌, ◌↔◌, ◌⊎◌, ℕ, [], false, length, take, nat_le, filter, All, IsTrue, MatchBool, MatchOption, IfOk, IfErr, OnErr};
ghost use Rattle.sp_bdd.specs.Diagram.{holds, height};
ghost use Rattle.sp_bdd.specs.Sets.{is_known};
ghost use Rattle.sp_bdd.specs.Ascending.{has, Ascends, AreRows};
ghost use Rattle.sp_bdd.specs.Listed.{listed, is_within};
ghost use Rattle.sp_bdd.specs.Table.{diagram, diagrams, Belongs, Makes, IsCause};
ghost use Rattle.sp_bdd.specs.inner.Made.{joined, low_at, high_at};
ghost use Rattle.sp_bdd.specs.inner.Formed.{diagram_at, test_of, CanFollow, AreFormed};
ghost use Rattle.sp_bdd.specs.inner.Combined.{Grows, Gives, Refuses, IsUnder, applied};

use crate::bits::is_set;
use crate::building::build;
use crate::combining::{Op, combine};
use crate::listing::{Span, list};
use crate::nodes::Node;
use indexmap::{IndexMap, IndexSet};
use std::alloc::{AllocError, AllocFailed, Global};
use std::marker::Model;
use thiserror::Error;

/// The most nodes that have numbers: their edges have 32 bits, and two of them are the ends.
const MOST_NODES: usize = 4_294_967_294;

/// A set of rows, of one manager.
#[derive(Clone, Copy, Debug, PartialEq, Eq, Hash)]
pub struct Bdd {
    pub(crate) edge: u32,
}

/// Why a set isn't made.
#[derive(Clone, Copy, Debug, PartialEq, Eq, Error)]
pub enum BddError {
    /// The manager would hold more nodes than it may.
    #[error("too many nodes")]
    Full,
    /// Memory ran out, or the numbers of nodes.
    #[error("out of memory")]
    NoMemory,
}

impl From<AllocError> for BddError {
    ghost use Rattle.std.specs.Prelude.{◌≡◌};
    ghost use Rattle.sp_bdd.specs.declared.manager.BddError.TheVariants.{NoMemory};

    ghost from_gives = { λ _ error. error ≡ NoMemory };

    fn from(_error: AllocError) -> BddError {
        BddError::NoMemory
    }
}

impl<T: Drop> From<AllocFailed<T>> for BddError {
    ghost use Rattle.std.specs.Prelude.{◌≡◌};
    ghost use Rattle.sp_bdd.specs.declared.manager.BddError.TheVariants.{NoMemory};

    ghost from_gives = { λ _ error. error ≡ NoMemory };

    fn from(_error: AllocFailed<T>) -> BddError {
        BddError::NoMemory
    }
}

/// The diagrams of sets of rows, with each node once.
#[derive(Drop)]
pub struct Manager {
    alloc: Global,
    bits: u32,
    limit: u64,
    nodes: IndexSet<Node>,
}

impl Model for Manager {
    ghost use Rattle.sp_bdd.specs.Table.{Table};
    ghost use Rattle.sp_bdd.specs.inner.Formed.{AreFormed};

    ghost Value = { Table };

    ghost view = { λ m. record { bits = m.bits; limit = m.limit; nodes = m.nodes.keys } };

    ghost invariant = { λ m. AreFormed m.bits m.limit m.nodes.keys };
}

impl Bdd {
    /// The set of no rows.
    pub(crate) const NONE: Bdd = Bdd { edge: 0 };

    /// The set of all rows.
    pub(crate) const ALL: Bdd = Bdd { edge: 1 };
}

impl Manager {
    /// No diagrams yet, of rows of so many bits. At most `limit` nodes will be made.
    pub fn new(alloc: Global, bits: u32, limit: u64) -> Manager
        requires few { bits ≤ 60 }
        ensures bits { result.bits ≡ bits }
        ensures limit { result.limit ≡ limit }
        ensures nodes { result.nodes ≡ [] }
    {
        Manager {
            alloc,
            bits,
            limit,
            nodes: IndexSet::new(alloc),
        }
    }

    /// The set of these rows. After an error all is as it was.
    pub fn set_of(&mut self, rows: &[u64]) -> Result<Bdd, BddError>
        requires ascending { Ascends rows.now }
        requires low { All (λ row. row < 2 ^ self.old.bits) rows.now }
        ensures made { IfOk result (Makes self.old (λ row. has row rows.now) self.new) }
        ensures again { IfOk result (λ set. listed self.old.bits (diagram self.new set) 0 ≡ rows.now) }
        ensures refused { IfErr result (IsCause self.old (λ row. has row rows.now)) }
        ensures unchanged { OnErr result (self.new ≡ self.old) }
    {
        let count = self.count();
        match build(self, self.bits, 0, rows) {
            Ok(set) => Ok(set),
            Err(error) => {
                self.keep_first(count);
                Err(error)
            }
        }
    }

    /// The set of one row. After an error all is as it was.
    pub fn row(&mut self, row: u64) -> Result<Bdd, BddError>
        requires low { row < 2 ^ self.old.bits }
        ensures made { IfOk result (Makes self.old (λ other. other == row) self.new) }
        ensures refused { IfErr result (IsCause self.old (λ other. other == row)) }
        ensures unchanged { OnErr result (self.new ≡ self.old) }
    {
        self.set_of(&[row])
    }

    /// The rows that both sets have. After an error all is as it was.
    pub fn and(&mut self, left: Bdd, right: Bdd) -> Result<Bdd, BddError>
        requires left { Belongs self.old left }
        requires right { Belongs self.old right }
        ensures made { IfOk result (Makes self.old
            (λ row. holds (diagram self.old left) row && holds (diagram self.old right) row) self.new) }
        ensures refused { IfErr result (IsCause self.old
            (λ row. holds (diagram self.old left) row && holds (diagram self.old right) row)) }
        ensures unchanged { OnErr result (self.new ≡ self.old) }
    {
        self.combined(Op::And, left, right)
    }

    /// The rows that one of the sets has, or both. After an error all is as it was.
    pub fn or(&mut self, left: Bdd, right: Bdd) -> Result<Bdd, BddError>
        requires left { Belongs self.old left }
        requires right { Belongs self.old right }
        ensures made { IfOk result (Makes self.old
            (λ row. holds (diagram self.old left) row || holds (diagram self.old right) row) self.new) }
        ensures refused { IfErr result (IsCause self.old
            (λ row. holds (diagram self.old left) row || holds (diagram self.old right) row)) }
        ensures unchanged { OnErr result (self.new ≡ self.old) }
    {
        self.combined(Op::Or, left, right)
    }

    /// Whether a row is in a set.
    pub fn member(&self, set: Bdd, row: u64) -> bool
        requires { Belongs self.now set }
        ensures held { result ≡ holds (diagram self.now set) row }
        ensures listed { row < 2 ^ self.now.bits → result ≡ has row (listed self.now.bits (diagram self.now set) 0) }
    {
        self.formed();
        let mut edge = set.edge;
        while edge >= 2 {
            let node = self.node(edge);
            edge = if is_set(row, node.bit) {
                node.high
            } else {
                node.low
            };
        }
        edge == 1
    }

    /// The rows of a set from one to another, both included, ascending.
    pub fn rows(&self, set: Bdd, first: u64, last: u64) -> Result<Vec<u64>, AllocError>
        requires set { Belongs self.now set }
        requires last { last < 2 ^ self.now.bits }
        ensures rows { IfOk result (λ found. AreRows (holds (diagram self.now set)) first last found.items) }
        ensures listed { IfOk result (λ found. found.items ≡
            filter (is_within first last) (listed self.now.bits (diagram self.now set) 0)) }
    {
        self.formed();
        let mut found = Vec::new(self.alloc);
        list(self, &mut found, Span { first, last }, set, self.bits, 0)?;
        Ok(found)
    }

    /// Whether two sets have the same rows. It costs no more than to compare two numbers.
    pub fn is_same(&self, left: Bdd, right: Bdd) -> bool
        requires left { Belongs self.now left }
        requires right { Belongs self.now right }
        ensures { IsTrue result ↔ ((row : ℕ) → row < 2 ^ self.now.bits →
            holds (diagram self.now left) row ≡ holds (diagram self.now right) row) }
    {
        self.formed();
        left.edge == right.edge
    }

    /// How many nodes there are, the two ends not counted.
    pub fn nodes(&self) -> u64
        ensures count { result ≡ length self.now.nodes }
        ensures few { result ≤ self.now.limit }
    {
        self.count() as u64
    }

    /// What holds of all managers. It computes nothing.
    pub(crate) fn formed(&self)
        ensures { AreFormed self.now.bits self.now.limit self.now.nodes }
    {
        let _bits = self.bits;
    }

    /// How many nodes there are.
    fn count(&self) -> usize
        ensures count { result ≡ length self.now.nodes }
        ensures few { result ≤ self.now.limit }
    {
        self.nodes.len()
    }

    /// The first bit that a set tests.
    pub(crate) fn first_bit(&self, set: Bdd) -> u32
        requires belongs { Belongs self.now set }
        requires node { 2 ≤ set.edge }
        ensures height { height (diagram self.now set) ≡ result + 1 }
        ensures bits { result < self.now.bits }
    {
        self.node(set.edge).bit
    }

    /// A set's rows without a bit, as a set, and its rows with it.
    pub(crate) fn parts(&self, set: Bdd, bit: u32) -> (Bdd, Bdd)
        requires { IsUnder self.now (bit + 1) set }
        ensures low { IsUnder self.now bit result.0 }
        ensures high { IsUnder self.now bit result.1 }
        ensures low_is { diagram self.now result.0 ≡ low_at bit (diagram self.now set) }
        ensures high_is { diagram self.now result.1 ≡ high_at bit (diagram self.now set) }
        ensures low_less { result.0.edge ≤ set.edge }
        ensures high_less { result.1.edge ≤ set.edge }
        ensures less { height (diagram self.now set) ≡ bit + 1 → (result.0.edge < set.edge) × (result.1.edge < set.edge) }
    {
        self.formed();
        if set.edge < 2 {
            return (set, set);
        }
        let node = self.node(set.edge);
        if node.bit == bit {
            (Bdd { edge: node.low }, Bdd { edge: node.high })
        } else {
            (set, set)
        }
    }

    /// The set of the rows of two others: those of the first without a bit, and those of the second
    /// with it.
    pub(crate) fn make(&mut self, bit: u32, low: Bdd, high: Bdd) -> Result<Bdd, BddError>
        requires bit { bit < self.old.bits }
        requires low { IsUnder self.old bit low }
        requires high { IsUnder self.old bit high }
        ensures grows { Grows self.old self.new }
        ensures made { IfOk result (Gives self.old (joined bit (diagram self.old low) (diagram self.old high)) self.new) }
        ensures refused { IfErr result (Refuses self.old (joined bit (diagram self.old low) (diagram self.old high))) }
    {
        self.formed();
        if low.edge == high.edge {
            return Ok(low);
        }
        let node = Node {
            bit,
            low: low.edge,
            high: high.edge,
        };
        if self.has_room() {
            let set = self.add(node)?;
            return Ok(set);
        }
        match self.find(node) {
            Some(set) => Ok(set),
            None => Err(self.refusal()),
        }
    }

    /// Whether one more node may be made.
    fn has_room(&self) -> bool
        ensures { MatchBool result ((length self.now.nodes < self.now.limit) × (length self.now.nodes < 4294967294))
            ((self.now.limit ≤ length self.now.nodes) ⊎ (4294967294 ≤ length self.now.nodes)) }
    {
        (self.nodes.len() as u64) < self.limit && self.nodes.len() < MOST_NODES
    }

    /// Why no node is made where there is no room.
    fn refusal(&self) -> BddError
        ensures { MatchBool (nat_le self.now.limit (length self.now.nodes)) (result ≡ BddError.Full) (result ≡ BddError.NoMemory) }
    {
        if self.nodes.len() as u64 >= self.limit {
            BddError::Full
        } else {
            BddError::NoMemory
        }
    }

    /// The set of a node, where it is there.
    fn find(&self, node: Node) -> Option<Bdd>
        requires { CanFollow self.now.bits (diagrams self.now) node }
        ensures { MatchOption result (is_known (diagrams self.now) (test_of (diagrams self.now) node) ≡ false)
            (λ set. Belongs self.now set × (diagram self.now set ≡ test_of (diagrams self.now) node)) }
    {
        match self.nodes.get_index_of(&node) {
            Some(place) => Some(Bdd {
                edge: place as u32 + 2,
            }),
            None => None,
        }
    }

    /// The set of a node, which is made where it isn't there.
    fn add(&mut self, node: Node) -> Result<Bdd, BddError>
        requires fresh { CanFollow self.old.bits (diagrams self.old) node }
        requires limit { length self.old.nodes < self.old.limit }
        requires numbers { length self.old.nodes < 4294967294 }
        ensures grows { Grows self.old self.new }
        ensures made { IfOk result (Gives self.old (test_of (diagrams self.old) node) self.new) }
        ensures refused { IfErr result (λ error. error ≡ BddError.NoMemory) }
    {
        let (place, _) = self.nodes.insert_full(node)?;
        Ok(Bdd {
            edge: place as u32 + 2,
        })
    }

    /// Forgets all nodes but the first ones.
    fn keep_first(&mut self, count: usize)
        requires { count ≤ length self.old.nodes }
        ensures bits { self.new.bits ≡ self.old.bits }
        ensures limit { self.new.limit ≡ self.old.limit }
        ensures nodes { self.new.nodes ≡ take count self.old.nodes }
    {
        self.nodes.truncate(count);
    }

    /// The set that an operation makes of two others.
    fn combined(&mut self, op: Op, left: Bdd, right: Bdd) -> Result<Bdd, BddError>
        requires left { Belongs self.old left }
        requires right { Belongs self.old right }
        ensures made { IfOk result (Makes self.old
            (λ row. applied op (holds (diagram self.old left) row) (holds (diagram self.old right) row)) self.new) }
        ensures refused { IfErr result (IsCause self.old
            (λ row. applied op (holds (diagram self.old left) row) (holds (diagram self.old right) row))) }
        ensures unchanged { OnErr result (self.new ≡ self.old) }
    {
        let count = self.count();
        let mut answers = IndexMap::new(self.alloc);
        match combine(self, &mut answers, op, left, right) {
            Ok(set) => Ok(set),
            Err(error) => {
                self.keep_first(count);
                Err(error)
            }
        }
    }

    /// The node that an edge leads to.
    fn node(&self, edge: u32) -> Node
        requires node { 2 ≤ edge }
        requires there { edge < length self.now.nodes + 2 }
        ensures low { result.low < edge }
        ensures high { result.high < edge }
        ensures bit { result.bit < self.now.bits }
        ensures is { diagram_at (diagrams self.now) edge ≡ test_of (diagrams self.now) result }
        ensures formed { AreFormed self.now.bits self.now.limit self.now.nodes }
    {
        match self.nodes.get_index(edge as usize - 2) {
            Some(node) => *node,
            None => Node {
                bit: 0,
                low: 0,
                high: 0,
            },
        }
    }
}
