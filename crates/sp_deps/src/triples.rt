//! The dependencies that are kept, and why they may not be.
ghost use Rattle.std.specs.Prelude.{◌≡◌, ◌≤◌, ◌<◌, ◌+◌, ◌^◌, ℕ, true, length, All, replicate, [], nat_eq, IfOk, OnOk};
ghost use Rattle.sp_lattice.specs.Flat.{row_at};
ghost use Rattle.sp_engine_keeping.specs.Triples.{AreWithin};
ghost use Rattle.sp_deps.specs.Rows.{held, total, is_before, Ascends, most_dependencies};
ghost use Rattle.sp_deps.specs.inner.Grouped.{added};

use crate::groups::grouped;
use sp_engine_keeping::Keeping;
use sp_lattice::rows::Rows;
use std::alloc::{AllocError, Global};
use std::marker::Model;
use thiserror::Error;

/// The most dependencies that are kept: as pairs of two numbers they take 400 MB, and up to three times that while they
/// are found, since lists that grow have room for twice what is in them.
pub const MOST_DEPENDENCIES: u64 = 50_000_000;

/// How many pairs take the memory of a node of a diagram: 24 bytes with its place in the table of
/// nodes, where a pair takes 8.
const PAIRS_OF_A_NODE: u64 = 3;

// So no diagram has more nodes than this.
const _: () = prove!(MOST_DEPENDENCIES / PAIRS_OF_A_NODE <= 1 << 26);

/// Why the dependencies of a system aren't told.
#[derive(Clone, Copy, Debug, PartialEq, Eq, Error)]
pub enum DepError {
    /// There are more than [`MOST_DEPENDENCIES`]. `count` is one more than that: counting stopped there.
    #[error("{count} dependencies")]
    TooMany { count: u64 },
    /// Memory ran out.
    #[error("out of memory")]
    NoMemory,
}

impl From<AllocError> for DepError {
    ghost use Rattle.std.specs.Prelude.{◌≡◌};
    ghost use Rattle.sp_deps.specs.declared.triples.DepError.TheVariants.{NoMemory};

    ghost from_gives = { λ _ error. error ≡ NoMemory };

    fn from(_error: AllocError) -> DepError {
        DepError::NoMemory
    }
}

/// The dependencies of a system, as triples of the node that defines, the location and the node
/// that uses. They are kept as a diagram where that is smaller, else as a list.
///
/// Contracts see a row for each node: the pairs of location and target of the triples that leave
/// it, ascending by location and then by target. There are at most [`MOST_DEPENDENCIES`].
#[derive(Drop)]
pub struct Deps {
    keeping: Keeping,
    count: u64,
}

impl Model for Deps {
    ghost use Rattle.std.specs.Prelude.{List, ℕ};

    ghost Value = { List (List (ℕ × ℕ)) };

    ghost use Rattle.sp_deps.specs.inner.Kept.{IsKept};

    ghost view = { λ d. d.keeping };

    ghost invariant = { λ d. IsKept d.keeping d.count };
}

impl Deps {
    /// How many dependencies there are.
    pub fn count(&self) -> u64
        ensures total { result ≡ total self.now }
        ensures few { result ≤ most_dependencies }
    {
        self.count
    }

    /// Whether `location` as defined by `from` is used by `to`.
    pub fn holds(&self, from: u32, location: u32, to: u32) -> bool
        ensures { result ≡ held self.now from location to }
    {
        self.keeping.holds(from, location, to)
    }

    /// The pairs of location and target of the triples that leave `from`, ascending; none past the last node.
    pub fn after(&self, from: u32) -> Result<Vec<(u32, u32)>, AllocError>
        ensures pairs { IfOk result (λ pairs. pairs.items ≡ row_at self.now from) }
        ensures ascending { IfOk result (λ pairs. Ascends pairs.items) }
    {
        self.keeping.after(from)
    }

    /// Keeps what was found, where the locations are fewer than so many.
    pub(crate) fn laid(alloc: Global, found: Growing, locations: u32) -> Result<Deps, AllocError>
        requires nodes { length found < 2 ^ 32 }
        requires within { All (AreWithin locations (length found)) found }
        ensures { IfOk result (λ deps. deps ≡ found) }
    {
        let count = found.count();
        let rows = found.into_rows(alloc)?;
        let keeping = Keeping::keep(alloc, rows, locations, count / PAIRS_OF_A_NODE)?;
        Ok(Deps { keeping, count })
    }
}

/// Dependencies while they are found, in the order in which they are: for each the node that it leaves,
/// and the pair of location and target.
///
/// Where memory ran out, a node may stand behind those of the pairs: it counts for nothing.
#[derive(Drop)]
pub(crate) struct Growing {
    nodes: usize,
    froms: Vec<u32>,
    pairs: Vec<(u32, u32)>,
}

impl Model for Growing {
    ghost use Rattle.std.specs.Prelude.{List, ℕ};
    ghost use Rattle.sp_deps.specs.inner.Grouped.{grouped};
    ghost use Rattle.sp_deps.specs.inner.Kept.{IsGrowing};

    ghost Value = { List (List (ℕ × ℕ)) };

    ghost view = { λ d. grouped d.nodes d.froms.items d.pairs.items };

    ghost invariant = { λ d. IsGrowing d.nodes d.froms.items d.pairs.items };
}

impl Growing {
    /// No dependencies yet, of this many nodes.
    pub(crate) fn none(alloc: Global, nodes: u32) -> Growing
        ensures { result ≡ replicate nodes [] }
    {
        Growing {
            nodes: nodes as usize,
            froms: Vec::new(alloc),
            pairs: Vec::new(alloc),
        }
    }

    /// Whether there is no room for one more.
    pub(crate) fn is_full(&self) -> bool
        ensures full { result ≡ nat_eq (total self.now) most_dependencies }
        ensures few { total self.now ≤ most_dependencies }
    {
        self.pairs.len() as u64 == MOST_DEPENDENCIES
    }

    /// How many there are.
    fn count(&self) -> u64
        ensures total { result ≡ total self.now }
        ensures few { result ≤ most_dependencies }
    {
        self.pairs.len() as u64
    }

    /// The pairs, laid out by the nodes that they leave.
    fn into_rows(self, alloc: Global) -> Result<Rows<(u32, u32)>, AllocError>
        ensures same { IfOk result (λ rows. rows ≡ self) }
        ensures ascending { IfOk result (All Ascends) }
    {
        let froms = &self.froms[..self.pairs.len()];
        let rows = grouped(alloc, self.nodes, froms, &self.pairs)?;
        Ok(rows)
    }

    /// Adds a triple, behind those that leave the same node.
    pub(crate) fn add(&mut self, from: u32, location: u32, to: u32) -> Result<(), AllocError>
        requires there { from < length self.old }
        requires room { total self.old < most_dependencies }
        requires last { All (λ pair. is_before pair (location, to) ≡ true) (row_at self.old from) }
        ensures { OnOk result (self.new ≡ added self.old from (location, to)) }
    {
        self.froms.truncate(self.pairs.len());
        self.froms.push(from)?;
        self.pairs.push((location, to))?;
        Ok(())
    }
}
