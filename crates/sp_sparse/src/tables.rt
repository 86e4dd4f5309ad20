//! The table of a solved system.
ghost use Rattle.std.specs.Prelude.{◌≡◌, option_copied, slice_get};
ghost use Rattle.sp_sparse.specs.Solution.{Cells, cell, IsFormed};

use crate::places::find_place;
use sp_lattice::rows::Rows;
use sp_lattice::{Inputs, Lattice};
use std::marker::Model;

/// The least solution of a system at the uses and definitions of its nodes alone, and how often each was evaluated.
///
/// Contracts see the inputs and the outputs as a row of values for each node, with the locations at which they stand.
#[derive(Drop)]
pub struct SparseTable<V> {
    uses: Rows<u32>,
    inputs: Rows<V>,
    defs: Rows<u32>,
    outputs: Rows<V>,
    evaluations: Vec<u64>,
}

impl<V> Model for SparseTable<V> {
    ghost use Rattle.sp_sparse.specs.Solution.{SparseCells, IsFormed};

    ghost Value = { SparseCells V };

    ghost view = { λ t. record {
      inputs = (record { places = t.uses; values = t.inputs });
      outputs = (record { places = t.defs; values = t.outputs });
      evaluations = t.evaluations.items;
    } };

    ghost invariant = { λ t. IsFormed ((record { places = t.uses; values = t.inputs }))
        × IsFormed ((record { places = t.defs; values = t.outputs })) };
}

impl<V> SparseTable<V> {
    /// The table with these rows.
    pub(crate) fn from_rows(
        uses: Rows<u32>,
        inputs: Rows<V>,
        defs: Rows<u32>,
        outputs: Rows<V>,
        evaluations: Vec<u64>,
    ) -> SparseTable<V>
        requires inputs { IsFormed ((record { places = uses; values = inputs })) }
        requires outputs { IsFormed ((record { places = defs; values = outputs })) }
        ensures inputs { result.inputs ≡ (record { places = uses; values = inputs }) }
        ensures outputs { result.outputs ≡ (record { places = defs; values = outputs }) }
        ensures evaluations { result.evaluations ≡ evaluations.items }
    {
        SparseTable {
            uses,
            inputs,
            defs,
            outputs,
            evaluations,
        }
    }
}

impl<V: Lattice> SparseTable<V> {
    /// The value that reaches `node` at `location`; `None` exactly where the location isn't among the node's uses.
    pub fn input(&self, node: u32, location: u32) -> Option<&V>
        ensures { option_copied result ≡ cell self.now.inputs node location }
    {
        value_at(&self.uses, &self.inputs, node, location)
    }

    /// The value that `node` leaves at `location`; `None` exactly where the location isn't among the node's definitions.
    pub fn output(&self, node: u32, location: u32) -> Option<&V>
        ensures { option_copied result ≡ cell self.now.outputs node location }
    {
        value_at(&self.defs, &self.outputs, node, location)
    }

    /// How often `node` was evaluated; `None` exactly where there is no such node.
    pub fn evaluations(&self, node: u32) -> Option<u64>
        ensures { result ≡ slice_get self.now.evaluations node }
    {
        self.evaluations.get(node as usize).copied()
    }
}

impl<V: Lattice> Inputs for SparseTable<V> {
    type Value = V;

    ghost given = { λ table n l. cell table.inputs n l };

    fn input(&self, node: u32, location: u32) -> Option<&V> {
        SparseTable::input(self, node, location)
    }
}

/// The value of a row that stands at a location.
fn value_at<'a, V: Lattice>(
    places: &Rows<u32>,
    values: &'a Rows<V>,
    node: u32,
    location: u32,
) -> Option<&'a V>
    requires { IsFormed (record { places = places.now; values = values.now }) }
    ensures { option_copied result ≡ cell (record { places = places.now; values = values.now }) node location }
{
    let node = node as usize;
    if node >= values.len() {
        return None;
    }
    let place = find_place(places.row(node), location)?;
    Some(&values.row(node)[place])
}
