//! The table of a solved system.
ghost use Rattle.std.specs.Prelude.{◌≡◌, option_copied, map};
ghost use Rattle.sp_dense.specs.Solution.{Grids, cell};

use sp_lattice::{Inputs, Lattice};
use std::marker::Model;

/// The least solution of a system: what reaches each node at each location, and what the node makes of it.
///
/// Contracts see it as two grids with a row for each node and in it a value for each location.
#[derive(Drop)]
pub struct Table<V> {
    inputs: Vec<Vec<V>>,
    outputs: Vec<Vec<V>>,
}

impl<V> Model for Table<V> {
    ghost use Rattle.std.specs.Prelude.{map};
    ghost use Rattle.sp_dense.specs.Solution.{Grids};

    ghost Value = { Grids V };

    ghost view = { λ t. record {
      inputs = map (λ row. row.items) t.inputs.items;
      outputs = map (λ row. row.items) t.outputs.items;
    } };
}

impl<V> Table<V> {
    /// The table with these rows.
    pub(crate) fn from_rows(inputs: Vec<Vec<V>>, outputs: Vec<Vec<V>>) -> Table<V>
        ensures inputs { result.inputs ≡ map (λ row. row.items) inputs.items }
        ensures outputs { result.outputs ≡ map (λ row. row.items) outputs.items }
    {
        Table { inputs, outputs }
    }
}

impl<V: Lattice> Table<V> {
    /// The value that reaches `node` at `location`; `None` exactly where there is no such node or location.
    pub fn input(&self, node: u32, location: u32) -> Option<&V>
        ensures { option_copied result ≡ cell self.now.inputs node location }
    {
        cell_at(&self.inputs, node, location)
    }

    /// The value that `node` leaves at `location`; `None` exactly where there is no such node or location.
    pub fn output(&self, node: u32, location: u32) -> Option<&V>
        ensures { option_copied result ≡ cell self.now.outputs node location }
    {
        cell_at(&self.outputs, node, location)
    }
}

impl<V: Lattice> Inputs for Table<V> {
    type Value = V;

    ghost given = { λ table n l. cell table.inputs n l };

    fn input(&self, node: u32, location: u32) -> Option<&V> {
        Table::input(self, node, location)
    }
}

/// The value in a row and a column of a grid.
fn cell_at<V>(rows: &Vec<Vec<V>>, node: u32, location: u32) -> Option<&V>
    ensures { option_copied result ≡ cell (map (λ row. row.items) rows.now.items) node location }
{
    let row = rows.get(node as usize)?;
    row.get(location as usize)
}
