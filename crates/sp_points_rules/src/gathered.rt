//! Puts that are gathered for one command.
ghost use Rattle.std.specs.Prelude.{◌≡◌, ◌++◌, ◌∷◌, [], OnOk};

use sp_base_sets::NumberSet;
use sp_points_expr::Put;
use std::alloc::{AllocError, Global};

/// What goes where, and the rows that were looked at for it.
#[derive(Drop)]
pub struct Gathered {
    pub puts: Vec<Put>,
    pub seen: NumberSet,
}

impl Gathered {
    /// Nothing yet.
    pub fn new(alloc: Global) -> Gathered
        ensures puts { result.puts.items ≡ [] }
        ensures seen { result.seen ≡ [] }
    {
        Gathered {
            puts: Vec::new(alloc),
            seen: NumberSet::new(alloc),
        }
    }

    pub(crate) fn put(&mut self, rows: NumberSet, numbers: NumberSet) -> Result<(), AllocError>
        ensures puts { OnOk result (self.new.puts.items ≡ self.old.puts.items ++ record { rows = rows; numbers = numbers } ∷ []) }
        ensures seen { self.new.seen ≡ self.old.seen }
    {
        self.puts.push(Put { rows, numbers })?;
        Ok(())
    }
}
