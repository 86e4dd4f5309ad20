//! The two forms, behind one contract.
ghost use Rattle.std.specs.Prelude.{◌≡◌, ◌<◌, ◌^◌, length, All, IfOk};
ghost use Rattle.sp_lattice.specs.Flat.{row_at};
ghost use Rattle.sp_bdd.specs.Table.{diagram, Belongs};
ghost use Rattle.sp_bdd.specs.Ascending as rows;
ghost use Rattle.sp_bdd.specs.Listed.{listed};
ghost use Rattle.sp_engine_keeping.specs.Triples.{held, Ascends, AreWithin};
ghost use Rattle.sp_engine_keeping.specs.Codes.{is_told};

use crate::codes::{NUMBERS, code, codes_of, pairs_of, span};
use sp_bdd::{Bdd, BddError, Manager};
use sp_lattice::rows::Rows;
use std::alloc::{AllocError, Global};
use std::marker::Model;

/// The form in which triples are kept.
#[derive(Drop)]
pub(crate) enum Form {
    /// For each node its pairs of location and target, ascending.
    Rows(Rows<(u32, u32)>),
    /// The set of the rows of all triples.
    Diagram(Manager, Bdd),
}

/// Triples of a node, a location and a target.
///
/// Contracts see a row for each node: the pairs of location and target of the triples that leave
/// it, ascending.
#[derive(Drop)]
pub struct Keeping {
    alloc: Global,
    nodes: u32,
    form: Form,
}

impl Model for Keeping {
    ghost use Rattle.std.specs.Prelude.{List, ℕ};
    ghost use Rattle.sp_engine_keeping.specs.Kept.{rows_of, IsKept};

    ghost Value = { List (List (ℕ × ℕ)) };

    ghost view = { λ k. rows_of k.nodes k.form };

    ghost invariant = { λ k. IsKept k.nodes k.form };
}

impl Keeping {
    /// Keeps rows of triples: as a diagram, where one of at most `limit` nodes has them, else as
    /// they are. Numbers of nodes and locations past 2^20 have no diagram.
    pub fn keep(
        alloc: Global,
        rows: Rows<(u32, u32)>,
        locations: u32,
        limit: u64,
    ) -> Result<Keeping, AllocError>
        requires nodes { length rows < 2 ^ 32 }
        requires ascending { All Ascends rows }
        requires within { All (AreWithin locations (length rows)) rows }
        ensures { IfOk result (λ kept. kept ≡ rows) }
    {
        let nodes = rows.len() as u32;
        if nodes <= NUMBERS && locations <= NUMBERS {
            let codes = codes_of(alloc, &rows)?;
            if may_fit(alloc, &codes, limit)? {
                let mut manager = Manager::new(alloc, 60, limit);
                match manager.set_of(&codes) {
                    Ok(set) => {
                        let form = Form::Diagram(manager, set);
                        return Ok(Keeping { alloc, nodes, form });
                    }
                    Err(BddError::NoMemory) => return Err(AllocError),
                    Err(BddError::Full) => {}
                }
            }
        }
        let form = Form::Rows(rows);
        Ok(Keeping { alloc, nodes, form })
    }

    /// Whether the triple is kept.
    pub fn holds(&self, from: u32, location: u32, to: u32) -> bool
        ensures { result ≡ held self.now from location to }
    {
        if from >= self.nodes {
            return false;
        }
        match &self.form {
            Form::Rows(rows) => {
                let row = rows.row(from as usize);
                row.binary_search(&(location, to)).is_ok()
            }
            Form::Diagram(manager, set) => is_member(manager, *set, from, location, to),
        }
    }

    /// The pairs of location and target of the triples that leave `from`, ascending; none past the
    /// last node.
    pub fn after(&self, from: u32) -> Result<Vec<(u32, u32)>, AllocError>
        ensures { IfOk result (λ pairs. pairs.items ≡ row_at self.now from) }
    {
        if from >= self.nodes {
            return Ok(Vec::new(self.alloc));
        }
        match &self.form {
            Form::Rows(rows) => rows.row(from as usize).to_vec(self.alloc),
            Form::Diagram(manager, set) => {
                let (first, last) = span(from);
                let rows = manager.rows(*set, first, last)?;
                pairs_of(self.alloc, &rows)
            }
        }
    }

    /// How many nodes its diagram has; none where it is a list. Rows and benches ask it, so that
    /// they show which form they have.
    pub fn diagram_nodes(&self) -> Option<u64> {
        match &self.form {
            Form::Rows(_) => None,
            Form::Diagram(manager, _) => Some(manager.nodes()),
        }
    }
}

/// Whether the diagram of these rows may have so few nodes: whether that of their first sixteenth
/// has no more than a sixteenth of them, and 60 more.
///
/// All nodes of a front's diagram but 60 are in that of the whole. So a diagram that needs less
/// than a sixteenth of the limit is always found. Where the rows have none, as those of most
/// programs, a sixteenth of the work tells it.
fn may_fit(alloc: Global, codes: &[u64], limit: u64) -> Result<bool, AllocError>
    requires ascending { rows.Ascends codes.now }
    requires low { All (λ row. row < 2 ^ 60) codes.now }
{
    let front = &codes[..codes.len() / 16];
    let mut manager = Manager::new(alloc, 60, limit / 16 + 60);
    match manager.set_of(front) {
        Ok(_) => Ok(true),
        Err(BddError::Full) => Ok(false),
        Err(BddError::NoMemory) => Err(AllocError),
    }
}

/// Whether a diagram has the row of a triple.
fn is_member(manager: &Manager, set: Bdd, from: u32, location: u32, to: u32) -> bool
    requires set { Belongs manager.now set }
    requires bits { manager.now.bits ≡ 60 }
    requires from { from < 1048576 }
    ensures { result ≡ is_told (listed manager.now.bits (diagram manager.now set) 0) from (location, to) }
{
    if location >= NUMBERS || to >= NUMBERS {
        return false;
    }
    manager.member(set, code(from, location, to))
}
