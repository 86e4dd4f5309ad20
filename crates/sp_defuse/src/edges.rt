//! The edges from one node to another.
ghost use Rattle.std.specs.Prelude.{◌≡◌, ◌++◌, ◌∷◌, [], replicate, IfOk, OnOk};
ghost use Rattle.std.specs.List.{list_any};
ghost use Rattle.sp_graph.specs.Supergraph.{passes_by};
ghost use Rattle.sp_graph.specs.declared.edge.Edge.{Edge};

use sp_graph::{Edge, Flow};
use std::alloc::{AllocError, Global};
use std::marker::Model;

/// The edges from one node to another. Contracts see the list of them.
#[derive(Drop)]
pub(crate) struct Edges {
    list: Vec<Edge>,
}

impl Model for Edges {
    ghost use Rattle.std.specs.Prelude.{List};
    ghost use Rattle.sp_graph.specs.declared.edge.Edge.{Edge};

    ghost Value = { List Edge };

    ghost view = { λ s. s.list.items };
}

impl Edges {
    /// So many empty lists.
    pub(crate) fn none(alloc: Global, count: usize) -> Result<Vec<Edges>, AllocError>
        ensures { IfOk result (λ lists. lists.items ≡ replicate count []) }
    {
        let mut lists = Vec::new(alloc);
        for _ in 0..count {
            lists.push(Edges::new(alloc))?;
        }
        Ok(lists)
    }

    fn new(alloc: Global) -> Edges
        ensures { result ≡ [] }
    {
        Edges {
            list: Vec::new(alloc),
        }
    }

    pub(crate) fn push(&mut self, edge: Edge) -> Result<(), AllocError>
        ensures { OnOk result (self.new ≡ self.old ++ edge ∷ []) }
    {
        self.list.push(edge)?;
        Ok(())
    }

    /// Whether one of them passes a location.
    pub(crate) fn pass(&self, flow: &Flow, location: u32) -> bool
        ensures { result ≡ list_any (λ (e : Edge). passes_by flow.now e.pass location) self.now }
    {
        self.list.iter().any(|edge| flow.passes(edge, location))
    }
}
