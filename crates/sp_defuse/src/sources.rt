//! The nodes from which edges lead into a node, and these edges.
ghost use Rattle.std.specs.Prelude.{◌≡◌, ◌<◌, ◌^◌, length};

use crate::edges::Edges;
use crate::groups::groups_of;
use crate::places::places_into;
use sp_base_sets::NumberSet;
use sp_effect_rows::find_place;
use sp_graph::Flow;
use std::alloc::{AllocError, Global};

/// The nodes from which edges lead into a node, by their places in the graph, ascending, and for
/// each the edges from there.
#[derive(Drop)]
pub struct Sources {
    places: NumberSet,
    edges: Vec<Edges>,
    ghost long: { length edges.items ≡ length places },
}

impl Sources {
    ghost use Rattle.std.specs.Prelude.{◌≡◌, ◌<◌, ◌^◌, ℕ, length, IfOk};
    ghost use Rattle.std.specs.List.Sorted.{IsStrictlyIncreasing};
    ghost use Rattle.sp_transfer.specs.Equations.{passes_between};
    ghost use Rattle.sp_defuse.specs.Sources.{number_at, IsSources, AreSources};

    /// Those of a node of the program.
    fn new(alloc: Global, flow: &Flow, node: u32) -> Result<Sources, AllocError>
        requires ascend { IsStrictlyIncreasing flow.now.nodes }
        requires few { length flow.now.nodes < 2 ^ 32 }
        ensures { IfOk result (IsSources flow.now node) }
    {
        let places = places_into(alloc, flow, node)?;
        let edges = groups_of(alloc, flow, node, places.as_slice())?;
        Ok(Sources { places, edges })
    }

    /// Those of each node of the graph.
    pub(crate) fn all(alloc: Global, flow: &Flow) -> Result<Vec<Sources>, AllocError>
        requires ascend { IsStrictlyIncreasing flow.now.nodes }
        requires few { length flow.now.nodes < 2 ^ 32 }
        ensures { IfOk result (λ all. AreSources flow.now flow.now.nodes all.items) }
    {
        let mut all = Vec::new(alloc);
        for node in flow.nodes() {
            all.push(Sources::new(alloc, flow, *node)?)?;
        }
        Ok(all)
    }

    /// The places of these nodes.
    pub(crate) fn places(&self) -> &[u32]
        ensures { result.now ≡ self.now.places }
    {
        self.places.as_slice()
    }

    /// Whether some edge from the node at a place passes a location.
    pub(crate) fn pass(&self, flow: &Flow, from: u32, location: u32) -> bool
        ensures { (n : ℕ) → IsSources flow.now n self.now → from < length flow.now.nodes
            → result ≡ passes_between flow.now (number_at flow.now.nodes from) n location }
    {
        match find_place(self.places.as_slice(), from) {
            Some(at) => self.edges[at].pass(flow, location),
            None => false,
        }
    }
}
