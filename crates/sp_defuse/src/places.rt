//! The places of the nodes from which edges lead into a node.
ghost use Rattle.std.specs.Prelude.{◌≡◌, ◌<◌, ◌^◌, ◌||◌, ℕ, length, IfOk, OnOk};
ghost use Rattle.std.specs.List.Sorted.{IsStrictlyIncreasing};
ghost use Rattle.sp_base_sets.specs.Sets.{has};
ghost use Rattle.sp_graph.specs.Supergraph.{edges_at};
ghost use Rattle.sp_defuse.specs.Sources.{stands_at, is_source};

use sp_base_sets::NumberSet;
use sp_effect_rows::find_place;
use sp_graph::Flow;
use std::alloc::{AllocError, Global};

/// Adds the place of a node, where it is in the list.
fn add_place(places: &mut NumberSet, nodes: &[u32], node: u32) -> Result<(), AllocError>
    requires ascend { IsStrictlyIncreasing nodes.now }
    requires few { length nodes.now < 2 ^ 32 }
    ensures { OnOk result ((j : ℕ) →
        has j places.new ≡ (has j places.old || stands_at nodes.now node j)) }
{
    if let Some(place) = find_place(nodes, node) {
        places.add(place as u32)?;
    }
    Ok(())
}

/// The places in the graph's list from which edges lead into a node of the program.
pub(crate) fn places_into(alloc: Global, flow: &Flow, node: u32) -> Result<NumberSet, AllocError>
    requires ascend { IsStrictlyIncreasing flow.now.nodes }
    requires few { length flow.now.nodes < 2 ^ 32 }
    ensures { IfOk result (λ places. (j : ℕ) →
        has j places ≡ is_source flow.now.nodes (edges_at flow.now.rows node) j) }
{
    let nodes = flow.nodes();
    let mut places = NumberSet::new(alloc);
    for edge in flow.edges_into(node) {
        add_place(&mut places, nodes, edge.from)?;
    }
    Ok(places)
}
