//! The edges into a node, in groups by where they lead from.
ghost use Rattle.std.specs.Prelude.{◌≡◌, ◌<◌, ◌^◌, ◌++◌, ◌∷◌, [], cond, ℕ, nat_eq, true, length, slice_index_or, IfOk, OnOk};
ghost use Rattle.std.specs.List.Sorted.{IsStrictlyIncreasing};
ghost use Rattle.sp_base_sets.specs.Sets.{has};
ghost use Rattle.sp_graph.specs.Supergraph.{edges_at};
ghost use Rattle.sp_defuse.specs.Sources.{number_at, AreGroups};

use crate::edges::Edges;
use sp_effect_rows::find_place;
use sp_graph::{Edge, Flow};
use std::alloc::{AllocError, Global};

/// Adds an edge to the group of the place from which it leads.
fn add_edge(
    groups: &mut Vec<Edges>,
    nodes: &[u32],
    places: &[u32],
    edge: Edge,
) -> Result<(), AllocError>
    requires nodes_ascend { IsStrictlyIncreasing nodes.now }
    requires few { length nodes.now < 2 ^ 32 }
    requires places_ascend { IsStrictlyIncreasing places.now }
    requires low { (j : ℕ) → has j places.now ≡ true → j < length nodes.now }
    requires long { length groups.old.items ≡ length places.now }
    ensures long { OnOk result (length groups.new.items ≡ length groups.old.items) }
    ensures each { OnOk result ((i : ℕ) → i < length places.now →
        slice_index_or groups.new.items i [] ≡ slice_index_or groups.old.items i []
        ++ cond (nat_eq edge.from (number_at nodes.now (slice_index_or places.now i 0)))
        (edge ∷ []) []) }
{
    if let Some(place) = find_place(nodes, edge.from) {
        if let Some(at) = find_place(places, place as u32) {
            groups[at].push(edge)?;
        }
    }
    Ok(())
}

/// The edges into a node by the places from which they lead.
pub(crate) fn groups_of(
    alloc: Global,
    flow: &Flow,
    node: u32,
    places: &[u32],
) -> Result<Vec<Edges>, AllocError>
    requires ascend { IsStrictlyIncreasing flow.now.nodes }
    requires few { length flow.now.nodes < 2 ^ 32 }
    requires places_ascend { IsStrictlyIncreasing places.now }
    requires low { (j : ℕ) → has j places.now ≡ true → j < length flow.now.nodes }
    ensures { IfOk result (λ groups.
        AreGroups flow.now.nodes places.now (edges_at flow.now.rows node) groups.items) }
{
    let nodes = flow.nodes();
    let mut groups = Edges::none(alloc, places.len())?;
    for edge in flow.edges_into(node) {
        add_edge(&mut groups, nodes, places, *edge)?;
    }
    Ok(groups)
}
