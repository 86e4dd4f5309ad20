//! The edges of `goto` (C90 6.6.6.1).
ghost use Rattle.std.specs.Prelude.{◌≡◌, ℕ, ◌++◌, nat_eq, IfOk, OnOk};
ghost use Rattle.indexmap.specs.IndexMap.{get};
ghost use Rattle.sp_lower_draft.specs.View.{draft_of};
ghost use Rattle.sp_lower_body.specs.View.{body_of};
ghost use Rattle.sp_lower_functions.specs.Functions.{label_node, node_in, goto_edges, ended};

use indexmap::IndexMap;
use sp_lower_body::Body;
use sp_lower_draft::Draft;
use std::alloc::{AllocError, Global};

/// The node of each label, by its name. The last is noted first, so that of two labels of one name
/// the first counts.
fn label_nodes(alloc: Global, labels: &[(u32, u32)]) -> Result<IndexMap<u32, u32>, AllocError>
    ensures { IfOk result (λ nodes. (n : ℕ) →
        node_in (get nat_eq nodes n) ≡ label_node labels.now n) }
{
    let mut nodes = IndexMap::new(alloc);
    let mut left = labels.len();
    'labels: while left > 0 {
        left -= 1;
        let (name, node) = labels[left];
        nodes.insert(name, node)?;
    }
    Ok(nodes)
}

/// The node of a label.
fn node_of(nodes: &IndexMap<u32, u32>, label: u32) -> u32
    ensures { result ≡ node_in (get nat_eq nodes.now label) }
{
    match nodes.get(&label) {
        Some(node) => *node,
        None => 0,
    }
}

/// Adds an edge from each end that goes to a label.
fn add_gotos(
    alloc: Global,
    edges: &mut Vec<(u32, u32)>,
    labels: &[(u32, u32)],
    gotos: &[(u32, u32)],
) -> Result<(), AllocError>
    ensures { OnOk result (edges.new.items ≡ edges.old.items ++ goto_edges labels.now gotos.now) }
{
    let nodes = label_nodes(alloc, labels)?;
    for (from, label) in gotos {
        edges.push((*from, node_of(&nodes, *label)))?;
    }
    Ok(())
}

/// The draft behind a body: its ends and those of `return` are loose.
pub fn ended(alloc: Global, body: Body) -> Result<Draft, AllocError>
    ensures { IfOk result (λ s. draft_of s ≡ ended (body_of body)) }
{
    let Body {
        mut draft,
        returns,
        gotos,
        labels,
        ..
    } = body;
    add_gotos(alloc, &mut draft.edges, labels.as_slice(), gotos.as_slice())?;
    draft.loose.extend_from_slice(returns.as_slice())?;
    Ok(draft)
}
