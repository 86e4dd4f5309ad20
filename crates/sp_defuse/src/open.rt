//! Nodes into which every edge passes every location: all but the first of a function, and those that
//! return from a call.
ghost use Rattle.std.specs.Prelude.{◌≡◌, IfOk};
ghost use Rattle.std.specs.List.{list_all};
ghost use Rattle.sp_graph.specs.Supergraph.{edges_at};
ghost use Rattle.sp_defuse.specs.Open.{is_open, AreOpen};
ghost use Rattle.sp_defuse.specs.Program.{equations_in};

use crate::programs::CProgram;
use sp_graph::{Edge, Flow, Pass};
use std::alloc::{AllocError, Global};

/// Whether an edge passes every location.
fn passes_all(edge: &Edge) -> bool
    ensures { result ≡ is_open edge.now }
{
    match edge.pass {
        Pass::All => true,
        Pass::Inside(_) | Pass::Beside(_) => false,
    }
}

/// Whether each edge into a node of the program does.
fn is_open(flow: &Flow, node: u32) -> bool
    ensures { result ≡ list_all is_open (edges_at flow.now.rows node) }
{
    flow.edges_into(node).iter().all(|edge| passes_all(edge))
}

/// A mark for each node of the system: every edge into the node passes every location.
pub fn open_nodes(alloc: Global, program: &CProgram) -> Result<Vec<bool>, AllocError>
    ensures { IfOk result (λ marks. AreOpen (equations_in program.now) marks.items) }
{
    let flow = program.flow();
    let mut marks = Vec::new(alloc);
    for node in flow.nodes() {
        marks.push(is_open(flow, *node))?;
    }
    Ok(marks)
}
