//! The edges of a system, the other way round.
ghost use Rattle.std.specs.Prelude.{IfOk};
ghost use Rattle.sp_dense.specs.inner.Visit.{HasSuccessors};

use sp_lattice::{Lattice, System};
use std::alloc::{AllocError, Global};

/// For each node the nodes into which an edge leads from it.
pub(crate) fn successors<S: System>(alloc: Global, system: &S) -> Result<Vec<Vec<u32>>, AllocError>
    ensures { IfOk result (λ lists. HasSuccessors (S.meaning system.now) lists.items) }
{
    let mut lists: Vec<Vec<u32>> = Vec::new(alloc);
    for _ in 0..system.nodes() {
        lists.push(Vec::new(alloc))?;
    }
    'nodes: for node in 0..system.nodes() {
        let edges = system.edges_into(node);
        'edges: for from in edges {
            let list = &mut lists[*from as usize];
            list.push(node)?;
        }
    }
    Ok(lists)
}
