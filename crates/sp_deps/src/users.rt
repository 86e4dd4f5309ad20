//! The uses of a system, by location.
ghost use Rattle.std.specs.Prelude.{IfOk};
ghost use Rattle.sp_deps.specs.inner.Users.{HasUsers};

use crate::groups::grouped;
use sp_lattice::System;
use sp_lattice::rows::Rows;
use std::alloc::{AllocError, Global};

/// For each location the nodes that use it, ascending.
pub(crate) fn users<S: System>(alloc: Global, system: &S) -> Result<Rows<u32>, AllocError>
    ensures { IfOk result (HasUsers (S.meaning system.now)) }
{
    let mut locations = Vec::new(alloc);
    let mut nodes = Vec::new(alloc);
    'nodes: for node in 0..system.nodes() {
        let uses = system.uses(node);
        'uses: for location in uses {
            locations.push(*location)?;
            nodes.push(node)?;
        }
    }
    let rows = grouped(alloc, system.locations() as usize, &locations, &nodes)?;
    Ok(rows)
}
