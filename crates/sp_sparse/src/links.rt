//! The dependencies of a system, laid out for sending.
ghost use Rattle.std.specs.Prelude.{◌≡◌, ◌<◌, ℕ, length, IfOk, OnOk};
ghost use Rattle.std.specs.List.{list_any};
ghost use Rattle.sp_lattice.specs.Dependency.{Depends};
ghost use Rattle.sp_deps.specs.Rows.{held, same_pair, Ascends};
ghost use Rattle.sp_deps.specs.Answer.{AreDependencies};
ghost use Rattle.sp_sparse.specs.inner.Links.{AreLinks, HasLinks, UsedAt};

use crate::places::place_of;
use sp_deps::Deps;
use sp_lattice::System;
use sp_lattice::rows::Rows;
use std::alloc::{AllocError, Global};

/// The dependencies of a system, with the links along which outputs are sent: for each definition, node by node, a row
/// with the nodes that depend on it, and the place of the location among the uses of each.
#[derive(Drop)]
pub(crate) struct Links<'a> {
    pub(crate) deps: &'a Deps,
    pub(crate) rows: Rows<(u32, u32)>,
}

/// The links of a system with so many definitions.
pub(crate) fn links_of<'a, S: System>(
    alloc: Global,
    system: &S,
    deps: &'a Deps,
    definitions: usize,
) -> Result<Links<'a>, AllocError>
    requires { AreDependencies (S.meaning system.now) deps.now }
    ensures same { IfOk result (λ links. links.deps.now ≡ deps.now) }
    ensures links { IfOk result (λ links. HasLinks (S.meaning system.now) (held deps.now) links.rows) }
{
    let mut rows = Rows::with_capacity(alloc, definitions, deps.count() as usize)?;
    let mut row = Vec::new(alloc);
    'nodes: for node in 0..system.nodes() {
        let pairs = deps.after(node)?;
        let defs = system.defs(node);
        'definitions: for location in defs {
            links_from(system, &pairs, *location, &mut row)?;
            rows.push_row(&row)?;
        }
    }
    Ok(Links { deps, rows })
}

/// The links of a definition, by the pairs of location and target that leave its node.
fn links_from<S: System>(
    system: &S,
    pairs: &Vec<(u32, u32)>,
    location: u32,
    links: &mut Vec<(u32, u32)>,
) -> Result<(), AllocError>
    requires ascends { Ascends pairs.now.items }
    requires used { UsedAt (S.meaning system.now) pairs.now.items }
    ensures { OnOk result (AreLinks (S.meaning system.now)
        (λ _ l to. list_any (same_pair (l, to)) pairs.now.items) 0 location links.new.items) }
{
    links.clear();
    let first = pairs.partition_point(|pair| pair.0 < location);
    let end = pairs.partition_point(|pair| pair.0 <= location);
    let own = &pairs[first..end];
    'pairs: for pair in own {
        let place = place_of(system.uses(pair.1), location);
        links.push((pair.1, place as u32))?;
    }
    Ok(())
}
