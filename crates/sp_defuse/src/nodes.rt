//! The nodes of the system.
ghost use Rattle.std.specs.Prelude.{◌≡◌, IfOk};
ghost use Rattle.sp_effect_scene.specs.View.{analysed_of};
ghost use Rattle.sp_effect_uses.specs.Locals.{AreLocals};
ghost use Rattle.sp_defuse.specs.Nodes.{IsNode, AreNodes};

use sp_base_sets::NumberSet;
use sp_effect_scene::Analysis;
use sp_effect_uses::{definitions, local_cells, uses};
use sp_transfer::Cuts;
use std::alloc::{AllocError, Global};

/// A node of the supergraph.
#[derive(Drop)]
pub struct Node {
    /// Its number in the program.
    pub number: u32,
    /// The locations that it defines, ascending.
    pub defs: Vec<u32>,
    /// Those by parts, where its accesses cut some.
    pub cuts: Option<Cuts>,
    /// The locations that it uses, ascending.
    pub uses: Vec<u32>,
}

/// The node of this number.
fn node_at(
    alloc: Global,
    analysis: &Analysis,
    locals: &[NumberSet],
    sharp: bool,
    number: u32,
) -> Result<Node, AllocError>
    requires { AreLocals (analysed_of analysis.now) locals.now }
    ensures { IfOk result (IsNode (analysed_of analysis.now) sharp number) }
{
    let defined = definitions(alloc, analysis, locals, sharp, number)?;
    let uses = match &defined.cuts {
        Some(cuts) => uses(alloc, analysis, &cuts.own, number)?,
        None => uses(alloc, analysis, &defined.places, number)?,
    };
    Ok(Node {
        number,
        defs: defined.places,
        cuts: defined.cuts,
        uses,
    })
}

/// The nodes of the graph, in the order of their numbers.
pub(crate) fn nodes_of(
    alloc: Global,
    analysis: &Analysis,
    sharp: bool,
) -> Result<Vec<Node>, AllocError>
    ensures { IfOk result (λ nodes.
        AreNodes (analysed_of analysis.now) sharp analysis.now.flow.nodes nodes.items) }
{
    let locals = local_cells(alloc, analysis)?;
    let mut nodes = Vec::new(alloc);
    for number in analysis.flow.nodes() {
        nodes.push(node_at(alloc, analysis, &locals, sharp, *number)?)?;
    }
    Ok(nodes)
}
