//! An analysed program as a system of equations.
ghost use Rattle.std.specs.Prelude.{◌≡◌, ◌<◌, ◌^◌, length, map};
ghost use Rattle.std.proofs.Props.{props};
ghost use Rattle.sp_effect_scene.specs.View.{analysed_of};
ghost use Rattle.sp_transfer.specs.Equations.{AreEquations};
ghost use Rattle.sp_defuse.specs.Nodes.{AreNodes};
ghost use Rattle.sp_defuse.specs.Sources.{AreSources};
ghost use Rattle.sp_defuse.specs.View.{equations_of};
ghost use Rattle.sp_defuse.specs.declared.nodes.Node.{Node};

use crate::accessed::accessed;
use crate::nodes::{Node, nodes_of};
use crate::sources::Sources;
use sp_effect_rows::GivenAt;
use sp_effect_scene::Analysis;
use sp_graph::{Flow, localise};
use sp_lattice::{Steps, System};
use sp_transfer::{Definitions, effect};
use sp_value::Slot;
use std::alloc::{AllocError, Global};
use std::sync::ledger::Ledger;

/// An analysed program, its supergraph with the calls localised, and the nodes of it.
#[derive(Drop)]
pub struct CProgram {
    analysis: Analysis,
    sharp: bool,
    flow: Flow,
    nodes: Vec<Node>,
    sources: Vec<Sources>,
    ghost few: { length flow.nodes < 2 ^ 32 },
    ghost same: { flow.nodes ≡ analysis.flow.nodes } by { Prim.hlevel props },
    ghost numbers: { map (λ (x : Node). x.number) nodes.items ≡ flow.nodes } by { Prim.hlevel props },
    ghost long: { length sources.items ≡ length flow.nodes },
    ghost joined: { ∥ AreSources flow flow.nodes sources.items ∥₁ },
    ghost made: { ∥ AreNodes (analysed_of analysis) sharp analysis.flow.nodes nodes.items ∥₁ },
    ghost equations: { ∥ AreEquations
        (equations_of (analysed_of analysis) sharp flow nodes.items sources.items) ∥₁ },
}

impl CProgram {
    ghost use Rattle.std.specs.Prelude.{◌≡◌, map, IfOk};
    ghost use Rattle.sp_effect_scene.specs.View.{analysed_of};

    /// The system of an analysed program. In the sharp mode a run goes on behind an access as its
    /// check says.
    pub fn new(alloc: Global, analysis: Analysis, sharp: bool) -> Result<CProgram, AllocError>
        ensures program { IfOk result (λ program.
            analysed_of program.analysis ≡ analysed_of analysis) }
        ensures mode { IfOk result (λ program. program.sharp ≡ sharp) }
    {
        let nodes = nodes_of(alloc, &analysis, sharp)?;
        let accessed = accessed(alloc, &analysis, sharp, &nodes)?;
        let flow = localise(
            alloc,
            &analysis.lowered,
            &analysis.flow,
            analysis.pre.calls(),
            accessed,
        )?;
        let sources = Sources::all(alloc, &flow)?;
        Ok(CProgram {
            analysis,
            sharp,
            flow,
            nodes,
            sources,
        })
    }

    /// The analysed program.
    pub fn analysis(&self) -> &Analysis
        ensures { result.now ≡ self.now.analysis }
    {
        &self.analysis
    }

    /// The supergraph, with the calls localised.
    pub fn flow(&self) -> &Flow
        ensures { result.now ≡ self.now.flow }
    {
        &self.flow
    }

    /// The nodes, in the order of their numbers in the program.
    pub fn nodes(&self) -> &[Node]
        ensures { result.now ≡ self.now.nodes.items }
    {
        self.nodes.as_slice()
    }
}

impl System for CProgram {
    ghost use Rattle.sp_transfer.specs.Equations.{meaning_of};
    ghost use Rattle.sp_transfer.proofs.SystemLaws.{equations_are_system};
    ghost use Rattle.sp_defuse.specs.Program.{equations_in};

    type Value = Slot;

    ghost meaning = { λ s. meaning_of (equations_in s) };

    fn nodes(&self) -> u32 {
        self.nodes.len() as u32
    }

    fn locations(&self) -> u32 {
        self.analysis.locations.cells.len() as u32
    }

    fn edges_into(&self, node: u32) -> &[u32] {
        self.sources[node as usize].places()
    }

    fn passes(&self, from: u32, to: u32, location: u32) -> bool {
        self.sources[to as usize].pass(&self.flow, from, location)
    }

    fn defs(&self, node: u32) -> &[u32] {
        self.nodes[node as usize].defs.as_slice()
    }

    fn uses(&self, node: u32) -> &[u32] {
        self.nodes[node as usize].uses.as_slice()
    }

    fn evaluate<L: Ledger>(
        &self,
        alloc: Global,
        node: u32,
        input: &[Slot],
        output: &mut [Slot],
        steps: &mut Steps<L>,
    ) -> Result<(), AllocError> {
        let at = &self.nodes[node as usize];
        let view = GivenAt::new(at.uses.as_slice(), input);
        let defined = Definitions {
            places: at.defs.as_slice(),
            cuts: &at.cuts,
            sharp: self.sharp,
        };
        effect(
            alloc,
            &self.analysis,
            at.number,
            &view,
            output,
            &defined,
            steps,
        )?;
        Ok(())
    }

    ghost lawful = { λ s. equations_are_system (equations_in s) s.analysis.whole s.equations };
}
