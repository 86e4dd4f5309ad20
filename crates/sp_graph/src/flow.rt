//! The supergraph, with the calls localised or not.
ghost use Rattle.std.specs.Prelude.{◌≡◌, ◌↔◌, ◌<◌, ◌≤◌, ◌^◌, ◌∷◌, ℕ, [], true, false, length, Some, slice_index_or, IfOk, OnOk, not, nat_lt, ◌&&◌};
ghost use Rattle.std.specs.List.{list_any};
ghost use Rattle.sp_ir.specs.Programs.{lowered_of};
ghost use Rattle.sp_ir.specs.Formed.{IsFormed};
ghost use Rattle.sp_base_sets.specs.Sets.{has, Ascends};
ghost use Rattle.sp_base_sets.specs.Reached.{row};
ghost use Rattle.sp_graph.specs.Accessed.{accesses};
ghost use Rattle.sp_graph.specs.Calls.{AreCallees, function_of};
ghost use Rattle.sp_graph.specs.Supergraph.{IsSupergraph, edges_at, passes_by};
ghost use Rattle.sp_graph.specs.Rows.{is_inside};

use crate::accessed::Accessed;
use crate::edge::{Edge, Pass};
use crate::functions::{CallGraph, lists_of};
use crate::lookups::function_of;
use crate::rows::{Edges, edges_of};
use sp_base_sets::{NumberSet, reached};
use sp_ir::Lowered;
use std::alloc::{AllocError, Global};
use std::marker::Model;

/// A supergraph. Contracts see it as a `Graph` of `specs.Supergraph`.
#[derive(Drop)]
pub struct Flow {
    nodes: NumberSet,
    rows: Vec<Edges>,
    accessed: Accessed,
    calls: Vec<NumberSet>,
}

impl Model for Flow {
    ghost use Rattle.sp_graph.specs.Supergraph.{Graph};

    ghost Value = { Graph };

    ghost view = { λ g. record {
      nodes = g.nodes;
      rows = g.rows.items;
      accessed = g.accessed;
      calls = g.calls.items;
    } };
}

impl Flow {
    /// The nodes of the graph by their numbers in the program, ascending.
    pub fn nodes(&self) -> &[u32]
        ensures { result.now ≡ self.now.nodes }
    {
        self.nodes.as_slice()
    }

    /// The edges that end at a node of the program; none where it isn't in the graph.
    pub fn edges_into(&self, node: u32) -> &[Edge]
        ensures { result.now ≡ edges_at self.now.rows node }
    {
        match self.rows.get(node as usize) {
            Some(edges) => edges.as_slice(),
            None => &[],
        }
    }

    /// Whether a location passes along an edge of the graph.
    pub fn passes(&self, edge: &Edge, location: u32) -> bool
        ensures { result ≡ passes_by self.now edge.now.pass location }
    {
        match edge.pass {
            Pass::All => true,
            Pass::Inside(function) => self.accessed.has(function, location),
            Pass::Beside(call) => match self.calls.get(call as usize) {
                Some(functions) => lacks(&self.accessed, functions.as_slice(), location),
                None => false,
            },
        }
    }
}

/// Whether one of these functions doesn't access a location.
fn lacks(accessed: &Accessed, functions: &[u32], location: u32) -> bool
    ensures { result ≡ list_any (λ f. not (accesses accessed.now f location)) functions.now }
{
    functions.iter().any(|f| !accessed.has(*f, location))
}

/// Whether a node of this function is in the graph, where these functions are reached.
fn is_inside(is_reached: &[bool], function: Option<u32>) -> bool
    ensures { result ≡ is_inside is_reached.now function }
{
    match function {
        None => true,
        Some(function) => match is_reached.get(function as usize) {
            Some(is_reached) => *is_reached,
            None => false,
        },
    }
}

/// The nodes of the graph, where these functions are reached.
fn nodes_of(alloc: Global, lowered: &Lowered, is_reached: &[bool]) -> Result<NumberSet, AllocError>
    requires { length (lowered_of lowered.now).nodes ≤ 500000 }
    ensures { IfOk result (λ nodes. (n : ℕ) → has n nodes ≡
        (nat_lt n (length (lowered_of lowered.now).nodes) && is_inside is_reached.now (function_of (lowered_of lowered.now) n))) }
{
    let mut nodes = NumberSet::new(alloc);
    for node in 0..lowered.nodes.len() as u32 {
        let function = function_of(lowered, node);
        if is_inside(is_reached, function) {
            nodes.add(node)?;
        }
    }
    Ok(nodes)
}

/// The supergraph of a program in which these are the calls; every location passes along every edge.
pub fn supergraph(alloc: Global, lowered: &Lowered, calls: &CallGraph) -> Result<Flow, AllocError>
    requires formed { IsFormed (lowered_of lowered.now) }
    requires callees { AreCallees (lowered_of lowered.now) calls.now }
    ensures { IfOk result (IsSupergraph (lowered_of lowered.now) calls.now false) }
{
    let lists = lists_of(alloc, lowered, calls.lists())?;
    let is_reached = reached(alloc, &lists, &[lowered.main])?;
    let nodes = nodes_of(alloc, lowered, &is_reached)?;
    let rows = edges_of(alloc, lowered, &nodes, calls.lists(), false)?;
    let flow = Flow {
        nodes,
        rows,
        accessed: Accessed::none(alloc),
        calls: Vec::new(alloc),
    };
    Ok(flow)
}

/// The supergraph with localised calls: only what a function accesses passes into it and back, and
/// what some function that a call calls doesn't access passes beside the call. `flow` is the
/// supergraph where every location passes.
pub fn localise(
    alloc: Global,
    lowered: &Lowered,
    flow: &Flow,
    calls: &CallGraph,
    accessed: Accessed,
) -> Result<Flow, AllocError>
    requires few { length calls.now < 2 ^ 32 }
    requires long { length calls.now ≡ length (lowered_of lowered.now).nodes }
    requires inside { (n : ℕ) → has n flow.now.nodes ≡ true → n < length calls.now }
    ensures graph { IfOk result (λ g. IsSupergraph (lowered_of lowered.now) calls.now false flow.now
        → IsSupergraph (lowered_of lowered.now) calls.now true g) }
    ensures nodes { IfOk result (λ g. g.nodes ≡ flow.now.nodes) }
    ensures accessed { IfOk result (λ g. g.accessed ≡ accessed) }
    ensures calls { IfOk result (λ g. g.calls ≡ calls.now) }
{
    let rows = edges_of(alloc, lowered, &flow.nodes, calls.lists(), true)?;
    let localised = Flow {
        nodes: flow.nodes.copy(alloc)?,
        rows,
        accessed,
        calls: NumberSet::copies(alloc, calls.lists())?,
    };
    Ok(localised)
}
