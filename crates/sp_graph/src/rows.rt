//! The edges that end at each node, while they are gathered.
ghost use Rattle.std.specs.Prelude.{◌≡◌, ◌<◌, ◌++◌, ◌∷◌, ℕ, [], true, false, length, Option, Some, replicate, IfOk, OnOk, Contains, List, slice_index, slice_index_or, ◌^◌};
ghost use Rattle.sp_ir.specs.Programs.{lowered_of};
ghost use Rattle.sp_base_sets.specs.Sets.{has};
ghost use Rattle.sp_base_sets.specs.Reached.{row};
ghost use Rattle.sp_graph.specs.Calls.{call_of, entry_of, exit_of};
ghost use Rattle.sp_graph.specs.Supergraph.{crossing};
ghost use Rattle.sp_graph.specs.Rows.{Between, Joins, IsEntering, IsLeaving, IsBeside, ComesBack, ReturnsFrom, Crosses, IsInside, IsBeginning, AreEdges};

use crate::edge::{Edge, Pass};
use crate::lookups::{call_of, entry_of, exit_of};
use sp_base_sets::NumberSet;
use sp_ir::Lowered;
use std::alloc::{AllocError, Global};
use std::marker::Model;

/// The edges that end at a node. Contracts see the list of them.
#[derive(Drop)]
pub(crate) struct Edges {
    list: Vec<Edge>,
}

impl Model for Edges {
    ghost use Rattle.std.specs.Prelude.{List};
    ghost use Rattle.sp_graph.specs.declared.edge.Edge.{Edge};

    ghost Value = { List Edge };

    ghost view = { λ s. s.list.items };
}

impl Edges {
    fn new(alloc: Global) -> Edges
        ensures { result ≡ [] }
    {
        Edges {
            list: Vec::new(alloc),
        }
    }

    fn push(&mut self, edge: Edge) -> Result<(), AllocError>
        ensures { OnOk result (self.new ≡ self.old ++ edge ∷ []) }
    {
        self.list.push(edge)?;
        Ok(())
    }

    pub(crate) fn as_slice(&self) -> &[Edge]
        ensures { result.now ≡ self.now }
    {
        self.list.as_slice()
    }
}

/// No edge ends anywhere.
pub(crate) fn no_edges(alloc: Global, count: usize) -> Result<Vec<Edges>, AllocError>
    ensures { IfOk result (λ rows. rows.items ≡ replicate count []) }
{
    let mut rows = Vec::new(alloc);
    for _ in 0..count {
        rows.push(Edges::new(alloc))?;
    }
    Ok(rows)
}

/// What passes between a call and the function that it calls.
fn crossing(local: bool, function: u32) -> Pass
    ensures { result ≡ crossing local function }
{
    if local {
        Pass::Inside(function)
    } else {
        Pass::All
    }
}

/// Adds an edge, where both its ends are among the nodes.
fn join(rows: &mut Vec<Edges>, nodes: &NumberSet, edge: Edge) -> Result<(), AllocError>
    requires { (n : ℕ) → has n nodes.now ≡ true → n < length rows.old.items }
    ensures { OnOk result (Joins (λ e. (e ≡ edge) × Between nodes.now e) rows.old.items rows.new.items) }
{
    if nodes.has(edge.from) && nodes.has(edge.to) {
        rows[edge.to as usize].push(edge)?;
    }
    Ok(())
}

/// Adds the edge from a call to a function.
fn enter(
    rows: &mut Vec<Edges>,
    nodes: &NumberSet,
    lowered: &Lowered,
    local: bool,
    node: u32,
    function: u32,
) -> Result<(), AllocError>
    requires { (n : ℕ) → has n nodes.now ≡ true → n < length rows.old.items }
    ensures { OnOk result (Joins (IsEntering (lowered_of lowered.now) nodes.now local node function) rows.old.items rows.new.items) }
{
    if let Some(to) = entry_of(lowered, function) {
        let pass = crossing(local, function);
        let from = node;
        join(rows, nodes, Edge { from, to, pass })?;
    }
    Ok(())
}

/// Adds the edge from a function to the node that returns from its call.
fn leave(
    rows: &mut Vec<Edges>,
    nodes: &NumberSet,
    lowered: &Lowered,
    local: bool,
    node: u32,
    function: u32,
) -> Result<(), AllocError>
    requires { (n : ℕ) → has n nodes.now ≡ true → n < length rows.old.items }
    ensures { OnOk result (Joins (IsLeaving (lowered_of lowered.now) nodes.now local node function) rows.old.items rows.new.items) }
{
    if let Some(from) = exit_of(lowered, function) {
        let pass = crossing(local, function);
        let to = node;
        join(rows, nodes, Edge { from, to, pass })?;
    }
    Ok(())
}

/// Adds the edge from a call to the node that returns from it, where calls are localised and it
/// calls some function.
fn pass_beside(
    rows: &mut Vec<Edges>,
    nodes: &NumberSet,
    local: bool,
    call: u32,
    node: u32,
    functions: &[u32],
) -> Result<(), AllocError>
    requires { (n : ℕ) → has n nodes.now ≡ true → n < length rows.old.items }
    ensures { OnOk result (Joins (IsBeside nodes.now local call node functions.now) rows.old.items rows.new.items) }
{
    if local && !functions.is_empty() {
        let pass = Pass::Beside(call);
        let from = call;
        let to = node;
        join(rows, nodes, Edge { from, to, pass })?;
    }
    Ok(())
}

/// Adds the edges from a call to the functions that it calls.
fn enter_each(
    rows: &mut Vec<Edges>,
    nodes: &NumberSet,
    lowered: &Lowered,
    local: bool,
    node: u32,
    functions: &[u32],
) -> Result<(), AllocError>
    requires { (n : ℕ) → has n nodes.now ≡ true → n < length rows.old.items }
    ensures { OnOk result (Joins (λ e. (k : ℕ) × (k < length functions.now) × IsEntering (lowered_of lowered.now) nodes.now local node (slice_index functions.now k) e) rows.old.items rows.new.items) }
{
    for function in functions {
        enter(rows, nodes, lowered, local, node, *function)?;
    }
    Ok(())
}

/// Adds the edges from the functions that a call calls to the node that returns from it.
fn leave_each(
    rows: &mut Vec<Edges>,
    nodes: &NumberSet,
    lowered: &Lowered,
    local: bool,
    node: u32,
    functions: &[u32],
) -> Result<(), AllocError>
    requires { (n : ℕ) → has n nodes.now ≡ true → n < length rows.old.items }
    ensures { OnOk result (Joins (λ e. (k : ℕ) × (k < length functions.now) × IsLeaving (lowered_of lowered.now) nodes.now local node (slice_index functions.now k) e) rows.old.items rows.new.items) }
{
    for function in functions {
        leave(rows, nodes, lowered, local, node, *function)?;
    }
    Ok(())
}

/// Adds the edges that end at a node and come from another function, or pass beside one.
fn come_back(
    rows: &mut Vec<Edges>,
    nodes: &NumberSet,
    lowered: &Lowered,
    calls: &[NumberSet],
    local: bool,
    node: u32,
) -> Result<(), AllocError>
    requires { (n : ℕ) → has n nodes.now ≡ true → n < length rows.old.items }
    ensures { OnOk result (Joins (ComesBack (lowered_of lowered.now) nodes.now calls.now local node) rows.old.items rows.new.items) }
{
    if let Some(call) = call_of(lowered, node) {
        if let Some(functions) = calls.get(call as usize) {
            return_from(
                rows,
                nodes,
                lowered,
                local,
                call,
                node,
                functions.as_slice(),
            )?;
        }
    }
    Ok(())
}

/// Adds the edges that end at the node which returns from a call of these functions.
fn return_from(
    rows: &mut Vec<Edges>,
    nodes: &NumberSet,
    lowered: &Lowered,
    local: bool,
    call: u32,
    node: u32,
    functions: &[u32],
) -> Result<(), AllocError>
    requires { (n : ℕ) → has n nodes.now ≡ true → n < length rows.old.items }
    ensures { OnOk result (Joins (ReturnsFrom (lowered_of lowered.now) nodes.now local call node functions.now) rows.old.items rows.new.items) }
{
    leave_each(rows, nodes, lowered, local, node, functions)?;
    pass_beside(rows, nodes, local, call, node, functions)?;
    Ok(())
}

/// Adds the edges between functions from or to each node, and those that pass beside them.
fn cross_each(
    rows: &mut Vec<Edges>,
    nodes: &NumberSet,
    lowered: &Lowered,
    calls: &[NumberSet],
    local: bool,
) -> Result<(), AllocError>
    requires inside { (n : ℕ) → has n nodes.now ≡ true → n < length rows.old.items }
    requires few { length calls.now < 2 ^ 32 }
    ensures { OnOk result (Joins (λ e. (k : ℕ) × (k < length calls.now) × Crosses (lowered_of lowered.now) nodes.now calls.now local k e) rows.old.items rows.new.items) }
{
    for node in 0..calls.len() as u32 {
        enter_each(
            rows,
            nodes,
            lowered,
            local,
            node,
            calls[node as usize].as_slice(),
        )?;
        come_back(rows, nodes, lowered, calls, local, node)?;
    }
    Ok(())
}

/// Adds the edges inside functions.
fn follow_each(
    rows: &mut Vec<Edges>,
    nodes: &NumberSet,
    flow: &[(u32, u32)],
) -> Result<(), AllocError>
    requires { (n : ℕ) → has n nodes.now ≡ true → n < length rows.old.items }
    ensures { OnOk result (Joins (λ e. (k : ℕ) × (k < length flow.now) × IsInside nodes.now flow.now k e) rows.old.items rows.new.items) }
{
    for (from, to) in flow {
        let from = *from;
        let to = *to;
        let pass = Pass::All;
        join(rows, nodes, Edge { from, to, pass })?;
    }
    Ok(())
}

/// Adds the edge from the start node to the function with which the program starts.
fn begin(rows: &mut Vec<Edges>, nodes: &NumberSet, lowered: &Lowered) -> Result<(), AllocError>
    requires { (n : ℕ) → has n nodes.now ≡ true → n < length rows.old.items }
    ensures { OnOk result (Joins (IsBeginning (lowered_of lowered.now) nodes.now) rows.old.items rows.new.items) }
{
    if let Some(to) = entry_of(lowered, lowered.main) {
        let from = 0;
        let pass = Pass::All;
        join(rows, nodes, Edge { from, to, pass })?;
    }
    Ok(())
}

/// The edges that end at each node.
pub(crate) fn edges_of(
    alloc: Global,
    lowered: &Lowered,
    nodes: &NumberSet,
    calls: &[NumberSet],
    local: bool,
) -> Result<Vec<Edges>, AllocError>
    requires few { length calls.now < 2 ^ 32 }
    requires long { length calls.now ≡ length (lowered_of lowered.now).nodes }
    requires inside { (n : ℕ) → has n nodes.now ≡ true → n < length calls.now }
    ensures { IfOk result (λ rows. AreEdges (lowered_of lowered.now) nodes.now calls.now local rows.items) }
{
    let mut rows = no_edges(alloc, calls.len())?;
    follow_each(&mut rows, nodes, &lowered.flow)?;
    begin(&mut rows, nodes, lowered)?;
    cross_each(&mut rows, nodes, lowered, calls, local)?;
    Ok(rows)
}
