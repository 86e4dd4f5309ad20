//! Walks backward from a use of a location to its definitions.
ghost use Rattle.std.specs.Prelude.{◌≡◌, ◌<◌, ◌&&◌, ℕ, not, false, nat_eq, length, slice_index_or, vec_len, IfOk, OnOk};
ghost use Rattle.sp_lattice.specs.System.{AllBelow, has};
ghost use Rattle.sp_deps.specs.inner.Stretches.{AreReady};
ghost use Rattle.sp_deps.specs.inner.Walk.{reached, IsListed, IsFresh, AreMarked, Reaches, IsFound, AreKnown, StepsBack, GoesBehind};

use crate::earlier::Earlier;
use crate::stretches::Stretches;
use sp_lattice::System;
use std::alloc::{AllocError, Global};
use std::mem;

/// What a walk has reached: nodes from which a path leads to the use. Those that define the location are
/// found, and the walk goes no further there; the others wait for a look behind them.
///
/// One serves all walks in turn, so that what a walk costs depends on what it reaches alone.
#[derive(Drop)]
pub(crate) struct Walk {
    pub(crate) is_reached: Vec<bool>,
    pub(crate) waiting: Vec<u32>,
    pub(crate) found: Vec<u32>,
}

/// None of so many nodes is reached.
pub(crate) fn fresh_walk(alloc: Global, nodes: u32) -> Result<Walk, AllocError>
    ensures { IfOk result (IsFresh nodes) }
{
    let mut is_reached = Vec::new(alloc);
    for _ in 0..nodes {
        is_reached.push(false)?;
    }
    Ok(Walk {
        is_reached,
        waiting: Vec::new(alloc),
        found: Vec::new(alloc),
    })
}

/// Walks backward from the use of `location` by `to`, along edges that pass it, up to its definitions.
///
/// Where the walk comes to a node to whose use of the location an earlier walk led, it takes over what that one
/// found, as long as it has taken over no more than it reached: so uses behind one another are walked once
/// where their numbers follow the flow, and taking over never costs much more than walking.
pub(crate) fn walk_back<S: System>(
    system: &S,
    walk: &mut Walk,
    earlier: &Earlier,
    stretches: &Stretches,
    location: u32,
    to: u32,
) -> Result<(), AllocError>
    requires location { location < (S.meaning system.now).locations }
    requires to { to < (S.meaning system.now).nodes }
    requires fresh { IsFresh (S.meaning system.now).nodes walk.old }
    requires known { AreKnown (S.meaning system.now) location earlier.now }
    requires ready { AreReady (S.meaning system.now) location stretches.now }
    ensures listed { OnOk result (IsListed (S.meaning system.now) location walk.new) }
    ensures found { OnOk result (IsFound (S.meaning system.now) location to walk.new.found.items) }
{
    look_behind(system, walk, location, to)?;
    let mut taken_over = 0;
    let mut at = 0;
    'waiting: while at < walk.waiting.len() {
        let node = walk.waiting[at];
        go_behind(
            system,
            walk,
            earlier,
            stretches,
            &mut taken_over,
            location,
            node,
        )?;
        at += 1;
    }
    Ok(())
}

/// Reaches what stands behind a node that waited. `taken_over` counts what was taken over from earlier walks.
fn go_behind<S: System>(
    system: &S,
    walk: &mut Walk,
    earlier: &Earlier,
    stretches: &Stretches,
    taken_over: &mut usize,
    location: u32,
    node: u32,
) -> Result<(), AllocError>
    requires location { location < (S.meaning system.now).locations }
    requires node { node < (S.meaning system.now).nodes }
    requires known { AreKnown (S.meaning system.now) location earlier.now }
    requires ready { AreReady (S.meaning system.now) location stretches.now }
    requires listed { IsListed (S.meaning system.now) location walk.old }
    ensures listed { OnOk result (IsListed (S.meaning system.now) location walk.new) }
    ensures goes { OnOk result (GoesBehind (S.meaning system.now) location stretches.now.heads.items
        earlier.now node walk.old walk.new) }
{
    match earlier.of(node) {
        Some(found) => {
            let reached = walk.waiting.len().saturating_add(walk.found.len());
            if *taken_over > reached {
                look_behind(system, walk, location, node)?;
                return Ok(());
            }
            *taken_over = taken_over.saturating_add(found.len());
            reach_all(system, walk, location, found)?;
            Ok(())
        }
        None => {
            step_back(system, walk, stretches, location, node)?;
            Ok(())
        }
    }
}

/// Reaches the head of a node's stretch, where the location passes that, else what stands behind the node.
fn step_back<S: System>(
    system: &S,
    walk: &mut Walk,
    stretches: &Stretches,
    location: u32,
    node: u32,
) -> Result<(), AllocError>
    requires location { location < (S.meaning system.now).locations }
    requires node { node < (S.meaning system.now).nodes }
    requires ready { AreReady (S.meaning system.now) location stretches.now }
    requires listed { IsListed (S.meaning system.now) location walk.old }
    ensures listed { OnOk result (IsListed (S.meaning system.now) location walk.new) }
    ensures steps { OnOk result (StepsBack (S.meaning system.now) location
        stretches.now.heads.items node walk.old walk.new) }
{
    match stretches.head(node) {
        Some(head) => {
            reach(system, walk, location, head)?;
            Ok(())
        }
        None => {
            look_behind(system, walk, location, node)?;
            Ok(())
        }
    }
}

/// Reaches each of these nodes.
fn reach_all<S: System>(
    system: &S,
    walk: &mut Walk,
    location: u32,
    nodes: &[u32],
) -> Result<(), AllocError>
    requires nodes { AllBelow (S.meaning system.now).nodes nodes.now }
    requires listed { IsListed (S.meaning system.now) location walk.old }
    ensures listed { OnOk result (IsListed (S.meaning system.now) location walk.new) }
    ensures reaches { OnOk result (Reaches walk.old walk.new (λ n. has n nodes.now)) }
{
    for node in nodes {
        reach(system, walk, location, *node)?;
    }
    Ok(())
}

/// Reaches each node from which an edge that passes `location` leads to `node`.
fn look_behind<S: System>(
    system: &S,
    walk: &mut Walk,
    location: u32,
    node: u32,
) -> Result<(), AllocError>
    requires location { location < (S.meaning system.now).locations }
    requires node { node < (S.meaning system.now).nodes }
    requires listed { IsListed (S.meaning system.now) location walk.old }
    ensures listed { OnOk result (IsListed (S.meaning system.now) location walk.new) }
    ensures reaches { OnOk result (Reaches walk.old walk.new
        (λ n. has n ((S.meaning system.now).into node) && (S.meaning system.now).passes n node location)) }
{
    let edges = system.edges_into(node);
    for from in edges {
        let passes = system.passes(*from, node, location);
        if passes {
            reach(system, walk, location, *from)?;
        }
    }
    Ok(())
}

/// Reaches a node, where it isn't reached yet.
fn reach<S: System>(system: &S, walk: &mut Walk, location: u32, node: u32) -> Result<(), AllocError>
    requires node { node < (S.meaning system.now).nodes }
    requires listed { IsListed (S.meaning system.now) location walk.old }
    ensures listed { OnOk result (IsListed (S.meaning system.now) location walk.new) }
    ensures reaches { OnOk result (Reaches walk.old walk.new (λ n. nat_eq n node)) }
{
    if walk.is_reached[node as usize] {
        return Ok(());
    }
    walk.is_reached[node as usize] = true;
    if defines(system, node, location) {
        walk.found.push(node)?;
    } else {
        walk.waiting.push(node)?;
    }
    Ok(())
}

/// Whether `node` defines `location`.
fn defines<S: System>(system: &S, node: u32, location: u32) -> bool
    requires { node < (S.meaning system.now).nodes }
    ensures { result ≡ has location ((S.meaning system.now).defs node) }
{
    system.defs(node).binary_search(&location).is_ok()
}

/// Takes out what is found, and forgets what is reached. It goes over the lists alone, not over all nodes.
pub(crate) fn take_found(alloc: Global, walk: &mut Walk) -> Vec<u32>
    requires { AreMarked walk.old }
    ensures found { result.items ≡ walk.old.found.items }
    ensures fresh { IsFresh (length walk.old.is_reached.items) walk.new }
{
    unmark(&mut walk.is_reached, &walk.waiting);
    unmark(&mut walk.is_reached, &walk.found);
    walk.waiting.clear();
    mem::replace(&mut walk.found, Vec::new(alloc))
}

/// Takes the marks off these nodes.
fn unmark(marks: &mut Vec<bool>, nodes: &Vec<u32>)
    requires { AllBelow (vec_len marks.old) nodes.now.items }
    ensures length { vec_len marks.new ≡ vec_len marks.old }
    ensures marks { (n : ℕ) → slice_index_or marks.new.items n false ≡
        (slice_index_or marks.old.items n false && not (has n nodes.now.items)) }
{
    for node in nodes {
        marks[*node as usize] = false;
    }
}
