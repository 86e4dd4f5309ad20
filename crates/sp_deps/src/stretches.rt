//! Stretches of nodes that a walk passes in one step.
//!
//! Where all edges into a node pass every location, and lead from nodes of lesser numbers that belong to
//! one *stretch*, the node belongs to it too; else it begins a stretch, as its *head*. So a path comes into
//! a stretch by its head alone. Where a stretch doesn't define a location, a walk goes from each of its
//! nodes to the head at once.
ghost use Rattle.std.specs.Prelude.{◌≡◌, ◌≢◌, ◌<◌, ℕ, true, false, length, slice_index_or, vec_len, IfOk, IfSome};
ghost use Rattle.sp_lattice.specs.System.{AllBelow, has};
ghost use Rattle.sp_deps.specs.Open.{AreOpen};
ghost use Rattle.sp_deps.specs.inner.Stretches.{IsHead, AreHeads, HasTouching};

use crate::groups::grouped;
use sp_lattice::System;
use sp_lattice::rows::Rows;
use std::alloc::{AllocError, Global};

/// For each node the head of its stretch, and for each head whether the location at hand passes its
/// stretch, which doesn't touch it.
#[derive(Drop)]
pub(crate) struct Stretches {
    pub(crate) heads: Vec<u32>,
    pub(crate) is_passed: Vec<bool>,
}

impl Stretches {
    /// The head of a node's stretch, where that is another node and the location passes the stretch.
    pub(crate) fn head(&self, node: u32) -> Option<u32>
        ensures is { IfSome result (λ head. slice_index_or self.now.heads.items node 0 ≡ head) }
        ensures apart { IfSome result (λ head. head ≢ node) }
        ensures passed { IfSome result (λ head.
            slice_index_or self.now.is_passed.items head false ≡ true) }
    {
        let head = self.heads.get(node as usize).copied()?;
        let is_passed = self.is_passed.get(head as usize).copied()?;
        if head == node || !is_passed {
            return None;
        }
        Some(head)
    }

    /// These stretches touch the location.
    pub(crate) fn touch(&mut self, heads: &[u32])
        ensures heads { self.new.heads.items ≡ self.old.heads.items }
        ensures touched { (n : ℕ) → slice_index_or self.new.is_passed.items n false ≡ true
            → has n heads.now ≡ false }
    {
        set_marks(&mut self.is_passed, heads, false);
    }

    /// They don't touch the next.
    pub(crate) fn leave(&mut self, heads: &[u32])
        ensures { self.new.heads.items ≡ self.old.heads.items }
    {
        set_marks(&mut self.is_passed, heads, true);
    }
}

/// Gives each of these places the mark.
fn set_marks(marks: &mut Vec<bool>, places: &[u32], mark: bool)
    ensures { mark ≡ false → (n : ℕ) → slice_index_or marks.new.items n false ≡ true
        → has n places.now ≡ false }
{
    for place in places {
        set_mark(marks, *place, mark);
    }
}

/// Gives a place the mark, where there is such a place.
fn set_mark(marks: &mut Vec<bool>, place: u32, mark: bool)
    ensures { mark ≡ false → (n : ℕ) → slice_index_or marks.new.items n false ≡ true
        → (slice_index_or marks.old.items n false ≡ true) × (n ≢ place) }
{
    let place = place as usize;
    if place >= marks.len() {
        return;
    }
    marks[place] = mark;
}

/// The heads of all nodes, where `open` marks nodes into which every edge passes every location.
pub(crate) fn heads_of<S: System>(
    alloc: Global,
    system: &S,
    open: &[bool],
) -> Result<Vec<u32>, AllocError>
    requires { AreOpen (S.meaning system.now) open.now }
    ensures long { IfOk result (λ heads. length heads.items ≡ (S.meaning system.now).nodes) }
    ensures heads { IfOk result (λ heads. AreHeads (S.meaning system.now) heads.items) }
{
    let mut heads = Vec::new(alloc);
    'nodes: for node in 0..system.nodes() {
        let head = next_head(system, open, &heads, node);
        heads.push(head)?;
    }
    Ok(heads)
}

/// The head of the next node.
fn next_head<S: System>(system: &S, open: &[bool], heads: &[u32], node: u32) -> u32
    requires node { node < (S.meaning system.now).nodes }
    requires open { AreOpen (S.meaning system.now) open.now }
    requires next { length heads.now ≡ node }
    requires low { AllBelow (S.meaning system.now).nodes heads.now }
    ensures low { result < (S.meaning system.now).nodes }
    ensures head { IsHead (S.meaning system.now) heads.now node result }
{
    let place = node as usize;
    if place >= open.len() || !open[place] {
        return node;
    }
    let edges = system.edges_into(node);
    if edges.is_empty() || edges[0] >= node {
        return node;
    }
    let head = heads[edges[0] as usize];
    for from in edges {
        if *from >= node || heads[*from as usize] != head {
            return node;
        }
    }
    head
}

/// For each location the heads of the stretches that touch it: of which a node defines or uses it.
pub(crate) fn touching<S: System>(
    alloc: Global,
    system: &S,
    heads: &[u32],
) -> Result<Rows<u32>, AllocError>
    requires { length heads.now ≡ (S.meaning system.now).nodes }
    ensures { IfOk result (HasTouching (S.meaning system.now) heads.now) }
{
    let mut locations = Vec::new(alloc);
    let mut touching = Vec::new(alloc);
    'nodes: for node in 0..system.nodes() {
        let head = heads[node as usize];
        let defs = system.defs(node);
        'defs: for location in defs {
            locations.push(*location)?;
            touching.push(head)?;
        }
        let uses = system.uses(node);
        'uses: for location in uses {
            locations.push(*location)?;
            touching.push(head)?;
        }
    }
    let rows = grouped(alloc, system.locations() as usize, &locations, &touching)?;
    Ok(rows)
}
