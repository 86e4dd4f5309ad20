//! An order of service: reverse postorder along the edges.
//!
//! A depth-first search from node 0, and then from each node that isn't found yet, finishes a node
//! when all behind it are. In the reverse of that order a node comes after those that lead to it, but
//! for the edges that close a loop.
ghost use Rattle.std.specs.Prelude.{◌≡◌, ◌<◌, ◌^◌, ℕ, true, false, length, slice_index_or, IfOk};
ghost use Rattle.sp_sparse.specs.Order.{IsOrder};
ghost use Rattle.sp_sparse.specs.inner.Order.{AreGiven};

use sp_lattice::System;
use std::alloc::{AllocError, Global};

/// The number of no edge.
const NONE: u32 = u32::MAX;

/// The edges of a system by the nodes from which they lead.
#[derive(Drop)]
struct Edges {
    /// Of each node its first edge.
    first: Vec<u32>,
    /// Of each edge the node to which it leads, and the next edge of its own node.
    to: Vec<(u32, u32)>,
}

impl Edges {
    fn of<S: System>(alloc: Global, system: &S) -> Result<Edges, AllocError> {
        let mut first = vec![in alloc; NONE; system.nodes() as usize]?;
        let mut to = Vec::new(alloc);
        for node in 0..system.nodes() {
            for from in system.edges_into(node) {
                // An edge that can't be numbered is left out: every order serves.
                let Ok(edge) = u32::try_from(to.len()) else {
                    continue;
                };
                if let Some(last) = first.get_mut(*from as usize) {
                    to.push((node, *last))?;
                    *last = edge;
                }
            }
        }
        Ok(Edges { first, to })
    }

    fn first_of(&self, node: u32) -> u32 {
        match self.first.get(node as usize) {
            Some(edge) => *edge,
            None => NONE,
        }
    }

    fn get(&self, edge: u32) -> Option<(u32, u32)> {
        self.to.get(edge as usize).copied()
    }
}

/// A depth-first search.
#[derive(Drop)]
struct Search {
    /// The path to the node that is looked at: each node of it with the next edge to go along.
    path: Vec<(u32, u32)>,
    /// Of each node whether it was found.
    found: Vec<bool>,
    /// The nodes that are finished, in their order.
    finished: Vec<u32>,
}

impl Search {
    fn new(alloc: Global, nodes: u32) -> Result<Search, AllocError> {
        Ok(Search {
            path: Vec::new(alloc),
            found: vec![in alloc; false; nodes as usize]?,
            finished: Vec::new(alloc),
        })
    }

    /// Goes to a node, if it wasn't found yet.
    fn enter(&mut self, edges: &Edges, node: u32) -> Result<(), AllocError> {
        if let Some(found) = self.found.get_mut(node as usize) {
            if !*found {
                *found = true;
                self.path.push((node, edges.first_of(node)))?;
            }
        }
        Ok(())
    }

    /// Goes along one edge of the path's last node, or finishes it.
    fn step(&mut self, edges: &Edges) -> Result<(), AllocError> {
        let Some((node, edge)) = self.path.pop() else {
            return Ok(());
        };
        match edges.get(edge) {
            Some((to, next)) => {
                self.path.push((node, next))?;
                self.enter(edges, to)
            }
            None => {
                self.finished.push(node)?;
                Ok(())
            }
        }
    }

    /// Finishes all that is found from a node. Each edge takes a step, and so does each node.
    fn search(&mut self, edges: &Edges, node: u32) -> Result<(), AllocError> {
        self.enter(edges, node)?;
        for _ in 0..edges.to.len() + edges.first.len() {
            if self.path.is_empty() {
                break;
            }
            self.step(edges)?;
        }
        Ok(())
    }
}

/// The nodes as a depth-first search finishes them.
fn finished<S: System>(alloc: Global, system: &S) -> Result<Vec<u32>, AllocError> {
    let edges = Edges::of(alloc, system)?;
    let mut search = Search::new(alloc, system.nodes())?;
    for node in 0..system.nodes() {
        search.search(&edges, node)?;
    }
    Ok(search.finished)
}

/// Numbers that are given to nodes, in the order of the calls.
#[derive(Drop)]
struct Numbers {
    /// Of each node its number, or 0 where it has none yet.
    order: Vec<u32>,
    /// Of each node whether it has one.
    given: Vec<bool>,
    /// The next number.
    next: u32,
}

impl Numbers {
    fn new(alloc: Global, nodes: u32) -> Result<Numbers, AllocError>
        ensures given { IfOk result (λ ns. AreGiven nodes ns.order.items ns.given.items ns.next) }
        ensures none { IfOk result (λ ns. ns.next ≡ 0) }
    {
        Ok(Numbers {
            order: vec![in alloc; 0; nodes as usize]?,
            given: vec![in alloc; false; nodes as usize]?,
            next: 0,
        })
    }

    /// Gives a node the next number, if it has none yet.
    fn give(&mut self, node: u32)
        requires few { length self.old.order.items < 2 ^ 32 }
        requires numbers { AreGiven (length self.old.order.items) self.old.order.items self.old.given.items self.old.next }
        ensures numbers { AreGiven (length self.old.order.items) self.new.order.items self.new.given.items self.new.next }
        ensures long { length self.new.order.items ≡ length self.old.order.items }
        ensures there { node < length self.old.order.items → slice_index_or self.new.given.items node false ≡ true }
        ensures kept { (n : ℕ) → slice_index_or self.old.given.items n false ≡ true
            → slice_index_or self.new.given.items n false ≡ true }
    {
        let at = node as usize;
        if at < self.given.len() && !self.given[at] {
            self.given[at] = true;
            self.order[at] = self.next;
            self.next += 1;
        }
    }
}

/// Numbers the nodes of a list from its end on, and behind them those that aren't in it.
fn numbered(alloc: Global, list: &[u32], nodes: u32) -> Result<Vec<u32>, AllocError>
    ensures { IfOk result (λ order. IsOrder nodes order.items) }
{
    let mut numbers = Numbers::new(alloc, nodes)?;
    for node in list.iter().rev() {
        numbers.give(*node);
    }
    for node in 0..nodes {
        numbers.give(node);
    }
    Ok(numbers.order)
}

/// An order of service for the nodes of a system: one number for each, all different and below the
/// count of nodes. It is reverse postorder from node 0, which no clause says, since every order serves.
pub fn order_of<S: System>(alloc: Global, system: &S) -> Result<Vec<u32>, AllocError>
    ensures { IfOk result (λ order. IsOrder (S.meaning system.now).nodes order.items) }
{
    let finished = finished(alloc, system)?;
    numbered(alloc, finished.as_slice(), system.nodes())
}
