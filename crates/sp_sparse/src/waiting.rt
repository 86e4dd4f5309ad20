//! The nodes that wait to be evaluated.
ghost use Rattle.std.specs.Prelude.{◌≡◌, ◌≤◌, ◌<◌, ◌+◌, ◌*◌, ◌++◌, ℕ, true, [], ◌∷◌, length, take, drop, slice_index, slice_range, vec_len, nat_eq, if◌then◌else◌, IfOk};
ghost use Rattle.sp_lattice.specs.System.{has};
ghost use Rattle.sp_sparse.specs.inner.Queue.{Removes, most_shown};

use std::alloc::{AllocError, Global};
use std::marker::Model;

/// How many of the nodes that wait a picker is shown: so one that goes over them all stays cheap.
pub const MOST_SHOWN: usize = 128;

/// The nodes that wait, none of them twice.
///
/// They are a window of a buffer with room for twice as many nodes as there are. A node comes in at the window's end; where
/// that is the buffer's end, the window first moves back to the front, which at least as many additions have paid.
/// The first and the last node leave by moving an end of the window, and another one by giving its place to the last.
#[derive(Drop)]
pub(crate) struct WaitingNodes {
    buffer: Vec<u32>,
    first: usize,
    end: usize,
    is_waiting: Vec<bool>,
}

impl Model for WaitingNodes {
    ghost use Rattle.std.specs.Prelude.{length, slice_range};
    ghost use Rattle.sp_lattice.specs.Waiting.{Waiting};
    ghost use Rattle.sp_sparse.specs.inner.Queue.{IsWindow};

    ghost Value = { Waiting };

    ghost view = { λ w. record {
      nodes = length w.is_waiting.items;
      waiting = slice_range w.buffer.items w.first w.end;
    } };

    ghost invariant = { λ w. IsWindow w.buffer.items w.first w.end w.is_waiting.items };
}

impl WaitingNodes {
    /// Every node below `nodes` waits.
    pub(crate) fn all(alloc: Global, nodes: u32) -> Result<WaitingNodes, AllocError>
        ensures nodes { IfOk result (λ list. list.nodes ≡ nodes) }
        ensures all { IfOk result (λ list. (n : ℕ) → n < nodes → has n list.waiting ≡ true) }
    {
        let count = nodes as usize;
        let mut buffer = vec![in alloc; 0; count * 2]?;
        let mut is_waiting = Vec::with_capacity(alloc, count)?;
        for node in 0..nodes {
            buffer[node as usize] = node;
            is_waiting.push(true)?;
        }
        Ok(WaitingNodes {
            buffer,
            first: 0,
            end: count,
            is_waiting,
        })
    }

    /// The first of the nodes that wait, at most [`MOST_SHOWN`] of them.
    pub(crate) fn front(&self) -> &[u32]
        ensures { result.now ≡ take most_shown self.now.waiting }
    {
        let count = (self.end - self.first).min(MOST_SHOWN);
        &self.buffer[self.first..self.first + count]
    }

    /// Whether no node waits.
    pub(crate) fn is_empty(&self) -> bool
        ensures { result ≡ nat_eq (length self.now.waiting) 0 }
    {
        self.first == self.end
    }

    /// Takes out the node at an index.
    pub(crate) fn take(&mut self, index: usize) -> u32
        requires { index < length self.old.waiting }
        ensures value { result ≡ slice_index self.old.waiting index }
        ensures there { result < self.old.nodes }
        ensures nodes { self.new.nodes ≡ self.old.nodes }
        ensures removed { Removes self.old.waiting self.new.waiting result }
        ensures from_front { index ≡ 0 → self.new.waiting ≡ drop 1 self.old.waiting }
        ensures from_back { 0 < index → index + 1 ≡ length self.old.waiting →
            self.new.waiting ≡ take index self.old.waiting }
    {
        let place = self.first + index;
        let node = self.buffer[place];
        self.is_waiting[node as usize] = false;
        if index == 0 {
            self.first += 1;
            return node;
        }
        self.end -= 1;
        self.buffer[place] = self.buffer[self.end];
        node
    }

    /// Lets a node wait, as the last; one that waits already keeps its place.
    pub(crate) fn add(&mut self, node: u32)
        requires { node < self.old.nodes }
        ensures nodes { self.new.nodes ≡ self.old.nodes }
        ensures added { self.new.waiting ≡ (if has node self.old.waiting then self.old.waiting
            else self.old.waiting ++ node ∷ []) }
    {
        if self.is_waiting[node as usize] {
            return;
        }
        let (first, end) = make_room(&mut self.buffer, self.first, self.end);
        self.buffer[end] = node;
        self.first = first;
        self.end = end + 1;
        self.is_waiting[node as usize] = true;
    }
}

/// Moves a part of a buffer to its front where it ends at the buffer's end, and tells where it begins and ends then.
fn make_room(buffer: &mut Vec<u32>, first: usize, end: usize) -> (usize, usize)
    requires ordered { first ≤ end }
    requires within { end ≤ vec_len buffer.old }
    ensures ordered { result.0 ≤ result.1 }
    ensures same { slice_range buffer.new.items result.0 result.1 ≡ slice_range buffer.old.items first end }
    ensures length { vec_len buffer.new ≡ vec_len buffer.old }
    ensures room { end < first + vec_len buffer.old → result.1 < vec_len buffer.old }
{
    if end < buffer.len() {
        return (first, end);
    }
    buffer.copy_within(first..end, 0);
    (0, end - first)
}
