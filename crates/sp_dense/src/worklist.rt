//! The nodes that wait to be visited.
ghost use Rattle.std.specs.Prelude.{◌≡◌, ◌≤◌, ◌<◌, ◌+◌, ◌++◌, ℕ, true, length, option_to_list, [], IfOk, IfSome, IfNone, OnOk};
ghost use Rattle.sp_lattice.specs.System.{AllBelow, has};
ghost use Rattle.sp_dense.specs.inner.Waiting.{Adds};

use std::alloc::{AllocError, Global};
use std::collections::VecDeque;
use std::marker::Model;

/// A queue of nodes, none of which is in it twice.
#[derive(Drop)]
pub(crate) struct Worklist {
    queue: VecDeque<u32>,
    is_waiting: Vec<bool>,
}

impl Model for Worklist {
    ghost use Rattle.std.specs.Prelude.{length};
    ghost use Rattle.sp_lattice.specs.Waiting.{Waiting};
    ghost use Rattle.sp_dense.specs.inner.Waiting.{IsKept};

    ghost Value = { Waiting };

    ghost view = { λ w. record { nodes = length w.is_waiting.items; waiting = w.queue.items } };

    ghost invariant = { λ w. IsKept w.is_waiting.items w.queue.items };
}

impl Worklist {
    /// Every node below `nodes` waits.
    pub(crate) fn all(alloc: Global, nodes: u32) -> Result<Worklist, AllocError>
        ensures nodes { IfOk result (λ list. list.nodes ≡ nodes) }
        ensures all { IfOk result (λ list. (n : ℕ) → n < nodes → has n list.waiting ≡ true) }
        ensures few { IfOk result (λ list. length list.waiting ≡ nodes) }
    {
        let mut queue = VecDeque::new(alloc);
        let mut is_waiting = Vec::new(alloc);
        for node in 0..nodes {
            queue.push_back(node)?;
            is_waiting.push(true)?;
        }
        Ok(Worklist { queue, is_waiting })
    }

    /// Takes out the node that has waited longest.
    pub(crate) fn take(&mut self) -> Option<u32>
        ensures taken { self.old.waiting ≡ option_to_list result ++ self.new.waiting }
        ensures empty { IfNone result (self.old.waiting ≡ []) }
        ensures nodes { self.new.nodes ≡ self.old.nodes }
        ensures there { IfSome result (λ node. node < self.old.nodes) }
    {
        let node = self.queue.pop_front()?;
        self.is_waiting[node as usize] = false;
        Some(node)
    }

    /// Lets these nodes wait, behind those that do.
    pub(crate) fn add(&mut self, nodes: &[u32]) -> Result<(), AllocError>
        requires { AllBelow self.old.nodes nodes.now }
        ensures nodes { self.new.nodes ≡ self.old.nodes }
        ensures added { OnOk result (Adds self.old.waiting self.new.waiting nodes.now) }
        ensures few { length self.new.waiting ≤ length self.old.waiting + self.old.nodes }
    {
        for node in nodes {
            let place = *node as usize;
            if self.is_waiting[place] {
                continue;
            }
            self.queue.push_back(*node)?;
            self.is_waiting[place] = true;
        }
        Ok(())
    }
}
