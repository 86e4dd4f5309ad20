//! What the walks to the other uses of a location found.
ghost use Rattle.std.specs.Prelude.{◌≡◌, ◌<◌, ◌++◌, ◌∷◌, [], length, IfOk, IfSome, OnOk};
ghost use Rattle.sp_deps.specs.inner.Walk.{IsFinding};

use std::alloc::{AllocError, Global};

/// What a walk to the use of a location by `target` found.
#[derive(Drop)]
pub(crate) struct Finding {
    pub(crate) target: u32,
    pub(crate) found: Vec<u32>,
}

/// The findings at one location so far.
///
/// `place` says for each node where its finding would stand. It is right where that finding is one for the
/// node, so it needn't be cleared for another location.
#[derive(Drop)]
pub(crate) struct Earlier {
    pub(crate) place: Vec<usize>,
    pub(crate) findings: Vec<Finding>,
}

impl Earlier {
    /// No findings yet, in a system of so many nodes.
    pub(crate) fn none(alloc: Global, nodes: u32) -> Result<Earlier, AllocError>
        ensures places { IfOk result (λ earlier. length earlier.place.items ≡ nodes) }
        ensures findings { IfOk result (λ earlier. earlier.findings.items ≡ []) }
    {
        let mut place = Vec::new(alloc);
        for _ in 0..nodes {
            place.push(0)?;
        }
        Ok(Earlier {
            place,
            findings: Vec::new(alloc),
        })
    }

    /// What a walk to the use by `node` found, where there was one.
    pub(crate) fn of(&self, node: u32) -> Option<&[u32]>
        requires { node < length self.now.place.items }
        ensures { IfSome result (λ found. IsFinding self.now node found.now) }
    {
        let finding = self.findings.get(self.place[node as usize])?;
        if finding.target == node {
            Some(&finding.found)
        } else {
            None
        }
    }

    /// Adds what a walk to the use by `target` found.
    pub(crate) fn add(&mut self, target: u32, found: Vec<u32>) -> Result<(), AllocError>
        requires { target < length self.old.place.items }
        ensures places { length self.new.place.items ≡ length self.old.place.items }
        ensures findings { OnOk result (self.new.findings.items ≡ self.old.findings.items ++ record { target = target; found = found } ∷ []) }
    {
        self.place[target as usize] = self.findings.len();
        self.findings.push(Finding { target, found })?;
        Ok(())
    }

    /// Forgets them all, for another location.
    pub(crate) fn clear(&mut self)
        ensures places { length self.new.place.items ≡ length self.old.place.items }
        ensures findings { self.new.findings.items ≡ [] }
    {
        self.findings.clear();
    }
}
