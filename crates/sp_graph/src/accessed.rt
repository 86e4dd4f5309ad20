//! Which locations each function accesses.
ghost use Rattle.std.specs.Prelude.{◌≡◌, ℕ, Bool, false};
ghost use Rattle.sp_base_sets.specs.Sets.{has};
ghost use Rattle.sp_base_sets.specs.Reached.{row};
ghost use Rattle.sp_graph.specs.Accessed.{accesses};

use sp_base_sets::NumberSet;
use std::alloc::Global;
use std::marker::Model;

/// Which locations each function accesses. Contracts see it as `AccessSets` of `specs.Accessed`.
///
/// Most locations are touched by one function alone, so by the same functions as those next to
/// them. One of these stands for all of them, and a function's set has it alone.
#[derive(Drop)]
pub struct Accessed {
    stand_ins: Vec<u32>,
    sets: Vec<NumberSet>,
}

impl Model for Accessed {
    ghost use Rattle.sp_graph.specs.Accessed.{AccessSets};

    ghost Value = { AccessSets };

    ghost view = { λ a. record { stand_ins = a.stand_ins.items; sets = a.sets.items } };
}

impl Accessed {
    /// By the location that stands for each location, and for each function the set of these.
    pub fn new(stand_ins: Vec<u32>, sets: Vec<NumberSet>) -> Accessed
        ensures stand_ins { result.stand_ins ≡ stand_ins.items }
        ensures sets { result.sets ≡ sets.items }
    {
        Accessed { stand_ins, sets }
    }

    /// No function accesses a location.
    pub(crate) fn none(alloc: Global) -> Accessed {
        Accessed {
            stand_ins: Vec::new(alloc),
            sets: Vec::new(alloc),
        }
    }

    /// Whether a function accesses a location.
    pub fn has(&self, function: u32, location: u32) -> bool
        ensures { result ≡ accesses self.now function location }
    {
        match self.stand_ins.get(location as usize) {
            Some(stand_in) => holds(&self.sets, function, *stand_in),
            None => false,
        }
    }
}

/// Whether the set of a number has another.
fn holds(sets: &[NumberSet], number: u32, other: u32) -> bool
    ensures { result ≡ has other (row sets.now number) }
{
    match sets.get(number as usize) {
        Some(set) => set.has(other),
        None => false,
    }
}
