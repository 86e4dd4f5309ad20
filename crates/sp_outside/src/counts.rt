//! The two counts that each object of the outside keeps.
ghost use Rattle.std.specs.Prelude.{◌≡◌};
ghost use Rattle.sp_outside.specs.Counts.{raised, Rose};

use crate::input::Failed;

/// How many calls there were, and how many failed. Both stand still at 2^64 - 1.
#[derive(Clone, Copy, Debug, PartialEq, Eq)]
pub struct Counts {
    pub calls: u64,
    pub faults: u64,
}

impl Counts {
    pub fn new() -> Counts
        ensures { result ≡ record { calls = 0; faults = 0 } }
    {
        Counts {
            calls: 0,
            faults: 0,
        }
    }

    /// Counts one more call, and says its number.
    pub fn next_call(&mut self) -> u64
        ensures counted { self.new ≡ record self.old { calls = raised self.old.calls 1 } }
        ensures number { result ≡ self.new.calls }
    {
        self.calls = self.calls.saturating_add(1);
        self.calls
    }

    /// Counts one more call that failed.
    pub fn fault(&mut self) -> Failed
        ensures counted { self.new ≡ record self.old { faults = raised self.old.faults 1 } }
        ensures rose { Rose self.old.faults self.new.faults }
    {
        self.faults = self.faults.saturating_add(1);
        Failed
    }
}
