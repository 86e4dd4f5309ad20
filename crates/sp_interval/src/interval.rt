//! The type, the range rule, and the lattice of intervals under inclusion.
ghost use Rattle.std.specs.Prelude.{◌≡◌, ℤ};
ghost use Rattle.sp_lattice.specs.Range.{IsIntegerRange};
ghost use Rattle.sp_interval.specs.Interval.{Holds, HoldsResidues, IsFormed, InRange, IsRanged, between, hull, interval_le, ranged};
ghost use Rattle.sp_interval.specs.declared.interval.Interval.TheVariants.{Of};

use crate::wide::{Wide, wrapped};
use sp_lattice::{Lattice, Range};
use std::alloc::{AllocError, Global};

/// An interval of whole numbers: none, or those from `lo` to `hi`.
///
/// An interval is formed where `lo` is at most `hi`, and both lie from -2^63 to 2^64-1
/// (`IsFormed` of `specs.Interval`). Each call needs formed intervals, and gives one.
#[derive(Debug, Clone, Copy, PartialEq, Eq)]
pub enum Interval {
    Empty,
    Of { lo: i128, hi: i128 },
}

impl Interval {
    /// The numbers that a conversion to the type gives: the range rule alone (C90 6.2.1.2).
    ///
    /// An interval within the range stays. For an unsigned type, where each member is past the
    /// range by the same multiple of 2^width, that multiple is taken away. Every other interval
    /// becomes the whole range.
    pub fn convert(self, kind: Range) -> Interval
        requires range { IsIntegerRange kind }
        requires formed { IsFormed self }
        ensures value { result ≡ ranged kind self }
        ensures by_members { IsRanged kind self result }
        ensures holds { (v : ℤ) → Holds self v → InRange kind v → Holds result v }
        ensures holds_residues { HoldsResidues kind self result }
        ensures formed { IsFormed result }
    {
        self.ranged(kind)
    }

    /// The numbers from `lo` to `hi`: none where they cross.
    pub fn between(lo: i128, hi: i128) -> Interval
        ensures { result ≡ between lo hi }
    {
        if lo <= hi {
            Interval::Of { lo, hi }
        } else {
            Interval::Empty
        }
    }

    // The range rule: an interval within the range stays.
    pub(crate) fn ranged(self, kind: Range) -> Interval
        requires { IsIntegerRange kind }
        ensures { result ≡ ranged kind self }
    {
        match self {
            Interval::Of { lo, hi } if !self.is_within(kind) => {
                wrapped(Wide::of(lo), Wide::of(hi), kind)
            }
            within => within,
        }
    }

    // Whether each member is within the range.
    fn is_within(self, kind: Range) -> bool
        ensures { result ≡ interval_le self (Of kind.lo kind.hi) }
    {
        match self {
            Interval::Empty => true,
            Interval::Of { lo, hi } => kind.lo <= lo && hi <= kind.hi,
        }
    }

    /// The least interval that holds the members of both.
    pub fn hull(self, other: Interval) -> Interval
        ensures { result ≡ hull self other }
    {
        match (self, other) {
            (Interval::Empty, _) => other,
            (_, Interval::Empty) => self,
            (
                Interval::Of { lo, hi },
                Interval::Of {
                    lo: other_lo,
                    hi: other_hi,
                },
            ) => Interval::Of {
                lo: lo.min(other_lo),
                hi: hi.max(other_hi),
            },
        }
    }
}

impl Lattice for Interval {
    ghost use Rattle.sp_interval.specs.Interval.{interval_order};
    ghost use Rattle.sp_interval.specs.Inclusion.{interval_lawful};

    ghost order = { interval_order };

    fn bottom(_alloc: Global) -> Interval {
        Interval::Empty
    }

    fn leq(&self, other: &Interval) -> bool {
        match (*self, *other) {
            (Interval::Empty, _) => true,
            (_, Interval::Empty) => false,
            (
                Interval::Of { lo, hi },
                Interval::Of {
                    lo: other_lo,
                    hi: other_hi,
                },
            ) => other_lo <= lo && hi <= other_hi,
        }
    }

    fn join_into(&mut self, _alloc: Global, other: &Interval) -> Result<bool, AllocError> {
        let grew = !other.leq(self);
        *self = self.hull(*other);
        Ok(grew)
    }

    fn copy(&self, _alloc: Global) -> Result<Interval, AllocError> {
        Ok(*self)
    }

    ghost lawful = { interval_lawful };
}
