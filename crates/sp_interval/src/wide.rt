//! Numbers kept as a sign and 128 bits, as products of two bounds are, and the range rule on them.
ghost use Rattle.std.specs.Prelude.{◌≡◌, ◌<◌, ◌≤◌, ◌^◌, ◌*ℤ◌, ◌≤ℤ◌, pos, int_le};
ghost use Rattle.std.specs.Int.{int_min, int_max, int_div_euclid, int_rem_euclid};
ghost use Rattle.std.specs.Ordering.{int_eq};
ghost use Rattle.sp_lattice.specs.Ladder.{InBounds};
ghost use Rattle.sp_lattice.specs.Range.{IsIntegerRange};
ghost use Rattle.sp_interval.specs.Interval.{wrapped, ranged, span_of};
ghost use Rattle.sp_interval.specs.inner.Wide.{number_of, IsNarrow};
ghost use Rattle.sp_interval.specs.declared.interval.Interval.TheVariants.{Of};

use crate::interval::Interval;
use sp_lattice::Range;

// A whole number: `size`, or -1 less `size` where it is negative.
#[derive(Debug, Clone, Copy)]
pub(crate) struct Wide {
    is_negative: bool,
    size: u128,
}

impl Wide {
    pub(crate) fn of(number: i128) -> Wide
        ensures { number_of result ≡ number }
    {
        if number < 0 {
            Wide {
                is_negative: true,
                size: (-1 - number) as u128,
            }
        } else {
            Wide {
                is_negative: false,
                size: number as u128,
            }
        }
    }

    // The product of two bounds.
    pub(crate) fn product(x: i128, y: i128) -> Wide
        requires left { InBounds x }
        requires right { InBounds y }
        ensures { number_of result ≡ (x *ℤ y) }
    {
        let size = x.unsigned_abs() * y.unsigned_abs();
        if size != 0 && (x < 0) != (y < 0) {
            Wide {
                is_negative: true,
                size: size - 1,
            }
        } else {
            Wide {
                is_negative: false,
                size,
            }
        }
    }

    fn is_at_most(self, other: Wide) -> bool
        ensures { result ≡ int_le (number_of self) (number_of other) }
    {
        if self.is_negative != other.is_negative {
            self.is_negative
        } else if self.is_negative {
            other.size <= self.size
        } else {
            self.size <= other.size
        }
    }

    fn is_same(self, other: Wide) -> bool
        ensures { result ≡ int_eq (number_of self) (number_of other) }
    {
        self.is_negative == other.is_negative && self.size == other.size
    }

    fn min(self, other: Wide) -> Wide
        ensures { number_of result ≡ int_min (number_of self) (number_of other) }
    {
        if self.is_at_most(other) { self } else { other }
    }

    fn max(self, other: Wide) -> Wide
        ensures { number_of result ≡ int_max (number_of self) (number_of other) }
    {
        if self.is_at_most(other) { other } else { self }
    }

    // Divided by the step, rounded down.
    fn quotient(self, step: u128) -> Wide
        requires { 0 < step }
        ensures { number_of result ≡ int_div_euclid (number_of self) (pos step) }
    {
        Wide {
            is_negative: self.is_negative,
            size: self.size / step,
        }
    }

    // What is left then, from 0 to the step less 1.
    fn remainder(self, step: u128) -> i128
        requires some { 0 < step }
        requires small { step ≤ 2 ^ 64 }
        ensures { result ≡ int_rem_euclid (number_of self) (pos step) }
    {
        let rest = self.size % step;
        if self.is_negative {
            (step - 1 - rest) as i128
        } else {
            rest as i128
        }
    }

    // The number in 128 bits, sign and all, where they hold it.
    fn narrow(self) -> Option<i128>
        ensures { IsNarrow (number_of self) result }
    {
        let size = i128::try_from(self.size).ok()?;
        Some(if self.is_negative { -1 - size } else { size })
    }
}

// The results from `lo` to `hi`, not all within the range: modulo 2^width where the type is
// unsigned and each gives the same number, divided by 2^width and rounded down; else every number
// of the type.
pub(crate) fn wrapped(lo: Wide, hi: Wide, kind: Range) -> Interval
    requires { IsIntegerRange kind }
    ensures { result ≡ wrapped kind (number_of lo) (number_of hi) }
{
    let modulus = 1u128 << kind.width;
    if kind.lo == 0 && lo.quotient(modulus).is_same(hi.quotient(modulus)) {
        Interval::Of {
            lo: lo.remainder(modulus),
            hi: hi.remainder(modulus),
        }
    } else {
        Interval::Of {
            lo: kind.lo,
            hi: kind.hi,
        }
    }
}

// The range rule on the results from `lo` to `hi`.
fn ranged(lo: Wide, hi: Wide, kind: Range) -> Interval
    requires range { IsIntegerRange kind }
    requires ordered { number_of lo ≤ℤ number_of hi }
    ensures { result ≡ ranged kind (Of (number_of lo) (number_of hi)) }
{
    match (lo.narrow(), hi.narrow()) {
        (Some(lo), Some(hi)) => Interval::Of { lo, hi }.ranged(kind),
        _ => wrapped(lo, hi, kind),
    }
}

// The range rule on the results from the least to the greatest of four numbers.
pub(crate) fn ranged_span(p: Wide, q: Wide, r: Wide, s: Wide, kind: Range) -> Interval
    requires { IsIntegerRange kind }
    ensures { result ≡ ranged kind (span_of (number_of p) (number_of q) (number_of r) (number_of s)) }
{
    ranged(p.min(q).min(r.min(s)), p.max(q).max(r.max(s)), kind)
}
