//! Conditions: bounds and relations of members, and what is known of one member.
ghost use Rattle.std.specs.Prelude.{◌≡◌, ◌+◌, ◌*◌, ◌<◌, ◌≤ℤ◌, ℕ, ℤ, length};
ghost use Rattle.sp_octagon.specs.Entries.{entries_of, least_bound, greatest_bound, negative};
ghost use Rattle.sp_octagon.specs.Changes.{lowered};

use crate::octagon::{Octagon, set_pair};
use sp_interval::Interval;
use sp_lattice::{HIGHEST, LOWEST, Relation};

// Lowers an entry and the one that equals it, where they are greater.
fn lower_pair(cells: &mut [i128], row: usize, column: usize, to: i128)
    requires room { length cells.old ≡ 256 }
    requires row { row < 16 }
    requires column { column < 16 }
    requires equal { entries_of cells.old (negative column) (negative row) ≡ entries_of cells.old row column }
    ensures lowered { (i j : ℕ) → i < 16 → j < 16 → entries_of cells.new i j ≡ lowered (entries_of cells.old) row column to i j }
{
    let lesser = to.min(cells[16 * row + column]);
    set_pair(cells, row, column, lesser);
}

impl Octagon {
    ghost use Rattle.std.specs.Prelude.{◌≡◌, ◌≢◌, ◌↔◌, ◌<◌, ℤ};
    ghost use Rattle.sp_lattice.specs.Ladder.{InBounds};
    ghost use Rattle.sp_interval.specs.Interval.{Holds, IsFormed};
    ghost use Rattle.sp_octagon.specs.Changes.{projected, Allows};
    ghost use Rattle.sp_octagon.specs.Functions.{bounded, constrained};
    ghost use Rattle.sp_octagon.specs.Octagons.{entries};

    /// Lowers the two unary entries of `x` to an interval that isn't empty, where they are greater.
    pub fn set_bounds(&mut self, x: u32, to: Interval)
        requires x { x < self.old.size }
        requires formed { IsFormed to }
        requires some { to ≢ Interval.Empty }
        ensures { self.new ≡ bounded self.old x to }
    {
        if let Interval::Of { lo, hi } = to {
            self.lower_to(x, lo, hi);
        }
    }

    /// Lowers entries so that `x` stands in the relation to `y`, as whole numbers. `Different`
    /// changes nothing.
    pub fn constrain(&mut self, x: u32, op: Relation, y: u32)
        requires x { x < self.old.size }
        requires y { y < self.old.size }
        requires different { x ≢ y }
        ensures { self.new ≡ constrained self.old x op y }
    {
        self.relate(x, op, y);
    }

    /// The whole numbers from -2^63 to 2^64-1 that the two unary entries of `x` allow.
    pub fn project(&self, x: u32) -> Interval
        requires { x < self.now.size }
        ensures value { result ≡ projected (entries self.now) x }
        ensures exact { (v : ℤ) → Holds result v ↔ (InBounds v × Allows (entries self.now) x v) }
        ensures formed { IsFormed result }
    {
        let row = 2 * x as usize;
        let below = self.bound(row, row + 1);
        let above = self.bound(row + 1, row);
        Interval::between(LOWEST.max(-(below >> 1)), HIGHEST.min(above >> 1))
    }
}

impl Octagon {
    ghost use Rattle.std.specs.Prelude.{◌≡◌, ◌≢◌, ◌<◌, ◌≤ℤ◌};
    ghost use Rattle.sp_lattice.specs.Ladder.{InBounds};
    ghost use Rattle.sp_octagon.specs.Entries.{least_bound, greatest_bound};
    ghost use Rattle.sp_octagon.specs.Changes.{lowered, bounded_by, constrained};
    ghost use Rattle.sp_octagon.specs.Octagons.{rows, entries, Becomes};

    // Lowers the two unary entries of a member to the numbers from `lo` to `hi`.
    fn lower_to(&mut self, x: u32, lo: i128, hi: i128)
        requires x { x < self.old.size }
        requires lo { InBounds lo }
        requires hi { InBounds hi }
        ensures becomes { Becomes self.old self.new (bounded_by (entries self.old) x (Interval.Of lo hi)) }
    {
        self.lower(2 * x + 1, 2 * x, hi + hi);
        self.lower(2 * x, 2 * x + 1, -(lo + lo));
    }

    // Lowers entries to a relation.
    fn relate(&mut self, x: u32, op: Relation, y: u32)
        requires x { x < self.old.size }
        requires y { y < self.old.size }
        requires different { x ≢ y }
        ensures becomes { Becomes self.old self.new (constrained (entries self.old) x op y) }
    {
        match op {
            Relation::Less => self.lower(2 * y, 2 * x, -1),
            Relation::LessEqual => self.lower(2 * y, 2 * x, 0),
            Relation::Greater => self.lower(2 * x, 2 * y, -1),
            Relation::GreaterEqual => self.lower(2 * x, 2 * y, 0),
            Relation::Equal => {
                self.lower(2 * y, 2 * x, 0);
                self.lower(2 * x, 2 * y, 0);
            }
            Relation::Different => {}
        }
    }

    // Lowers an entry and the one that equals it, where they are greater.
    fn lower(&mut self, row: u32, column: u32, to: i128)
        requires row { row < rows self.old }
        requires column { column < rows self.old }
        requires different { row ≢ column }
        requires low { least_bound ≤ℤ to }
        requires high { to ≤ℤ greatest_bound }
        ensures becomes { Becomes self.old self.new (lowered (entries self.old) row column to) }
    {
        lower_pair(&mut self.bounds, row as usize, column as usize, to);
    }
}
