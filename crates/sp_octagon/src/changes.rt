//! Assignments and stores: a member forgotten, moved or tied to another, and the entries snapped
//! to the ladder.
ghost use Rattle.std.specs.Prelude.{◌≡◌, ◌<◌, ◌^◌, ◌≤ℤ◌, ℕ, ℤ, pos, neg_ℤ};
ghost use Rattle.sp_octagon.specs.Changes.{growth, snapped_bound};
ghost use Rattle.sp_octagon.specs.Entries.{doubled};
ghost use Rattle.sp_octagon.specs.Facts.{IsInRange};

use crate::closing::cut;
use crate::octagon::{Octagon, UNBOUNDED, negative, set_pair};
use crate::passes::{Change, change_entries};
use sp_lattice::{HIGHEST, LOWEST, Ladder};

// A pass that takes away the bounds of a member.
#[derive(Drop)]
struct Forgetting {
    member: usize,
}

impl Change for Forgetting {
    ghost use Rattle.std.specs.Prelude.{ℕ, ℤ, ◌==◌, ◌||◌, if◌then◌else◌};
    ghost use Rattle.sp_octagon.specs.Entries.{unbounded};
    ghost use Rattle.sp_octagon.specs.Changes.{stands_for};

    ghost made = { λ pass r c z. if r == c then z else if stands_for pass.member r || stands_for pass.member c then unbounded else z };

    ghost allowed = { λ pass r c z. Unit {0} };

    fn change(&self, row: usize, column: usize, bound: i128) -> i128 {
        let touched = row / 2 == self.member || column / 2 == self.member;
        if row != column && touched {
            UNBOUNDED
        } else {
            bound
        }
    }
}

// A pass that adds a number to a member.
#[derive(Drop)]
struct Moving {
    member: usize,
    by: i128,
}

impl Moving {
    // How much what the row stands for grows.
    fn growth(&self, row: usize) -> i128
        requires member { self.now.member < 8 }
        requires low { neg_ℤ (pos (2 ^ 64)) ≤ℤ self.now.by }
        requires high { self.now.by ≤ℤ pos (2 ^ 64) }
        ensures value { result ≡ growth self.now.member self.now.by row }
        ensures least { neg_ℤ (pos (2 ^ 64)) ≤ℤ result }
        ensures most { result ≤ℤ pos (2 ^ 64) }
    {
        if row == 2 * self.member {
            self.by
        } else if row == 2 * self.member + 1 {
            -self.by
        } else {
            0
        }
    }
}

impl Change for Moving {
    ghost use Rattle.std.specs.Prelude.{◌<◌, ◌^◌, ◌≤ℤ◌, ℕ, ℤ, pos, neg_ℤ, ◌+ℤ◌, ◌-ℤ◌, int_lt, if◌then◌else◌};
    ghost use Rattle.sp_octagon.specs.Entries.{unbounded, cut};
    ghost use Rattle.sp_octagon.specs.Facts.{IsInRange};
    ghost use Rattle.sp_octagon.specs.Changes.{growth};

    ghost made = { λ pass r c z. if int_lt z unbounded then cut (z +ℤ (growth pass.member pass.by c -ℤ growth pass.member pass.by r)) else unbounded };

    ghost allowed = { λ pass r c z. (pass.member < 8) × (neg_ℤ (pos (2 ^ 64)) ≤ℤ pass.by) × (pass.by ≤ℤ pos (2 ^ 64)) × IsInRange z };

    fn change(&self, row: usize, column: usize, bound: i128) -> i128 {
        let growth = self.growth(column) - self.growth(row);
        if bound < UNBOUNDED {
            cut(bound + growth)
        } else {
            UNBOUNDED
        }
    }
}

// The least point of the ladder that isn't below the bound, none past the greatest point.
fn snap_bound(ladder: &Ladder, bound: i128) -> i128
    ensures value { result ≡ snapped_bound ladder.now bound }
    ensures bounded { IsInRange result }
{
    if bound > HIGHEST {
        UNBOUNDED
    } else {
        ladder.snap_up(bound.max(LOWEST))
    }
}

// Twice the bound.
fn double(bound: i128) -> i128
    requires { IsInRange bound }
    ensures { result ≡ doubled bound }
{
    if bound < UNBOUNDED {
        bound + bound
    } else {
        UNBOUNDED
    }
}

// A pass that moves each bound up to the ladder.
#[derive(Drop)]
struct Snapping<'a> {
    ladder: &'a Ladder,
}

impl Change for Snapping<'_> {
    ghost use Rattle.std.specs.Prelude.{ℕ, ℤ, ◌==◌, if◌then◌else◌};
    ghost use Rattle.sp_octagon.specs.Entries.{doubled, half, negative};
    ghost use Rattle.sp_octagon.specs.Changes.{snapped_bound};

    ghost made = { λ pass r c z. if r == c then z else if c == negative r then doubled (snapped_bound pass.ladder.now (half z)) else snapped_bound pass.ladder.now z };

    ghost allowed = { λ pass r c z. Unit {0} };

    fn change(&self, row: usize, column: usize, bound: i128) -> i128 {
        if row == column {
            bound
        } else if column == negative(row) {
            double(snap_bound(self.ladder, bound >> 1))
        } else {
            snap_bound(self.ladder, bound)
        }
    }
}

impl Octagon {
    ghost use Rattle.std.specs.Prelude.{◌≡◌, ◌<◌, ◌^◌, ◌≤ℤ◌, pos, neg_ℤ};
    ghost use Rattle.sp_octagon.specs.Functions.{forgotten, shifted, snapped};

    /// Takes away the bounds off the diagonal in the rows and columns of member `x`.
    pub fn forget(&mut self, x: u32)
        requires { x < self.old.size }
        ensures { self.new ≡ forgotten self.old x }
    {
        self.clear(x);
    }

    /// Makes member `x` equal to member `y` plus `k`.
    ///
    /// With `x` and `y` different, `x` is forgotten, and `x - y` bounded by `k` from both sides.
    /// With `x` equal to `y` each bound of `x` moves by `k`, and those that leave the range are
    /// cut.
    pub fn assign_shift(&mut self, x: u32, y: u32, k: i128)
        requires x { x < self.old.size }
        requires y { y < self.old.size }
        requires low { neg_ℤ (pos (2 ^ 64)) ≤ℤ k }
        requires high { k ≤ℤ pos (2 ^ 64) }
        ensures { self.new ≡ shifted self.old x y k }
    {
        self.assign(x, y, k);
    }

    /// Moves each bound up to the nearest point of the ladder, a unary one to twice the nearest
    /// of its half, rounded down first. Past the greatest point there is no bound.
    pub fn snap(&mut self, ladder: &Ladder)
        ensures { self.new ≡ snapped ladder.now self.old }
    {
        self.raise_to(ladder);
    }
}

impl Octagon {
    ghost use Rattle.std.specs.Prelude.{◌≡◌, ◌<◌, ◌^◌, ◌≤ℤ◌, pos, neg_ℤ};
    ghost use Rattle.sp_lattice.specs.Ladder.{IsLadder};
    ghost use Rattle.sp_octagon.specs.Changes.{forgotten, moved, assigned, snapped_entries};
    ghost use Rattle.sp_octagon.specs.Octagons.{entries, Becomes};

    // Takes away the bounds of a member.
    fn clear(&mut self, x: u32)
        requires { x < self.old.size }
        ensures { Becomes self.old self.new (forgotten (entries self.old) x) }
    {
        let count = self.rows();
        change_entries(&mut self.bounds, count, &Forgetting { member: x as usize });
    }

    // Moves each bound up to the ladder.
    fn raise_to(&mut self, ladder: &Ladder)
        ensures becomes { Becomes self.old self.new (snapped_entries ladder.now (entries self.old)) }
        ensures ladder { IsLadder ladder.now }
    {
        let count = self.rows();
        // The contract of this call tells that the points are those of a ladder.
        let _points = ladder.points();
        change_entries(&mut self.bounds, count, &Snapping { ladder });
    }

    // Makes a member equal to another plus `k`, or to itself plus `k`.
    fn assign(&mut self, x: u32, y: u32, k: i128)
        requires x { x < self.old.size }
        requires y { y < self.old.size }
        requires low { neg_ℤ (pos (2 ^ 64)) ≤ℤ k }
        requires high { k ≤ℤ pos (2 ^ 64) }
        ensures { Becomes self.old self.new (assigned (entries self.old) x y k) }
    {
        if x == y {
            self.shift(x, k);
        } else {
            self.clear(x);
            self.set_entry(2 * y, 2 * x, k);
            self.set_entry(2 * x, 2 * y, -k);
        }
    }

    // Adds `by` to a member.
    fn shift(&mut self, x: u32, by: i128)
        requires x { x < self.old.size }
        requires low { neg_ℤ (pos (2 ^ 64)) ≤ℤ by }
        requires high { by ≤ℤ pos (2 ^ 64) }
        ensures becomes { Becomes self.old self.new (moved (entries self.old) x by) }
    {
        let count = self.rows();
        let member = x as usize;
        change_entries(&mut self.bounds, count, &Moving { member, by });
    }
}
