//! The closure: least walks by rounds, then half-sums (Miné 2006; Bagnara, Hill and Zaffanella
//! 2009).
ghost use Rattle.std.specs.Prelude.{◌≡◌, ◌+◌, ◌*◌, ◌<◌, ◌≤◌, ◌≤ℤ◌, ◌<ℤ◌, ℕ, ℤ, pos, length, max, MatchBool, slice_index_or};
ghost use Rattle.sp_octagon.specs.Entries.{Entries, entries_of, cut, half_sum, negative, unbounded, sum_of};
ghost use Rattle.sp_octagon.specs.Facts.{IsInRange, IsMatrix};
ghost use Rattle.sp_octagon.specs.Walks.{HasNegativeWalk, closed_entry};
ghost use Rattle.sp_octagon.specs.inner.Rounds.{AfterRounds, reach, IsWithin, Shortened, Closes};
ghost use Rattle.sp_octagon.specs.Functions.{round};

use crate::octagon::{Clearing, Octagon, UNBOUNDED, negative};
use crate::passes::{Change, change_entries};

/// The least bound that is kept: a lesser one is raised to it.
const LEAST: i128 = -(1 << 100);

/// The greatest bound that is kept: a greater one is taken away.
const GREATEST: i128 = 1 << 100;

/// The bound, cut to the range of what is kept.
pub(crate) fn cut(bound: i128) -> i128
    ensures { result ≡ cut bound }
{
    if bound > GREATEST {
        UNBOUNDED
    } else {
        bound.max(LEAST)
    }
}

// The sum of two bounds, none where one is missing.
fn sum_of(first: i128, second: i128) -> i128
    requires first { IsWithin (reach 16) first }
    requires second { IsWithin (reach 16) second }
    ensures { result ≡ sum_of first second }
{
    if first < UNBOUNDED && second < UNBOUNDED {
        first + second
    } else {
        UNBOUNDED
    }
}

// Half of that sum, rounded down.
fn half_sum(first: i128, second: i128) -> i128
    requires first { IsWithin (reach 16) first }
    requires second { IsWithin (reach 16) second }
    ensures { result ≡ half_sum first second }
{
    if first < UNBOUNDED && second < UNBOUNDED {
        (first + second) >> 1
    } else {
        UNBOUNDED
    }
}

// Lets the walks of a row pass through `middle`, which they reach by `first`.
fn shorten_row(cells: &mut [i128], count: usize, row: usize, middle: usize, first: i128)
    requires room { length cells.old ≡ 256 }
    requires count { count ≤ 16 }
    requires row { row < 16 }
    requires middle { middle < 16 }
    requires first { IsWithin (reach 16) first }
    requires last { (c : ℕ) → c < count → IsWithin (reach 16) (entries_of cells.old middle c) }
    ensures { Shortened count row middle first (entries_of cells.old) count (entries_of cells.new) }
{
    'columns: for column in 0..count {
        let sum = sum_of(first, cells[16 * middle + column]);
        let bound = cells[16 * row + column];
        cells[16 * row + column] = bound.min(sum);
    }
}

// Lets walks pass through `middle`. Row and column `middle` stay as they are, since its diagonal is 0: so
// the entries can be changed in place.
fn pass_through(cells: &mut [i128], count: usize, middle: usize)
    requires room { length cells.old ≡ 256 }
    requires count { count ≤ 16 }
    requires middle { middle < count }
    requires diagonal { entries_of cells.old middle middle ≡ pos 0 }
    requires within { (r c : ℕ) → r < count → c < count → IsWithin (reach 16) (entries_of cells.old r c) }
    ensures inside { (r c : ℕ) → r < count → c < count → entries_of cells.new r c ≡ round middle (entries_of cells.old) r c }
    ensures outside { (r c : ℕ) → r < 16 → c < 16 → count ≤ max r c → entries_of cells.new r c ≡ entries_of cells.old r c }
{
    'rows: for row in 0..count {
        let first = cells[16 * row + middle];
        shorten_row(cells, count, row, middle, first);
    }
}

// Whether an entry on the diagonal is negative.
fn has_negative(cells: &[i128], count: usize) -> bool
    requires room { length cells.now ≡ 256 }
    requires count { count ≤ 16 }
    ensures { MatchBool result ((r : ℕ) × (r < count) × (entries_of cells.now r r <ℤ pos 0)) ((r : ℕ) → r < count → pos 0 ≤ℤ entries_of cells.now r r) }
{
    'rows: for row in 0..count {
        if cells[17 * row] < 0 {
            return true;
        }
    }
    false
}

// Puts the least walk in place of each entry, or says that a closed walk is negative.
fn shortest_walks(cells: &mut [i128], count: usize) -> bool
    requires room { length cells.old ≡ 256 }
    requires count { count ≤ 16 }
    requires first { AfterRounds count (entries_of cells.old) 0 (entries_of cells.old) }
    ensures walks { MatchBool result (AfterRounds count (entries_of cells.old) count (entries_of cells.new)) (HasNegativeWalk count (entries_of cells.old)) }
    ensures outside { (r c : ℕ) → r < 16 → c < 16 → count ≤ max r c → entries_of cells.new r c ≡ entries_of cells.old r c }
{
    'rounds: for middle in 0..count {
        pass_through(cells, count, middle);
        if has_negative(cells, count) {
            return false;
        }
    }
    true
}

// The last step: half-sums of unary walks, which stand here by row, and the cut.
#[derive(Drop)]
struct HalfSums {
    unary: [i128; 16],
}

impl Change for HalfSums {
    ghost use Rattle.std.specs.Prelude.{ℕ, ℤ, pos, slice_index_or};
    ghost use Rattle.std.specs.Int.{int_min};
    ghost use Rattle.sp_octagon.specs.Entries.{unbounded, half_sum, cut, negative};
    ghost use Rattle.sp_octagon.specs.inner.Rounds.{IsWithin, reach};

    ghost made = { λ pass r c z. cut (int_min z (half_sum (slice_index_or pass.unary r (pos 0)) (slice_index_or pass.unary (negative c) (pos 0)))) };

    ghost allowed = { λ pass r c z. IsWithin (reach 16) (slice_index_or pass.unary r (pos 0)) × IsWithin (reach 16) (slice_index_or pass.unary (negative c) (pos 0)) };

    fn change(&self, row: usize, column: usize, bound: i128) -> i128 {
        let halves = half_sum(self.unary[row], self.unary[negative(column)]);
        cut(bound.min(halves))
    }
}

// The entries from each row to its negative.
fn unary_of(cells: &[i128], count: usize) -> [i128; 16]
    requires room { length cells.now ≡ 256 }
    requires count { count ≤ 16 }
    ensures { (r : ℕ) → r < count → slice_index_or result r (pos 0) ≡ entries_of cells.now r (negative r) }
{
    let mut entries = [0; 16];
    'rows: for row in 0..count {
        entries[row] = cells[16 * row + negative(row)];
    }
    entries
}

// Takes half-sums.
fn take_half_sums(cells: &mut [i128], size: usize)
    requires room { length cells.old ≡ 256 }
    requires size { size ≤ 8 }
    requires within { (r c : ℕ) → r < 2 * size → c < 2 * size → IsWithin (reach 16) (entries_of cells.old r c) }
    ensures inside { (r c : ℕ) → r < 2 * size → c < 2 * size → entries_of cells.new r c ≡ closed_entry (entries_of cells.old) r c }
    ensures outside { (r c : ℕ) → r < 16 → c < 16 → 2 * size ≤ max r c → entries_of cells.new r c ≡ entries_of cells.old r c }
{
    let unary = unary_of(cells, 2 * size);
    change_entries(cells, 2 * size, &HalfSums { unary });
}

// Puts the closure in place of the entries, and answers true; or takes all bounds away and
// answers false, where a closed walk is negative.
fn close_entries(cells: &mut [i128], size: usize) -> bool
    requires room { length cells.old ≡ 256 }
    requires size { size ≤ 8 }
    requires matrix { IsMatrix size (entries_of cells.old) }
    ensures closed { MatchBool result (Closes size (entries_of cells.old) (entries_of cells.new)) (HasNegativeWalk (2 * size) (entries_of cells.old)) }
    ensures matrix { IsMatrix size (entries_of cells.new) }
{
    let count = 2 * size;
    if shortest_walks(cells, count) {
        take_half_sums(cells, size);
        true
    } else {
        change_entries(cells, count, &Clearing);
        false
    }
}

impl Octagon {
    ghost use Rattle.std.specs.Prelude.{◌≡◌, Some, None, MatchBool};
    ghost use Rattle.sp_octagon.specs.Points.{Point};
    ghost use Rattle.sp_octagon.specs.Octagons.{OctagonHolds};
    ghost use Rattle.sp_octagon.specs.Functions.{closed};

    /// Puts the closure in place of the entries (`closed`), or answers false exactly where the
    /// octagon holds no point. Then it isn't to be used again: what it holds is left open.
    pub fn close(&mut self) -> bool
        ensures size { self.new.size ≡ self.old.size }
        ensures closed { MatchBool result (closed self.old ≡ Some self.new) (closed self.old ≡ None) }
        ensures exact { MatchBool result ((p : Point) × OctagonHolds self.old p) ((p : Point) → OctagonHolds self.old p → ⊥) }
    {
        close_entries(&mut self.bounds, self.size as usize)
    }
}
