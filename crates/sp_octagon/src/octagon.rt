//! The type, its entries one by one, and the order.
ghost use Rattle.std.specs.Prelude.{◌≡◌, ◌≢◌, ◌+◌, ◌*◌, ◌<◌, ◌≤◌, ◌≤ℤ◌, ℕ, ℤ, length, slice_set};
ghost use Rattle.sp_octagon.specs.Entries.{Entries, entries_of, least_bound, greatest_bound, negative, unbounded};
ghost use Rattle.sp_octagon.specs.Facts.{IsOctagon, IsOctagon-prop, IsInRange};
ghost use Rattle.sp_octagon.specs.Changes.{with_pair};

use crate::passes::{Change, change_entries};

/// What stands where there is no bound. It is greater than every bound, so bounds are ordered as
/// numbers are.
pub(crate) const UNBOUNDED: i128 = 1 << 120;

/// How many entries there is room for: sixteen rows of sixteen.
const ROOM: usize = 256;

/// Bounds on 2 to 8 members, and on the differences and sums of two of them.
///
/// `bounds` has sixteen rows of sixteen entries for every size, so that an octagon needs no
/// memory of its own; those from row or column 2n on have no bound off the diagonal. Contracts
/// see an octagon as its size and its entries (`entries` of `specs.Octagons`); its facts are
/// `IsOctagon` of `specs.Facts`.
#[derive(Clone, Copy)]
pub struct Octagon {
    pub(crate) size: u32,
    pub(crate) bounds: [i128; ROOM],
    ghost facts: { IsOctagon size bounds } by { IsOctagon-prop size bounds },
}

// A pass that leaves no bound off the diagonal.
#[derive(Drop)]
pub(crate) struct Clearing;

impl Change for Clearing {
    ghost use Rattle.std.specs.Prelude.{ℕ, ℤ};
    ghost use Rattle.sp_octagon.specs.Changes.{no_bounds};

    ghost made = { λ pass r c z. no_bounds r c };

    ghost allowed = { λ pass r c z. Unit {0} };

    fn change(&self, row: usize, column: usize, _bound: i128) -> i128 {
        if row == column { 0 } else { UNBOUNDED }
    }
}

impl Octagon {
    ghost use Rattle.std.specs.Prelude.{◌≡◌, ◌≢◌, ◌+◌, ◌*◌, ◌<◌, ◌≤◌, ◌≤ℤ◌, ℕ, ℤ, true};
    ghost use Rattle.sp_octagon.specs.Entries.{Entries, least_bound, greatest_bound};
    ghost use Rattle.sp_octagon.specs.Facts.{IsInRange};
    ghost use Rattle.sp_octagon.specs.Changes.{no_bounds, with_pair};
    ghost use Rattle.sp_octagon.specs.Points.{Point};
    ghost use Rattle.sp_octagon.specs.Octagons.{rows, entries, bound_of, Becomes, octagon_le, OctagonHolds};
    ghost use Rattle.sp_octagon.specs.Kept.{boundless};

    /// The octagon of `n` members without a bound off the diagonal.
    pub fn top(n: u32) -> Octagon
        requires some { 2 ≤ n }
        requires few { n ≤ 8 }
        ensures size { result.size ≡ n }
        ensures entries { (r c : ℕ) → r < 2 * n → c < 2 * n → entries result r c ≡ no_bounds r c }
        ensures greatest { (other : Octagon) → other.size ≡ n → octagon_le other result ≡ true }
        ensures holds { (p : Point) → OctagonHolds result p }
        ensures value { result ≡ boundless n }
    {
        let mut bounds = [0; ROOM];
        change_entries(&mut bounds, 16, &Clearing);
        Octagon { size: n, bounds }
    }

    /// How many members it has.
    pub fn size(&self) -> u32
        ensures { result ≡ self.now.size }
    {
        self.size
    }

    /// The bound of column minus row, or `None` where there is none.
    pub fn entry(&self, row: u32, column: u32) -> Option<i128>
        requires row { row < rows self.now }
        requires column { column < rows self.now }
        ensures { result ≡ bound_of (entries self.now row column) }
    {
        let bound = self.bound(row as usize, column as usize);
        if bound < UNBOUNDED { Some(bound) } else { None }
    }

    /// Sets an entry and the one that equals it, and changes nothing else.
    pub fn set_entry(&mut self, row: u32, column: u32, to: i128)
        requires row { row < rows self.old }
        requires column { column < rows self.old }
        requires different { row ≢ column }
        requires low { least_bound ≤ℤ to }
        requires high { to ≤ℤ greatest_bound }
        ensures becomes { Becomes self.old self.new (with_pair (entries self.old) row column to) }
    {
        set_pair(&mut self.bounds, row as usize, column as usize, to);
    }

    // The entry, as it is kept.
    pub(crate) fn bound(&self, row: usize, column: usize) -> i128
        requires row { row < 16 }
        requires column { column < 16 }
        ensures is { result ≡ entries self.now row column }
        ensures in_range { IsInRange result }
    {
        self.bounds[16 * row + column]
    }

    // How many rows it has.
    pub(crate) fn rows(&self) -> usize
        ensures rows { result ≡ rows self.now }
        ensures some { 4 ≤ result }
        ensures few { result ≤ 16 }
    {
        2 * self.size as usize
    }
}

// A pass that raises each entry to that of another octagon, where that is greater.
#[derive(Drop)]
struct Joining<'a> {
    other: &'a Octagon,
}

impl Change for Joining<'_> {
    ghost use Rattle.std.specs.Prelude.{ℕ, ℤ};
    ghost use Rattle.std.specs.Int.{int_max};
    ghost use Rattle.sp_octagon.specs.Entries.{entries_of};

    ghost made = { λ pass r c z. int_max z (entries_of pass.other.now.bounds r c) };

    ghost allowed = { λ pass r c z. Unit {0} };

    fn change(&self, row: usize, column: usize, bound: i128) -> i128 {
        bound.max(self.other.bound(row, column))
    }
}

impl Octagon {
    ghost use Rattle.std.specs.Prelude.{◌≡◌, ◌<◌, ◌↔◌, not, true, int_le};
    ghost use Rattle.sp_octagon.specs.Order.{Below, all_below};
    ghost use Rattle.sp_octagon.specs.Order.{joined as raised};
    ghost use Rattle.sp_octagon.specs.Functions.{joined};
    ghost use Rattle.sp_octagon.specs.Octagons.{rows, entries, Becomes, octagon_le};

    /// Whether no entry is greater than that of an octagon of the same size.
    pub fn leq(&self, other: &Octagon) -> bool
        requires { self.now.size ≡ other.now.size }
        ensures value { result ≡ octagon_le self.now other.now }
        ensures below { result ≡ true ↔ Below (rows self.now) (entries self.now) (entries other.now) }
    {
        self.is_below(other)
    }

    /// Raises each entry to that of an octagon of the same size, where that is greater, and says
    /// whether any grew.
    pub fn join_into(&mut self, other: &Octagon) -> bool
        requires { self.old.size ≡ other.now.size }
        ensures value { self.new ≡ joined self.old other.now }
        ensures grew { result ≡ not (octagon_le other.now self.old) }
    {
        let grew = !other.leq(self);
        self.raise(other);
        grew
    }

    // Raises each entry.
    fn raise(&mut self, other: &Octagon)
        requires { self.old.size ≡ other.now.size }
        ensures { Becomes self.old self.new (raised (entries self.old) (entries other.now)) }
    {
        let count = self.rows();
        change_entries(&mut self.bounds, count, &Joining { other });
    }

    // Whether no entry is greater than that of the other.
    fn is_below(&self, other: &Octagon) -> bool
        requires { self.now.size ≡ other.now.size }
        ensures { result ≡ octagon_le self.now other.now }
    {
        let count = self.rows();
        'rows: for row in 0..count {
            if !self.is_below_in(other, row) {
                return false;
            }
        }
        true
    }

    // Whether no entry in a row is greater than that of the other.
    fn is_below_in(&self, other: &Octagon, row: usize) -> bool
        requires same { self.now.size ≡ other.now.size }
        requires row { row < rows self.now }
        ensures { result ≡ all_below (rows self.now) (λ c. int_le (entries self.now row c) (entries other.now row c)) }
    {
        let count = self.rows();
        'columns: for column in 0..count {
            if self.bound(row, column) > other.bound(row, column) {
                return false;
            }
        }
        true
    }
}

// The row that stands for the negative.
pub(crate) fn negative(row: usize) -> usize
    requires { row < 16 }
    ensures { result ≡ negative row }
{
    row + 1 - 2 * (row % 2)
}

// Writes an entry and the one that equals it.
pub(crate) fn set_pair(cells: &mut [i128], row: usize, column: usize, to: i128)
    requires room { length cells.old ≡ 256 }
    requires row { row < 16 }
    requires column { column < 16 }
    ensures written { (i j : ℕ) → i < 16 → j < 16 → entries_of cells.new i j ≡ with_pair (entries_of cells.old) row column to i j }
{
    cells[16 * row + column] = to;
    cells[16 * negative(column) + negative(row)] = to;
}
