//! One pass over the entries of an octagon's own rows and columns, which changes each by itself.
ghost use Rattle.std.specs.Prelude.{◌≡◌, ◌≢◌, ◌<◌, ◌≤◌, ℕ, ℤ, max, length};
ghost use Rattle.sp_octagon.specs.Entries.{entries_of};

/// What a pass makes of an entry.
///
/// `made` says what, from the row, the column and the entry. `allowed` says of which entries it
/// can be made.
pub(crate) trait Change {
    ghost made: { Self → ℕ → ℕ → ℤ → ℤ };

    ghost allowed: { Self → ℕ → ℕ → ℤ → Type 0 };

    /// The entry that the pass puts in place of `bound`.
    fn change(&self, row: usize, column: usize, bound: i128) -> i128
        requires row { row < 16 }
        requires column { column < 16 }
        requires allowed { allowed self.now row column bound }
        ensures { result ≡ made self.now row column bound };
}

// Changes one row.
fn change_row<C: Change>(cells: &mut [i128], row: usize, count: usize, change: &C)
    requires room { length cells.old ≡ 256 }
    requires row { row < 16 }
    requires count { count ≤ 16 }
    requires allowed { (c : ℕ) → c < count → C.allowed change.now row c (entries_of cells.old row c) }
    ensures row { (c : ℕ) → c < count → entries_of cells.new row c ≡ C.made change.now row c (entries_of cells.old row c) }
    ensures other_columns { (r c : ℕ) → r < 16 → c < 16 → count ≤ c → entries_of cells.new r c ≡ entries_of cells.old r c }
    ensures other_rows { (r c : ℕ) → r < 16 → c < 16 → r ≢ row → entries_of cells.new r c ≡ entries_of cells.old r c }
{
    'columns: for column in 0..count {
        let bound = cells[16 * row + column];
        let changed = change.change(row, column, bound);
        cells[16 * row + column] = changed;
    }
}

/// Changes the entries in the first `count` rows and columns, and no other.
pub(crate) fn change_entries<C: Change>(cells: &mut [i128], count: usize, change: &C)
    requires room { length cells.old ≡ 256 }
    requires count { count ≤ 16 }
    requires allowed { (r c : ℕ) → r < count → c < count → C.allowed change.now r c (entries_of cells.old r c) }
    ensures inside { (r c : ℕ) → r < count → c < count → entries_of cells.new r c ≡ C.made change.now r c (entries_of cells.old r c) }
    ensures outside { (r c : ℕ) → r < 16 → c < 16 → count ≤ max r c → entries_of cells.new r c ≡ entries_of cells.old r c }
{
    'rows: for row in 0..count {
        change_row(cells, row, count, change);
    }
}
