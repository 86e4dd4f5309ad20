//! Octagons in the room of their size, for where they are kept.
ghost use Rattle.std.specs.Prelude.{◌≡◌, ◌+◌, ◌*◌, ◌<◌, ◌≤◌, ◌++◌, length, not, IfOk, OnOk};
ghost use Rattle.sp_octagon.specs.Entries.{entries_of};
ghost use Rattle.sp_octagon.specs.Made.{listed};
ghost use Rattle.sp_octagon.specs.Kept.{width, start, list_le, IsGreater};
ghost use Rattle.sp_octagon.specs.inner.Reading.{ReadTo};
ghost use Rattle.sp_octagon.specs.Octagons.{rows, entries, octagon_le};
ghost use Rattle.sp_octagon.specs.Functions.{joined};

use crate::octagon::{Clearing, Octagon, set_pair};
use crate::passes::change_entries;
use std::alloc::{AllocError, Global};
use std::marker::Model;

/// An octagon where it is kept: 2n(n+1) bounds for n members, about 200 bytes for two.
///
/// Contracts see the octagon that is kept.
#[derive(Drop)]
pub struct Kept {
    size: u32,
    bounds: Vec<i128>,
}

impl Model for Kept {
    ghost use Rattle.sp_octagon.specs.declared.octagon.Octagon.{Octagon};
    ghost use Rattle.sp_octagon.specs.Kept.{whole, IsKept};

    ghost Value = { Octagon };

    ghost view = { λ kept. whole kept.size kept.bounds.items };

    ghost invariant = { λ kept. IsKept kept.size kept.bounds.items };
}

// How many columns of a row are kept.
fn width(row: usize) -> usize
    requires { row < 16 }
    ensures { result ≡ width row }
{
    row + 2 - row % 2
}

// Adds what is kept of a row.
fn push_row(bounds: &mut Vec<i128>, octagon: &Octagon, row: usize) -> Result<(), AllocError>
    requires { row < rows octagon.now }
    ensures { OnOk result (bounds.new.items ≡ bounds.old.items ++ listed (width row) (entries octagon.now row)) }
{
    'columns: for column in 0..width(row) {
        bounds.push(octagon.bound(row, column))?;
    }
    Ok(())
}

// Whether no bound is greater than that in the same place of the others.
fn is_within(bounds: &[i128], others: &[i128]) -> bool
    requires { length bounds.now ≡ length others.now }
    ensures { result ≡ list_le bounds.now others.now }
{
    'places: for place in 0..bounds.len() {
        let bound = bounds[place];
        let other = others[place];
        if bound > other {
            return false;
        }
    }
    true
}

// Raises each bound to that in the same place of the others, where that is greater, and says whether any grew.
fn raise(bounds: &mut [i128], others: &[i128]) -> bool
    requires { length bounds.old ≡ length others.now }
    ensures value { IsGreater bounds.old others.now bounds.new }
    ensures grew { result ≡ not (list_le others.now bounds.old) }
{
    let mut grew = false;
    'places: for place in 0..others.len() {
        let bound = bounds[place];
        let other = others[place];
        if bound < other {
            bounds[place] = other;
            grew = true;
        }
    }
    grew
}

impl Kept {
    /// Keeps an octagon.
    pub fn new(alloc: Global, octagon: &Octagon) -> Result<Kept, AllocError>
        ensures { IfOk result (λ kept. kept ≡ octagon.now) }
    {
        let members = octagon.size() as usize;
        let mut bounds = Vec::with_capacity(alloc, 2 * members * (members + 1))?;
        'rows: for row in 0..2 * members {
            push_row(&mut bounds, octagon, row)?;
        }
        Ok(Kept {
            size: octagon.size(),
            bounds,
        })
    }

    /// How many members the octagon has.
    pub fn size(&self) -> u32
        ensures { result ≡ self.now.size }
    {
        self.size
    }

    /// How many bounds are kept: 2n(n+1) for n members.
    pub fn room(&self) -> usize
        ensures { result ≡ 2 * self.now.size * (self.now.size + 1) }
    {
        self.bounds.len()
    }

    /// The same octagon, kept once more.
    pub fn copy(&self) -> Result<Kept, AllocError>
        ensures { IfOk result (λ kept. kept ≡ self.now) }
    {
        Ok(Kept {
            size: self.size,
            bounds: self.bounds.clone()?,
        })
    }

    /// Whether no entry is greater than that of a kept octagon of the same size. It opens neither and takes no
    /// memory.
    pub fn leq(&self, other: &Kept) -> bool
        requires { self.now.size ≡ other.now.size }
        ensures { result ≡ octagon_le self.now other.now }
    {
        is_within(self.bounds.as_slice(), other.bounds.as_slice())
    }

    /// Raises each entry to that of a kept octagon of the same size, where that is greater, and says whether any
    /// grew. It opens neither and takes no memory.
    pub fn join_into(&mut self, other: &Kept) -> bool
        requires { self.old.size ≡ other.now.size }
        ensures value { self.new ≡ joined self.old other.now }
        ensures grew { result ≡ not (octagon_le other.now self.old) }
    {
        raise(self.bounds.as_mut_slice(), other.bounds.as_slice())
    }

    /// The octagon that is kept.
    pub fn octagon(&self) -> Octagon
        ensures { result ≡ self.now }
    {
        let mut cells = [0; 256];
        change_entries(&mut cells, 16, &Clearing);
        let mut first = 0;
        'rows: for row in 0..2 * self.size as usize {
            self.read_row(&mut cells, row, first);
            first += width(row);
        }
        Octagon {
            size: self.size,
            bounds: cells,
        }
    }

    // Reads a row, whose bounds begin at `first`.
    fn read_row(&self, cells: &mut [i128], row: usize, first: usize)
        requires room { length cells.old ≡ 256 }
        requires row { row < rows self.now }
        requires first { first ≡ start row }
        requires above { ReadTo (rows self.now) (entries self.now) row 0 (entries_of cells.old) }
        ensures { ReadTo (rows self.now) (entries self.now) (row + 1) 0 (entries_of cells.new) }
    {
        'columns: for column in 0..width(row) {
            set_pair(cells, row, column, self.bounds[first + column]);
        }
    }
}
