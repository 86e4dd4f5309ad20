//! The store that a node is given, by its slots at ascending places.
ghost use Rattle.std.specs.Prelude.{◌≡◌, ℕ, true, cond, length, OnOk};
ghost use Rattle.std.specs.List.Sorted.{IsStrictlyIncreasing};
ghost use Rattle.sp_lattice.specs.System.{has};
ghost use Rattle.sp_value.specs.declared.slots.Slot.TheVariants.{Nothing};
ghost use Rattle.sp_effect_rows.specs.Updates.{store_of};

use crate::places::find_place;
use crate::updates::put_at;
use sp_lattice::Lattice;
use sp_value::{Slot, View};
use std::alloc::{AllocError, Global};

/// The store that has these slots at ascending places, and nothing elsewhere.
#[derive(Drop)]
pub struct GivenAt<'a> {
    pub places: &'a [u32],
    pub slots: &'a [Slot],
    nothing: Slot,
    ghost rises: { IsStrictlyIncreasing places.now },
    ghost long: { length slots.now ≡ length places.now },
    ghost empty: { nothing ≡ Nothing },
}

impl<'a> GivenAt<'a> {
    /// These slots at these places, one for each.
    pub fn new(places: &'a [u32], slots: &'a [Slot]) -> GivenAt<'a>
        requires rises { IsStrictlyIncreasing places.now }
        requires long { length slots.now ≡ length places.now }
        ensures places { result.places.now ≡ places.now }
        ensures slots { result.slots.now ≡ slots.now }
    {
        GivenAt {
            places,
            slots,
            nothing: Slot::Nothing,
        }
    }
}

impl View for GivenAt<'_> {
    ghost use Rattle.sp_effect_rows.specs.Updates.{store_of};

    ghost store = { λ view. store_of view.places.now view.slots.now };

    fn slot(&self, location: u32) -> &Slot {
        match find_place(self.places, location) {
            Some(place) => &self.slots[place],
            None => &self.nothing,
        }
    }
}

/// Copies what a store has at its places into a row.
pub fn copy_into<V: View>(
    alloc: Global,
    view: &V,
    row: &mut [Slot],
    places: &[u32],
) -> Result<(), AllocError>
    requires ascend { IsStrictlyIncreasing places.now }
    requires long { length row.old ≡ length places.now }
    ensures { OnOk result ((l : ℕ) → has l places.now ≡ true →
        store_of places.now row.new l ≡ V.store view.now l) }
{
    for place in places {
        let slot = view.slot(*place).copy(alloc)?;
        put_at(row, places, *place, slot);
    }
    Ok(())
}
