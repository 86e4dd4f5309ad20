//! Slots put at locations known beforehand.
ghost use Rattle.std.specs.Prelude.{◌≡◌, ℕ, true, length, OnOk, All};
ghost use Rattle.std.specs.List.Sorted.{IsStrictlyIncreasing};
ghost use Rattle.sp_lattice.specs.System.{has};
ghost use Rattle.sp_effect_rows.specs.Updates.{placed_at};
ghost use Rattle.sp_effect_rows.specs.Rows.{applied};
ghost use Rattle.sp_effect_rows.specs.Updates.{store_of};

use crate::stores::empty;
use crate::updates::join_at;
use sp_value::Slot;
use std::alloc::{AllocError, Global};

/// Puts each slot at its location. The strong locations lose what they held; the others keep it.
pub fn place(
    alloc: Global,
    row: &mut [Slot],
    places: &[u32],
    strong: &[u32],
    locations: &[u32],
    slots: &[Slot],
) -> Result<(), AllocError>
    requires ascend { IsStrictlyIncreasing places.now }
    requires strong_there { All (λ l. has l places.now ≡ true) strong.now }
    requires there { All (λ l. has l places.now ≡ true) locations.now }
    requires slots { length slots.now ≡ length locations.now }
    requires long { length row.old ≡ length places.now }
    ensures { OnOk result ((l : ℕ) → store_of places.now row.new l ≡
        applied (placed_at strong.now locations.now slots.now) (store_of places.now row.old) l) }
{
    empty(row, places, strong);
    for (place, location) in locations.iter().enumerate() {
        join_at(alloc, row, places, *location, &slots[place])?;
    }
    Ok(())
}
