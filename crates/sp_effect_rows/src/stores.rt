//! A store through an address, on a row of slots.
ghost use Rattle.std.specs.Prelude.{◌≡◌, ℕ, true, not, ◌&&◌, length, IfOk, OnOk, All, cond};
ghost use Rattle.std.specs.List.Sorted.{IsStrictlyIncreasing};
ghost use Rattle.sp_lattice.specs.System.{has};
ghost use Rattle.sp_value.specs.declared.slots.Slot.TheVariants.{Nothing};
ghost use Rattle.sp_value.specs.Slots.{slot_join};
ghost use Rattle.sp_effect_rows.specs.Rows.{kept_if, applied};
ghost use Rattle.sp_effect_rows.specs.Storing.{may_hit};
ghost use Rattle.sp_effect_rows.specs.Updates.{store_of, stored_at};

use crate::updates::{Stores, join_stored, join_where_hit, put_at};
use sp_lattice::Lattice;
use sp_value::{Slot, Target};
use std::alloc::{AllocError, Global};

/// Empties the row at these of its places.
pub(crate) fn empty(row: &mut [Slot], places: &[u32], these: &[u32])
    requires ascend { IsStrictlyIncreasing places.now }
    requires there { All (λ l. has l places.now ≡ true) these.now }
    requires long { length row.old ≡ length places.now }
    ensures { (l : ℕ) → store_of places.now row.new l ≡
        cond (has l these.now) Nothing (store_of places.now row.old l) }
{
    for place in these {
        put_at(row, places, *place, Slot::Nothing);
    }
}

/// What is stored at a location.
fn stored_slot<R: Stores>(alloc: Global, location: u32, to: &R) -> Result<Slot, AllocError>
    ensures { IfOk result (λ slot. slot ≡ R.slots to.now location) }
{
    match to.instead(alloc, location)? {
        Some(slot) => Ok(slot),
        None => {
            let slot = to.usual().copy(alloc)?;
            Ok(slot)
        }
    }
}

/// Stores at the one location that a region hits: replaces, or joins where it is a summary.
fn store_one<R: Stores>(
    alloc: Global,
    row: &mut [Slot],
    places: &[u32],
    region: u32,
    to: &R,
) -> Result<(), AllocError>
    requires ascend { IsStrictlyIncreasing places.now }
    requires there { (l : ℕ) → (R.reach to.now).hits region l ≡ true → has l places.now ≡ true }
    requires long { length row.old ≡ length places.now }
    ensures stored { OnOk result ((l : ℕ) → store_of places.now row.new l ≡
        slot_join
        (kept_if (not ((R.reach to.now).hits region l && not ((R.reach to.now).summary l)))
        (store_of places.now row.old l))
        (cond ((R.reach to.now).hits region l) (R.slots to.now l) Nothing)) }
{
    let Some(location) = to.location(region) else {
        return Ok(());
    };
    if to.is_summary(location) {
        join_stored(alloc, row, places, location, to)
    } else {
        let slot = stored_slot(alloc, location, to)?;
        put_at(row, places, location, slot);
        Ok(())
    }
}

/// Stores where targets hit, by the rule of strong and weak updates. `hit` are the locations that may be
/// hit, all of them among the places.
pub fn store<R: Stores>(
    alloc: Global,
    row: &mut [Slot],
    places: &[u32],
    hit: &[u32],
    targets: &[Target],
    to: &R,
) -> Result<(), AllocError>
    requires ascend { IsStrictlyIncreasing places.now }
    requires hit { (l : ℕ) → has l hit.now ≡ may_hit (R.reach to.now) l }
    requires hit_there { All (λ l. has l places.now ≡ true) hit.now }
    requires there { All (λ x. (l : ℕ) → (R.reach to.now).hits x.region l ≡ true
        → has l places.now ≡ true) targets.now }
    requires long { length row.old ≡ length places.now }
    ensures stored { OnOk result ((l : ℕ) → has l places.now ≡ true →
        store_of places.now row.new l ≡
        applied (stored_at (R.reach to.now) targets.now (R.slots to.now))
        (store_of places.now row.old) l) }
{
    if targets.len() == 0 {
        empty(row, places, hit);
        Ok(())
    } else if targets.len() == 1 {
        store_one(alloc, row, places, targets[0].region, to)
    } else {
        join_where_hit(alloc, row, places, targets, to)
    }
}
