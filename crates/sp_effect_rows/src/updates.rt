//! Updates of a row of slots, one for each place of an ascending list.
ghost use Rattle.std.specs.Prelude.{◌≡◌, ◌≢◌, ℕ, true, false, length, nat_eq};
ghost use Rattle.std.specs.Prelude.{OnOk, IfOk, IfSome, IfNone, All, cond, unwrap_or};
ghost use Rattle.std.specs.List.Sorted.{IsStrictlyIncreasing};
ghost use Rattle.sp_lattice.specs.System.{has};
ghost use Rattle.sp_value.specs.Slots.{slot_join};
ghost use Rattle.sp_value.specs.declared.slots.Slot.{Slot};
ghost use Rattle.sp_value.specs.declared.slots.Slot.TheVariants.{Nothing};
ghost use Rattle.sp_effect_rows.specs.Storing.{Destination};
ghost use Rattle.sp_effect_rows.specs.Updates.{store_of, only_at, where_hit};

use crate::places::place_of;
use sp_lattice::Lattice;
use sp_value::{Slot, Target};
use std::alloc::{AllocError, Global};

/// Replaces what a row has at one of its places.
pub fn put_at(row: &mut [Slot], places: &[u32], location: u32, slot: Slot)
    requires ascend { IsStrictlyIncreasing places.now }
    requires there { has location places.now ≡ true }
    requires long { length row.old ≡ length places.now }
    ensures there { store_of places.now row.new location ≡ slot }
    ensures others { (l : ℕ) → l ≢ location →
        store_of places.now row.new l ≡ store_of places.now row.old l }
{
    let place = place_of(places, location);
    row[place] = slot;
}

/// Joins a slot to what a row has at one of its places.
pub fn join_at(
    alloc: Global,
    row: &mut [Slot],
    places: &[u32],
    location: u32,
    slot: &Slot,
) -> Result<(), AllocError>
    requires ascend { IsStrictlyIncreasing places.now }
    requires there { has location places.now ≡ true }
    requires long { length row.old ≡ length places.now }
    ensures joined { OnOk result ((l : ℕ) → store_of places.now row.new l ≡
        slot_join (store_of places.now row.old l) (only_at location slot.now l)) }
{
    let place = place_of(places, location);
    row[place].join_into(alloc, slot)?;
    Ok(())
}

/// A store: where it goes, and what each location gets.
pub trait Stores {
    ghost reach: { Self → Destination };

    ghost slots: { Self → ℕ → Slot };

    ghost usual: { Self → Slot };

    /// The location that a store at a region hits; `None` exactly where it hits none.
    fn location(&self, region: u32) -> Option<u32>
        ensures some { IfSome result (λ location. (l : ℕ) →
            (reach self.now).hits region l ≡ nat_eq l location) }
        ensures none { IfNone result ((l : ℕ) → (reach self.now).hits region l ≡ false) };

    /// Whether a location stands for more than one place of the machine.
    fn is_summary(&self, location: u32) -> bool
        ensures { result ≡ (reach self.now).summary location };

    /// What most locations get.
    fn usual(&self) -> &Slot
        ensures { result.now ≡ usual self.now };

    /// What a location gets in place of that, if it does.
    fn instead(&self, alloc: Global, location: u32) -> Result<Option<Slot>, AllocError>
        ensures { IfOk result (λ slot. unwrap_or slot (usual self.now) ≡ slots self.now location) };
}

/// Joins what is stored to what a row has where the targets hit: a weak update.
pub fn join_where_hit<H: Stores>(
    alloc: Global,
    row: &mut [Slot],
    places: &[u32],
    targets: &[Target],
    to: &H,
) -> Result<(), AllocError>
    requires ascend { IsStrictlyIncreasing places.now }
    requires there { All (λ x. (l : ℕ) → (H.reach to.now).hits x.region l ≡ true
        → has l places.now ≡ true) targets.now }
    requires long { length row.old ≡ length places.now }
    ensures joined { OnOk result ((l : ℕ) → store_of places.now row.new l ≡
        slot_join (store_of places.now row.old l)
        (where_hit ((H.reach to.now).hits) (H.slots to.now) targets.now l)) }
{
    for target in targets {
        join_from(alloc, row, places, target.region, to)?;
    }
    Ok(())
}

/// Joins what is stored at a location to what a row has there.
pub(crate) fn join_stored<H: Stores>(
    alloc: Global,
    row: &mut [Slot],
    places: &[u32],
    location: u32,
    to: &H,
) -> Result<(), AllocError>
    requires ascend { IsStrictlyIncreasing places.now }
    requires there { has location places.now ≡ true }
    requires long { length row.old ≡ length places.now }
    ensures joined { OnOk result ((l : ℕ) → store_of places.now row.new l ≡
        slot_join (store_of places.now row.old l)
        (only_at location (H.slots to.now location) l)) }
{
    match to.instead(alloc, location)? {
        Some(slot) => join_at(alloc, row, places, location, &slot),
        None => join_at(alloc, row, places, location, to.usual()),
    }
}

/// Joins what is stored to what a row has where a region hits.
fn join_from<H: Stores>(
    alloc: Global,
    row: &mut [Slot],
    places: &[u32],
    region: u32,
    to: &H,
) -> Result<(), AllocError>
    requires ascend { IsStrictlyIncreasing places.now }
    requires there { (l : ℕ) → (H.reach to.now).hits region l ≡ true → has l places.now ≡ true }
    requires long { length row.old ≡ length places.now }
    ensures joined { OnOk result ((l : ℕ) → store_of places.now row.new l ≡
        slot_join (store_of places.now row.old l)
        (cond ((H.reach to.now).hits region l) (H.slots to.now l) Nothing)) }
{
    match to.location(region) {
        Some(location) => join_stored(alloc, row, places, location, to),
        None => Ok(()),
    }
}
