//! Some of the slots of a row, as a row of their own.
ghost use Rattle.std.specs.Prelude.{◌≡◌, ◌≢◌, ℕ, true, cond, length, replicate, All, IfOk};
ghost use Rattle.std.specs.List.Sorted.{IsStrictlyIncreasing};
ghost use Rattle.sp_lattice.specs.System.{has};
ghost use Rattle.sp_value.specs.declared.slots.Slot.TheVariants.{Nothing};
ghost use Rattle.sp_effect_rows.specs.Updates.{store_of};

use sp_effect_rows::find_place;
use sp_value::Slot;
use std::alloc::{AllocError, Global};

/// A row of so many slots with nothing in them.
pub(crate) fn empty_slots(alloc: Global, count: usize) -> Result<Vec<Slot>, AllocError>
    ensures { IfOk result (λ slots. length slots.items ≡ count) }
{
    let mut slots = Vec::new(alloc);
    for _ in 0..count {
        slots.push(Slot::Nothing)?;
    }
    Ok(slots)
}

/// Exchanges what a row has at one of its places for another slot.
fn exchange_one(row: &mut [Slot], places: &[u32], location: u32, slot: &mut Slot)
    requires ascend { IsStrictlyIncreasing places.now }
    requires there { has location places.now ≡ true }
    requires long { length row.old ≡ length places.now }
    ensures given { slot.new ≡ store_of places.now row.old location }
    ensures taken { store_of places.now row.new location ≡ slot.old }
    ensures others { (l : ℕ) → l ≢ location →
        store_of places.now row.new l ≡ store_of places.now row.old l }
{
    match find_place(places, location) {
        Some(place) => std::mem::swap(&mut row[place], slot),
        None => unreachable!(),
    }
}

/// Exchanges what a row has at these of its places for a row of their own.
pub(crate) fn exchange(row: &mut [Slot], places: &[u32], slots: &mut [Slot], these: &[u32])
    requires ascend { IsStrictlyIncreasing places.now }
    requires rise { IsStrictlyIncreasing these.now }
    requires there { (l : ℕ) → has l these.now ≡ true → has l places.now ≡ true }
    requires long { length row.old ≡ length places.now }
    requires slots { length slots.old ≡ length these.now }
    ensures given { (l : ℕ) → has l these.now ≡ true →
        store_of these.now slots.new l ≡ store_of places.now row.old l }
    ensures taken { (l : ℕ) → store_of places.now row.new l ≡ cond (has l these.now)
        (store_of these.now slots.old l) (store_of places.now row.old l) }
{
    for (place, location) in these.iter().enumerate() {
        exchange_one(row, places, *location, &mut slots[place]);
    }
}
