//! Locations spread from the functions that touch them to all that call these.
//!
//! One location after another comes to the sets of its functions, and from each to its callers, by
//! a worklist. So a set grows at its end, and the time is about that of the sets' sizes and of the
//! calls between functions that have a location, whatever the number of functions.
ghost use Rattle.std.specs.Prelude.{◌≡◌, ◌↔◌, ◌<◌, ◌^◌, ◌∷◌, ℕ, [], true, false, length, IfOk, OnOk};
ghost use Rattle.sp_base_sets.specs.Sets.{has};
ghost use Rattle.sp_base_sets.specs.Reached.{row, Reached};
ghost use Rattle.sp_defuse.specs.Spreading.{IsListed, Keeps, Comes};

use sp_base_sets::NumberSet;
use std::alloc::{AllocError, Global};

/// The locations that each function has so far, and the functions to which the last one came, in
/// the order in which it came.
#[derive(Drop)]
pub(crate) struct Spread {
    pub(crate) sets: Vec<NumberSet>,
    pub(crate) order: Vec<u32>,
}

/// Gives a location to a function, where it doesn't have it.
fn give(spread: &mut Spread, location: u32, function: u32) -> Result<(), AllocError>
    requires low { function < length spread.old.sets.items }
    requires listed { IsListed (length spread.old.sets.items) location spread.old }
    ensures listed { OnOk result
        (IsListed (length spread.old.sets.items) location spread.new) }
    ensures comes { OnOk result (Comes location (function ∷ []) spread.old spread.new) }
{
    if spread.sets[function as usize].add(location)? {
        spread.order.push(function)?;
    }
    Ok(())
}

/// Gives a location to each of these functions.
fn give_each(spread: &mut Spread, location: u32, functions: &[u32]) -> Result<(), AllocError>
    requires low { (f : ℕ) → has f functions.now ≡ true → f < length spread.old.sets.items }
    requires listed { IsListed (length spread.old.sets.items) location spread.old }
    ensures listed { OnOk result
        (IsListed (length spread.old.sets.items) location spread.new) }
    ensures comes { OnOk result (Comes location functions.now spread.old spread.new) }
{
    for function in functions {
        give(spread, location, *function)?;
    }
    Ok(())
}

/// Gives a location that no function has to these, and to all from which calls lead to them.
fn spread_one(
    spread: &mut Spread,
    callers: &[NumberSet],
    owners: &[u32],
    location: u32,
) -> Result<(), AllocError>
    requires long { length spread.old.sets.items ≡ length callers.now }
    requires fresh { (f : ℕ) → has location (row spread.old.sets.items f) ≡ false }
    requires owners { (f : ℕ) → has f owners.now ≡ true → f < length callers.now }
    requires callers { (g f : ℕ) → has f (row callers.now g) ≡ true
        → f < length callers.now }
    ensures keeps { OnOk result (Keeps location spread.old.sets.items spread.new.sets.items) }
    ensures exact { OnOk result ((f : ℕ) → (has location (row spread.new.sets.items f) ≡ true)
        ↔ Reached callers.now owners.now f) }
{
    spread.order.clear();
    give_each(spread, location, owners)?;
    let mut at = 0;
    'walk: while at < spread.order.len() {
        let function = spread.order[at];
        give_each(spread, location, callers[function as usize].as_slice())?;
        at += 1;
    }
    Ok(())
}

/// The locations of each function: those of which it is an owner, or from which calls lead to one.
pub(crate) fn spread_all(
    alloc: Global,
    callers: &[NumberSet],
    owners: &[NumberSet],
) -> Result<Vec<NumberSet>, AllocError>
    requires few { length owners.now < 2 ^ 32 }
    requires owners { (l f : ℕ) → has f (row owners.now l) ≡ true
        → f < length callers.now }
    requires callers { (g f : ℕ) → has f (row callers.now g) ≡ true
        → f < length callers.now }
    ensures { IfOk result (λ sets. (f l : ℕ) → (has l (row sets.items f) ≡ true)
        ↔ Reached callers.now (row owners.now l) f) }
{
    let mut spread = Spread {
        sets: NumberSet::empty_sets(alloc, callers.len())?,
        order: Vec::new(alloc),
    };
    for location in 0..owners.len() as u32 {
        spread_one(
            &mut spread,
            callers,
            owners[location as usize].as_slice(),
            location,
        )?;
    }
    Ok(spread.sets)
}
