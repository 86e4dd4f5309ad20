//! The structs of several units, in order.
ghost use Rattle.std.specs.Prelude.{◌≡◌, ◌++◌, ℕ, IfOk, OnOk, map, length};
ghost use Rattle.sp_types.specs.View.{struct_of};
ghost use Rattle.sp_link_agreement.specs.Depths.{tables};
ghost use Rattle.sp_link_structs.specs.Joined.{is_complete};
ghost use Rattle.sp_link_structs.specs.Matched.{of_unit, of_units, in_turn};

use sp_base_checked::CheckedUnit;
use sp_link_agreement::{Entity, struct_at};
use sp_types::StructType;
use std::alloc::{AllocError, Global};

/// A number, or want of memory where it has more than 32 bits.
pub(crate) fn narrow(number: usize) -> Result<u32, AllocError>
    ensures { IfOk result (λ n. n ≡ number) }
{
    u32::try_from(number).map_err(|_| AllocError)
}

/// The struct of a unit and a number there.
pub(crate) fn entity(unit: usize, number: usize) -> Result<Entity, AllocError>
    ensures { IfOk result (λ x. x ≡ (unit, number)) }
{
    Ok((narrow(unit)?, narrow(number)?))
}

/// Adds the structs of a unit.
fn add_unit(all: &mut Vec<Entity>, unit: usize, structs: &[StructType]) -> Result<(), AllocError>
    ensures { OnOk result (all.new.items ≡
        all.old.items ++ of_unit unit 0 (map struct_of structs.now)) }
{
    'structs: for (k, _) in structs.iter().enumerate() {
        all.push(entity(unit, k)?)?;
    }
    Ok(())
}

/// The structs of all units, in the order of units and numbers.
pub(crate) fn entities(alloc: Global, units: &[CheckedUnit]) -> Result<Vec<Entity>, AllocError>
    ensures { IfOk result (λ all. all.items ≡ of_units 0 (tables units.now)) }
{
    let mut all = Vec::new(alloc);
    'units: for (u, unit) in units.iter().enumerate() {
        add_unit(&mut all, u, &unit.structs)?;
    }
    Ok(all)
}

/// Whether a struct has members.
pub(crate) fn is_complete(units: &[CheckedUnit], at: Entity) -> bool
    ensures { result ≡ is_complete (tables units.now) at }
{
    match struct_at(units, at) {
        Some(found) => found.members.is_some(),
        None => false,
    }
}

/// Those with members first.
pub(crate) fn in_turn(
    alloc: Global,
    units: &[CheckedUnit],
    all: &[Entity],
) -> Result<Vec<Entity>, AllocError>
    requires { all.now ≡ of_units 0 (tables units.now) }
    ensures { IfOk result (λ xs. xs.items ≡ in_turn (tables units.now)) }
{
    let mut turn = Vec::new(alloc);
    'complete: for (i, x) in all.iter().enumerate() {
        if is_complete(units, *x) {
            turn.push(*x)?;
        }
    }
    'others: for (i, x) in all.iter().enumerate() {
        if !is_complete(units, *x) {
            turn.push(*x)?;
        }
    }
    Ok(turn)
}
