//! Which struct stands for each.
ghost use Rattle.std.specs.Prelude.{◌≡◌, Some, IfOk, if◌then◌else◌};
ghost use Rattle.sp_link_agreement.specs.Depths.{tables};
ghost use Rattle.sp_link_structs.specs.Joined.{is_complete};
ghost use Rattle.sp_link_structs.specs.Leading.{leader_by};
ghost use Rattle.sp_link_structs.specs.Matched as rules;
ghost use Rattle.sp_link_structs.specs.Turns.{IsHeads};

use crate::entities::is_complete;
use crate::heads::{Heads, first_elsewhere, first_namesake};
use crate::leaders::Leaders;
use crate::numbers::Taken;
use sp_base_checked::CheckedUnit;
use sp_link_agreement::Entity;
use std::alloc::{AllocError, Global};

/// What stands for a struct that another one joins.
fn own_stand_in(units: &[CheckedUnit], leaders: &Leaders, of: Entity) -> Entity
    ensures { result ≡ rules.own_stand_in (tables units.now) (leader_by leaders.now) of }
{
    if is_complete(units, of) {
        leaders.leader(of)
    } else {
        of
    }
}

/// The same where there may be none: then the struct stands for itself.
fn stand_in_of(
    units: &[CheckedUnit],
    leaders: &Leaders,
    of: Entity,
    found: Option<Entity>,
) -> Entity
    ensures { result ≡ rules.stand_in_of (tables units.now) (leader_by leaders.now) of found }
{
    match found {
        Some(found) => own_stand_in(units, leaders, found),
        None => of,
    }
}

/// The struct that one without members joins, whose first namesake of another unit this is.
fn joined(units: &[CheckedUnit], heads: &Heads, of: Entity, elsewhere: Entity) -> Option<Entity>
    requires { IsHeads (tables units.now) (rules.in_turn (tables units.now)) heads.now }
    ensures { result ≡ (if is_complete (tables units.now) elsewhere then Some elsewhere
        else rules.first_namesake (tables units.now) of) }
{
    if is_complete(units, elsewhere) {
        Some(elsewhere)
    } else {
        first_namesake(units, heads, of)
    }
}

/// What stands for a struct without members.
fn open_stand_in(units: &[CheckedUnit], heads: &Heads, leaders: &Leaders, of: Entity) -> Entity
    requires { IsHeads (tables units.now) (rules.in_turn (tables units.now)) heads.now }
    ensures { result ≡ rules.open_stand_in (tables units.now) (leader_by leaders.now) of
        (rules.first_elsewhere (tables units.now) of) }
{
    match first_elsewhere(units, heads, of) {
        Some(found) => stand_in_of(units, leaders, of, joined(units, heads, of, found)),
        None => of,
    }
}

/// What stands for a struct.
fn final_stand_in(units: &[CheckedUnit], heads: &Heads, leaders: &Leaders, of: Entity) -> Entity
    requires { IsHeads (tables units.now) (rules.in_turn (tables units.now)) heads.now }
    ensures { result ≡ rules.final_stand_in (tables units.now) (leader_by leaders.now) of }
{
    if is_complete(units, of) {
        leaders.leader(of)
    } else {
        open_stand_in(units, heads, leaders, of)
    }
}

/// Each struct with what stands for it.
pub(crate) fn all_stand_ins(
    alloc: Global,
    units: &[CheckedUnit],
    heads: &Heads,
    leaders: &Leaders,
    all: &[Entity],
) -> Result<Vec<Taken>, AllocError>
    requires all { all.now ≡ rules.of_units 0 (tables units.now) }
    requires heads { IsHeads (tables units.now) (rules.in_turn (tables units.now)) heads.now }
    ensures { IfOk result (λ ps.
        ps.items ≡ rules.stand_ins (tables units.now) (leader_by leaders.now)) }
{
    let mut pairs = Vec::new(alloc);
    'all: for (i, x) in all.iter().enumerate() {
        pairs.push((*x, final_stand_in(units, heads, leaders, *x)))?;
    }
    Ok(pairs)
}
