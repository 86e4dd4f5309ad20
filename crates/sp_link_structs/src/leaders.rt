//! The struct that leads those with members that are one.
ghost use Rattle.std.specs.Prelude.{◌≡◌, ◌∷◌, true, false, ℕ, IfOk, OnOk};
ghost use Rattle.sp_link_agreement.specs.Depths.{tables, struct_at};
ghost use Rattle.sp_link_agreement.specs.Known.{IsKnown};
ghost use Rattle.sp_link_structs.specs.Joined.{is_complete, IsStep};
ghost use Rattle.sp_link_structs.specs.Matched.{of_units, AreLeaders};
ghost use Rattle.sp_link_structs.specs.Groups.{AreGroups, full_key, of_key};
ghost use Rattle.sp_link_structs.specs.Leading.{
  is_before,
  leader_by,
  IsLeading,
  KeepsOne,
  IsAlike,
};

use crate::entities::is_complete;
use crate::groups::{Groups, full_key, groups_of};
use indexmap::IndexMap;
use sp_base_checked::CheckedUnit;
use sp_link_agreement::{Entity, Known, agree};
use std::alloc::{AllocError, Global};

/// The leader of each struct. One that isn't there leads itself.
#[derive(Drop)]
pub(crate) struct Leaders {
    others: IndexMap<Entity, Entity>,
}

/// Whether a struct stands before another, by unit and number.
fn is_before(left: Entity, right: Entity) -> bool
    ensures { result ≡ is_before left right }
{
    left.0 < right.0 || left.0 == right.0 && left.1 < right.1
}

impl Leaders {
    ghost use Rattle.std.specs.Prelude.{◌≡◌, ◌&&◌, ℕ, OnOk, if◌then◌else◌};
    ghost use Rattle.sp_link_agreement.specs.Inner.{same_entity};
    ghost use Rattle.sp_link_structs.specs.Leading.{leader_by, earlier, later, moved};

    /// Each leads itself.
    fn new(alloc: Global) -> Leaders
        ensures { (x : ℕ × ℕ) → leader_by result x ≡ x }
    {
        Leaders {
            others: IndexMap::new(alloc),
        }
    }

    /// The leader of a struct.
    pub(crate) fn leader(&self, of: Entity) -> Entity
        ensures { result ≡ leader_by self.now of }
    {
        match self.others.get(&of) {
            Some(found) => *found,
            None => of,
        }
    }

    /// Gives a struct a leader in place of another.
    fn move_one(&mut self, of: Entity, old: Entity, new: Entity) -> Result<(), AllocError>
        ensures { OnOk result ((x : ℕ × ℕ) → leader_by self.new x ≡
            (if same_entity of x && same_entity (leader_by self.old x) old then new
            else leader_by self.old x)) }
    {
        if self.leader(of) == old {
            self.others.insert(of, new)?;
        }
        Ok(())
    }

    /// Gives those of a list that have this leader another one.
    fn move_all(&mut self, list: &[Entity], old: Entity, new: Entity) -> Result<(), AllocError>
        ensures { OnOk result ((x : ℕ × ℕ) →
            leader_by self.new x ≡ moved list.now old new x (leader_by self.old x)) }
    {
        'list: for (i, x) in list.iter().enumerate() {
            self.move_one(*x, old, new)?;
        }
        Ok(())
    }

    /// Makes those of a list that one of two structs leads one with those that the other leads.
    fn join(&mut self, list: &[Entity], left: Entity, right: Entity) -> Result<(), AllocError>
        ensures { OnOk result ((x : ℕ × ℕ) → leader_by self.new x ≡
            moved list.now (later left right) (earlier left right) x (leader_by self.old x)) }
    {
        if is_before(right, left) {
            self.move_all(list, left, right)
        } else {
            self.move_all(list, right, left)
        }
    }
}

/// Whether there is a step from a struct to another of the same key that has another leader.
fn is_new_step(
    alloc: Global,
    units: &[CheckedUnit],
    leaders: &Leaders,
    pair: (Entity, Entity),
    known: &mut Known,
) -> Result<bool, AllocError>
    requires left { is_complete (tables units.now) pair.0 ≡ true }
    requires right { is_complete (tables units.now) pair.1 ≡ true }
    requires known { IsKnown (tables units.now) known.old }
    ensures step { IfOk result (λ b. b ≡ true → IsStep (tables units.now) pair.0 pair.1) }
    ensures none { IfOk result (λ b. b ≡ false → IsStep (tables units.now) pair.0 pair.1 →
        leader_by leaders.now pair.0 ≡ leader_by leaders.now pair.1) }
    ensures known { OnOk result (IsKnown (tables units.now) known.new) }
{
    if pair.0.0 >= pair.1.0 {
        return Ok(false);
    }
    if leaders.leader(pair.0) == leaders.leader(pair.1) {
        return Ok(false);
    }
    agree(alloc, units, pair, known)
}

/// Takes the step from a struct to another, if there is one.
fn take_step(
    alloc: Global,
    units: &[CheckedUnit],
    list: &[Entity],
    pair: (Entity, Entity),
    leaders: &mut Leaders,
    known: &mut Known,
) -> Result<(), AllocError>
    requires list { list.now ≡ of_key (tables units.now)
        (full_key (struct_at (tables units.now) pair.1)) (of_units 0 (tables units.now)) }
    requires alike { IsAlike (tables units.now) pair.1 pair.0 }
    requires complete { is_complete (tables units.now) pair.1 ≡ true }
    requires known { IsKnown (tables units.now) known.old }
    requires leading { IsLeading (tables units.now) (leader_by leaders.old) }
    ensures leading { OnOk result (IsLeading (tables units.now) (leader_by leaders.new)) }
    ensures one { OnOk result (KeepsOne (tables units.now) (leader_by leaders.old)
        (leader_by leaders.new)) }
    ensures taken { OnOk result (IsStep (tables units.now) pair.0 pair.1 →
        leader_by leaders.new pair.0 ≡ leader_by leaders.new pair.1) }
    ensures known { OnOk result (IsKnown (tables units.now) known.new) }
{
    if is_new_step(alloc, units, leaders, pair, known)? {
        let left = leaders.leader(pair.0);
        let right = leaders.leader(pair.1);
        leaders.join(list, left, right)?;
    }
    Ok(())
}

/// Takes all steps to a struct from those of its key.
fn take_steps(
    alloc: Global,
    units: &[CheckedUnit],
    list: &[Entity],
    of: Entity,
    leaders: &mut Leaders,
    known: &mut Known,
) -> Result<(), AllocError>
    requires list { list.now ≡ of_key (tables units.now)
        (full_key (struct_at (tables units.now) of)) (of_units 0 (tables units.now)) }
    requires complete { is_complete (tables units.now) of ≡ true }
    requires known { IsKnown (tables units.now) known.old }
    requires leading { IsLeading (tables units.now) (leader_by leaders.old) }
    ensures leading { OnOk result (IsLeading (tables units.now) (leader_by leaders.new)) }
    ensures one { OnOk result (KeepsOne (tables units.now) (leader_by leaders.old)
        (leader_by leaders.new)) }
    ensures taken { OnOk result ((p : ℕ × ℕ) → IsStep (tables units.now) p of →
        leader_by leaders.new p ≡ leader_by leaders.new of) }
    ensures known { OnOk result (IsKnown (tables units.now) known.new) }
{
    'list: for (i, p) in list.iter().enumerate() {
        take_step(alloc, units, list, (*p, of), leaders, known)?;
    }
    Ok(())
}

/// Takes all steps to a struct.
fn take_all_to(
    alloc: Global,
    units: &[CheckedUnit],
    groups: &Groups,
    of: Entity,
    leaders: &mut Leaders,
    known: &mut Known,
) -> Result<(), AllocError>
    requires groups { AreGroups (tables units.now) (of_units 0 (tables units.now)) groups.now }
    requires known { IsKnown (tables units.now) known.old }
    requires leading { IsLeading (tables units.now) (leader_by leaders.old) }
    ensures leading { OnOk result (IsLeading (tables units.now) (leader_by leaders.new)) }
    ensures one { OnOk result (KeepsOne (tables units.now) (leader_by leaders.old)
        (leader_by leaders.new)) }
    ensures taken { OnOk result ((p : ℕ × ℕ) → IsStep (tables units.now) p of →
        leader_by leaders.new p ≡ leader_by leaders.new of) }
    ensures known { OnOk result (IsKnown (tables units.now) known.new) }
{
    if is_complete(units, of) {
        let list = groups.list(full_key(units, of));
        take_steps(alloc, units, list, of, leaders, known)?;
    }
    Ok(())
}

/// The leader of each struct with members: the first of those that are joined with it.
pub(crate) fn leaders_of(
    alloc: Global,
    units: &[CheckedUnit],
    all: &[Entity],
) -> Result<Leaders, AllocError>
    requires { all.now ≡ of_units 0 (tables units.now) }
    ensures { IfOk result (λ t. AreLeaders (tables units.now) (leader_by t)) }
{
    let groups = groups_of(alloc, units, all)?;
    let mut leaders = Leaders::new(alloc);
    let mut known = Known::new(alloc);
    'all: for (i, x) in all.iter().enumerate() {
        take_all_to(alloc, units, &groups, *x, &mut leaders, &mut known)?;
    }
    Ok(leaders)
}
