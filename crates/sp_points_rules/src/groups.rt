//! What the rules ask of regions again and again, found once.
ghost use Rattle.std.specs.Prelude.{◌≡◌, ◌<◌, ◌⊎◌, ℕ, true, length, IfOk, OnOk};
ghost use Rattle.sp_ir.specs.Programs.{lowered_of};
ghost use Rattle.sp_ir.specs.Formed.{IsFormed};
ghost use Rattle.sp_ir.specs.Regions.{is_cell_at};
ghost use Rattle.sp_base_sets.specs.Sets.{has};
ghost use Rattle.sp_base_sets.specs.Reached.{row};
ghost use Rattle.sp_points_rules.specs.Paths.{object_at, reaches, AreGroups};

use crate::leaves::pointers_of;
use crate::paths::object_at;
use sp_base_sets::NumberSet;
use sp_ir::Lowered;
use std::alloc::{AllocError, Global};

/// The cells of each object, and the regions with a leaf that is a pointer.
#[derive(Drop)]
pub struct Groups {
    pub objects: Vec<NumberSet>,
    pub pointers: NumberSet,
}

fn add_to(groups: &mut Vec<NumberSet>, object: u32, region: u32) -> Result<(), AllocError>
    ensures long { OnOk result (length groups.new.items ≡ length groups.old.items) }
    ensures kept { OnOk result ((o n : ℕ) → has n (row groups.old.items o) ≡ true
        → has n (row groups.new.items o) ≡ true) }
    ensures there { OnOk result (object < length groups.old.items
        → has region (row groups.new.items object) ≡ true) }
    ensures own { OnOk result ((o n : ℕ) → has n (row groups.new.items o) ≡ true
        → (has n (row groups.old.items o) ≡ true) ⊎ ((n ≡ region) × (o ≡ object))) }
{
    if (object as usize) < groups.len() {
        groups[object as usize].add(region)?;
    }
    Ok(())
}

/// For each object the set of its cells.
fn by_object(alloc: Global, lowered: &Lowered) -> Result<Vec<NumberSet>, AllocError>
    requires { IsFormed (lowered_of lowered.now) }
    ensures under { IfOk result (λ groups. (q c : ℕ) → reaches (lowered_of lowered.now) q c ≡ true
        → has c (row groups.items (object_at (lowered_of lowered.now) q)) ≡ true) }
    ensures own { IfOk result (λ groups. (o c : ℕ) → has c (row groups.items o) ≡ true
        → object_at (lowered_of lowered.now) c ≡ o) }
    ensures cells { IfOk result (λ groups. (o c : ℕ) → has c (row groups.items o) ≡ true
        → is_cell_at (lowered_of lowered.now).regions c ≡ true) }
{
    let mut groups = NumberSet::empty_sets(alloc, lowered.objects.len())?;
    for region in 0..lowered.regions.len() as u32 {
        if lowered.regions.is_cell(region) {
            add_to(&mut groups, object_at(lowered, region), region)?;
        }
    }
    Ok(groups)
}

/// The groups of a program.
pub fn groups_of(alloc: Global, lowered: &Lowered) -> Result<Groups, AllocError>
    requires { IsFormed (lowered_of lowered.now) }
    ensures { IfOk result (λ groups. AreGroups (lowered_of lowered.now) groups) }
{
    let objects = by_object(alloc, lowered)?;
    let pointers = pointers_of(alloc, lowered)?;
    Ok(Groups { objects, pointers })
}
