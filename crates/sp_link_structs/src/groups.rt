//! Structs by what those that agree have in common.
ghost use Rattle.std.specs.Prelude.{◌≡◌, map, option_map, IfOk, OnOk, List, ℕ, ◌++◌, ◌∷◌, []};
ghost use Rattle.sp_types.specs.View.{type_of, struct_of};
ghost use Rattle.sp_link_agreement.specs.Depths.{tables, struct_at};
ghost use Rattle.sp_link_structs.specs.Groups.{
  name_mark,
  members_mark,
  full_key,
  head_key,
  AreGroups,
};

use crate::entities::is_complete;
use indexmap::IndexMap;
use sp_base_checked::CheckedUnit;
use sp_link_agreement::{Entity, struct_at};
use sp_types::{CType, StructType};
use std::alloc::{AllocError, Global};

/// The tag, whether it is a union, and a mark of the names of its members.
pub(crate) type Key = (Option<u32>, bool, u32);

/// Structs by key, each list in the order in which they were added.
#[derive(Drop)]
pub(crate) struct Groups {
    lists: IndexMap<Key, Vec<Entity>>,
}

impl Groups {
    ghost use Rattle.std.specs.Prelude.{◌≡◌, ◌++◌, ◌∷◌, [], OnOk, if◌then◌else◌};
    ghost use Rattle.indexmap.specs.IndexMap.{get};
    ghost use Rattle.sp_link_structs.specs.Groups.{Key, group, same_key};

    /// No struct.
    pub(crate) fn new(alloc: Global) -> Groups
        ensures { (k : Key) → group result k ≡ [] }
    {
        Groups {
            lists: IndexMap::new(alloc),
        }
    }

    /// Those of a key.
    pub(crate) fn list(&self, key: Key) -> &[Entity]
        ensures { result.now ≡ group self.now key }
    {
        match self.lists.get(&key) {
            Some(list) => list.as_slice(),
            None => &[],
        }
    }

    /// Takes out the list of a key.
    fn take_list(&mut self, alloc: Global, key: Key) -> Vec<Entity>
        ensures list { result.items ≡ group self.old key }
        ensures rest { (k : Key) → get same_key self.new.lists k ≡
            (if same_key key k then None else get same_key self.old.lists k) }
    {
        match self.lists.swap_remove(&key) {
            Some(list) => list,
            None => Vec::new(alloc),
        }
    }

    /// Adds one behind those of its key.
    pub(crate) fn add(&mut self, alloc: Global, key: Key, item: Entity) -> Result<(), AllocError>
        ensures { OnOk result ((k : Key) → group self.new k ≡
            (if same_key key k then group self.old k ++ item ∷ [] else group self.old k)) }
    {
        let mut list = self.take_list(alloc, key);
        list.push(item)?;
        self.lists.insert(key, list)?;
        Ok(())
    }
}

/// A mark of the names of these members.
fn name_mark(members: &[(u32, CType)]) -> u32
    ensures { result ≡ name_mark 0 (map (λ m. (m.0, type_of m.1)) members.now) }
{
    let mut mark: u32 = 0;
    'members: for (i, member) in members.iter().enumerate() {
        mark = mark.wrapping_mul(31).wrapping_add(member.0);
    }
    mark
}

fn members_mark(of: &StructType) -> u32
    ensures { result ≡ members_mark (struct_of of.now).members }
{
    match &of.members {
        Some(members) => name_mark(members),
        None => 0,
    }
}

/// The key by which a struct with members is looked up.
pub(crate) fn full_key(units: &[CheckedUnit], at: Entity) -> Key
    ensures { result ≡ full_key (struct_at (tables units.now) at) }
{
    match struct_at(units, at) {
        Some(found) => (found.tag, found.union, members_mark(found)),
        None => (None, false, 0),
    }
}

/// The key by which namesakes are looked up.
pub(crate) fn head_key(units: &[CheckedUnit], at: Entity) -> Key
    ensures { result ≡ head_key (struct_at (tables units.now) at) }
{
    match struct_at(units, at) {
        Some(found) => (found.tag, found.union, 0),
        None => (None, false, 1),
    }
}

/// Adds a struct to those of its key, if it has members.
fn add_one(
    alloc: Global,
    units: &[CheckedUnit],
    of: Entity,
    groups: &mut Groups,
) -> Result<(), AllocError>
    ensures { OnOk result ((xs : List (ℕ × ℕ)) → AreGroups (tables units.now) xs groups.old →
        AreGroups (tables units.now) (xs ++ of ∷ []) groups.new) }
{
    if is_complete(units, of) {
        groups.add(alloc, full_key(units, of), of)
    } else {
        Ok(())
    }
}

/// The structs with members of a list by key.
pub(crate) fn groups_of(
    alloc: Global,
    units: &[CheckedUnit],
    all: &[Entity],
) -> Result<Groups, AllocError>
    ensures { IfOk result (λ g. AreGroups (tables units.now) all.now g) }
{
    let mut groups = Groups::new(alloc);
    'all: for (i, x) in all.iter().enumerate() {
        add_one(alloc, units, *x, &mut groups)?;
    }
    Ok(groups)
}
