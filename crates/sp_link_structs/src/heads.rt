//! Namesakes: structs of one tag and kind.
ghost use Rattle.std.specs.Prelude.{◌≡◌, ◌&&◌, not, is_some, IfOk};
ghost use Rattle.indexmap.specs.IndexMap.{get};
ghost use Rattle.sp_link_agreement.specs.Depths.{tables};
ghost use Rattle.sp_link_structs.specs.Groups.{same_key};
ghost use Rattle.sp_link_structs.specs.Matched as rules;
ghost use Rattle.sp_link_structs.specs.Turns.{AreFirsts, AreSeconds, IsHeads, is_apart, elsewhere_by};

use crate::groups::{Key, head_key};
use indexmap::IndexMap;
use sp_base_checked::CheckedUnit;
use sp_link_agreement::{Entity, struct_at};
use std::alloc::{AllocError, Global};

/// The first of each head, and the first of another unit than that one.
#[derive(Drop)]
pub(crate) struct Heads {
    firsts: IndexMap<Key, Entity>,
    seconds: IndexMap<Key, Entity>,
}

/// The first of each head.
fn firsts(
    alloc: Global,
    units: &[CheckedUnit],
    turn: &[Entity],
) -> Result<IndexMap<Key, Entity>, AllocError>
    ensures { IfOk result (λ m. AreFirsts (tables units.now) turn.now (get same_key m)) }
{
    let mut found = IndexMap::new(alloc);
    'turn: for (i, x) in turn.iter().enumerate() {
        let key = head_key(units, *x);
        if !found.contains_key(&key) {
            found.insert(key, *x)?;
        }
    }
    Ok(found)
}

/// Whether a struct is of another unit than the first of its head.
fn is_apart(firsts: &IndexMap<Key, Entity>, key: Key, of: Entity) -> bool
    ensures { result ≡ is_apart (get same_key firsts.now key) of }
{
    match firsts.get(&key) {
        Some(first) => of.0 != first.0,
        None => false,
    }
}

/// Whether it is the first that is found of another unit than the first of its head.
fn is_new(
    firsts: &IndexMap<Key, Entity>,
    found: &IndexMap<Key, Entity>,
    key: Key,
    of: Entity,
) -> bool
    ensures { result ≡ (is_apart (get same_key firsts.now key) of
        && not (is_some (get same_key found.now key))) }
{
    is_apart(firsts, key, of) && !found.contains_key(&key)
}

/// The first of each head that is of another unit than the first of all.
fn seconds(
    alloc: Global,
    units: &[CheckedUnit],
    turn: &[Entity],
    firsts: &IndexMap<Key, Entity>,
) -> Result<IndexMap<Key, Entity>, AllocError>
    ensures { IfOk result (λ m.
        AreSeconds (tables units.now) turn.now (get same_key firsts.now) (get same_key m)) }
{
    let mut found = IndexMap::new(alloc);
    'turn: for (i, x) in turn.iter().enumerate() {
        let key = head_key(units, *x);
        if is_new(firsts, &found, key, *x) {
            found.insert(key, *x)?;
        }
    }
    Ok(found)
}

/// Both.
pub(crate) fn heads_of(
    alloc: Global,
    units: &[CheckedUnit],
    turn: &[Entity],
) -> Result<Heads, AllocError>
    ensures { IfOk result (λ h. IsHeads (tables units.now) turn.now h) }
{
    let firsts = firsts(alloc, units, turn)?;
    let seconds = seconds(alloc, units, turn, &firsts)?;
    Ok(Heads { firsts, seconds })
}

/// The first of a list of a key, of another unit.
fn elsewhere(heads: &Heads, key: Key, of: Entity) -> Option<Entity>
    ensures { result ≡ elsewhere_by heads.now key of }
{
    match heads.firsts.get(&key) {
        Some(first) => {
            if first.0 != of.0 {
                Some(*first)
            } else {
                heads.seconds.get(&key).copied()
            }
        }
        None => None,
    }
}

/// The first of a key.
fn first_of(heads: &Heads, key: Key) -> Option<Entity>
    ensures { result ≡ get same_key heads.now.firsts key }
{
    heads.firsts.get(&key).copied()
}

/// The first namesake of a struct.
pub(crate) fn first_namesake(units: &[CheckedUnit], heads: &Heads, of: Entity) -> Option<Entity>
    requires { IsHeads (tables units.now) (rules.in_turn (tables units.now)) heads.now }
    ensures { result ≡ rules.first_namesake (tables units.now) of }
{
    match struct_at(units, of) {
        Some(_) => first_of(heads, head_key(units, of)),
        None => None,
    }
}

/// The first namesake of a struct in another unit.
pub(crate) fn first_elsewhere(units: &[CheckedUnit], heads: &Heads, of: Entity) -> Option<Entity>
    requires { IsHeads (tables units.now) (rules.in_turn (tables units.now)) heads.now }
    ensures { result ≡ rules.first_elsewhere (tables units.now) of }
{
    match struct_at(units, of) {
        Some(_) => elsewhere(heads, head_key(units, of), of),
        None => None,
    }
}
