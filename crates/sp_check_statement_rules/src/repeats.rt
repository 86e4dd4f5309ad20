//! Keys that come a second time, or don't come.
ghost use Rattle.std.specs.Prelude.{◌≡◌, ◌++◌, IfOk, IfNone, map};
ghost use Rattle.sp_check_statement_rules.specs.Repeats.{repeated, lost};

use indexmap::IndexSet;
use sp_tree::Place;
use std::alloc::AllocError;
use std::hash::Hash;

/// Puts keys behind those that are there, up to the first that is there already: its place is
/// answered.
pub(crate) fn gather<K: Copy + Eq + Hash + Drop>(
    keys: &mut IndexSet<K>,
    items: &[(K, Place)],
) -> Result<Option<Place>, AllocError>
    ensures place { IfOk result (λ p. p ≡ repeated K.eq keys.old.keys items.now) }
    ensures all { IfOk result (λ p. IfNone p (keys.new.keys ≡ keys.old.keys ++ map (λ i. i.0) items.now)) }
{
    for item in items {
        if !keys.insert(item.0)? {
            return Ok(Some(item.1));
        }
    }
    Ok(None)
}

/// The place of the first key that isn't among these.
pub(crate) fn first_lost<K: Copy + Eq + Hash + Drop>(
    keys: &IndexSet<K>,
    items: &[(K, Place)],
) -> Option<Place>
    ensures { result ≡ lost K.eq keys.now.keys items.now }
{
    for item in items {
        if !keys.contains(&item.0) {
            return Some(item.1);
        }
    }
    None
}
