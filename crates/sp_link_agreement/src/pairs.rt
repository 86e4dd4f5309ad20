//! Pairs of structs of several units.
ghost use Rattle.std.specs.Prelude.{◌≡◌, ◌↔◌, true, false, IsTrue, IfOk, OnOk, map, option_map};
ghost use Rattle.indexmap.specs.IndexSet.{insert_all};
ghost use Rattle.sp_types.specs.View.{struct_of};
ghost use Rattle.sp_link_agreement.specs.Depths.{tables, struct_at, Agree};
ghost use Rattle.sp_link_agreement.specs.Known.{NoneAgrees, IsKnown};
ghost use Rattle.sp_link_agreement.specs.Inner.{is_alike, inner_pairs, same_pair, beside};

use crate::compared::compare_structs;
use indexmap::IndexSet;
use sp_base_checked::CheckedUnit;
use sp_types::StructType;
use std::alloc::{AllocError, Global};

/// A struct of several units: its unit, and its number there.
pub type Entity = (u32, u32);

/// The struct of a unit and a number.
pub fn struct_at(units: &[CheckedUnit], at: Entity) -> Option<&StructType>
    ensures { option_map (λ s. struct_of s.now) result ≡ struct_at (tables units.now) at }
{
    match units.get(at.0 as usize) {
        Some(unit) => unit.structs.get(at.1 as usize),
        None => None,
    }
}

/// Adds pairs of numbers, as pairs of structs of the units of this pair.
fn add_beside(
    pair: (Entity, Entity),
    found: &[(u32, u32)],
    pairs: &mut IndexSet<(Entity, Entity)>,
) -> Result<(), AllocError>
    ensures { OnOk result (pairs.new.keys ≡
        insert_all same_pair pairs.old.keys (map (beside pair) found.now)) }
{
    'found: for (i, inside) in found.iter().enumerate() {
        pairs.insert(((pair.0.0, inside.0), (pair.1.0, inside.1)))?;
    }
    Ok(())
}

/// Whether the structs of a pair agree apart from the structs inside; then the pairs of these are
/// added.
fn compare_pair(
    alloc: Global,
    units: &[CheckedUnit],
    pair: (Entity, Entity),
    pairs: &mut IndexSet<(Entity, Entity)>,
) -> Result<bool, AllocError>
    ensures alike { IfOk result (λ b. b ≡ is_alike (tables units.now) pair) }
    ensures inner { IfOk result (λ b. b ≡ true → pairs.new.keys ≡
        insert_all same_pair pairs.old.keys (inner_pairs (tables units.now) pair)) }
    ensures unchanged { IfOk result (λ b. b ≡ false → pairs.new.keys ≡ pairs.old.keys) }
{
    let Some(left) = struct_at(units, pair.0) else {
        return Ok(false);
    };
    let Some(right) = struct_at(units, pair.1) else {
        return Ok(false);
    };
    let mut found = Vec::new(alloc);
    if !compare_structs(left, right, &mut found)? {
        return Ok(false);
    }
    add_beside(pair, &found, pairs)?;
    Ok(true)
}

/// Pairs that have been compared.
#[derive(Drop)]
pub struct Known {
    agreeing: IndexSet<(Entity, Entity)>,
    differing: IndexSet<(Entity, Entity)>,
}

impl Known {
    ghost use Rattle.std.specs.Prelude.{List};
    ghost use Rattle.sp_types.specs.Types.{Struct};
    ghost use Rattle.sp_link_agreement.specs.Known.{IsKnown};

    /// None yet.
    pub fn new(alloc: Global) -> Known
        ensures { (us : List (List Struct)) → IsKnown us result }
    {
        Known {
            agreeing: IndexSet::new(alloc),
            differing: IndexSet::new(alloc),
        }
    }
}

/// The same as `compare_pair`, where a pair may be known to differ.
fn compare_known(
    alloc: Global,
    units: &[CheckedUnit],
    pair: (Entity, Entity),
    known: &mut Known,
) -> Result<bool, AllocError>
    requires { NoneAgrees (tables units.now) known.old.differing.keys }
    ensures alike { IfOk result (λ b. b ≡ true → is_alike (tables units.now) pair ≡ true) }
    ensures differs { IfOk result (λ b. b ≡ false → ¬ Agree (tables units.now) pair.0 pair.1) }
    ensures inner { IfOk result (λ b. b ≡ true → known.new.agreeing.keys ≡
        insert_all same_pair known.old.agreeing.keys (inner_pairs (tables units.now) pair)) }
    ensures unchanged { IfOk result (λ b. b ≡ false →
        known.new.agreeing.keys ≡ known.old.agreeing.keys) }
    ensures differing { known.new.differing.keys ≡ known.old.differing.keys }
{
    if known.differing.contains(&pair) {
        return Ok(false);
    }
    compare_pair(alloc, units, pair, &mut known.agreeing)
}

/// Whether two structs agree, given what is known of others. The pairs that agree where these do are
/// gathered behind those that are known to agree: from the cursor on they are the worklist.
pub fn agree(
    alloc: Global,
    units: &[CheckedUnit],
    pair: (Entity, Entity),
    known: &mut Known,
) -> Result<bool, AllocError>
    requires { IsKnown (tables units.now) known.old }
    ensures answer { IfOk result (λ b. IsTrue b ↔ Agree (tables units.now) pair.0 pair.1) }
    ensures known { OnOk result (IsKnown (tables units.now) known.new) }
{
    let start = known.agreeing.len();
    known.agreeing.insert(pair)?;
    let mut next = start;
    'pairs: while next < known.agreeing.len() {
        let here = known.agreeing.as_slice()[next];
        if !compare_known(alloc, units, here, known)? {
            known.agreeing.truncate(start);
            known.differing.insert(pair)?;
            return Ok(false);
        }
        next += 1;
    }
    Ok(true)
}
