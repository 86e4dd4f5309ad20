//! Types of two units, with the structs inside.
ghost use Rattle.std.specs.Prelude.{◌↔◌, IsTrue, IfOk, OnOk};
ghost use Rattle.sp_types.specs.View.{type_of};
ghost use Rattle.sp_link_agreement.specs.Depths.{tables, EachAgrees, TypesAgree};
ghost use Rattle.sp_link_agreement.specs.Known.{IsKnown};

use crate::pairs::{Known, agree};
use crate::types::compare;
use sp_base_checked::CheckedUnit;
use sp_types::CType;
use std::alloc::{AllocError, Global};

/// Whether the structs of each of these pairs agree, the first of one unit and the second of
/// another.
fn all_agree(
    alloc: Global,
    units: &[CheckedUnit],
    left: u32,
    right: u32,
    found: &[(u32, u32)],
    known: &mut Known,
) -> Result<bool, AllocError>
    requires { IsKnown (tables units.now) known.old }
    ensures answer { IfOk result (λ b.
        IsTrue b ↔ EachAgrees (tables units.now) left right found.now) }
    ensures known { OnOk result (IsKnown (tables units.now) known.new) }
{
    'found: for (i, inside) in found.iter().enumerate() {
        if !agree(alloc, units, ((left, inside.0), (right, inside.1)), known)? {
            return Ok(false);
        }
    }
    Ok(true)
}

/// Whether a type of the unit `left` and one of the unit `right` are compatible, given what is known
/// of structs (C90 6.1.2.6).
pub fn types_agree(
    alloc: Global,
    units: &[CheckedUnit],
    left: u32,
    of_left: &CType,
    right: u32,
    of_right: &CType,
    known: &mut Known,
) -> Result<bool, AllocError>
    requires { IsKnown (tables units.now) known.old }
    ensures answer { IfOk result (λ b. IsTrue b ↔ TypesAgree (tables units.now)
        (left, type_of of_left.now) (right, type_of of_right.now)) }
    ensures known { OnOk result (IsKnown (tables units.now) known.new) }
{
    let mut found = Vec::new(alloc);
    if !compare(of_left, of_right, &mut found)? {
        return Ok(false);
    }
    all_agree(alloc, units, left, right, &found, known)
}
