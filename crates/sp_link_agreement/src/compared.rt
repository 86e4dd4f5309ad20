//! Structs of two units, apart from the structs inside.
ghost use Rattle.std.specs.Prelude.{◌≡◌, ◌++◌, true, IfOk, map, option_map};
ghost use Rattle.sp_types.specs.View.{type_of, struct_of};
ghost use Rattle.sp_link_agreement.specs.Agreement.{members_agree, contents_agree, structs_agree};
ghost use Rattle.sp_link_agreement.specs.Inner.{any_two, inner_of_members, inner_of_contents};

use crate::types::compare;
use sp_types::{CType, StructType};
use std::alloc::AllocError;

/// Whether two lists of members have the same names and compatible types; then the pairs of structs
/// inside are added.
fn compare_members(
    left: &[(u32, CType)],
    right: &[(u32, CType)],
    found: &mut Vec<(u32, u32)>,
) -> Result<bool, AllocError>
    ensures alike { IfOk result (λ b. b ≡ members_agree any_two
        (map (λ m. (m.0, type_of m.1)) left.now) (map (λ m. (m.0, type_of m.1)) right.now)) }
    ensures inner { IfOk result (λ b. b ≡ true →
        found.new.items ≡ found.old.items ++ inner_of_members
        (map (λ m. (m.0, type_of m.1)) left.now) (map (λ m. (m.0, type_of m.1)) right.now)) }
{
    if left.len() != right.len() {
        return Ok(false);
    }
    'members: for (i, a) in left.iter().enumerate() {
        let b = &right[i];
        if a.0 != b.0 {
            return Ok(false);
        }
        if !compare(&a.1, &b.1, found)? {
            return Ok(false);
        }
    }
    Ok(true)
}

/// Whether two structs agree apart from the structs inside; then the pairs of these are added.
pub(crate) fn compare_structs(
    left: &StructType,
    right: &StructType,
    found: &mut Vec<(u32, u32)>,
) -> Result<bool, AllocError>
    ensures alike { IfOk result (λ b.
        b ≡ structs_agree any_two (struct_of left.now) (struct_of right.now)) }
    ensures inner { IfOk result (λ b. b ≡ true → found.new.items ≡ found.old.items ++
        inner_of_contents (struct_of left.now).members (struct_of right.now).members) }
{
    if left.tag != right.tag || left.union != right.union {
        return Ok(false);
    }
    match (&left.members, &right.members) {
        (Some(a), Some(b)) => compare_members(a, b, found),
        _ => Ok(true),
    }
}
