//! Types of two units.
ghost use Rattle.std.specs.Prelude.{◌≡◌, ◌++◌, true, IfOk, map};
ghost use Rattle.sp_types.specs.View.{type_of, signature_of, types};
ghost use Rattle.sp_types.specs.Compatible.{lengths_agree};
ghost use Rattle.sp_link_agreement.specs.Agreement.{compatible_by, signatures_compatible_by, all_compatible_by};
ghost use Rattle.sp_link_agreement.specs.Inner.{any_two, inner, inner_of_signatures, inner_of_types};

use sp_types::{CType, Signature};
use std::alloc::AllocError;

/// Whether two types are compatible where any two structs are; then the pairs of structs inside are
/// added.
#[cycle(compare)]
pub(crate) fn compare(
    left: &CType,
    right: &CType,
    found: &mut Vec<(u32, u32)>,
) -> Result<bool, AllocError>
    ensures alike { IfOk result (λ b.
        b ≡ compatible_by any_two (type_of left.now) (type_of right.now)) }
    ensures inner { IfOk result (λ b. b ≡ true →
        found.new.items ≡ found.old.items ++ inner (type_of left.now) (type_of right.now)) }
{
    match (left, right) {
        (CType::Void, CType::Void) => Ok(true),
        (CType::Int(a), CType::Int(b)) => Ok(a == b),
        (CType::Float(a), CType::Float(b)) => Ok(a == b),
        (CType::Pointer(a), CType::Pointer(b)) => compare(a, b, found),
        (CType::Array(a), CType::Array(b)) => {
            if !lengths_agree(a.length, b.length) {
                return Ok(false);
            }
            compare(&a.element, &b.element, found)
        }
        (CType::Struct(a), CType::Struct(b)) => {
            found.push((*a, *b))?;
            Ok(true)
        }
        (CType::Function(a), CType::Function(b)) => compare_signatures(a, b, found),
        _ => Ok(false),
    }
}

/// Whether two lengths may be those of one array.
fn lengths_agree(left: Option<u64>, right: Option<u64>) -> bool
    ensures { result ≡ lengths_agree left right }
{
    match (left, right) {
        (Some(n), Some(m)) => n == m,
        _ => true,
    }
}

#[cycle(compare)]
fn compare_signatures(
    left: &Signature,
    right: &Signature,
    found: &mut Vec<(u32, u32)>,
) -> Result<bool, AllocError>
    ensures alike { IfOk result (λ b. b ≡
        signatures_compatible_by any_two (signature_of left.now) (signature_of right.now)) }
    ensures inner { IfOk result (λ b. b ≡ true → found.new.items ≡
        found.old.items ++ inner_of_signatures (signature_of left.now) (signature_of right.now)) }
{
    if !compare(&left.result, &right.result, found)? {
        return Ok(false);
    }
    match (&left.params, &right.params) {
        (Some(a), Some(b)) => {
            if left.variadic != right.variadic {
                return Ok(false);
            }
            compare_all(a, b, found)
        }
        _ => Ok(true),
    }
}

#[cycle(compare)]
fn compare_all(
    left: &[CType],
    right: &[CType],
    found: &mut Vec<(u32, u32)>,
) -> Result<bool, AllocError>
    ensures alike { IfOk result (λ b. b ≡ all_compatible_by any_two
        (types (map type_of left.now)) (types (map type_of right.now))) }
    ensures inner { IfOk result (λ b. b ≡ true → found.new.items ≡ found.old.items ++
        inner_of_types (types (map type_of left.now)) (types (map type_of right.now))) }
{
    if left.len() != right.len() {
        return Ok(false);
    }
    'parameters: for (i, a) in left.iter().enumerate() {
        if !compare(a, &right[i], found)? {
            return Ok(false);
        }
    }
    Ok(true)
}
