//! Arrays (C90 6.5.4.2).
ghost use Rattle.std.specs.Prelude.{◌≡◌, map, Some, None};
ghost use Rattle.sp_types.specs.View.{type_of, struct_of};
ghost use Rattle.sp_base_checked.specs.Answers.{Answers};
ghost use Rattle.sp_check_binary_rules.specs.Lengths.{length_given, length_from, made_array, array_fits};

use sp_base_checked::{CheckError, fault};
use sp_tree::{FaultKind, Place};
use sp_types::{CType, MAX_SIZE, StructType, layout};
use std::alloc::Global;

/// The greatest length of an array.
const LONGEST: i128 = 2147483647;

fn length_from(value: i128) -> Option<u64>
    ensures { result ≡ length_from value }
{
    if 1 <= value && value <= LONGEST {
        Some(value as u64)
    } else {
        None
    }
}

/// The length that a constant gives; `at` is the place of its expression.
pub fn length_given(value: Option<i128>, at: Place) -> Result<u64, CheckError>
    ensures { Answers (λ n. n) (length_given value at) result }
{
    let Some(value) = value else {
        return fault(FaultKind::NotAConstant, at);
    };
    let Some(length) = length_from(value) else {
        return fault(FaultKind::BadLength, at);
    };
    Ok(length)
}

fn array_fits(size: u64, length: Option<u64>) -> bool
    ensures { result ≡ array_fits size length }
{
    match length {
        None => true,
        Some(length) => match size.checked_mul(length) {
            Some(whole) => whole <= MAX_SIZE,
            None => false,
        },
    }
}

/// An array of these elements.
pub fn made_array(
    alloc: Global,
    structs: &[StructType],
    base: CType,
    length: Option<u64>,
    place: Place,
) -> Result<CType, CheckError>
    ensures { Answers type_of
        (made_array (map struct_of structs.now) (type_of base) length place) result }
{
    let Some(extent) = layout(&base, structs) else {
        return fault(FaultKind::IncompleteType, place);
    };
    if !array_fits(extent.size, length) {
        return fault(FaultKind::BadLength, place);
    }
    Ok(CType::array(alloc, base, length)?)
}
