//! String literals (C90 6.1.4).
ghost use Rattle.std.specs.Prelude.{◌≡◌, IfOk, map};
ghost use Rattle.sp_types.specs.Programs.{object_of};
ghost use Rattle.sp_types.specs.TypedView.{boxed_of};
ghost use Rattle.sp_base_checked.specs.Answers.{AnswersIn};
ghost use Rattle.sp_check_env.specs.Views.{env_of};
ghost use Rattle.sp_check_primaries.specs.Literals.{
  text_bytes,
  character_value,
  characters,
  leaf_seen,
  text_object,
  text_checked,
};

use crate::names::bytes_of;
use sp_base_checked::{CheckError, fault};
use sp_check_env::Env;
use sp_tree::{FaultKind, Names, Place};
use sp_types::{
    CType, IntKind, Linkage, MAX_SIZE, ObjectDef, Storage, TypedExpr, TypedForm, WideInt,
};
use std::alloc::{AllocError, Global};

/// The bytes of adjacent literals.
fn text_bytes(alloc: Global, names: &Names, parts: &[u32]) -> Result<Vec<u8>, AllocError>
    ensures { IfOk result (λ v. v.items ≡ text_bytes names.now parts.now) }
{
    let mut bytes = Vec::new(alloc);
    'parts: for (i, part) in parts.iter().enumerate() {
        bytes.extend_from_slice(bytes_of(names, *part))?;
    }
    Ok(bytes)
}

/// The value of a character in an array of this kind: `char` holds what `signed char` holds.
fn character_value(kind: IntKind, byte: u8) -> i128
    ensures { result ≡ character_value kind byte }
{
    let value = byte as i128;
    match kind {
        IntKind::UChar => value,
        _ => if byte <= 127 { value } else { value - 256 },
    }
}

/// The values of an array of characters, each with the number of its element.
fn characters(
    alloc: Global,
    kind: IntKind,
    place: Place,
    bytes: &[u8],
) -> Result<Vec<(u64, TypedExpr)>, AllocError>
    ensures { IfOk result (λ v. map leaf_seen v.items ≡ characters kind place 0 bytes.now) }
{
    let mut leaves = Vec::with_capacity(alloc, bytes.len())?;
    'bytes: for (i, byte) in bytes.iter().enumerate() {
        let form = TypedForm::Constant(WideInt::new(character_value(kind, *byte)));
        let value = TypedExpr::leaf(form, CType::Int(kind), place, place);
        leaves.push((i as u64, value))?;
    }
    Ok(leaves)
}

/// The object of a string.
fn text_object(alloc: Global, mut bytes: Vec<u8>, place: Place) -> Result<ObjectDef, AllocError>
    ensures { IfOk result (λ o. object_of o ≡ text_object bytes.items place) }
{
    let length = bytes.len() as u64 + 1;
    bytes.push(0)?;
    let start = characters(alloc, IntKind::Char, place, &bytes)?;
    let of = CType::array(alloc, CType::Int(IntKind::Char), Some(length))?;
    Ok(ObjectDef {
        name: 0,
        of,
        storage: Storage::Text,
        linkage: Linkage::Inner,
        start,
        place,
    })
}

/// A string literal: an object of its own, and its length a constant of the ladder. BadLength stands at the
/// literal where it is larger than an object may be.
pub fn text_checked(
    alloc: Global,
    env: &mut Env,
    names: &Names,
    parts: &[u32],
    place: Place,
    mark: Place,
) -> Result<Box<TypedExpr>, CheckError>
    ensures { AnswersIn boxed_of
        (text_checked names.now (env_of env.old) parts.now place mark) (env_of env.new) result }
{
    let bytes = text_bytes(alloc, names, parts)?;
    let length = bytes.len() as u64 + 1;
    if length > MAX_SIZE {
        return fault(FaultKind::BadLength, place);
    }
    let of = CType::array(alloc, CType::Int(IntKind::Char), Some(length))?;
    let number = env.add_object(text_object(alloc, bytes, place)?)?;
    env.add_constant(length as i128)?;
    Ok(TypedExpr::boxed(alloc, TypedForm::Object(number), of, place, mark)?)
}
