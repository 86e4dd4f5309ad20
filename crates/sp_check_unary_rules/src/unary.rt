//! Operators before their operand (C90 6.3.3).
ghost use Rattle.std.specs.Prelude.{◌≡◌, IfOk, map, option_map, Some, None};
ghost use Rattle.sp_types.specs.View.{type_of, struct_of};
ghost use Rattle.sp_types.specs.TypedView.{boxed_of};
ghost use Rattle.sp_base_checked.specs.Answers.{Answers};
ghost use Rattle.sp_check_binary_rules.specs.Rules.{
  addressed,
  followed,
  pointed_type,
  denied,
  signed_or_inverted,
  is_integer,
  takes_object,
  unary_object,
  unary_value,
};

use crate::postfix::stepped_type;
use sp_base_checked::{CheckError, fault};
use sp_check_operands::{converted, is_function, is_lvalue, is_scalar, is_void, promoted_type};
use sp_tree::{FaultKind, Place, Punct};
use sp_types::{CType, IntKind, StructType, TypedExpr};
use std::alloc::{AllocError, Global};

/// `&e` (C90 6.3.3.2); `at` is the place of `e`.
pub fn addressed(
    alloc: Global,
    place: Place,
    mark: Place,
    at: Place,
    e: Box<TypedExpr>,
) -> Result<Box<TypedExpr>, CheckError>
    ensures { Answers boxed_of (addressed place mark at (boxed_of e)) result }
{
    if !is_lvalue(&e) && !is_function(e.of()) {
        return fault(FaultKind::NotAnLvalue, at);
    }
    let of = CType::pointer(alloc, e.of().copy(alloc)?)?;
    Ok(TypedExpr::unary(alloc, Punct::Ampersand, e, of, place, mark)?)
}

fn pointed_type(alloc: Global, of: &CType) -> Result<Option<CType>, AllocError>
    ensures { IfOk result (λ t. option_map type_of t ≡ pointed_type (type_of of.now)) }
{
    match of {
        CType::Pointer(to) => {
            if is_void(to) {
                return Ok(None);
            }
            Ok(Some(to.copy(alloc)?))
        }
        _ => Ok(None),
    }
}

/// `*e` (C90 6.3.3.2).
pub fn followed(
    alloc: Global,
    place: Place,
    mark: Place,
    e: Box<TypedExpr>,
) -> Result<Box<TypedExpr>, CheckError>
    ensures { Answers boxed_of (followed place mark (boxed_of e)) result }
{
    let Some(of) = pointed_type(alloc, e.of())? else {
        return fault(FaultKind::BadOperand, place);
    };
    Ok(TypedExpr::unary(alloc, Punct::Star, e, of, place, mark)?)
}

/// Whether the operator takes its operand as it stands.
pub fn takes_object(operator: Punct) -> bool
    ensures { result ≡ takes_object operator }
{
    matches!(
        operator,
        Punct::Ampersand | Punct::Increment | Punct::Decrement
    )
}

/// `&e`, `++e` and `--e`.
pub fn unary_object(
    alloc: Global,
    structs: &[StructType],
    operator: Punct,
    place: Place,
    mark: Place,
    at: Place,
    e: Box<TypedExpr>,
) -> Result<Box<TypedExpr>, CheckError>
    ensures { Answers boxed_of
        (unary_object (map struct_of structs.now) operator place mark at (boxed_of e)) result }
{
    match operator {
        Punct::Ampersand => addressed(alloc, place, mark, at, e),
        _ => {
            let of = stepped_type(alloc, structs, place, at, &e)?;
            Ok(TypedExpr::unary(alloc, operator, e, of, place, mark)?)
        }
    }
}

/// `!e` (C90 6.3.3.3).
fn denied(
    alloc: Global,
    place: Place,
    mark: Place,
    e: Box<TypedExpr>,
) -> Result<Box<TypedExpr>, CheckError>
    ensures { Answers boxed_of (denied place mark (boxed_of e)) result }
{
    if !is_scalar(e.of()) {
        return fault(FaultKind::BadOperand, place);
    }
    let of = CType::Int(IntKind::Int);
    Ok(TypedExpr::unary(alloc, Punct::Exclamation, e, of, place, mark)?)
}

fn is_integer(of: &CType) -> bool
    ensures { result ≡ is_integer (type_of of.now) }
{
    matches!(of, CType::Int(_))
}

/// `+e`, `-e` and `~e` (C90 6.3.3.3).
fn signed_or_inverted(
    alloc: Global,
    operator: Punct,
    place: Place,
    mark: Place,
    e: Box<TypedExpr>,
) -> Result<Box<TypedExpr>, CheckError>
    ensures { Answers boxed_of (signed_or_inverted operator place mark (boxed_of e)) result }
{
    let of = promoted_type(alloc, e.of())?;
    if !is_integer(&of) {
        return fault(FaultKind::BadOperand, place);
    }
    let e = converted(alloc, &of, e)?;
    Ok(TypedExpr::unary(alloc, operator, e, of, place, mark)?)
}

/// The operators that take a value.
pub fn unary_value(
    alloc: Global,
    operator: Punct,
    place: Place,
    mark: Place,
    e: Box<TypedExpr>,
) -> Result<Box<TypedExpr>, CheckError>
    ensures { Answers boxed_of (unary_value operator place mark (boxed_of e)) result }
{
    match operator {
        Punct::Star => followed(alloc, place, mark, e),
        Punct::Exclamation => denied(alloc, place, mark, e),
        _ => signed_or_inverted(alloc, operator, place, mark, e),
    }
}
