//! The rules of casts, of operators between operands and of assignments (C90 6.3.4 to 6.3.16).
ghost use Rattle.std.specs.Prelude.{◌≡◌, map};
ghost use Rattle.sp_types.specs.Typed.{of};
ghost use Rattle.sp_types.specs.View.{type_of, struct_of};
ghost use Rattle.sp_types.specs.TypedView.{boxed_of, typed_of};
ghost use Rattle.sp_base_checked.specs.Answers.{Answers};
ghost use Rattle.sp_check_binary_rules.specs.Rules.{
  cast_to,
  binary,
  choice,
  is_modifiable,
  stored,
  assign,
  compound,
  not_floating,
};
ghost use Rattle.sp_check_constants.specs.Constants.{is_null_constant};

use sp_base_checked::{CheckError, fault};
use sp_check_constants::is_null_constant;
use sp_check_operands::{
    are_moved_whole, binary_balance, choice_type, compound_type, converted, is_array, is_complete,
    is_floating, is_lvalue, is_scalar, is_void,
};
use sp_tree::{FaultKind, Place, Punct};
use sp_types::{CType, StructType, TypedExpr, convertible};
use std::alloc::Global;

/// `(to)e` (C90 6.3.4); `at` is the place of `e`.
pub fn cast_to(
    alloc: Global,
    to: CType,
    place: Place,
    mark: Place,
    at: Place,
    e: Box<TypedExpr>,
) -> Result<Box<TypedExpr>, CheckError>
    ensures { Answers boxed_of (cast_to (type_of to) place mark at (boxed_of e)) result }
{
    if is_floating(&to) {
        return fault(FaultKind::FloatingType, place);
    }
    if !is_void(&to) && !convertible(e.of(), &to) {
        return fault(FaultKind::NotConvertible, at);
    }
    Ok(TypedExpr::cast(alloc, e, to, place, mark)?)
}

/// `a + b` and its like (C90 6.3.5 to 6.3.14).
pub fn binary(
    alloc: Global,
    structs: &[StructType],
    operator: Punct,
    place: Place,
    mark: Place,
    a: Box<TypedExpr>,
    b: Box<TypedExpr>,
) -> Result<Box<TypedExpr>, CheckError>
    ensures { Answers boxed_of
        (binary (map struct_of structs.now) operator place mark (boxed_of a) (boxed_of b)) result }
{
    let Some(balance) = binary_balance(alloc, operator, a.of(), b.of())? else {
        return fault(FaultKind::BadOperand, place);
    };
    if !are_moved_whole(structs, operator, a.of(), b.of()) {
        return fault(FaultKind::IncompleteType, place);
    }
    let a = converted(alloc, &balance.left, a)?;
    let b = converted(alloc, &balance.right, b)?;
    Ok(TypedExpr::binary(alloc, operator, a, b, balance.result, place, mark)?)
}

/// `c ? a : b` (C90 6.3.15).
pub fn choice(
    alloc: Global,
    place: Place,
    mark: Place,
    c: Box<TypedExpr>,
    a: Box<TypedExpr>,
    b: Box<TypedExpr>,
) -> Result<Box<TypedExpr>, CheckError>
    ensures { Answers boxed_of (choice place mark (boxed_of c) (boxed_of a) (boxed_of b)) result }
{
    if !is_scalar(c.of()) {
        return fault(FaultKind::BadOperand, place);
    }
    let (left, right) = (is_null_constant(&a), is_null_constant(&b));
    let Some(of) = choice_type(alloc, left, right, a.of(), b.of())? else {
        return fault(FaultKind::BadOperand, place);
    };
    let a = converted(alloc, &of, a)?;
    let b = converted(alloc, &of, b)?;
    Ok(TypedExpr::choice(alloc, c, a, b, of, place, mark)?)
}

/// Whether an expression may stand on the left of an assignment: an lvalue, and no array (C90 6.2.2.1).
pub fn is_modifiable(e: &TypedExpr) -> bool
    ensures { result ≡ is_modifiable (typed_of e.now) }
{
    is_lvalue(e) && !is_array(e.of())
}

/// The store of an assignment; `there` is the place of the right side.
fn stored(
    alloc: Global,
    structs: &[StructType],
    operator: Punct,
    place: Place,
    mark: Place,
    there: Place,
    a: Box<TypedExpr>,
    b: Box<TypedExpr>,
) -> Result<Box<TypedExpr>, CheckError>
    ensures { Answers boxed_of (stored (map struct_of structs.now) operator place mark there (boxed_of a) (boxed_of b)) result }
{
    let of = a.of().copy(alloc)?;
    match operator {
        Punct::Assign => {
            if !convertible(b.of(), a.of()) {
                return fault(FaultKind::NotConvertible, there);
            }
            let b = converted(alloc, a.of(), b)?;
            Ok(TypedExpr::assign(alloc, Punct::Assign, a, b, of, place, mark)?)
        }
        _ => {
            let to = compound(structs, operator, place, a.of(), b.of())?;
            let b = converted(alloc, &to, b)?;
            Ok(TypedExpr::assign(alloc, operator, a, b, of, place, mark)?)
        }
    }
}

/// The type that the right side of an assignment with an operator is converted to.
fn compound(
    structs: &[StructType],
    operator: Punct,
    place: Place,
    a: &CType,
    b: &CType,
) -> Result<CType, CheckError>
    ensures { Answers type_of
        (compound (map struct_of structs.now) operator place (type_of a.now) (type_of b.now)) result }
{
    let Some(to) = compound_type(operator, a, b) else {
        return fault(FaultKind::BadOperand, place);
    };
    if !are_moved_whole(structs, operator, a, b) {
        return fault(FaultKind::IncompleteType, place);
    }
    Ok(to)
}

/// `a = b` and its like (C90 6.3.16); `at` and `there` are the places of the sides.
pub fn assign(
    alloc: Global,
    structs: &[StructType],
    operator: Punct,
    place: Place,
    mark: Place,
    at: Place,
    there: Place,
    a: Box<TypedExpr>,
    b: Box<TypedExpr>,
) -> Result<Box<TypedExpr>, CheckError>
    ensures { Answers boxed_of (assign (map struct_of structs.now) operator place mark at there (boxed_of a) (boxed_of b)) result }
{
    if !is_modifiable(&a) {
        return fault(FaultKind::NotAnLvalue, at);
    }
    if !is_complete(a.of(), structs) {
        return fault(FaultKind::IncompleteType, at);
    }
    stored(alloc, structs, operator, place, mark, there, a, b)
}

/// No expression has a floating type.
pub fn not_floating(place: Place, e: Box<TypedExpr>) -> Result<Box<TypedExpr>, CheckError>
    ensures { Answers boxed_of (not_floating place (boxed_of e)) result }
{
    if is_floating(e.of()) {
        return fault(FaultKind::FloatingType, place);
    }
    Ok(e)
}
