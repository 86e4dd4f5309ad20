//! Lvalues and conversions (C90 6.2).
ghost use Rattle.std.specs.Prelude.{◌≡◌, IfOk, map, option_map, Some, None};
ghost use Rattle.sp_types.specs.Typed.{of};
ghost use Rattle.sp_types.specs.View.{type_of, struct_of};
ghost use Rattle.sp_types.specs.TypedView.{boxed_of, typed_of, typed_form_of};
ghost use Rattle.sp_base_checked.specs.Answers.{Answers};
ghost use Rattle.sp_check_operands.specs.Conversions.{
  is_complete,
  is_scalar,
  is_floating,
  is_void,
  is_function,
  is_array,
  is_object,
  is_lvalue,
  designates,
  decayed_type,
  decayed,
  is_open_struct,
  value,
  converted,
  promoted_type,
  promoted,
};

use sp_base_checked::{CheckError, fault};
use sp_tree::{FaultKind, Place, Punct};
use sp_types::{CType, StructType, TypedExpr, TypedForm, layout, promote, same};
use std::alloc::{AllocError, Global};

/// Whether a type has a size: it is complete, and an object type (C90 6.1.2.5).
pub fn is_complete(of: &CType, structs: &[StructType]) -> bool
    ensures { result ≡ is_complete (map struct_of structs.now) (type_of of.now) }
{
    layout(of, structs).is_some()
}

/// Whether a type is an integer or a pointer. Floating types are no part of the subset.
pub fn is_scalar(of: &CType) -> bool
    ensures { result ≡ is_scalar (type_of of.now) }
{
    matches!(of, CType::Int(_) | CType::Pointer(_))
}

/// Whether a type is a floating type (C90 6.1.2.5).
pub fn is_floating(of: &CType) -> bool
    ensures { result ≡ is_floating (type_of of.now) }
{
    matches!(of, CType::Float(_))
}

/// Whether a type is `void`.
pub fn is_void(of: &CType) -> bool
    ensures { result ≡ is_void (type_of of.now) }
{
    matches!(of, CType::Void)
}

/// Whether a type is an array.
pub fn is_array(of: &CType) -> bool
    ensures { result ≡ is_array (type_of of.now) }
{
    matches!(of, CType::Array(_))
}

/// Whether a type is that of a function.
pub fn is_function(of: &CType) -> bool
    ensures { result ≡ is_function (type_of of.now) }
{
    matches!(of, CType::Function(_))
}

/// Whether a type is that of an object, complete or not (C90 6.1.2.5).
pub fn is_object(of: &CType) -> bool
    ensures { result ≡ is_object (type_of of.now) }
{
    !matches!(of, CType::Void | CType::Function(_))
}

/// Whether the expression is an lvalue (C90 6.2.2.1).
#[cycle(lvalue)]
pub fn is_lvalue(e: &TypedExpr) -> bool
    ensures { result ≡ is_lvalue (typed_of e.now) }
{
    is_object(&e.of) && designates(&e.form)
}

#[cycle(lvalue)]
fn designates(form: &TypedForm) -> bool
    ensures { result ≡ designates (typed_form_of form.now) }
{
    match form {
        TypedForm::Object(_) | TypedForm::Index(_, _) | TypedForm::Arrow(_, _) => true,
        TypedForm::Unary(Punct::Star, _) => true,
        TypedForm::Member(whole, _) => is_lvalue(whole),
        _ => false,
    }
}

fn decayed_type(alloc: Global, lvalue: bool, of: &CType) -> Result<Option<CType>, AllocError>
    ensures { IfOk result (λ t. option_map type_of t ≡ decayed_type lvalue (type_of of.now)) }
{
    match of {
        CType::Array(array) if lvalue => Ok(Some(CType::Pointer(array.element.clone()?))),
        CType::Function(_) => {
            let pointer = CType::pointer(alloc, of.copy(alloc)?)?;
            Ok(Some(pointer))
        }
        _ => Ok(None),
    }
}

/// An array or a function as a pointer (C90 6.2.2.1).
fn decayed(alloc: Global, e: Box<TypedExpr>) -> Result<Box<TypedExpr>, AllocError>
    ensures { IfOk result (λ r. boxed_of r ≡ decayed (boxed_of e)) }
{
    match decayed_type(alloc, is_lvalue(&e), e.of())? {
        None => Ok(e),
        Some(of) => TypedExpr::decay(alloc, e, of),
    }
}

fn is_open_struct(structs: &[StructType], of: &CType) -> bool
    ensures { result ≡ is_open_struct (map struct_of structs.now) (type_of of.now) }
{
    match of {
        CType::Struct(_) => !is_complete(of, structs),
        _ => false,
    }
}

/// An expression as a value (C90 6.2.2.1).
#[tactic(auto, using(crate::proofs::Values::scalar_value))]
pub fn value(
    alloc: Global,
    structs: &[StructType],
    at: Place,
    e: Box<TypedExpr>,
) -> Result<Box<TypedExpr>, CheckError>
    ensures { Answers boxed_of (value (map struct_of structs.now) at (boxed_of e)) result }
{
    if is_scalar(e.of()) {
        return Ok(e);
    }
    let e = decayed(alloc, e)?;
    if is_open_struct(structs, e.of()) {
        return fault(FaultKind::IncompleteType, at);
    }
    Ok(e)
}

/// The expression converted to a type, written out where it has another.
pub fn converted(alloc: Global, to: &CType, e: Box<TypedExpr>) -> Result<Box<TypedExpr>, AllocError>
    ensures { IfOk result (λ r. boxed_of r ≡ converted (type_of to.now) (boxed_of e)) }
{
    if same(e.of(), to) {
        Ok(e)
    } else {
        TypedExpr::convert(alloc, e, to.copy(alloc)?)
    }
}

/// The type after the integral promotions (C90 6.2.1.1).
pub fn promoted_type(alloc: Global, of: &CType) -> Result<CType, AllocError>
    ensures { IfOk result (λ t. type_of t ≡ promoted_type (type_of of.now)) }
{
    match of {
        CType::Int(kind) => Ok(CType::Int(promote(*kind))),
        _ => of.copy(alloc),
    }
}
