//! Expressions without operands.
ghost use Rattle.std.specs.Prelude.{◌≡◌, IfOk, pos, map, slice_get, ◌+◌, length};
ghost use Rattle.sp_types.specs.Types.{void};
ghost use Rattle.sp_types.specs.Typed.{of};
ghost use Rattle.sp_types.specs.Programs.{object_of, function_of};
ghost use Rattle.sp_types.specs.View.{type_of};
ghost use Rattle.sp_types.specs.TypedView.{typed_of};
ghost use Rattle.sp_ir.specs.Commands.{number, direct};
ghost use Rattle.sp_ir.specs.View.{expression_of, lvalue_of};
ghost use Rattle.sp_lower_draft.specs.Context.{
  kind_of,
  type_of_object,
  object_type,
  type_of_function,
  function_type,
  function_object,
};
ghost use Rattle.sp_lower_draft.specs.View.{context_of};

use sp_ir::{Expr, Lvalue};
use sp_lower_draft::{Scope, kind_of, number_behind};
use sp_types::{CType, FunctionDef, ObjectDef, TypedExpr};
use std::alloc::{AllocError, Global};

/// A constant of this value.
pub fn constant(e: &TypedExpr, value: i128) -> Expr
    ensures { expression_of result ≡ number value (kind_of (of (typed_of e.now))) }
{
    Expr::number(value, kind_of(e.of()))
}

/// No lvalue: a typed program never asks for one.
pub fn nowhere(alloc: Global, e: &TypedExpr) -> Result<Lvalue, AllocError>
    ensures { IfOk result (λ l. lvalue_of l ≡ direct 0 (of (typed_of e.now))) }
{
    Ok(Lvalue::direct(0, e.of().copy(alloc)?))
}

/// The type of what isn't there.
fn no_type() -> CType
    ensures { type_of result ≡ void }
{
    CType::Void
}

fn type_of_object(alloc: Global, objects: &[ObjectDef], number: u32) -> Result<CType, AllocError>
    ensures { IfOk result (λ t. type_of t ≡
        type_of_object (slice_get (map object_of objects.now) number)) }
{
    match objects.get(number as usize) {
        Some(object) => object.of.copy(alloc),
        None => Ok(no_type()),
    }
}

/// The object of this number.
pub fn object_at(scope: &Scope<'_>, number: u32) -> Result<Lvalue, AllocError>
    ensures { IfOk result (λ l. lvalue_of l ≡
        direct number (object_type (context_of scope.now) number)) }
{
    Ok(Lvalue::direct(number, type_of_object(scope.alloc, scope.objects, number)?))
}

fn type_of_function(functions: &[FunctionDef], number: u32) -> Result<CType, AllocError>
    ensures { IfOk result (λ t. type_of t ≡
        type_of_function (slice_get (map function_of functions.now) number)) }
{
    match functions.get(number as usize) {
        Some(function) => Ok(CType::shared_function(function.of.clone()?)),
        None => Ok(no_type()),
    }
}

/// The function of this number.
pub fn function_at(scope: &Scope<'_>, number: u32) -> Result<Lvalue, AllocError>
    ensures { IfOk result (λ l. lvalue_of l ≡
        direct (function_object (context_of scope.now) number)
        (function_type (context_of scope.now) number)) }
{
    let of = type_of_function(scope.functions, number)?;
    Ok(Lvalue::direct(number_behind(number, scope.objects.len())?, of))
}
