//! Lvalues, their addresses and their values.
ghost use Rattle.std.specs.Prelude.{◌≡◌, IfOk};
ghost use Rattle.sp_types.specs.Typed.{of};
ghost use Rattle.sp_types.specs.View.{type_of};
ghost use Rattle.sp_types.specs.TypedView.{typed_of};
ghost use Rattle.sp_ir.specs.View.{lvalue_of, expression_of};
ghost use Rattle.sp_lower_draft.specs.Steps.{
  is_bare,
  pointer_in,
  addressed,
  decayed,
  loaded,
  element_at,
  indexed,
  member_taken,
  arrow_taken,
  followed,
};
ghost use Rattle.sp_lower_draft.specs.View.{context_of};

use sp_ir::{Expr, Lvalue};
use sp_lower_draft::{Scope, is_pointer, member_of, pointee, pointee_size, size_of};
use sp_types::{CType, TypedExpr};
use std::alloc::AllocError;

/// Whether it is what a pointer points to, and has no layout.
fn is_bare(scope: &Scope<'_>, place: &Lvalue) -> bool
    ensures { result ≡ is_bare (context_of scope.now) (lvalue_of place.now) }
{
    match place {
        Lvalue::Through(_, of, _) => size_of(scope.structs, of) == 0,
        Lvalue::Direct(..) => false,
        Lvalue::Field(..) => false,
    }
}

/// The pointer that is followed.
fn pointer_in(place: Lvalue) -> Expr
    ensures { expression_of result ≡ pointer_in (lvalue_of place) }
{
    match place {
        Lvalue::Through(pointer, _, _) => Box::into_inner(pointer),
        place @ (Lvalue::Direct(..) | Lvalue::Field(..)) => Expr::address(place),
    }
}

/// The address of an lvalue, as a value of this type; without a layout it is the pointer itself.
pub fn addressed(scope: &Scope<'_>, of: CType, place: Lvalue) -> Result<Expr, AllocError>
    ensures { IfOk result (λ v. expression_of v ≡
        addressed (context_of scope.now) (type_of of) (lvalue_of place)) }
{
    if is_bare(scope, &place) {
        Expr::convert(scope.alloc, of, pointer_in(place))
    } else {
        Ok(Expr::address(place))
    }
}

/// The address of an array's first element, as a value of this type.
fn decayed(scope: &Scope<'_>, of: CType, place: Lvalue) -> Result<Expr, AllocError>
    ensures { IfOk result (λ v. expression_of v ≡
        decayed (context_of scope.now) (type_of of) (lvalue_of place)) }
{
    if is_bare(scope, &place) {
        Expr::convert(scope.alloc, of, pointer_in(place))
    } else {
        Ok(Expr::decay(place))
    }
}

/// The value of an lvalue of this type: that of an array is its first element's address, that of a
/// function its own. A struct that isn't complete has none, and neither has void; the address is left.
pub fn loaded(scope: &Scope<'_>, of: &CType, place: Lvalue) -> Result<Expr, AllocError>
    ensures { IfOk result (λ v. expression_of v ≡
        loaded (context_of scope.now) (type_of of.now) (lvalue_of place)) }
{
    match of {
        CType::Array(array) => decayed(scope, CType::Pointer(array.element.clone()?), place),
        CType::Function(_) | CType::Void => {
            let pointer = CType::pointer(scope.alloc, of.copy(scope.alloc)?)?;
            addressed(scope, pointer, place)
        }
        CType::Struct(_) => {
            if size_of(scope.structs, of) == 0 {
                let pointer = CType::pointer(scope.alloc, of.copy(scope.alloc)?)?;
                addressed(scope, pointer, place)
            } else {
                Ok(Expr::read(place))
            }
        }
        CType::Int(_) | CType::Float(_) | CType::Pointer(_) => Ok(Expr::read(place)),
    }
}

fn element_at(scope: &Scope<'_>, a: &CType, b: &CType, x: Expr, y: Expr) -> Result<Expr, AllocError>
    ensures { IfOk result (λ v. expression_of v ≡ element_at (context_of scope.now)
        (type_of a.now) (type_of b.now) (expression_of x) (expression_of y)) }
{
    if is_pointer(a) {
        Expr::moved(scope.alloc, x, y, false, pointee_size(scope, a))
    } else {
        Expr::moved(scope.alloc, y, x, false, pointee_size(scope, b))
    }
}

/// `a[b]`, where these are the values of a and b.
pub fn indexed(
    scope: &Scope<'_>,
    e: &TypedExpr,
    a: &TypedExpr,
    b: &TypedExpr,
    x: Expr,
    y: Expr,
) -> Result<Lvalue, AllocError>
    ensures { IfOk result (λ l. lvalue_of l ≡ indexed (context_of scope.now) (typed_of e.now)
        (typed_of a.now) (typed_of b.now) (expression_of x) (expression_of y)) }
{
    let pointer = element_at(scope, a.of(), b.of(), x, y)?;
    let of = e.of().copy(scope.alloc)?;
    Lvalue::through(scope.alloc, pointer, of, e.place())
}

/// `a.name`, where a stands there.
pub fn member_taken(
    scope: &Scope<'_>,
    a: &TypedExpr,
    name: u32,
    place: Lvalue,
) -> Result<Lvalue, AllocError>
    ensures { IfOk result (λ l. lvalue_of l ≡ member_taken (context_of scope.now)
        (typed_of a.now) name (lvalue_of place)) }
{
    let member = member_of(scope, a.of(), name)?;
    Lvalue::field(scope.alloc, place, member.number, member.of)
}

/// `a->name`, where this is the value of a.
pub fn arrow_taken(
    scope: &Scope<'_>,
    e: &TypedExpr,
    a: &TypedExpr,
    name: u32,
    value: Expr,
) -> Result<Lvalue, AllocError>
    ensures { IfOk result (λ l. lvalue_of l ≡ arrow_taken (context_of scope.now)
        (typed_of e.now) (typed_of a.now) name (expression_of value)) }
{
    let of = pointee(scope.alloc, a.of())?;
    let member = member_of(scope, &of, name)?;
    let whole = Lvalue::through(scope.alloc, value, of, e.place())?;
    Lvalue::field(scope.alloc, whole, member.number, member.of)
}

/// `*v`
pub fn followed(scope: &Scope<'_>, e: &TypedExpr, value: Expr) -> Result<Lvalue, AllocError>
    ensures { IfOk result (λ l. lvalue_of l ≡ followed (typed_of e.now) (expression_of value)) }
{
    let of = e.of().copy(scope.alloc)?;
    Lvalue::through(scope.alloc, value, of, e.place())
}
