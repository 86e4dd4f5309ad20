//! Values of operators.
ghost use Rattle.std.specs.Prelude.{◌≡◌, IfOk};
ghost use Rattle.sp_types.specs.TypedView.{typed_of};
ghost use Rattle.sp_ir.specs.View.{expression_of};
ghost use Rattle.sp_lower_draft.specs.Steps.{added, subtracted, operated, negated};
ghost use Rattle.sp_lower_draft.specs.View.{context_of};

use sp_ir::Expr;
use sp_lower_draft::{Scope, is_pointer, kind_of, pointee_size};
use sp_tree::Punct;
use sp_types::{IntKind, TypedExpr};
use std::alloc::{AllocError, Global};

/// `a + b`, where these are the values of a and b.
fn added(
    scope: &Scope<'_>,
    e: &TypedExpr,
    a: &TypedExpr,
    b: &TypedExpr,
    x: Expr,
    y: Expr,
) -> Result<Expr, AllocError>
    ensures { IfOk result (λ v. expression_of v ≡ added (context_of scope.now) (typed_of e.now)
        (typed_of a.now) (typed_of b.now) (expression_of x) (expression_of y)) }
{
    if is_pointer(a.of()) {
        Expr::moved(scope.alloc, x, y, false, pointee_size(scope, a.of()))
    } else if is_pointer(b.of()) {
        Expr::moved(scope.alloc, y, x, false, pointee_size(scope, b.of()))
    } else {
        Expr::binary(scope.alloc, Punct::Plus, kind_of(e.of()), x, y, e.mark())
    }
}

/// `a - b`, where these are the values of a and b.
fn subtracted(
    scope: &Scope<'_>,
    e: &TypedExpr,
    a: &TypedExpr,
    b: &TypedExpr,
    x: Expr,
    y: Expr,
) -> Result<Expr, AllocError>
    ensures { IfOk result (λ v. expression_of v ≡ subtracted (context_of scope.now)
        (typed_of e.now) (typed_of a.now) (typed_of b.now) (expression_of x) (expression_of y)) }
{
    if is_pointer(a.of()) {
        if is_pointer(b.of()) {
            Expr::distance(scope.alloc, x, y, pointee_size(scope, a.of()))
        } else {
            Expr::moved(scope.alloc, x, y, true, pointee_size(scope, a.of()))
        }
    } else {
        Expr::binary(scope.alloc, Punct::Minus, kind_of(e.of()), x, y, e.mark())
    }
}

/// A binary operator other than `&&` and `||` between the values of a and b.
pub fn operated(
    scope: &Scope<'_>,
    operator: Punct,
    e: &TypedExpr,
    a: &TypedExpr,
    b: &TypedExpr,
    x: Expr,
    y: Expr,
) -> Result<Expr, AllocError>
    ensures { IfOk result (λ v. expression_of v ≡ operated (context_of scope.now) operator
        (typed_of e.now) (typed_of a.now) (typed_of b.now) (expression_of x) (expression_of y)) }
{
    match operator {
        Punct::Plus => added(scope, e, a, b, x, y),
        Punct::Minus => subtracted(scope, e, a, b, x, y),
        Punct::Less
        | Punct::LessEqual
        | Punct::Greater
        | Punct::GreaterEqual
        | Punct::EqualEqual
        | Punct::NotEqual => Expr::compare(scope.alloc, operator, x, y),
        _ => Expr::binary(scope.alloc, operator, kind_of(e.of()), x, y, e.mark()),
    }
}

/// `!v`
pub fn negated(alloc: Global, value: Expr) -> Result<Expr, AllocError>
    ensures { IfOk result (λ v. expression_of v ≡ negated (expression_of value)) }
{
    Expr::compare(
        alloc,
        Punct::EqualEqual,
        value,
        Expr::number(0, IntKind::Int),
    )
}
