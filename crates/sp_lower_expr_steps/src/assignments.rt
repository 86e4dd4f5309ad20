//! Assignments, and `++` and `--` (C90 6.3.16, 6.3.2.4, 6.3.3.1).
ghost use Rattle.std.specs.Prelude.{◌≡◌, IfOk};
ghost use Rattle.sp_types.specs.Typed.{of, mark_of};
ghost use Rattle.sp_types.specs.View.{type_of};
ghost use Rattle.sp_types.specs.TypedView.{typed_of};
ghost use Rattle.sp_ir.specs.View.{lvalue_of, expression_of};
ghost use Rattle.sp_lower_draft.specs.Steps.{
  as_kind,
  computing_kind,
  operand_kind,
  combined,
  assigned,
  assigned_used,
  updated,
  updated_used,
  stepped_used,
};
ghost use Rattle.sp_lower_draft.specs.View.{context_of, draft_of};
ghost use Rattle.sp_lower_draft.specs.Outcome.{Leaves, Gives};

use sp_ir::{Command, Expr, Lvalue};
use sp_lower_draft::{Draft, Scope, is_minus, is_shift, pointee_size, same_kind, save, stored};
use sp_tree::{Place, Punct};
use sp_types::{CType, IntKind, TypedExpr, common, promote};
use std::alloc::{AllocError, Global};

/// `l = v`, unused.
pub fn assigned(
    scope: &Scope<'_>,
    draft: &mut Draft,
    e: &TypedExpr,
    to: Lvalue,
    value: Expr,
) -> Result<(), AllocError>
    ensures { Leaves result (draft_of draft.new) (assigned (context_of scope.now)
        (typed_of e.now) (lvalue_of to) (expression_of value) (draft_of draft.old)) }
{
    draft.add(scope, stored(to, e.of(), value), e.place())?;
    Ok(())
}

/// `l = v`, used: the value goes to a temporary first, which is what is left.
pub fn assigned_used(
    scope: &Scope<'_>,
    draft: &mut Draft,
    e: &TypedExpr,
    to: Lvalue,
    value: Expr,
) -> Result<Lvalue, AllocError>
    ensures { Gives lvalue_of result (draft_of draft.new) (assigned_used (context_of scope.now)
        (typed_of e.now) (lvalue_of to) (expression_of value) (draft_of draft.old)) }
{
    let saved = save(scope, draft, e.of(), value, e.place())?;
    let again = saved.copy(scope.alloc)?;
    assigned(scope, draft, e, to, Expr::read(saved))?;
    Ok(again)
}

/// A value of one kind as one of another.
fn as_kind(alloc: Global, from: IntKind, to: IntKind, value: Expr) -> Result<Expr, AllocError>
    ensures { IfOk result (λ v. expression_of v ≡ as_kind from to (expression_of value)) }
{
    if same_kind(from, to) {
        Ok(value)
    } else {
        Expr::convert(alloc, CType::Int(to), value)
    }
}

/// The kind in which an operator on these kinds is computed.
fn computing_kind(operator: Punct, left: IntKind, right: IntKind) -> IntKind
    ensures { result ≡ computing_kind operator left right }
{
    if is_shift(operator) {
        promote(left)
    } else {
        common(left, right)
    }
}

/// The kind to which its right side is converted.
fn operand_kind(operator: Punct, left: IntKind, right: IntKind) -> IntKind
    ensures { result ≡ operand_kind operator left right }
{
    if is_shift(operator) {
        promote(right)
    } else {
        common(left, right)
    }
}

/// `old op v` as a value of the type of the left side, where v is of this kind.
fn combined(
    scope: &Scope<'_>,
    of: &CType,
    operator: Punct,
    old: Expr,
    kind: IntKind,
    value: Expr,
    mark: Place,
) -> Result<Expr, AllocError>
    ensures { IfOk result (λ v. expression_of v ≡ combined (context_of scope.now)
        (type_of of.now) operator (expression_of old) kind (expression_of value) mark) }
{
    match of {
        CType::Int(to) => {
            let computing = computing_kind(operator, *to, kind);
            let old = as_kind(scope.alloc, *to, computing, old)?;
            let right = operand_kind(operator, *to, kind);
            let value = as_kind(scope.alloc, kind, right, value)?;
            let whole = Expr::binary(scope.alloc, operator, computing, old, value, mark)?;
            as_kind(scope.alloc, computing, *to, whole)
        }
        _ => {
            let back = is_minus(operator);
            Expr::moved(scope.alloc, old, value, back, pointee_size(scope, of))
        }
    }
}

/// `l op= v`, unused, where v is of this kind.
pub fn updated(
    scope: &Scope<'_>,
    draft: &mut Draft,
    e: &TypedExpr,
    operator: Punct,
    kind: IntKind,
    to: Lvalue,
    value: Expr,
) -> Result<(), AllocError>
    ensures { Leaves result (draft_of draft.new) (updated (context_of scope.now) (typed_of e.now)
        operator kind (lvalue_of to) (expression_of value) (draft_of draft.old)) }
{
    let old = Expr::read(to.copy(scope.alloc)?);
    let value = combined(scope, e.of(), operator, old, kind, value, e.mark())?;
    draft.add(scope, Command::Assign { to, value }, e.place())?;
    Ok(())
}

/// `l op= v`, used: the new value goes to a temporary first, which is what is left.
pub fn updated_used(
    scope: &Scope<'_>,
    draft: &mut Draft,
    e: &TypedExpr,
    operator: Punct,
    kind: IntKind,
    to: Lvalue,
    value: Expr,
) -> Result<Expr, AllocError>
    ensures { Gives expression_of result (draft_of draft.new) (updated_used (context_of scope.now)
        (typed_of e.now) operator kind (lvalue_of to) (expression_of value)
        (draft_of draft.old)) }
{
    let old = Expr::read(to.copy(scope.alloc)?);
    let value = combined(scope, e.of(), operator, old, kind, value, e.mark())?;
    let saved = save(scope, draft, e.of(), value, e.place())?;
    let again = saved.copy(scope.alloc)?;
    let value = Expr::read(saved);
    draft.add(scope, Command::Assign { to, value }, e.place())?;
    Ok(Expr::read(again))
}

/// `l++`, used: the old value goes to a temporary first, which is what is left.
pub fn stepped_used(
    scope: &Scope<'_>,
    draft: &mut Draft,
    e: &TypedExpr,
    operator: Punct,
    to: Lvalue,
) -> Result<Expr, AllocError>
    ensures { Gives expression_of result (draft_of draft.new) (stepped_used (context_of scope.now)
        (typed_of e.now) operator (lvalue_of to) (draft_of draft.old)) }
{
    let old = Expr::read(to.copy(scope.alloc)?);
    let saved = save(scope, draft, e.of(), old, e.place())?;
    let again = saved.copy(scope.alloc)?;
    let one = Expr::number(1, IntKind::Int);
    let old = Expr::read(saved);
    let value = combined(scope, e.of(), operator, old, IntKind::Int, one, e.mark())?;
    draft.add(scope, Command::Assign { to, value }, e.place())?;
    Ok(Expr::read(again))
}
