//! Constant expressions as values without nodes.
ghost use Rattle.std.specs.Prelude.{◌≡◌, IfOk};
ghost use Rattle.sp_types.specs.TypedView.{typed_of};
ghost use Rattle.sp_ir.specs.View.{expression_of, lvalue_of};
ghost use Rattle.sp_lower_draft.specs.View.{context_of, draft_of};
ghost use Rattle.sp_lower_starts.specs.Starts.{empty, plain_value, plain_place, start_value, start_place};

use sp_check_constants::constant;
use sp_ir::{Expr, Lvalue};
use sp_lower_draft::{Draft, Scope, kind_of};
use sp_lower_expr::{adds, place, value};
use sp_lower_expr_steps::{
    addressed, arrow_taken, followed, indexed, loaded, member_taken, operated,
};
use sp_types::{TypedExpr, TypedForm};
use std::alloc::{AllocError, Global};

/// No node yet.
fn empty(alloc: Global) -> Draft
    ensures { draft_of result ≡ empty }
{
    Draft {
        nodes: Vec::new(alloc),
        edges: Vec::new(alloc),
        loose: Vec::new(alloc),
        temporaries: Vec::new(alloc),
        sites: Vec::new(alloc),
    }
}

/// The value of an expression without nodes.
fn plain_value(scope: &Scope<'_>, e: &TypedExpr) -> Result<Expr, AllocError>
    ensures { IfOk result (λ v.
        expression_of v ≡ plain_value (context_of scope.now) (typed_of e.now)) }
{
    let mut draft = empty(scope.alloc);
    value(scope, &mut draft, None, e)
}

/// Where an expression without nodes stands.
fn plain_place(scope: &Scope<'_>, e: &TypedExpr) -> Result<Lvalue, AllocError>
    ensures { IfOk result (λ l.
        lvalue_of l ≡ plain_place (context_of scope.now) (typed_of e.now)) }
{
    let mut draft = empty(scope.alloc);
    place(scope, &mut draft, e)
}

/// The value of a constant expression, which has no node.
#[cycle(starts)]
pub fn start_value(scope: &Scope<'_>, e: &TypedExpr) -> Result<Expr, AllocError>
    ensures { IfOk result (λ v.
        expression_of v ≡ start_value (context_of scope.now) (typed_of e.now)) }
{
    if !adds(e) {
        return plain_value(scope, e);
    }
    if let Some(number) = constant(e) {
        return Ok(Expr::number(number, kind_of(e.of())));
    }
    match &e.form {
        TypedForm::Convert(a) => {
            let value = start_value(scope, a)?;
            Expr::convert(scope.alloc, e.of().copy(scope.alloc)?, value)
        }
        TypedForm::Cast(a) => {
            let value = start_value(scope, a)?;
            Expr::convert(scope.alloc, e.of().copy(scope.alloc)?, value)
        }
        TypedForm::Decay(a) => {
            let place = start_place(scope, a)?;
            loaded(scope, a.of(), place)
        }
        TypedForm::Unary(_, a) => {
            let place = start_place(scope, a)?;
            addressed(scope, e.of().copy(scope.alloc)?, place)
        }
        TypedForm::Binary(operator, a, b) => {
            let x = start_value(scope, a)?;
            let y = start_value(scope, b)?;
            operated(scope, *operator, e, a, b, x, y)
        }
        TypedForm::Number(_)
        | TypedForm::Char(_)
        | TypedForm::Constant(_)
        | TypedForm::Object(_)
        | TypedForm::Function(_)
        | TypedForm::Index(..)
        | TypedForm::Call(..)
        | TypedForm::Member(..)
        | TypedForm::Arrow(..)
        | TypedForm::After(..)
        | TypedForm::Choice(..)
        | TypedForm::Assign(..)
        | TypedForm::Comma(..) => plain_value(scope, e),
    }
}

/// An object or a function whose address is taken, or a part of an object.
#[cycle(starts)]
fn start_place(scope: &Scope<'_>, e: &TypedExpr) -> Result<Lvalue, AllocError>
    ensures { IfOk result (λ l.
        lvalue_of l ≡ start_place (context_of scope.now) (typed_of e.now)) }
{
    if !adds(e) {
        return plain_place(scope, e);
    }
    match &e.form {
        TypedForm::Index(a, b) => {
            let x = start_value(scope, a)?;
            let y = start_value(scope, b)?;
            indexed(scope, e, a, b, x, y)
        }
        TypedForm::Member(a, name) => {
            let whole = start_place(scope, a)?;
            member_taken(scope, a, *name, whole)
        }
        TypedForm::Arrow(a, name) => {
            let value = start_value(scope, a)?;
            arrow_taken(scope, e, a, *name, value)
        }
        TypedForm::Unary(_, a) => {
            let value = start_value(scope, a)?;
            followed(scope, e, value)
        }
        TypedForm::Number(_)
        | TypedForm::Char(_)
        | TypedForm::Constant(_)
        | TypedForm::Object(_)
        | TypedForm::Function(_)
        | TypedForm::Convert(_)
        | TypedForm::Decay(_)
        | TypedForm::Call(..)
        | TypedForm::After(..)
        | TypedForm::Cast(_)
        | TypedForm::Binary(..)
        | TypedForm::Choice(..)
        | TypedForm::Assign(..)
        | TypedForm::Comma(..) => plain_place(scope, e),
    }
}
