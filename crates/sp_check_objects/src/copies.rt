//! Copies of typed expressions.
ghost use Rattle.std.specs.Prelude.{◌≡◌, IfOk, map};
ghost use Rattle.sp_types.specs.TypedView.{typed_of, typed_form_of};
ghost use Rattle.sp_check_primaries.specs.Literals.{leaf_seen};

use sp_types::{TypedExpr, TypedForm};
use std::alloc::{AllocError, Global};

/// The same expression again.
#[cycle(copying)]
fn copy(alloc: Global, e: &TypedExpr) -> Result<TypedExpr, AllocError>
    ensures { IfOk result (λ r. typed_of r ≡ typed_of e.now) }
{
    let form = copy_form(alloc, &e.form)?;
    Ok(TypedExpr::leaf(form, e.of().copy(alloc)?, e.place(), e.mark()))
}

#[cycle(copying)]
fn copy_box(alloc: Global, e: &TypedExpr) -> Result<Box<TypedExpr>, AllocError>
    ensures { IfOk result (λ r. typed_of r.value ≡ typed_of e.now) }
{
    Ok(Box::new(alloc, copy(alloc, e)?)?)
}

/// The same form again.
#[cycle(copying)]
fn copy_form(alloc: Global, form: &TypedForm) -> Result<TypedForm, AllocError>
    ensures { IfOk result (λ r. typed_form_of r ≡ typed_form_of form.now) }
{
    match form {
        TypedForm::Number(number) => Ok(TypedForm::Number(*number)),
        TypedForm::Char(value) => Ok(TypedForm::Char(*value)),
        TypedForm::Constant(value) => Ok(TypedForm::Constant(*value)),
        TypedForm::Object(number) => Ok(TypedForm::Object(*number)),
        TypedForm::Function(number) => Ok(TypedForm::Function(*number)),
        TypedForm::Convert(e) => Ok(TypedForm::Convert(copy_box(alloc, e)?)),
        TypedForm::Decay(e) => Ok(TypedForm::Decay(copy_box(alloc, e)?)),
        TypedForm::Index(a, b) => { Ok(TypedForm::Index(copy_box(alloc, a)?, copy_box(alloc, b)?)) }
        TypedForm::Call(callee, arguments) => {
            let callee = copy_box(alloc, callee)?;
            Ok(TypedForm::Call(callee, copy_all(alloc, arguments)?))
        }
        TypedForm::Member(e, name) => Ok(TypedForm::Member(copy_box(alloc, e)?, *name)),
        TypedForm::Arrow(e, name) => Ok(TypedForm::Arrow(copy_box(alloc, e)?, *name)),
        TypedForm::After(operator, e) => Ok(TypedForm::After(*operator, copy_box(alloc, e)?)),
        TypedForm::Unary(operator, e) => Ok(TypedForm::Unary(*operator, copy_box(alloc, e)?)),
        TypedForm::Cast(e) => Ok(TypedForm::Cast(copy_box(alloc, e)?)),
        TypedForm::Binary(operator, a, b) => {
            let a = copy_box(alloc, a)?;
            Ok(TypedForm::Binary(*operator, a, copy_box(alloc, b)?))
        }
        TypedForm::Choice(c, a, b) => {
            let c = copy_box(alloc, c)?;
            let a = copy_box(alloc, a)?;
            Ok(TypedForm::Choice(c, a, copy_box(alloc, b)?))
        }
        TypedForm::Assign(operator, a, b) => {
            let a = copy_box(alloc, a)?;
            Ok(TypedForm::Assign(*operator, a, copy_box(alloc, b)?))
        }
        TypedForm::Comma(a, b) => { Ok(TypedForm::Comma(copy_box(alloc, a)?, copy_box(alloc, b)?)) }
    }
}

#[cycle(copying)]
fn copy_all(alloc: Global, list: &[TypedExpr]) -> Result<Vec<TypedExpr>, AllocError>
    ensures { IfOk result (λ all. map typed_of all.items ≡ map typed_of list.now) }
{
    let mut all = Vec::new(alloc);
    'list: for (i, e) in list.iter().enumerate() {
        all.push(copy(alloc, e)?)?;
    }
    Ok(all)
}

/// The same values again.
pub(crate) fn copy_values(
    alloc: Global,
    values: &[(u64, TypedExpr)],
) -> Result<Vec<(u64, TypedExpr)>, AllocError>
    ensures { IfOk result (λ all. map leaf_seen all.items ≡ map leaf_seen values.now) }
{
    let mut all = Vec::new(alloc);
    'values: for (i, value) in values.iter().enumerate() {
        all.push((value.0, copy(alloc, &value.1)?))?;
    }
    Ok(all)
}
