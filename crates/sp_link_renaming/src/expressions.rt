//! Expressions under a renaming.
ghost use Rattle.std.specs.Prelude.{◌≡◌, IfOk, map, option_map};
ghost use Rattle.std.specs.Option.{option_copied};
ghost use Rattle.sp_types.specs.View.{type_of};
ghost use Rattle.sp_types.specs.Typed as tree;
ghost use Rattle.sp_types.specs.TypedView.{boxed_of, typed_of, typed_form_of, typed_list};
ghost use Rattle.sp_link_renaming.specs.Renaming.{told_by, type_in, renamed, renamed_form, all_renamed};
ghost use Rattle.sp_link_renaming.specs.View.{renaming_of};

use crate::types::{Renaming, number_in, renamed_type};
use sp_types::{CType, TypedExpr, TypedForm};
use std::alloc::{AllocError, Global};

/// The type of an object, with the length or the members that the program tells.
fn told_by(alloc: Global, there: Option<&CType>, of: CType) -> Result<CType, AllocError>
    ensures { IfOk result (λ t. type_of t ≡
        told_by (option_map type_of (option_copied there.entry)) (type_of of)) }
{
    match (there, of) {
        (Some(CType::Array(there)), CType::Array(here)) => {
            if there.length == here.length {
                return Ok(CType::Array(here));
            }
            CType::shared_array(alloc, here.element.clone()?, there.length)
        }
        (Some(CType::Struct(number)), CType::Struct(_)) => Ok(CType::Struct(*number)),
        (_, of) => Ok(of),
    }
}

/// The type with which the program names an object of the unit.
fn object_type(alloc: Global, object: u32, of: &CType, to: &Renaming) -> Result<CType, AllocError>
    ensures { IfOk result (λ t. type_of t ≡
        type_in (renaming_of to.now) (tree.object object) (type_of of.now)) }
{
    let here = renamed_type(alloc, of, &to.structs)?;
    told_by(alloc, to.types.get(object as usize), here)
}

/// The type of an expression of this form.
fn type_in(alloc: Global, form: &TypedForm, of: &CType, to: &Renaming) -> Result<CType, AllocError>
    ensures { IfOk result (λ t. type_of t ≡
        type_in (renaming_of to.now) (typed_form_of form.now) (type_of of.now)) }
{
    match form {
        TypedForm::Object(number) => object_type(alloc, *number, of, to),
        TypedForm::Number(_)
        | TypedForm::Char(_)
        | TypedForm::Constant(_)
        | TypedForm::Function(_)
        | TypedForm::Convert(_)
        | TypedForm::Decay(_)
        | TypedForm::Index(_, _)
        | TypedForm::Call(_, _)
        | TypedForm::Member(_, _)
        | TypedForm::Arrow(_, _)
        | TypedForm::After(_, _)
        | TypedForm::Unary(_, _)
        | TypedForm::Cast(_)
        | TypedForm::Binary(_, _, _)
        | TypedForm::Choice(_, _, _)
        | TypedForm::Assign(_, _, _)
        | TypedForm::Comma(_, _) => renamed_type(alloc, of, &to.structs),
    }
}

/// An expression, with what it names renamed.
#[cycle(expression)]
pub fn renamed(alloc: Global, e: &TypedExpr, to: &Renaming) -> Result<TypedExpr, AllocError>
    ensures { IfOk result (λ x. typed_of x ≡ renamed (renaming_of to.now) (typed_of e.now)) }
{
    let of = type_in(alloc, &e.form, &e.of, to)?;
    let form = renamed_form(alloc, &e.form, to)?;
    Ok(TypedExpr {
        form,
        of,
        place: e.place,
        mark: e.mark,
    })
}

/// The same on the heap.
#[cycle(expression)]
pub(crate) fn boxed(
    alloc: Global,
    e: &TypedExpr,
    to: &Renaming,
) -> Result<Box<TypedExpr>, AllocError>
    ensures { IfOk result (λ x. boxed_of x ≡ renamed (renaming_of to.now) (typed_of e.now)) }
{
    Ok(Box::new(alloc, renamed(alloc, e, to)?)?)
}

#[cycle(expression)]
fn renamed_form(alloc: Global, form: &TypedForm, to: &Renaming) -> Result<TypedForm, AllocError>
    ensures { IfOk result (λ f. typed_form_of f ≡
        renamed_form (renaming_of to.now) (typed_form_of form.now)) }
{
    match form {
        TypedForm::Number(number) => Ok(TypedForm::Number(*number)),
        TypedForm::Char(value) => Ok(TypedForm::Char(*value)),
        TypedForm::Constant(value) => Ok(TypedForm::Constant(*value)),
        TypedForm::Object(number) => Ok(TypedForm::Object(number_in(&to.objects, *number))),
        TypedForm::Function(number) => Ok(TypedForm::Function(number_in(&to.functions, *number))),
        TypedForm::Convert(e) => Ok(TypedForm::Convert(boxed(alloc, e, to)?)),
        TypedForm::Decay(e) => Ok(TypedForm::Decay(boxed(alloc, e, to)?)),
        TypedForm::Member(e, name) => Ok(TypedForm::Member(boxed(alloc, e, to)?, *name)),
        TypedForm::Arrow(e, name) => Ok(TypedForm::Arrow(boxed(alloc, e, to)?, *name)),
        TypedForm::After(op, e) => Ok(TypedForm::After(*op, boxed(alloc, e, to)?)),
        TypedForm::Unary(op, e) => Ok(TypedForm::Unary(*op, boxed(alloc, e, to)?)),
        TypedForm::Cast(e) => Ok(TypedForm::Cast(boxed(alloc, e, to)?)),
        TypedForm::Index(a, b) => {
            let a = boxed(alloc, a, to)?;
            Ok(TypedForm::Index(a, boxed(alloc, b, to)?))
        }
        TypedForm::Binary(op, a, b) => {
            let a = boxed(alloc, a, to)?;
            Ok(TypedForm::Binary(*op, a, boxed(alloc, b, to)?))
        }
        TypedForm::Assign(op, a, b) => {
            let a = boxed(alloc, a, to)?;
            Ok(TypedForm::Assign(*op, a, boxed(alloc, b, to)?))
        }
        TypedForm::Comma(a, b) => {
            let a = boxed(alloc, a, to)?;
            Ok(TypedForm::Comma(a, boxed(alloc, b, to)?))
        }
        TypedForm::Choice(c, a, b) => {
            let c = boxed(alloc, c, to)?;
            let a = boxed(alloc, a, to)?;
            Ok(TypedForm::Choice(c, a, boxed(alloc, b, to)?))
        }
        TypedForm::Call(callee, arguments) => {
            let callee = boxed(alloc, callee, to)?;
            Ok(TypedForm::Call(callee, all_renamed(alloc, arguments, to)?))
        }
    }
}

#[cycle(expression)]
fn all_renamed(alloc: Global, es: &[TypedExpr], to: &Renaming) -> Result<Vec<TypedExpr>, AllocError>
    ensures { IfOk result (λ all. typed_list (map typed_of all.items) ≡
        all_renamed (renaming_of to.now) (typed_list (map typed_of es.now))) }
{
    let mut all = Vec::with_capacity(alloc, es.len())?;
    'es: for (i, e) in es.iter().enumerate() {
        all.push(renamed(alloc, e, to)?)?;
    }
    Ok(all)
}

/// The same of an expression that may be missing.
pub(crate) fn maybe_renamed(
    alloc: Global,
    e: &Option<Box<TypedExpr>>,
    to: &Renaming,
) -> Result<Option<Box<TypedExpr>>, AllocError>
    ensures { IfOk result (λ x. option_map boxed_of x ≡
        option_map (renamed (renaming_of to.now)) (option_map boxed_of e.now)) }
{
    match e {
        Some(e) => Ok(Some(boxed(alloc, e, to)?)),
        None => Ok(None),
    }
}
