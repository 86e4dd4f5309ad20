//! The functions that expressions mention.
ghost use Rattle.std.specs.Prelude.{◌≡◌, ◌++◌, OnOk, map, option_map};
ghost use Rattle.sp_types.specs.TypedView.{boxed_of, typed_of, typed_form_of};
ghost use Rattle.sp_check_mentions.specs.Mentions.{
  mentions,
  form_mentions,
  maybe_mentions,
  start_mentions,
};

use sp_types::{TypedExpr, TypedForm};
use std::alloc::AllocError;

/// Adds the functions that an expression mentions.
#[cycle(expression)]
pub(crate) fn add_mentions(found: &mut Vec<u32>, e: &TypedExpr) -> Result<(), AllocError>
    ensures { OnOk result (found.new.items ≡ found.old.items ++ mentions (typed_of e.now)) }
{
    add_form(found, &e.form)
}

#[cycle(expression)]
fn add_form(found: &mut Vec<u32>, form: &TypedForm) -> Result<(), AllocError>
    ensures { OnOk result (found.new.items ≡
        found.old.items ++ form_mentions (typed_form_of form.now)) }
{
    match form {
        TypedForm::Function(number) => Ok(found.push(*number)?),
        TypedForm::Convert(e)
        | TypedForm::Decay(e)
        | TypedForm::Member(e, _)
        | TypedForm::Arrow(e, _)
        | TypedForm::After(_, e)
        | TypedForm::Unary(_, e)
        | TypedForm::Cast(e) => add_mentions(found, e),
        TypedForm::Index(a, b)
        | TypedForm::Binary(_, a, b)
        | TypedForm::Assign(_, a, b)
        | TypedForm::Comma(a, b) => {
            add_mentions(found, a)?;
            add_mentions(found, b)
        }
        TypedForm::Choice(c, a, b) => {
            add_mentions(found, c)?;
            add_mentions(found, a)?;
            add_mentions(found, b)
        }
        TypedForm::Call(callee, arguments) => {
            add_mentions(found, callee)?;
            for e in arguments {
                add_mentions(found, e)?;
            }
            Ok(())
        }
        TypedForm::Number(_) | TypedForm::Char(_) | TypedForm::Constant(_) | TypedForm::Object(_) =>
            Ok(()),
    }
}

/// The same of an expression that may be missing.
pub(crate) fn add_maybe(found: &mut Vec<u32>, e: &Option<Box<TypedExpr>>) -> Result<(), AllocError>
    ensures { OnOk result (found.new.items ≡
        found.old.items ++ maybe_mentions (option_map boxed_of e.now)) }
{
    match e {
        Some(e) => add_mentions(found, e),
        None => Ok(()),
    }
}

/// The same of start values.
pub(crate) fn add_start(found: &mut Vec<u32>, start: &[(u64, TypedExpr)]) -> Result<(), AllocError>
    ensures { OnOk result (found.new.items ≡
        found.old.items ++ start_mentions (map (λ s. (s.0, typed_of s.1)) start.now)) }
{
    for value in start {
        add_mentions(found, &value.1)?;
    }
    Ok(())
}
