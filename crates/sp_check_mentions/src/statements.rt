//! The functions that statements mention.
ghost use Rattle.std.specs.Prelude.{◌≡◌, ◌++◌, OnOk, option_map};
ghost use Rattle.sp_types.specs.TypedView.{statement_of, maybe_statement};
ghost use Rattle.sp_check_mentions.specs.Mentions.{statement_mentions, body_mentions};

use crate::expressions::{add_maybe, add_mentions};
use sp_types::{TypedStatement, TypedStatementForm};
use std::alloc::AllocError;

/// Adds the functions that a statement mentions.
fn add_statement(found: &mut Vec<u32>, s: &TypedStatement) -> Result<(), AllocError>
    ensures { OnOk result (found.new.items ≡
        found.old.items ++ statement_mentions (statement_of s.now)) }
{
    match &s.form {
        TypedStatementForm::Label(_, s)
        | TypedStatementForm::Case(_, s)
        | TypedStatementForm::Default(s) => add_statement(found, s),
        TypedStatementForm::Block(_, statements) => {
            for s in statements {
                add_statement(found, s)?;
            }
            Ok(())
        }
        TypedStatementForm::Of(e) => add_mentions(found, e),
        TypedStatementForm::If(e, s, other) => {
            add_mentions(found, e)?;
            add_statement(found, s)?;
            match other {
                Some(other) => add_statement(found, other),
                None => Ok(()),
            }
        }
        TypedStatementForm::Switch(e, s) | TypedStatementForm::While(e, s) => {
            add_mentions(found, e)?;
            add_statement(found, s)
        }
        TypedStatementForm::Do(s, e) => {
            add_statement(found, s)?;
            add_mentions(found, e)
        }
        TypedStatementForm::For(a, b, c, s) => {
            add_maybe(found, a)?;
            add_maybe(found, b)?;
            add_maybe(found, c)?;
            add_statement(found, s)
        }
        TypedStatementForm::Return(e) => add_maybe(found, e),
        TypedStatementForm::Empty
        | TypedStatementForm::Goto(_)
        | TypedStatementForm::Continue
        | TypedStatementForm::Break => Ok(()),
    }
}

/// The same of the body of a function, where it has one.
pub(crate) fn add_body(
    found: &mut Vec<u32>,
    body: &Option<TypedStatement>,
) -> Result<(), AllocError>
    ensures { OnOk result (found.new.items ≡
        found.old.items ++ body_mentions (option_map statement_of body.now)) }
{
    match body {
        Some(body) => add_statement(found, body),
        None => Ok(()),
    }
}
