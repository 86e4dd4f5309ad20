//! The cases of a switch.
ghost use Rattle.std.specs.Prelude.{◌≡◌, ◌++◌, OnOk};
ghost use Rattle.sp_types.specs.TypedView.{statement_of, maybe_statement};
ghost use Rattle.sp_lower_body.specs.Cases.{case_values, has_default};

use sp_types::{TypedStatement, TypedStatementForm};
use std::alloc::AllocError;

/// Adds the values of the cases that are a switch's own.
pub fn case_values(values: &mut Vec<i128>, s: &TypedStatement) -> Result<(), AllocError>
    ensures { OnOk result (values.new.items ≡
        values.old.items ++ case_values (statement_of s.now)) }
{
    match &s.form {
        TypedStatementForm::Label(_, s) | TypedStatementForm::Default(s) => case_values(values, s),
        TypedStatementForm::Case(value, s) => {
            values.push(*value)?;
            case_values(values, s)
        }
        TypedStatementForm::Block(_, statements) => {
            for s in statements {
                case_values(values, s)?;
            }
            Ok(())
        }
        TypedStatementForm::If(_, s, None) => case_values(values, s),
        TypedStatementForm::If(_, s, Some(other)) => {
            case_values(values, s)?;
            case_values(values, other)
        }
        TypedStatementForm::While(_, s)
        | TypedStatementForm::Do(s, _)
        | TypedStatementForm::For(_, _, _, s) => case_values(values, s),
        TypedStatementForm::Empty
        | TypedStatementForm::Of(_)
        | TypedStatementForm::Switch(..)
        | TypedStatementForm::Goto(_)
        | TypedStatementForm::Continue
        | TypedStatementForm::Break
        | TypedStatementForm::Return(_) => Ok(()),
    }
}

/// Whether a switch with this body has a default of its own.
pub fn has_default(s: &TypedStatement) -> bool
    ensures { result ≡ has_default (statement_of s.now) }
{
    match &s.form {
        TypedStatementForm::Default(_) => true,
        TypedStatementForm::Label(_, s) | TypedStatementForm::Case(_, s) => has_default(s),
        TypedStatementForm::Block(_, statements) => {
            for s in statements {
                if has_default(s) {
                    return true;
                }
            }
            false
        }
        TypedStatementForm::If(_, s, None) => has_default(s),
        TypedStatementForm::If(_, s, Some(other)) => has_default(s) || has_default(other),
        TypedStatementForm::While(_, s)
        | TypedStatementForm::Do(s, _)
        | TypedStatementForm::For(_, _, _, s) => has_default(s),
        TypedStatementForm::Empty
        | TypedStatementForm::Of(_)
        | TypedStatementForm::Switch(..)
        | TypedStatementForm::Goto(_)
        | TypedStatementForm::Continue
        | TypedStatementForm::Break
        | TypedStatementForm::Return(_) => false,
    }
}
