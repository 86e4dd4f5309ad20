//! The objects of blocks.
ghost use Rattle.std.specs.Prelude.{◌≡◌, ◌++◌, OnOk};
ghost use Rattle.sp_types.specs.TypedView.{statement_of, maybe_statement};
ghost use Rattle.sp_check_statement_rules.specs.Blocks.{locals_in};

use sp_types::{TypedStatement, TypedStatementForm};
use std::alloc::AllocError;

/// Adds the objects that the blocks of a statement declare, in the order of the text.
pub fn add_locals(locals: &mut Vec<u32>, s: &TypedStatement) -> Result<(), AllocError>
    ensures { OnOk result (locals.new.items ≡ locals.old.items ++ locals_in (statement_of s.now)) }
{
    match &s.form {
        TypedStatementForm::Block(objects, statements) => {
            locals.extend_from_slice(objects)?;
            for s in statements {
                add_locals(locals, s)?;
            }
            Ok(())
        }
        TypedStatementForm::If(_, s, other) => {
            add_locals(locals, s)?;
            match other {
                Some(other) => add_locals(locals, other),
                None => Ok(()),
            }
        }
        TypedStatementForm::Label(_, s)
        | TypedStatementForm::Case(_, s)
        | TypedStatementForm::Default(s)
        | TypedStatementForm::Switch(_, s)
        | TypedStatementForm::While(_, s)
        | TypedStatementForm::Do(s, _)
        | TypedStatementForm::For(_, _, _, s) => add_locals(locals, s),
        TypedStatementForm::Empty
        | TypedStatementForm::Of(_)
        | TypedStatementForm::Goto(_)
        | TypedStatementForm::Continue
        | TypedStatementForm::Break
        | TypedStatementForm::Return(_) => Ok(()),
    }
}
