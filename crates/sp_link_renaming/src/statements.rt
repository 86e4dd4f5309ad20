//! Statements under a renaming.
ghost use Rattle.std.specs.Prelude.{◌≡◌, IfOk, map};
ghost use Rattle.sp_types.specs.TypedView.{statement_of, statement_form_of, statement_list, maybe_statement};
ghost use Rattle.sp_link_renaming.specs.Renaming.{number_in, renamed_statement, renamed_statement_form, renamed_other, all_renamed_statements};
ghost use Rattle.sp_link_renaming.specs.View.{renaming_of};

use crate::expressions::{boxed, maybe_renamed};
use crate::types::{Renaming, number_in};
use sp_types::{TypedStatement, TypedStatementForm};
use std::alloc::{AllocError, Global};

/// The new numbers of objects.
fn renamed_numbers(alloc: Global, numbers: &[u32], objects: &[u32]) -> Result<Vec<u32>, AllocError>
    ensures { IfOk result (λ all. all.items ≡ map (number_in objects.now) numbers.now) }
{
    let mut all = Vec::with_capacity(alloc, numbers.len())?;
    for number in numbers {
        all.push(number_in(objects, *number))?;
    }
    Ok(all)
}

/// A statement, with what it names renamed.
#[cycle(statement)]
pub fn renamed_statement(
    alloc: Global,
    s: &TypedStatement,
    to: &Renaming,
) -> Result<TypedStatement, AllocError>
    ensures { IfOk result (λ x. statement_of x ≡
        renamed_statement (renaming_of to.now) (statement_of s.now)) }
{
    let form = renamed_form(alloc, &s.form, to)?;
    Ok(TypedStatement::new(form, s.place, s.end))
}

#[cycle(statement)]
fn renamed_form(
    alloc: Global,
    form: &TypedStatementForm,
    to: &Renaming,
) -> Result<TypedStatementForm, AllocError>
    ensures { IfOk result (λ f. statement_form_of f ≡
        renamed_statement_form (renaming_of to.now) (statement_form_of form.now)) }
{
    match form {
        TypedStatementForm::Label(name, s) => {
            TypedStatementForm::label(alloc, *name, renamed_statement(alloc, s, to)?)
        }
        TypedStatementForm::Case(value, s) => {
            TypedStatementForm::case(alloc, *value, renamed_statement(alloc, s, to)?)
        }
        TypedStatementForm::Default(s) => {
            TypedStatementForm::default(alloc, renamed_statement(alloc, s, to)?)
        }
        TypedStatementForm::Block(numbers, statements) => {
            let numbers = renamed_numbers(alloc, numbers, &to.objects)?;
            Ok(TypedStatementForm::Block(numbers, all_renamed(alloc, statements, to)?))
        }
        TypedStatementForm::Empty => Ok(TypedStatementForm::Empty),
        TypedStatementForm::Of(e) => Ok(TypedStatementForm::Of(boxed(alloc, e, to)?)),
        TypedStatementForm::If(e, s, None) => {
            let e = boxed(alloc, e, to)?;
            TypedStatementForm::if_alone(alloc, e, renamed_statement(alloc, s, to)?)
        }
        TypedStatementForm::If(e, s, Some(other)) => {
            let e = boxed(alloc, e, to)?;
            let s = renamed_statement(alloc, s, to)?;
            TypedStatementForm::if_else(alloc, e, s, renamed_statement(alloc, other, to)?)
        }
        TypedStatementForm::Switch(e, s) => {
            let e = boxed(alloc, e, to)?;
            TypedStatementForm::switch_on(alloc, e, renamed_statement(alloc, s, to)?)
        }
        TypedStatementForm::While(e, s) => {
            let e = boxed(alloc, e, to)?;
            TypedStatementForm::while_loop(alloc, e, renamed_statement(alloc, s, to)?)
        }
        TypedStatementForm::Do(s, e) => {
            let s = renamed_statement(alloc, s, to)?;
            TypedStatementForm::do_loop(alloc, s, boxed(alloc, e, to)?)
        }
        TypedStatementForm::For(a, b, c, s) => {
            let a = maybe_renamed(alloc, a, to)?;
            let b = maybe_renamed(alloc, b, to)?;
            let c = maybe_renamed(alloc, c, to)?;
            TypedStatementForm::for_loop(alloc, a, b, c, renamed_statement(alloc, s, to)?)
        }
        TypedStatementForm::Goto(name) => Ok(TypedStatementForm::Goto(*name)),
        TypedStatementForm::Continue => Ok(TypedStatementForm::Continue),
        TypedStatementForm::Break => Ok(TypedStatementForm::Break),
        TypedStatementForm::Return(e) => {
            Ok(TypedStatementForm::Return(maybe_renamed(alloc, e, to)?))
        }
    }
}

#[cycle(statement)]
fn all_renamed(
    alloc: Global,
    statements: &[TypedStatement],
    to: &Renaming,
) -> Result<Vec<TypedStatement>, AllocError>
    ensures { IfOk result (λ all. statement_list (map statement_of all.items) ≡
        all_renamed_statements (renaming_of to.now) (statement_list (map statement_of statements.now))) }
{
    let mut all = Vec::with_capacity(alloc, statements.len())?;
    'statements: for (i, s) in statements.iter().enumerate() {
        all.push(renamed_statement(alloc, s, to)?)?;
    }
    Ok(all)
}
