//! The body of a function.
ghost use Rattle.sp_parse_trees.specs.View.{statement_of as tree_statement_of};
ghost use Rattle.sp_types.specs.Statements.{typed_statement};
ghost use Rattle.sp_types.specs.View.{type_of};
ghost use Rattle.sp_types.specs.TypedView.{statement_of, statement_form_of};
ghost use Rattle.sp_base_checked.specs.Answers.{Answers, AnswersIn};
ghost use Rattle.sp_check_env.specs.Views.{env_of};
ghost use Rattle.sp_check_statement_rules.specs.View.{around_of};
ghost use Rattle.sp_check_statements.specs.Statements.{body_form, labels_told, body_checked};
ghost use Rattle.sp_check_statements.specs.SyntaxView.{form_of};

use crate::statements::{block, form};
use sp_base_checked::CheckError;
use sp_check_env::Env;
use sp_check_statement_rules::{Around, labelled};
use sp_parse_trees::{Statement, StatementForm};
use sp_tree::{Names, Place};
use sp_types::{CType, TypedStatement, TypedStatementForm};
use std::alloc::Global;

/// The form of a body: its block stands in the scope that is open.
fn body_form(
    alloc: Global,
    inner: &StatementForm,
    env: &mut Env,
    names: &Names,
    around: &Around<'_>,
    place: Place,
) -> Result<TypedStatementForm, CheckError>
    ensures { AnswersIn statement_form_of
        (body_form names.now (env_of env.old) (around_of around.now) place (form_of inner.now))
        (env_of env.new) result }
{
    match inner {
        StatementForm::Block(objects, statements) => {
            block(alloc, statements, env, names, around, objects)
        }
        _ => form(alloc, inner, env, names, around, place),
    }
}

/// The body of this form, with its labels told.
fn labels_told(
    alloc: Global,
    form: TypedStatementForm,
    place: Place,
    end: Place,
) -> Result<TypedStatement, CheckError>
    ensures { Answers statement_of
        (labels_told (typed_statement (statement_form_of form) place end)) result }
{
    let body = TypedStatement::new(form, place, end);
    labelled(alloc, &body)?;
    Ok(body)
}

/// The typed tree of the body of a function, or its fault. `returns` is the type that the function
/// returns; the parameters are declared in the innermost scope of `env`, in which the body's
/// declarations go too.
///
/// After a refusal the environment isn't used again.
pub fn check_body(
    alloc: Global,
    env: &mut Env,
    body: &Statement,
    returns: &CType,
    names: &Names,
) -> Result<TypedStatement, CheckError>
    ensures { AnswersIn statement_of
        (body_checked names.now (env_of env.old) (type_of returns.now)
        (tree_statement_of body.now))
        (env_of env.new) result }
{
    let around = Around::in_function(returns);
    let form = body_form(alloc, &body.form, env, names, &around, body.place)?;
    labels_told(alloc, form, body.place, body.end)
}
