//! The walk over statements.
ghost use Rattle.std.specs.Prelude.{◌≡◌, [], map, true};
ghost use Rattle.sp_parse_trees.specs.View.{
  tree_of,
  statement_of as tree_statement_of,
  statements,
  declaration_of,
  declarations,
  maybe_statement as tree_maybe_statement,
};
ghost use Rattle.sp_types.specs.TypedView.{typed_of, statement_of, statement_form_of};
ghost use Rattle.sp_base_checked.specs.Answers.{AnswersIn};
ghost use Rattle.sp_check_env.specs.Views.{env_of};
ghost use Rattle.sp_check_statement_rules.specs.View.{around_of};
ghost use Rattle.sp_check_statements.specs.Statements as rules;
ghost use Rattle.sp_check_statements.specs.SyntaxView.{form_of};

use crate::parts::{
    condition_checked, declarations_checked, maybe_checked, maybe_condition, maybe_returned,
    switch_checked,
};
use sp_base_checked::{CheckError, fault};
use sp_check_env::Env;
use sp_check_statement_rules::{Around, broken, case_value, continued, switch_around, switch_made};
use sp_expr_check::check_expression;
use sp_parse_trees::{Declaration, Statement, StatementForm};
use sp_tree::{FaultKind, Names, Place};
use sp_types::{TypedStatement, TypedStatementForm};
use std::alloc::Global;

/// A statement.
#[cycle(statement)]
fn statement(
    alloc: Global,
    s: &Statement,
    env: &mut Env,
    names: &Names,
    around: &Around<'_>,
) -> Result<TypedStatement, CheckError>
    ensures { AnswersIn statement_of
        (rules.statement_checked names.now (env_of env.old) (around_of around.now)
        (tree_statement_of s.now))
        (env_of env.new) result }
{
    let form = form(alloc, &s.form, env, names, around, s.place)?;
    Ok(TypedStatement::new(form, s.place, s.end))
}

/// The form of a statement at this place. Those that choose and repeat are behind.
#[tactic(auto, using(crate::proofs::Places::places))]
#[cycle(statement)]
pub(crate) fn form(
    alloc: Global,
    form: &StatementForm,
    env: &mut Env,
    names: &Names,
    around: &Around<'_>,
    place: Place,
) -> Result<TypedStatementForm, CheckError>
    ensures { AnswersIn statement_form_of
        (rules.form_checked names.now (env_of env.old) (around_of around.now) place
        (form_of form.now))
        (env_of env.new) result }
{
    match form {
        StatementForm::Label(name, s) => {
            let s = statement(alloc, s, env, names, around)?;
            Ok(TypedStatementForm::label(alloc, *name, s)?)
        }
        StatementForm::Case(e, s) => {
            let kind = switch_around(around, place)?;
            let value = check_expression(alloc, env, e, names)?;
            let value = case_value(kind, e.place, &value)?;
            let s = statement(alloc, s, env, names, around)?;
            Ok(TypedStatementForm::case(alloc, value, s)?)
        }
        StatementForm::Default(s) => {
            switch_around(around, place)?;
            let s = statement(alloc, s, env, names, around)?;
            Ok(TypedStatementForm::default(alloc, s)?)
        }
        StatementForm::Block(objects, inner) => {
            env.enter(alloc)?;
            let form = block(alloc, inner, env, names, around, objects)?;
            env.leave();
            Ok(form)
        }
        StatementForm::Empty => Ok(TypedStatementForm::Empty),
        StatementForm::Of(e) => {
            let e = check_expression(alloc, env, e, names)?;
            Ok(TypedStatementForm::Of(e))
        }
        StatementForm::Goto(name) => Ok(TypedStatementForm::Goto(*name)),
        StatementForm::Continue => continued(around, place),
        StatementForm::Break => broken(around, place),
        StatementForm::Return(e) => {
            let e = maybe_returned(alloc, env, names, around, e)?;
            Ok(TypedStatementForm::Return(e))
        }
        StatementForm::If(_, _, _)
        | StatementForm::Switch(_, _)
        | StatementForm::While(_, _)
        | StatementForm::Do(_, _)
        | StatementForm::For(_, _) => control(alloc, form, env, names, around, place),
    }
}

/// The forms that choose and repeat.
#[cycle(statement)]
fn control(
    alloc: Global,
    form: &StatementForm,
    env: &mut Env,
    names: &Names,
    around: &Around<'_>,
    place: Place,
) -> Result<TypedStatementForm, CheckError>
    requires { rules.is_control (form_of form.now) ≡ true }
    ensures { AnswersIn statement_form_of
        (rules.form_checked names.now (env_of env.old) (around_of around.now) place
        (form_of form.now))
        (env_of env.new) result }
{
    match form {
        StatementForm::If(e, s, None) => {
            let e = condition_checked(alloc, env, names, e)?;
            let s = statement(alloc, s, env, names, around)?;
            Ok(TypedStatementForm::if_alone(alloc, e, s)?)
        }
        StatementForm::If(e, s, Some(other)) => {
            let e = condition_checked(alloc, env, names, e)?;
            let s = statement(alloc, s, env, names, around)?;
            let other = statement(alloc, other, env, names, around)?;
            Ok(TypedStatementForm::if_else(alloc, e, s, other)?)
        }
        StatementForm::Switch(e, s) => {
            let e = switch_checked(alloc, env, names, e)?;
            let s = statement(alloc, s, env, names, &around.in_switch(e.of()))?;
            switch_made(alloc, e, s)
        }
        StatementForm::While(e, s) => {
            let e = condition_checked(alloc, env, names, e)?;
            let s = statement(alloc, s, env, names, &around.in_loop())?;
            Ok(TypedStatementForm::while_loop(alloc, e, s)?)
        }
        StatementForm::Do(s, e) => {
            let s = statement(alloc, s, env, names, &around.in_loop())?;
            let e = condition_checked(alloc, env, names, e)?;
            Ok(TypedStatementForm::do_loop(alloc, s, e)?)
        }
        StatementForm::For(clauses, s) => {
            let a = maybe_checked(alloc, env, names, &clauses.start)?;
            let b = maybe_condition(alloc, env, names, &clauses.test)?;
            let c = maybe_checked(alloc, env, names, &clauses.step)?;
            let s = statement(alloc, s, env, names, &around.in_loop())?;
            Ok(TypedStatementForm::for_loop(alloc, a, b, c, s)?)
        }
        _ => fault(FaultKind::MisplacedJump, place),
    }
}

/// The declarations and the statements of a block, in its scope.
#[cycle(statement)]
pub(crate) fn block(
    alloc: Global,
    inner: &[Statement],
    env: &mut Env,
    names: &Names,
    around: &Around<'_>,
    objects: &[Declaration],
) -> Result<TypedStatementForm, CheckError>
    ensures { AnswersIn statement_form_of
        (rules.block_checked names.now (env_of env.old) (around_of around.now)
        (declarations (map declaration_of objects.now))
        (statements (map tree_statement_of inner.now)))
        (env_of env.new) result }
{
    let objects = declarations_checked(alloc, env, names, objects)?;
    let inner = statements_checked(alloc, inner, env, names, around)?;
    Ok(TypedStatementForm::Block(objects, inner))
}

/// The statements of a block.
#[cycle(statement)]
fn statements_checked(
    alloc: Global,
    inner: &[Statement],
    env: &mut Env,
    names: &Names,
    around: &Around<'_>,
) -> Result<Vec<TypedStatement>, CheckError>
    ensures { AnswersIn (λ all. map statement_of all.items)
        (rules.statements_checked names.now (env_of env.old) (around_of around.now) []
        (statements (map tree_statement_of inner.now)))
        (env_of env.new) result }
{
    let mut all = Vec::with_capacity(alloc, inner.len())?;
    'statements: for (i, s) in inner.iter().enumerate() {
        all = one_statement(alloc, s, env, names, around, all)?;
    }
    Ok(all)
}

/// A statement behind those that are checked.
#[cycle(statement)]
fn one_statement(
    alloc: Global,
    s: &Statement,
    env: &mut Env,
    names: &Names,
    around: &Around<'_>,
    mut all: Vec<TypedStatement>,
) -> Result<Vec<TypedStatement>, CheckError>
    ensures { AnswersIn (λ all. map statement_of all.items)
        (rules.one_statement names.now (env_of env.old) (around_of around.now)
        (map statement_of all.items) (tree_statement_of s.now))
        (env_of env.new) result }
{
    let form = form(alloc, &s.form, env, names, around, s.place)?;
    all.push(TypedStatement::new(form, s.place, s.end))?;
    Ok(all)
}
