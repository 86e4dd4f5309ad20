//! What the parts of a definition's declarator derive (C90 6.5.4, 6.7.1).
ghost use Rattle.std.specs.Prelude.{◌≡◌, map};
ghost use Rattle.sp_parse_trees.specs.Syntax.{some_expression};
ghost use Rattle.sp_parse_trees.specs.View.{declarator_of, tree_of, param_of, params as params_seen};
ghost use Rattle.sp_base_checked.specs.Answers.{AnswersIn};
ghost use Rattle.sp_check_env.specs.Views.{env_of};
ghost use Rattle.sp_expr_check.specs.SyntaxView.{declarator_form_of};
ghost use Rattle.sp_check_heads.specs.FormalsView.{steps_of};
ghost use Rattle.sp_check_heads.specs.Formals.{
  own_list,
  outer_list,
  outer_length,
  is_name,
  is_name_form,
  own_steps,
  form_steps,
};

use crate::parameters::{formals_checked, is_alone, told_types};
use sp_base_checked::{CheckError, fault};
use sp_check_env::Env;
use sp_check_scopes::Scope;
use sp_check_type_names::Derivation;
use sp_expr_check::{check_length, check_list};
use sp_parse_trees::{Declarator, DeclaratorForm, Expr, Param};
use sp_tree::{FaultKind, Names, Place};
use std::alloc::Global;

/// What the parts of a declarator derive, from the name outwards, the numbers of the formals, and
/// their scope.
#[derive(Drop)]
pub(crate) struct Steps {
    pub steps: Vec<Derivation>,
    pub formals: Vec<u32>,
    pub scope: Scope,
}

/// The list next to the name of a function, whose scope is set aside behind it.
fn own_list(
    alloc: Global,
    env: &mut Env,
    names: &Names,
    place: Place,
    params: &[Param],
    variadic: bool,
) -> Result<Steps, CheckError>
    ensures { AnswersIn steps_of
        (own_list names.now (env_of env.old) place (params_seen (map param_of params.now))
        variadic)
        (env_of env.new) result }
{
    env.enter_list(alloc)?;
    let read = formals_checked(alloc, env, names, is_alone(params, variadic), params)?;
    let told = told_types(params, read.types);
    let mut steps = Vec::new(alloc);
    steps.push(Derivation::Function(told, variadic, place))?;
    Ok(Steps {
        steps,
        formals: read.formals,
        scope: env.set_aside(alloc),
    })
}

/// A list further out, in a scope of its own; `form` is the form that has it.
fn outer_list(
    alloc: Global,
    env: &mut Env,
    names: &Names,
    place: Place,
    form: &DeclaratorForm,
    variadic: bool,
    mut all: Steps,
) -> Result<Steps, CheckError>
    ensures { AnswersIn steps_of
        (outer_list names.now place (declarator_form_of form.now) variadic
        (steps_of all, env_of env.old))
        (env_of env.new) result }
{
    let told = check_list(alloc, env, form, names)?;
    all.steps.push(Derivation::Function(told, variadic, place))?;
    Ok(all)
}

/// An array further out, of this length.
fn outer_array(
    alloc: Global,
    env: &mut Env,
    names: &Names,
    place: Place,
    length: &Expr,
    mut all: Steps,
) -> Result<Steps, CheckError>
    ensures { AnswersIn steps_of
        (outer_length names.now place (some_expression (tree_of length.now))
        (steps_of all, env_of env.old))
        (env_of env.new) result }
{
    let length = check_length(alloc, env, length, names)?;
    all.steps.push(Derivation::Array(Some(length), place))?;
    Ok(all)
}

/// Whether a declarator is a name, between parentheses or without.
#[cycle(name)]
fn is_name(declarator: &Declarator) -> bool
    ensures { result ≡ is_name (declarator_of declarator.now) }
{
    is_name_form(&declarator.form)
}

#[cycle(name)]
fn is_name_form(form: &DeclaratorForm) -> bool
    ensures { result ≡ is_name_form (declarator_form_of form.now) }
{
    match form {
        DeclaratorForm::Name(_) => true,
        DeclaratorForm::Paren(inner) => is_name(inner),
        DeclaratorForm::Absent
        | DeclaratorForm::Pointer(_, _)
        | DeclaratorForm::Array(_, _)
        | DeclaratorForm::Function(_, _, _) => false,
    }
}

/// What the declarator of a definition derives; `at` is the place of the whole.
#[cycle(steps)]
pub(crate) fn own_steps(
    alloc: Global,
    declarator: &Declarator,
    env: &mut Env,
    names: &Names,
    at: Place,
) -> Result<Steps, CheckError>
    ensures { AnswersIn steps_of
        (own_steps names.now (env_of env.old) at (declarator_of declarator.now))
        (env_of env.new) result }
{
    form_steps(alloc, &declarator.form, env, names, at, declarator.place)
}

#[cycle(steps)]
fn form_steps(
    alloc: Global,
    form: &DeclaratorForm,
    env: &mut Env,
    names: &Names,
    at: Place,
    place: Place,
) -> Result<Steps, CheckError>
    ensures { AnswersIn steps_of
        (form_steps names.now (env_of env.old) at place (declarator_form_of form.now))
        (env_of env.new) result }
{
    match form {
        DeclaratorForm::Paren(inner) => own_steps(alloc, inner, env, names, at),
        DeclaratorForm::Pointer(_, inner) => {
            let mut all = own_steps(alloc, inner, env, names, at)?;
            all.steps.push(Derivation::Pointer)?;
            Ok(all)
        }
        DeclaratorForm::Function(inner, params, variadic) => {
            if is_name(inner) {
                own_list(alloc, env, names, place, params, *variadic)
            } else {
                let all = own_steps(alloc, inner, env, names, at)?;
                outer_list(alloc, env, names, place, form, *variadic, all)
            }
        }
        DeclaratorForm::Array(inner, None) => {
            let mut all = own_steps(alloc, inner, env, names, at)?;
            all.steps.push(Derivation::Array(None, place))?;
            Ok(all)
        }
        DeclaratorForm::Array(inner, Some(length)) => {
            let all = own_steps(alloc, inner, env, names, at)?;
            outer_array(alloc, env, names, place, length, all)
        }
        DeclaratorForm::Absent | DeclaratorForm::Name(_) => fault(FaultKind::BadOperand, at),
    }
}
