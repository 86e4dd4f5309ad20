//! The calls from above, each outside the cycle of the walk.
ghost use Rattle.sp_parse_trees.specs.View.{tree_of, declarator_of, specifiers_of};
ghost use Rattle.sp_types.specs.View.{type_of};
ghost use Rattle.sp_types.specs.TypedView.{boxed_of};
ghost use Rattle.sp_base_checked.specs.Answers.{AnswersIn};
ghost use Rattle.sp_check_env.specs.Views.{env_of};
ghost use Rattle.sp_check_expr_steps.specs.Expressions.{
  value_checked,
  declared_type,
  specifiers_checked,
  length_checked,
  list_checked,
};
ghost use Rattle.sp_check_expr_steps.specs.SyntaxView.{declarator_form_of};
ghost use Rattle.sp_check_type_names.specs.DerivationView.{parameters_seen};

use crate::expressions::{
    declared_type, length_checked, list_checked, specifiers_checked, value_checked,
};
use sp_base_checked::CheckError;
use sp_check_env::Env;
use sp_parse_trees::{Declarator, DeclaratorForm, Expr, Specifier};
use sp_tree::{Names, Place};
use sp_types::{CType, TypedExpr};
use std::alloc::Global;

/// The typed tree of an expression's value, or its fault. `names` tells the bytes of each name.
///
/// Strings, constants and functions declared by a call go to the tables in the order of the text.
/// After a refusal the environment isn't used again.
pub fn check_expression(
    alloc: Global,
    env: &mut Env,
    expr: &Expr,
    names: &Names,
) -> Result<Box<TypedExpr>, CheckError>
    ensures { AnswersIn boxed_of
        (value_checked names.now (env_of env.old) (tree_of expr.now)) (env_of env.new) result }
{
    value_checked(alloc, env, names, expr)
}

/// The type that specifiers name, or their fault. `alone` says that no declarator follows, so that
/// `struct s;` declares a tag of the innermost scope. `at` is the place of what they stand in, at which
/// UndeclaredName stands where a name of a type is none here.
///
/// The tags, structs and enumeration constants that they declare go to the environment.
pub fn check_specifiers(
    alloc: Global,
    env: &mut Env,
    specifiers: &[Specifier],
    alone: bool,
    at: Place,
    names: &Names,
) -> Result<CType, CheckError>
    ensures { AnswersIn type_of
        (specifiers_checked names.now (env_of env.old) alone at (specifiers_of specifiers.now))
        (env_of env.new) result }
{
    specifiers_checked(alloc, specifiers, env, names, alone, at)
}

/// The type of a declarator's name, or its fault; the base is the type that its specifiers name.
pub fn check_declarator(
    alloc: Global,
    env: &mut Env,
    base: CType,
    declarator: &Declarator,
    names: &Names,
) -> Result<CType, CheckError>
    ensures { AnswersIn type_of
        (declared_type names.now (env_of env.old) (type_of base) (declarator_of declarator.now))
        (env_of env.new) result }
{
    declared_type(alloc, declarator, env, names, base)
}

/// The length of an array that an expression gives (C90 6.5.4.2), or its fault.
pub fn check_length(
    alloc: Global,
    env: &mut Env,
    length: &Expr,
    names: &Names,
) -> Result<u64, CheckError>
    ensures { AnswersIn (λ n. n)
        (length_checked names.now (env_of env.old) (tree_of length.now)) (env_of env.new) result }
{
    length_checked(alloc, length, env, names)
}

/// The types of the parameters of a declarator of a function, where it tells them (C90 6.5.4.3), or
/// their fault; another form tells none. Their scope is left behind them.
pub fn check_list(
    alloc: Global,
    env: &mut Env,
    form: &DeclaratorForm,
    names: &Names,
) -> Result<Option<Vec<CType>>, CheckError>
    ensures { AnswersIn parameters_seen
        (list_checked names.now (env_of env.old) (declarator_form_of form.now))
        (env_of env.new) result }
{
    list_checked(alloc, form, env, names)
}
