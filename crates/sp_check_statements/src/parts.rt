//! The parts of statements that are no statements.
ghost use Rattle.std.specs.Prelude.{[], map, option_map};
ghost use Rattle.sp_parse_trees.specs.View.{tree_of, optional, declaration_of, declarations};
ghost use Rattle.sp_types.specs.TypedView.{boxed_of};
ghost use Rattle.sp_base_checked.specs.Answers.{AnswersIn};
ghost use Rattle.sp_check_env.specs.Views.{env_of};
ghost use Rattle.sp_check_statement_rules.specs.View.{around_of};
ghost use Rattle.sp_check_statements.specs.Parts as parts;

use sp_base_checked::CheckError;
use sp_check_declarations::check_declaration;
use sp_check_env::Env;
use sp_check_statement_rules::{Around, condition, returned, switch_value};
use sp_expr_check::check_expression;
use sp_parse_trees::{Declaration, Expr};
use sp_tree::Names;
use sp_types::TypedExpr;
use std::alloc::Global;

/// The condition of an `if` or a loop.
#[tactic(auto, using(crate::proofs::Places::places))]
pub(crate) fn condition_checked(
    alloc: Global,
    env: &mut Env,
    names: &Names,
    e: &Expr,
) -> Result<Box<TypedExpr>, CheckError>
    ensures { AnswersIn boxed_of
        (parts.condition_checked names.now (env_of env.old) (tree_of e.now)) (env_of env.new)
        result }
{
    let value = check_expression(alloc, env, e, names)?;
    condition(e.place, value)
}

/// The value of a switch, promoted.
#[tactic(auto, using(crate::proofs::Places::places))]
pub(crate) fn switch_checked(
    alloc: Global,
    env: &mut Env,
    names: &Names,
    e: &Expr,
) -> Result<Box<TypedExpr>, CheckError>
    ensures { AnswersIn boxed_of
        (parts.switch_checked names.now (env_of env.old) (tree_of e.now)) (env_of env.new)
        result }
{
    let value = check_expression(alloc, env, e, names)?;
    switch_value(alloc, e.place, value)
}

/// An expression of a `for`, where it is there.
pub(crate) fn maybe_checked(
    alloc: Global,
    env: &mut Env,
    names: &Names,
    e: &Option<Expr>,
) -> Result<Option<Box<TypedExpr>>, CheckError>
    ensures { AnswersIn (option_map boxed_of)
        (parts.maybe_checked names.now (env_of env.old) (optional e.now)) (env_of env.new) result }
{
    match e {
        Some(e) => Ok(Some(check_expression(alloc, env, e, names)?)),
        None => Ok(None),
    }
}

/// The condition of a `for`, where it is there.
pub(crate) fn maybe_condition(
    alloc: Global,
    env: &mut Env,
    names: &Names,
    e: &Option<Expr>,
) -> Result<Option<Box<TypedExpr>>, CheckError>
    ensures { AnswersIn (option_map boxed_of)
        (parts.maybe_condition names.now (env_of env.old) (optional e.now)) (env_of env.new)
        result }
{
    match e {
        Some(e) => Ok(Some(condition_checked(alloc, env, names, e)?)),
        None => Ok(None),
    }
}

/// What is returned, where a value is given.
#[tactic(auto, using(crate::proofs::Places::places))]
pub(crate) fn maybe_returned(
    alloc: Global,
    env: &mut Env,
    names: &Names,
    around: &Around<'_>,
    e: &Option<Expr>,
) -> Result<Option<Box<TypedExpr>>, CheckError>
    ensures { AnswersIn (option_map boxed_of)
        (parts.maybe_returned names.now (env_of env.old) (around_of around.now) (optional e.now))
        (env_of env.new) result }
{
    match e {
        Some(e) => {
            let value = check_expression(alloc, env, e, names)?;
            Ok(Some(returned(alloc, around, e.place, value)?))
        }
        None => Ok(None),
    }
}

/// The objects that the declarations of a block declare.
pub(crate) fn declarations_checked(
    alloc: Global,
    env: &mut Env,
    names: &Names,
    written: &[Declaration],
) -> Result<Vec<u32>, CheckError>
    ensures { AnswersIn (λ ns. ns.items)
        (parts.declarations_checked names.now (env_of env.old) []
        (declarations (map declaration_of written.now)))
        (env_of env.new) result }
{
    let mut all = Vec::new(alloc);
    'declarations: for (i, declaration) in written.iter().enumerate() {
        all = with_declaration(alloc, env, names, all, declaration)?;
    }
    Ok(all)
}

/// The objects of a declaration, behind those that are read.
fn with_declaration(
    alloc: Global,
    env: &mut Env,
    names: &Names,
    mut all: Vec<u32>,
    declaration: &Declaration,
) -> Result<Vec<u32>, CheckError>
    ensures { AnswersIn (λ ns. ns.items)
        (parts.one_declaration names.now (env_of env.old) all.items
        (declaration_of declaration.now))
        (env_of env.new) result }
{
    let objects = check_declaration(alloc, env, declaration, names)?;
    all.extend_from_slice(&objects)?;
    Ok(all)
}
