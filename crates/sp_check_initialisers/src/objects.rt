//! Whole initialisers.
ghost use Rattle.std.specs.Prelude.{◌≡◌, IfOk, OnOk, map, []};
ghost use Rattle.sp_parse_trees.specs.View.{tree_of};
ghost use Rattle.sp_types.specs.View.{type_of};
ghost use Rattle.sp_base_checked.specs.Answers.{AnswersIn};
ghost use Rattle.sp_check_env.specs.Views.{env_of};
ghost use Rattle.sp_check_primaries.specs.Literals.{leaf_seen};
ghost use Rattle.sp_check_initialisers.specs.InitView.{init_of, started_of};
ghost use Rattle.sp_check_initialisers.specs.Initialisers.{alone, initialised, with_length, started};

use crate::Target;
use crate::lists::given;
use crate::values::{array_given, is_unmeasured, measured, one_given, struct_given};
use sp_base_checked::{CheckError, fault};
use sp_check_env::Env;
use sp_check_operands::is_complete;
use sp_parse_trees::{Expr, Init};
use sp_tree::{FaultKind, Names};
use sp_types::{CType, TypedExpr};
use std::alloc::{AllocError, Global};

/// The type of an object with its initialiser, and its values.
#[derive(Drop)]
pub struct Started {
    /// The declared type, with a length where it is an array.
    pub of: CType,
    /// The scalar leaves that have a value, in order, each with its value. An automatic struct that
    /// one expression of its type initialises has that expression alone, at number 0.
    pub values: Vec<(u64, TypedExpr)>,
}

/// A whole object by one expression.
fn alone(
    alloc: Global,
    env: &mut Env,
    names: &Names,
    target: Target,
    of: &CType,
    e: &Expr,
) -> Result<Vec<(u64, TypedExpr)>, CheckError>
    ensures { AnswersIn (λ v. map leaf_seen v.items)
        (alone names.now (env_of env.old) target (type_of of.now) (tree_of e.now))
        (env_of env.new) result }
{
    match of {
        CType::Struct(_) => struct_given(alloc, env, names, target, of, e),
        CType::Array(_) => array_given(alloc, env, names, target, of, e),
        CType::Void | CType::Int(_) | CType::Float(_) | CType::Pointer(_) | CType::Function(_) => {
            one_given(alloc, env, names, target, Vec::new(alloc), of, 0, e)
        }
    }
}

fn initialised(
    alloc: Global,
    env: &mut Env,
    names: &Names,
    target: Target,
    of: &CType,
    init: &Init,
) -> Result<Vec<(u64, TypedExpr)>, CheckError>
    ensures { AnswersIn (λ v. map leaf_seen v.items)
        (initialised names.now (env_of env.old) target (type_of of.now) (init_of init.now))
        (env_of env.new) result }
{
    match init {
        Init::One(e) => alone(alloc, env, names, target, of, e),
        Init::List(_, _) => {
            let none = Vec::new(alloc);
            given(alloc, init, env, names, target, none, of.copy(alloc)?, 0)
        }
    }
}

/// Puts the length that an array gets with the constants.
fn with_length(env: &mut Env, before: bool, of: &CType) -> Result<(), AllocError>
    ensures { OnOk result (env_of env.new ≡
        with_length (env_of env.old) before (type_of of.now)) }
{
    match of {
        CType::Array(array) if before => match array.length {
            Some(length) => env.add_constant(length as i128),
            None => Ok(()),
        },
        _ => Ok(()),
    }
}

/// An object of this type with its initialiser: IncompleteType stands at its declarator where its type isn't
/// complete, other than by a length; BadInitialiser at its name where the initialiser doesn't fit it.
pub fn check_initialiser(
    alloc: Global,
    env: &mut Env,
    names: &Names,
    target: Target,
    of: CType,
    init: &Init,
) -> Result<Started, CheckError>
    ensures { AnswersIn started_of
        (started names.now (env_of env.old) target (type_of of) (init_of init.now))
        (env_of env.new) result }
{
    let unmeasured = is_unmeasured(&of);
    if !unmeasured && !is_complete(&of, env.structs()) {
        return fault(FaultKind::IncompleteType, target.declarator);
    }
    let values = initialised(alloc, env, names, target, &of, init)?;
    let of = measured(alloc, env.structs(), target.declarator, &values, of)?;
    with_length(env, unmeasured, &of)?;
    Ok(Started { of, values })
}
