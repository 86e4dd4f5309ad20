//! Initialisers between braces: their values go to the parts in order.
ghost use Rattle.std.specs.Prelude.{◌≡◌, map};
ghost use Rattle.sp_types.specs.View.{type_of};
ghost use Rattle.sp_base_checked.specs.Answers.{AnswersIn};
ghost use Rattle.sp_check_env.specs.Views.{env_of};
ghost use Rattle.sp_check_primaries.specs.Literals.{leaf_seen};
ghost use Rattle.sp_check_initialisers.specs.InitView.{init_of, progress_of};
ghost use Rattle.sp_check_initialisers.specs.Initialisers.{given, filled, next_filled, inits_of};

use crate::Target;
use crate::runs::{Part, Run, taken, with_parts};
use crate::strings::{string_added, string_for};
use crate::values::{is_aggregate, one_given, only_given};
use sp_base_checked::CheckError;
use sp_check_env::Env;
use sp_parse_trees::Init;
use sp_tree::Names;
use sp_types::{CType, TypedExpr};
use std::alloc::Global;

/// What is still to be initialised, the innermost run last, and the values that are given.
#[derive(Drop)]
pub(crate) struct Progress {
    pub runs: Vec<Run>,
    pub values: Vec<(u64, TypedExpr)>,
}

/// An initialiser for a part of this type whose first leaf this is: its values behind the others.
#[cycle(lists)]
pub(crate) fn given(
    alloc: Global,
    init: &Init,
    env: &mut Env,
    names: &Names,
    target: Target,
    all: Vec<(u64, TypedExpr)>,
    of: CType,
    from: u64,
) -> Result<Vec<(u64, TypedExpr)>, CheckError>
    ensures { AnswersIn (λ v. map leaf_seen v.items)
        (given names.now (env_of env.old) target (map leaf_seen all.items) (type_of of)
        from (init_of init.now))
        (env_of env.new) result }
{
    match init {
        Init::One(e) => one_given(alloc, env, names, target, all, &of, from, e),
        Init::List(list, _) => {
            if let Some(text) = string_for(&of, init) {
                string_added(alloc, names, all, &of, from, target.name, text)
            } else if is_aggregate(&of) {
                let runs = with_parts(alloc, env.structs(), Vec::new(alloc), &of, from)?;
                let progress = Progress { runs, values: all };
                filled(alloc, init, env, names, target, progress)
            } else {
                only_given(alloc, env, names, target, all, &of, from, list)
            }
        }
    }
}

/// The values of a list, behind those that are given.
#[cycle(lists)]
fn filled(
    alloc: Global,
    init: &Init,
    env: &mut Env,
    names: &Names,
    target: Target,
    mut progress: Progress,
) -> Result<Vec<(u64, TypedExpr)>, CheckError>
    ensures { AnswersIn (λ v. map leaf_seen v.items)
        (filled names.now (env_of env.old) target (progress_of progress)
        (inits_of (init_of init.now)))
        (env_of env.new) result }
{
    let Init::List(list, _) = init else {
        return Ok(progress.values);
    };
    'inits: for (i, next) in list.iter().enumerate() {
        progress = next_filled(alloc, next, env, names, target, progress)?;
    }
    Ok(progress.values)
}

/// The values of the next initialiser of a list.
#[cycle(lists)]
fn next_filled(
    alloc: Global,
    init: &Init,
    env: &mut Env,
    names: &Names,
    target: Target,
    progress: Progress,
) -> Result<Progress, CheckError>
    ensures { AnswersIn progress_of
        (next_filled names.now (env_of env.old) target (progress_of progress) (init_of init.now))
        (env_of env.new) result }
{
    let Progress { runs, values } = progress;
    let Part { of, from, behind } = taken(alloc, env.structs(), target.name, runs, init)?;
    let values = given(alloc, init, env, names, target, values, of, from)?;
    Ok(Progress {
        runs: behind,
        values,
    })
}
