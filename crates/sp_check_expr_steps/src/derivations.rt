//! What a declarator derives, one step behind the other (C90 6.5.4).
ghost use Rattle.std.specs.Prelude.{◌≡◌, [], ◌∷◌, ◌++◌, map, MatchResult, Err, Some};
ghost use Rattle.sp_types.specs.View.{type_of};
ghost use Rattle.sp_base_checked.specs.Answers.{Answers, accepted};
ghost use Rattle.sp_check_env.specs.Views.{env_of};
ghost use Rattle.sp_check_type_names.specs.Derivations.{to_array, to_function, made};
ghost use Rattle.sp_check_type_names.specs.DerivationView.{derivation_of, parameters_seen};

use sp_base_checked::CheckError;
use sp_base_kept::{keeping, pushed};
use sp_check_env::Env;
use sp_check_type_names::{Derivation, made};
use sp_tree::Place;
use sp_types::CType;
use std::alloc::Global;

/// The derivations of a declarator, with one more behind them.
pub fn derived(
    all: Result<Vec<Derivation>, CheckError>,
    next: Derivation,
) -> Result<Vec<Derivation>, CheckError>
    ensures { MatchResult all
        (λ all. Answers (λ ds. map derivation_of ds.items)
        (accepted (map derivation_of all.items ++ derivation_of next ∷ [])) result)
        (λ error. result ≡ Err error) }
{
    let (all, next) = keeping(all, next)?;
    Ok(pushed(all, next)?)
}

/// The derivations with an array of this length behind them (C90 6.5.4.2).
pub fn array_derived(
    all: Vec<Derivation>,
    length: Result<u64, CheckError>,
    place: Place,
) -> Result<Vec<Derivation>, CheckError>
    ensures { MatchResult length
        (λ length. Answers (λ ds. map derivation_of ds.items)
        (accepted (map derivation_of all.items ++ to_array (Some length) place ∷ [])) result)
        (λ error. result ≡ Err error) }
{
    let (length, all) = keeping(length, all)?;
    Ok(pushed(all, Derivation::Array(Some(length), place))?)
}

/// The derivations with a function of these parameters behind them (C90 6.5.4.3).
pub fn function_derived(
    all: Vec<Derivation>,
    params: Result<Option<Vec<CType>>, CheckError>,
    variadic: bool,
    place: Place,
) -> Result<Vec<Derivation>, CheckError>
    ensures { MatchResult params
        (λ params. Answers (λ ds. map derivation_of ds.items)
        (accepted (map derivation_of all.items
        ++ to_function (parameters_seen params) variadic place ∷ [])) result)
        (λ error. result ≡ Err error) }
{
    let (params, all) = keeping(params, all)?;
    Ok(pushed(all, Derivation::Function(params, variadic, place))?)
}

/// The type that the derivations of a declarator at this place make of a base.
pub fn made_of(
    alloc: Global,
    env: &Env,
    place: Place,
    steps: Result<Vec<Derivation>, CheckError>,
    base: CType,
) -> Result<CType, CheckError>
    ensures { MatchResult steps
        (λ steps. Answers type_of (made (env_of env.now).tables.structs place
        (map derivation_of steps.items) (type_of base)) result)
        (λ error. result ≡ Err error) }
{
    let (steps, base) = keeping(steps, base)?;
    made(alloc, env.structs(), place, steps, base)
}
