//! Units.
ghost use Rattle.std.specs.Prelude.{[]};
ghost use Rattle.sp_parse_trees.specs.View.{externals_of};
ghost use Rattle.sp_base_checked.specs.Answers.{Answers};
ghost use Rattle.sp_check_env.specs.Views.{env_of};
ghost use Rattle.sp_base_checked.specs.Units.{checked_unit_of};
ghost use Rattle.sp_decl_check.specs.Units.{unit_told, unit_checked};

use crate::definitions::externals_checked;
use crate::tentative::open_tentative;
use sp_base_checked::{CheckError, CheckedUnit, fault};
use sp_check_env::Env;
use sp_check_mentions::undefined_function;
use sp_parse_trees::{External, Unit};
use sp_tree::{FaultKind, Names};
use std::alloc::Global;

/// What is told at the end of a unit.
fn unit_told(
    alloc: Global,
    env: Env,
    defined: Vec<u32>,
    externals: &[External],
) -> Result<CheckedUnit, CheckError>
    ensures { Answers checked_unit_of
        (unit_told (env_of env) defined.items (externals_of externals.now)) result }
{
    if let Some(place) = open_tentative(&env, externals) {
        return fault(FaultKind::IncompleteType, place);
    }
    let tables = env.finish();
    if let Some(place) = undefined_function(alloc, &tables.objects, &tables.functions)? {
        return fault(FaultKind::BadOperand, place);
    }
    Ok(CheckedUnit {
        structs: tables.structs,
        objects: tables.objects,
        functions: tables.functions,
        constants: tables.constants,
        definitions: defined,
        typings: tables.typings,
    })
}

/// A checked unit, or its fault (C90 6.7). `names` tells the bytes of each name. Each definition of
/// a function is dropped once it is checked, the rest at the end.
pub fn check_unit(alloc: Global, unit: Unit, names: &Names) -> Result<CheckedUnit, CheckError>
    ensures { Answers checked_unit_of
        (unit_checked names.now (externals_of unit.items.items)) result }
{
    let mut externals = unit.items;
    let mut env = Env::new(alloc);
    let defined = externals_checked(alloc, &mut env, names, &mut externals)?;
    unit_told(alloc, env, defined, &externals)
}
