//! The parameters of a definition (C90 6.5.4.3, 6.7.1).
ghost use Rattle.std.specs.Prelude.{◌≡◌, map};
ghost use Rattle.sp_parse_trees.specs.View.{param_of, params as params_seen, declarator_of};
ghost use Rattle.sp_types.specs.View.{type_of};
ghost use Rattle.sp_base_checked.specs.Answers.{AnswersIn};
ghost use Rattle.sp_check_env.specs.Views.{env_of};
ghost use Rattle.sp_expr_check.specs.Parameters.{is_alone, told_types};
ghost use Rattle.sp_check_type_names.specs.DerivationView.{parameters_seen};
ghost use Rattle.sp_check_heads.specs.FormalsView.{read_of};
ghost use Rattle.sp_check_heads.specs.Formals.{formal_told, formal_checked, formals_checked, no_parameters};

use sp_base_checked::{CheckError, fault};
use sp_check_env::Env;
use sp_check_members::{
    adjusted, declared_name, has_parameter_storage, is_lone_void, named_parameter, reserved,
};
use sp_check_operands::{is_complete, is_floating, is_void};
use sp_expr_check::{check_declarator, check_specifiers};
use sp_parse_trees::{Declarator, Param};
use sp_tree::{FaultKind, Names};
use sp_types::CType;
use std::alloc::Global;

/// The types of parameters that are read, and the numbers of the formals.
#[derive(Drop)]
pub(crate) struct Read {
    pub types: Vec<CType>,
    pub formals: Vec<u32>,
}

/// Puts a parameter of a definition behind the others, and declares it: BadOperand stands at its
/// declarator where it has no name, FloatingType at its name where it is floating, IncompleteType at its declarator
/// where its type isn't complete.
#[tactic(auto, using(crate::proofs::Places::places))]
fn formal_told(
    alloc: Global,
    env: &mut Env,
    number: u32,
    mut read: Read,
    of: CType,
    declarator: &Declarator,
) -> Result<Read, CheckError>
    ensures { AnswersIn read_of
        (formal_told (env_of env.old) number (read_of read) (type_of of)
        (declarator_of declarator.now))
        (env_of env.new) result }
{
    let at = declarator.place;
    let of = adjusted(alloc, of)?;
    if is_void(&of) {
        return fault(FaultKind::IncompleteType, at);
    }
    let Some(name) = declared_name(declarator) else {
        return fault(FaultKind::BadOperand, at);
    };
    if is_floating(&of) {
        return fault(FaultKind::FloatingType, name.1);
    }
    if !is_complete(&of, env.structs()) {
        return fault(FaultKind::IncompleteType, at);
    }
    named_parameter(alloc, env, number, Some(name), of.copy(alloc)?)?;
    read.types.push(of)?;
    read.formals.push(number)?;
    Ok(read)
}

/// A parameter of a definition, behind those that are read.
#[tactic(auto, using(crate::proofs::Places::places))]
fn formal_checked(
    alloc: Global,
    env: &mut Env,
    names: &Names,
    alone: bool,
    read: Read,
    param: &Param,
) -> Result<Read, CheckError>
    ensures { AnswersIn read_of
        (formal_checked names.now (env_of env.old) alone (read_of read) (param_of param.now))
        (env_of env.new) result }
{
    let at = param.declarator.place;
    if !has_parameter_storage(&param.specifiers) {
        return fault(FaultKind::BadOperand, at);
    }
    let name = declared_name(&param.declarator);
    let number = reserved(alloc, env, name)?;
    let base = check_specifiers(alloc, env, &param.specifiers, false, at, names)?;
    if alone && is_lone_void(&base, &param.declarator) {
        return Ok(read);
    }
    let of = check_declarator(alloc, env, base, &param.declarator, names)?;
    formal_told(alloc, env, number, read, of, &param.declarator)
}

/// The parameters of a definition, in their scope.
pub(crate) fn formals_checked(
    alloc: Global,
    env: &mut Env,
    names: &Names,
    alone: bool,
    params: &[Param],
) -> Result<Read, CheckError>
    ensures { AnswersIn read_of
        (formals_checked names.now (env_of env.old) alone no_parameters
        (params_seen (map param_of params.now)))
        (env_of env.new) result }
{
    let mut read = Read {
        types: Vec::new(alloc),
        formals: Vec::new(alloc),
    };
    'params: for (i, param) in params.iter().enumerate() {
        read = formal_checked(alloc, env, names, alone, read, param)?;
    }
    Ok(read)
}

/// Whether a list has one parameter, and no `...`.
#[tactic(auto, using(crate::proofs::Lists::lists))]
pub(crate) fn is_alone(params: &[Param], variadic: bool) -> bool
    ensures { result ≡ is_alone (params_seen (map param_of params.now)) variadic }
{
    params.len() == 1 && !variadic
}

/// The types of these parameters: a list without any tells nothing.
#[tactic(auto, using(crate::proofs::Lists::lists))]
pub(crate) fn told_types(params: &[Param], all: Vec<CType>) -> Option<Vec<CType>>
    ensures { parameters_seen result ≡
        told_types (params_seen (map param_of params.now)) (map type_of all.items) }
{
    if params.is_empty() { None } else { Some(all) }
}
