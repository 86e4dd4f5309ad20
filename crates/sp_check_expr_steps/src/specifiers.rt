//! What a struct, a member or an enumeration constant does once its parts are read (C90 6.5.2).
ghost use Rattle.std.specs.Prelude.{◌≡◌, map, MatchResult, Err};
ghost use Rattle.sp_parse_trees.specs.View.{
  specifier_of,
  declarator_of,
  param_of,
  params as params_seen,
};
ghost use Rattle.sp_types.specs.TypedView.{typed_of};
ghost use Rattle.sp_types.specs.View.{type_of, struct_of};
ghost use Rattle.sp_types.specs.Types.{structure};
ghost use Rattle.sp_base_checked.specs.Answers.{AnswersIn, accepted, and_then};
ghost use Rattle.sp_check_operands.specs.Balances.{members_seen};
ghost use Rattle.sp_check_env.specs.Declaring.{LeadsTo};
ghost use Rattle.sp_check_env.specs.Views.{env_of};
ghost use Rattle.sp_check_type_names.specs.DerivationView.{parameters_seen};
ghost use Rattle.sp_check_expr_steps.specs.Parameters.{
  params_of,
  is_alone,
  is_alone_in,
  told_types,
  list_told,
  param_told,
};
ghost use Rattle.sp_check_members.specs.Members.{completed};
ghost use Rattle.sp_check_expr_steps.specs.SyntaxView.{declarator_form_of};
ghost use Rattle.sp_check_expr_steps.specs.Specifiers.{
  stays,
  names_type,
  struct_opened,
  member_added,
  enumerator_told,
};

use sp_base_checked::{CheckError, fault};
use sp_check_constants::constant;
use sp_check_env::Env;
use sp_check_members::{
    MemberList, adjusted, begun, completed, declared_name, enumerator, is_open, named_parameter,
};
use sp_check_operands::{is_complete, is_void};
use sp_check_type_names::{struct_at, tag_found};
use sp_parse_trees::{Declarator, DeclaratorForm, Param, Specifier};
use sp_tree::{FaultKind, Place};
use sp_types::{CType, StructType, TypedExpr};
use std::alloc::Global;

/// Whether a specifier names a type: it is no storage class and no qualifier.
pub fn names_type(specifier: &Specifier) -> bool
    ensures { result ≡ names_type (specifier_of specifier.now) }
{
    match specifier {
        Specifier::Storage(_) | Specifier::Qualifier(_) => false,
        Specifier::Basic(_) | Specifier::Named(_) | Specifier::Struct(_) | Specifier::Enum(_) =>
            true,
    }
}

/// The number of the struct or the union whose members are about to be read: OtherTagKind where its tag is
/// of another kind, or where the innermost scope has its members already, or is reading them.
pub fn struct_opened(
    env: &mut Env,
    union: bool,
    tag: Option<u32>,
    place: Place,
) -> Result<u32, CheckError>
    ensures { AnswersIn (λ k. k) (struct_opened (env_of env.old) union tag place)
        (env_of env.new) result }
{
    let found = tag_found(env, true, tag);
    let number = struct_at(env, union, tag, place, found)?;
    if !is_open(env, number) {
        return fault(FaultKind::OtherTagKind, place);
    }
    begun(env, number, tag, union);
    Ok(number)
}

/// The struct or the union of this number with its members, which are read: `place` is that of its
/// specifier.
pub fn struct_closed(
    env: &mut Env,
    number: u32,
    union: bool,
    place: Place,
    members: Result<MemberList, CheckError>,
) -> Result<CType, CheckError>
    ensures { MatchResult members
        (λ members. AnswersIn type_of
        (and_then (completed (env_of env.old) number union place (members_seen members))
        (λ env. accepted (structure number, env))) (env_of env.new) result)
        (λ error. result ≡ Err error) }
{
    completed(env, number, union, place, members?.into_members())?;
    Ok(CType::Struct(number))
}

/// A member of this type behind the others: IncompleteType and BadOperand stand at its declarator where its type
/// isn't complete, or it has no name, RedeclaredName at its name where another member has it.
#[tactic(auto, using(crate::proofs::Places::places))]
fn added(
    structs: &[StructType],
    all: &mut MemberList,
    of: CType,
    declarator: &Declarator,
) -> Result<(), CheckError>
    ensures { LeadsTo
        (member_added (map struct_of structs.now) (members_seen all.old) (type_of of)
        (declarator_of declarator.now)) (members_seen all.new) result }
{
    if !is_complete(&of, structs) {
        return fault(FaultKind::IncompleteType, declarator.place);
    }
    let Some((name, at)) = declared_name(declarator) else {
        return fault(FaultKind::BadOperand, declarator.place);
    };
    if all.has(name) {
        return fault(FaultKind::RedeclaredName, at);
    }
    all.push(name, of)?;
    Ok(())
}

/// A member behind the others, of the type that its declarator gives.
pub fn member_added(
    env: &Env,
    all: &mut MemberList,
    of: Result<CType, CheckError>,
    declarator: &Declarator,
) -> Result<(), CheckError>
    ensures { MatchResult of
        (λ of. LeadsTo
        (stays (env_of env.now) (member_added (env_of env.now).tables.structs
        (members_seen all.old) (type_of of) (declarator_of declarator.now)))
        (members_seen all.new, env_of env.now) result)
        (λ error. result ≡ Err error) }
{
    added(env.structs(), all, of?, declarator)
}

/// An enumeration constant whose value this expression gives; `at` is the place of the expression,
/// `place` that of the name. NotAConstant stands where it is no integer constant.
pub(crate) fn enumerator_told(
    env: &mut Env,
    value: &TypedExpr,
    at: Place,
    name: u32,
    place: Place,
) -> Result<i128, CheckError>
    ensures { AnswersIn (λ z. z)
        (enumerator_told (env_of env.old) (typed_of value.now) at name place)
        (env_of env.new) result }
{
    let Some(value) = constant(value) else {
        return fault(FaultKind::NotAConstant, at);
    };
    enumerator(env, name, place, value)
}

/// Puts the type of a parameter behind the others; a named one is declared in the innermost scope.
#[tactic(auto, using(crate::proofs::Places::places))]
fn param_added(
    alloc: Global,
    env: &mut Env,
    number: u32,
    all: &mut Vec<CType>,
    of: CType,
    declarator: &Declarator,
) -> Result<(), CheckError>
    ensures { LeadsTo
        (param_told (env_of env.old) number (map type_of all.old.items) (type_of of)
        (declarator_of declarator.now))
        (map type_of all.new.items, env_of env.new) result }
{
    let of = adjusted(alloc, of)?;
    if is_void(&of) {
        return fault(FaultKind::IncompleteType, declarator.place);
    }
    let name = declared_name(declarator);
    named_parameter(alloc, env, number, name, of.copy(alloc)?)?;
    all.push(of)?;
    Ok(())
}

/// A parameter behind the others, of the type that its declarator gives.
pub fn param_told(
    alloc: Global,
    env: &mut Env,
    number: u32,
    all: &mut Vec<CType>,
    of: Result<CType, CheckError>,
    declarator: &Declarator,
) -> Result<(), CheckError>
    ensures { MatchResult of
        (λ of. LeadsTo
        (param_told (env_of env.old) number (map type_of all.old.items) (type_of of)
        (declarator_of declarator.now))
        (map type_of all.new.items, env_of env.new) result)
        (λ error. result ≡ Err error) }
{
    param_added(alloc, env, number, all, of?, declarator)
}

/// Whether a list has one parameter, and no `...`.
#[tactic(auto, using(crate::proofs::Lists::lists))]
fn is_alone(params: &[Param], variadic: bool) -> bool
    ensures { result ≡ is_alone (params_seen (map param_of params.now)) variadic }
{
    params.len() == 1 && !variadic
}

/// Whether the declarator of a function has one parameter, and no `...`.
pub fn is_alone_in(form: &DeclaratorForm) -> bool
    ensures { result ≡ is_alone_in (declarator_form_of form.now) }
{
    match form {
        DeclaratorForm::Function(_, params, variadic) => is_alone(params, *variadic),
        DeclaratorForm::Absent
        | DeclaratorForm::Name(_)
        | DeclaratorForm::Paren(_)
        | DeclaratorForm::Pointer(_, _)
        | DeclaratorForm::Array(_, _) => false,
    }
}

/// The types of these parameters: a list without any tells nothing.
#[tactic(auto, using(crate::proofs::Lists::lists))]
fn told(params: &[Param], all: Vec<CType>) -> Option<Vec<CType>>
    ensures { parameters_seen result ≡
        told_types (params_seen (map param_of params.now)) (map type_of all.items) }
{
    if params.is_empty() { None } else { Some(all) }
}

/// The types of the parameters of a declarator of a function.
fn told_types(form: &DeclaratorForm, all: Vec<CType>) -> Option<Vec<CType>>
    ensures { parameters_seen result ≡
        told_types (params_of (declarator_form_of form.now)) (map type_of all.items) }
{
    match form {
        DeclaratorForm::Function(_, params, _) => told(params, all),
        DeclaratorForm::Absent
        | DeclaratorForm::Name(_)
        | DeclaratorForm::Paren(_)
        | DeclaratorForm::Pointer(_, _)
        | DeclaratorForm::Array(_, _) => None,
    }
}

/// The types of the parameters of a declarator of a function, whose scope ends.
pub fn list_told(
    env: &mut Env,
    form: &DeclaratorForm,
    all: Result<Vec<CType>, CheckError>,
) -> Result<Option<Vec<CType>>, CheckError>
    ensures { MatchResult all
        (λ all. AnswersIn parameters_seen
        (list_told (params_of (declarator_form_of form.now)) (map type_of all.items)
        (env_of env.old))
        (env_of env.new) result)
        (λ error. result ≡ Err error) }
{
    let all = all?;
    env.leave();
    Ok(told_types(form, all))
}
