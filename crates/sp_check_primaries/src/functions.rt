//! Declarations of functions, and the linkage of names (C90 6.1.2.2, 6.5.4.3).
ghost use Rattle.std.specs.Prelude.{◌≡◌, IfOk, OnOk, option_map, slice_get};
ghost use Rattle.std.specs.Option.{option_copied};
ghost use Rattle.sp_types.specs.Compatible.{compatible};
ghost use Rattle.sp_types.specs.Types.{function};
ghost use Rattle.sp_types.specs.View.{type_of, shared_signature_of};
ghost use Rattle.sp_base_checked.specs.Answers.{Answers, AnswersIn};
ghost use Rattle.sp_check_scopes.specs.Meanings.{meaning_of};
ghost use Rattle.sp_check_env.specs.Env.{function_type};
ghost use Rattle.sp_check_env.specs.Views.{env_of};
ghost use Rattle.sp_check_primaries.specs.Functions.{
  extern_linkage,
  linkage_of,
  is_same_linkage,
  is_retyped,
  retyped,
  as_function,
  joined_type,
  function_added,
  function_joined,
  function_declared,
};

use crate::composite_signature;
use sp_base_checked::{CheckError, fault};
use sp_check_env::{Entity, Env};
use sp_check_scopes::Meaning;
use sp_tree::{FaultKind, Place};
use sp_types::{CType, FunctionDef, Linkage, Signature, compatible, same};
use std::alloc::{AllocError, Global};
use std::rc::Rc;

/// The linkage that `extern` gives a name, and a function without a storage class: that of the
/// visible declaration, where it has one, else external (C90 6.1.2.2).
pub fn extern_linkage(env: &Env, name: u32) -> Linkage
    ensures { result ≡ extern_linkage (env_of env.now) name }
{
    match linkage_of(env, env.find(name)) {
        Some(Linkage::Internal) => Linkage::Internal,
        _ => Linkage::External,
    }
}

fn linkage_of(env: &Env, meaning: Option<&Meaning>) -> Option<Linkage>
    ensures { result ≡
        linkage_of (env_of env.now) (option_map meaning_of (option_copied meaning.entry)) }
{
    match meaning {
        Some(Meaning::Object(number)) => env.object_linkage(*number),
        Some(Meaning::Function(number)) => env.function_linkage(*number),
        _ => None,
    }
}

fn is_same_linkage(left: Linkage, right: Linkage) -> bool
    ensures { result ≡ is_same_linkage left right }
{
    left == right
}

/// A declaration of a function in the innermost block, or in the file, and the number of its entry: a
/// list of parameters is no block. `place` is that of the name. It is RedeclaredName where the unit has the name
/// with another linkage, as an object, or with a type that isn't compatible, or where the scope has
/// the name as something else.
pub fn function_declared(
    alloc: Global,
    env: &mut Env,
    name: u32,
    linkage: Linkage,
    of: Rc<Signature>,
    place: Place,
) -> Result<u32, CheckError>
    ensures { AnswersIn (λ k. k)
        (function_declared (env_of env.old) name linkage (shared_signature_of of) place)
        (env_of env.new) result }
{
    match env.linked(name) {
        None => function_added(alloc, env, name, linkage, of, place),
        Some(Entity::Function(number)) => {
            function_joined(alloc, env, name, linkage, &of, place, number)
        }
        Some(Entity::Object(_)) => fault(FaultKind::RedeclaredName, place),
    }
}

/// The first declaration of a function in its unit.
fn function_added(
    alloc: Global,
    env: &mut Env,
    name: u32,
    linkage: Linkage,
    of: Rc<Signature>,
    place: Place,
) -> Result<u32, CheckError>
    ensures { AnswersIn (λ k. k)
        (function_added (env_of env.old) name linkage (shared_signature_of of) place)
        (env_of env.new) result }
{
    let typing = CType::Function(of.clone()?);
    let number = env.add_function(FunctionDef {
        name,
        of,
        linkage,
        formals: Vec::new(alloc),
        locals: Vec::new(alloc),
        body: None,
        place,
        end: place,
    })?;
    env.link(name, Entity::Function(number))?;
    env.add_typing(linkage, name, typing, place)?;
    env.declare_in_block(name, Meaning::Function(number), place)?;
    Ok(number)
}

/// Whether a further declarator gives a name another type than it had.
pub fn is_retyped(old: Option<&CType>, of: &CType) -> bool
    ensures { result ≡
        is_retyped (option_map type_of (option_copied old.entry)) (type_of of.now) }
{
    match old {
        None => true,
        Some(old) => !same(old, of),
    }
}

/// Tells that a name has this type behind a declarator, where it changed.
pub fn retype(
    env: &mut Env,
    changed: bool,
    linkage: Linkage,
    name: u32,
    of: CType,
    place: Place,
) -> Result<(), AllocError>
    ensures { OnOk result (env_of env.new ≡
        retyped (env_of env.old) changed linkage name (type_of of) place) }
{
    if changed {
        env.add_typing(linkage, name, of, place)?;
    }
    Ok(())
}

/// Whether a further declarator gives a function another type than it had.
fn is_function_retyped(env: &Env, number: u32, of: &CType) -> Result<bool, AllocError>
    ensures { IfOk result (λ b. b ≡
        is_retyped
        (as_function (function_type (slice_get (env_of env.now).tables.functions number)))
        (type_of of.now)) }
{
    match env.function_type(number) {
        None => Ok(is_retyped(None, of)),
        Some(old) => {
            let old = CType::Function(old.clone()?);
            Ok(is_retyped(Some(&old), of))
        }
    }
}

/// Tells the type that a function takes by a further declarator, where it is another one.
fn retype_function(
    env: &mut Env,
    name: u32,
    linkage: Linkage,
    of: &Rc<Signature>,
    place: Place,
    number: u32,
) -> Result<(), AllocError>
    ensures { let t = function (shared_signature_of of.now) in OnOk result (env_of env.new ≡
        retyped (env_of env.old)
        (is_retyped
        (as_function (function_type (slice_get (env_of env.old).tables.functions number)))
        t)
        linkage name t place) }
{
    let of = CType::Function(of.clone()?);
    let changed = is_function_retyped(env, number, &of)?;
    retype(env, changed, linkage, name, of, place)
}

/// A further declaration of a function.
fn function_joined(
    alloc: Global,
    env: &mut Env,
    name: u32,
    linkage: Linkage,
    of: &Rc<Signature>,
    place: Place,
    number: u32,
) -> Result<u32, CheckError>
    ensures { AnswersIn (λ k. k)
        (function_joined (env_of env.old) name linkage (shared_signature_of of.now) place number)
        (env_of env.new) result }
{
    let of = joined_type(alloc, env, linkage, of, place, number)?;
    retype_function(env, name, linkage, &of, place, number)?;
    env.set_function_type(number, of);
    env.declare_in_block(name, Meaning::Function(number), place)?;
    Ok(number)
}

/// The type of a function with a further declaration.
fn joined_type(
    alloc: Global,
    env: &Env,
    linkage: Linkage,
    of: &Rc<Signature>,
    place: Place,
    number: u32,
) -> Result<Rc<Signature>, CheckError>
    ensures { Answers shared_signature_of
        (joined_type (env_of env.now) linkage (shared_signature_of of.now) place number) result }
{
    let Some(old_linkage) = env.function_linkage(number) else {
        return fault(FaultKind::RedeclaredName, place);
    };
    let Some(old) = env.function_type(number) else {
        return fault(FaultKind::RedeclaredName, place);
    };
    let agree = are_compatible(old, of)?;
    if !(is_same_linkage(old_linkage, linkage) && agree) {
        return fault(FaultKind::RedeclaredName, place);
    }
    let joined = composite_signature(alloc, old, of)?;
    Ok(Rc::new(alloc, joined)?)
}

/// Whether two functions have compatible types.
fn are_compatible(left: &Rc<Signature>, right: &Rc<Signature>) -> Result<bool, AllocError>
    ensures { IfOk result (λ agree. agree ≡
        compatible (function (shared_signature_of left.now))
        (function (shared_signature_of right.now))) }
{
    let left = CType::Function(left.clone()?);
    let right = CType::Function(right.clone()?);
    Ok(compatible(&left, &right))
}
