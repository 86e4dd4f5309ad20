//! A declarator of an object, with its initialiser (C90 6.5, 6.5.7, 6.7.2).
ghost use Rattle.std.specs.Prelude.{◌≡◌, IfOk};
ghost use Rattle.sp_parse_trees.specs.View.{declarator_of};
ghost use Rattle.sp_types.specs.View.{type_of};
ghost use Rattle.sp_base_checked.specs.Answers.{AnswersIn};
ghost use Rattle.sp_check_env.specs.Declaring.{LeadsTo};
ghost use Rattle.sp_check_env.specs.Views.{env_of};
ghost use Rattle.sp_check_initialisers.specs.InitView.{init_of};
ghost use Rattle.sp_check_declarations.specs.ItemView.{start_of};
ghost use Rattle.sp_check_declarations.specs.Declarations.{
  may_define,
  object_valued,
  object_finished,
  with_number,
  object_told,
  object_at,
  object_checked,
};

use crate::words::{is_floating_array, is_given};
use sp_base_checked::{CheckError, fault};
use sp_check_env::{Entity, Env};
use sp_check_initialisers::{Target, check_initialiser, is_static_storage};
use sp_check_objects::{
    entry_for, has_linkage, is_outside, linkage_for, object_declared, object_reserved,
    object_unvalued, storage_for,
};
use sp_expr_check::check_declarator;
use sp_parse_trees::{Declarator, Init};
use sp_tree::{FaultKind, Keyword, Names, Place};
use sp_types::{CType, Linkage, ObjectDef, Storage};
use std::alloc::{AllocError, Global};

/// Whether a declaration of this linkage may have an initialiser here.
fn may_define(env: &Env, linkage: Linkage, valued: bool) -> bool
    ensures { result ≡ may_define (env_of env.now) linkage valued }
{
    env.is_file_scope() || !has_linkage(linkage) || !valued
}

/// Gives the object of a number its values.
fn object_valued(
    alloc: Global,
    env: &mut Env,
    names: &Names,
    number: u32,
    place: Place,
    declarator: Place,
    init: &Init,
) -> Result<(), CheckError>
    ensures { LeadsTo
        (object_valued names.now (env_of env.old) number place declarator (init_of init.now))
        (env_of env.new) result }
{
    let Some(object) = env.tables().objects.get(number as usize) else {
        return fault(FaultKind::RedeclaredName, place);
    };
    let (name, storage, linkage, at) = (object.name, object.storage, object.linkage, object.place);
    let of = object.of.copy(alloc)?;
    let target = Target {
        fixed: is_static_storage(storage),
        name: place,
        declarator,
    };
    let started = check_initialiser(alloc, env, names, target, of, init)?;
    env.set_object(
        number,
        ObjectDef {
            name,
            of: started.of,
            storage,
            linkage,
            start: started.values,
            place: at,
        },
    );
    Ok(())
}

/// Ends the declaration of an object, with an initialiser or without one.
fn object_finished(
    alloc: Global,
    env: &mut Env,
    names: &Names,
    number: u32,
    place: Place,
    declarator: Place,
    linkage: Linkage,
    storage: Storage,
    start: &Option<Init>,
) -> Result<(), CheckError>
    ensures { LeadsTo
        (object_finished names.now (env_of env.old) number place declarator linkage storage
        (start_of start.now))
        (env_of env.new) result }
{
    match start {
        None => object_unvalued(env, number, linkage, storage, declarator),
        Some(init) => object_valued(alloc, env, names, number, place, declarator, init),
    }
}

/// Puts the number of an object without linkage behind the others.
fn with_number(mut all: Vec<u32>, linkage: Linkage, number: u32) -> Result<Vec<u32>, AllocError>
    ensures { IfOk result (λ ks. ks.items ≡ with_number all.items linkage number) }
{
    if !has_linkage(linkage) {
        all.push(number)?;
    }
    Ok(all)
}

/// Declares an object whose type is read.
fn object_told(
    alloc: Global,
    env: &mut Env,
    names: &Names,
    class: Option<Keyword>,
    of: CType,
    number: u32,
    name: u32,
    place: Place,
    declarator: Place,
    start: &Option<Init>,
    linkage: Linkage,
    entry: Option<Entity>,
) -> Result<(), CheckError>
    ensures { LeadsTo
        (object_told names.now (env_of env.old) class (type_of of) number name place declarator
        (start_of start.now) linkage entry)
        (env_of env.new) result }
{
    let valued = is_given(start);
    if !may_define(env, linkage, valued) {
        return fault(FaultKind::BadOperand, declarator);
    }
    let storage = storage_for(linkage, class, valued);
    if !is_outside(storage) && is_floating_array(&of) {
        return fault(FaultKind::FloatingType, place);
    }
    object_declared(
        alloc, env, number, name, of, storage, linkage, valued, place, entry,
    )?;
    object_finished(
        alloc, env, names, number, place, declarator, linkage, storage, start,
    )
}

/// The same, with this linkage and the entry that the name has.
#[tactic(auto, using(crate::proofs::Items::items))]
fn object_at(
    alloc: Global,
    env: &mut Env,
    names: &Names,
    all: Vec<u32>,
    class: Option<Keyword>,
    base: CType,
    declarator: &Declarator,
    start: &Option<Init>,
    name: u32,
    place: Place,
    linkage: Linkage,
    entry: Option<Entity>,
) -> Result<Vec<u32>, CheckError>
    ensures { AnswersIn (λ ks. ks.items)
        (object_at names.now (env_of env.old) all.items class (type_of base)
        (declarator_of declarator.now) (start_of start.now) name place linkage entry)
        (env_of env.new) result }
{
    let at = declarator.place;
    let number = object_reserved(alloc, env, name, place, entry)?;
    let of = check_declarator(alloc, env, base, declarator, names)?;
    object_told(
        alloc, env, names, class, of, number, name, place, at, start, linkage, entry,
    )?;
    Ok(with_number(all, linkage, number)?)
}

/// A declarator of an object: its number, behind the others, where it has no linkage.
pub(crate) fn object_checked(
    alloc: Global,
    env: &mut Env,
    names: &Names,
    all: Vec<u32>,
    class: Option<Keyword>,
    base: CType,
    declarator: &Declarator,
    start: &Option<Init>,
    name: u32,
    place: Place,
) -> Result<Vec<u32>, CheckError>
    ensures { AnswersIn (λ ks. ks.items)
        (object_checked names.now (env_of env.old) all.items class (type_of base)
        (declarator_of declarator.now) (start_of start.now) name place)
        (env_of env.new) result }
{
    let linkage = linkage_for(env, name, class);
    let entry = entry_for(env, name, linkage);
    object_at(
        alloc, env, names, all, class, base, declarator, start, name, place, linkage, entry,
    )
}
