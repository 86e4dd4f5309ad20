//! Declarations of objects (C90 6.5, 6.7.2).
ghost use Rattle.std.specs.Prelude.{◌≡◌, IfOk, OnOk, map};
ghost use Rattle.sp_types.specs.Programs.{object_of};
ghost use Rattle.sp_types.specs.View.{type_of};
ghost use Rattle.sp_check_primaries.specs.Literals.{leaf_seen};
ghost use Rattle.sp_check_primaries.specs.Functions.{is_same_linkage};
ghost use Rattle.sp_base_checked.specs.Answers.{Answers};
ghost use Rattle.sp_check_env.specs.Declaring.{LeadsTo};
ghost use Rattle.sp_check_env.specs.Views.{env_of};
ghost use Rattle.sp_check_objects.specs.Objects.{
  new_object,
  object_reserved,
  reserved_number,
  linked_to,
  object_added,
  is_valued,
  is_more_defined,
  joined_object,
  may_join,
  joined_at,
  object_joined,
  object_declared,
  may_wait,
  object_unvalued,
};

use crate::copies::copy_values;
use crate::{entry_for, has_linkage, is_outside};
use sp_base_checked::{CheckError, fault};
use sp_check_env::{Entity, Env};
use sp_check_operands::{is_complete, is_void};
use sp_check_primaries::{composite, is_retyped, retype};
use sp_check_scopes::Meaning;
use sp_tree::{FaultKind, Place};
use sp_types::{CType, Linkage, ObjectDef, Storage, TypedExpr, compatible};
use std::alloc::{AllocError, Global};

fn new_object(
    alloc: Global,
    name: u32,
    of: CType,
    storage: Storage,
    linkage: Linkage,
    place: Place,
) -> ObjectDef
    ensures { object_of result ≡ new_object name (type_of of) storage linkage place }
{
    ObjectDef {
        name,
        of,
        storage,
        linkage,
        start: Vec::new(alloc),
        place,
    }
}

/// The number of the object of a name: that of its entry, or a new one, which stands in the table
/// before its type is read. `place` is that of the name.
pub fn object_reserved(
    alloc: Global,
    env: &mut Env,
    name: u32,
    place: Place,
    entry: Option<Entity>,
) -> Result<u32, AllocError>
    ensures number { IfOk result (λ k. k ≡ reserved_number (env_of env.old) entry) }
    ensures ok { OnOk result (env_of env.new ≡
        object_reserved (env_of env.old) name place entry) }
{
    match entry {
        Some(Entity::Object(number)) => Ok(number),
        None | Some(Entity::Function(_)) => env.add_object(new_object(
            alloc,
            name,
            CType::Void,
            Storage::Outside,
            Linkage::Inner,
            place,
        )),
    }
}

/// Links a name with linkage to its object.
fn linked_to(env: &mut Env, name: u32, linkage: Linkage, number: u32) -> Result<(), AllocError>
    ensures { OnOk result (env_of env.new ≡ linked_to (env_of env.old) name linkage number) }
{
    if has_linkage(linkage) {
        env.link(name, Entity::Object(number))?;
    }
    Ok(())
}

/// The first declaration of an object. RedeclaredName stands at the name where its own type has declared it as
/// a function.
fn object_added(
    alloc: Global,
    env: &mut Env,
    number: u32,
    name: u32,
    of: CType,
    storage: Storage,
    linkage: Linkage,
    place: Place,
) -> Result<(), CheckError>
    ensures { LeadsTo
        (object_added (env_of env.old) number name (type_of of) storage linkage place)
        (env_of env.new) result }
{
    if entry_for(env, name, linkage).is_some() {
        return fault(FaultKind::RedeclaredName, place);
    }
    let typing = of.copy(alloc)?;
    env.set_object(number, new_object(alloc, name, of, storage, linkage, place));
    linked_to(env, name, linkage, number)?;
    env.add_typing(linkage, name, typing, place)?;
    env.declare(name, Meaning::Object(number), place)
}

fn is_valued(values: &[(u64, TypedExpr)]) -> bool
    ensures { result ≡ is_valued (map leaf_seen values.now) }
{
    match values.first() {
        Some(_) => true,
        None => false,
    }
}

fn is_more_defined(old: Storage, new: Storage, valued: bool) -> bool
    ensures { result ≡ is_more_defined old new valued }
{
    valued || is_outside(old) && !is_outside(new)
}

/// An object with a further declaration.
fn joined_object(
    alloc: Global,
    old: &ObjectDef,
    of: &CType,
    storage: Storage,
    valued: bool,
    place: Place,
) -> Result<ObjectDef, AllocError>
    ensures { IfOk result (λ o. object_of o ≡
        joined_object (object_of old.now) (type_of of.now) storage valued place) }
{
    let of = composite(alloc, &old.of, of)?;
    let start = copy_values(alloc, &old.start)?;
    if is_more_defined(old.storage, storage, valued) {
        Ok(ObjectDef {
            name: old.name,
            of,
            storage: Storage::Static,
            linkage: old.linkage,
            start,
            place,
        })
    } else {
        Ok(ObjectDef {
            name: old.name,
            of,
            storage: old.storage,
            linkage: old.linkage,
            start,
            place: old.place,
        })
    }
}

fn is_same_linkage(left: Linkage, right: Linkage) -> bool
    ensures { result ≡ is_same_linkage left right }
{
    left == right
}

/// Whether a further declaration agrees with an object.
fn may_join(old: &ObjectDef, of: &CType, linkage: Linkage, valued: bool) -> bool
    ensures { result ≡ may_join (object_of old.now) (type_of of.now) linkage valued }
{
    is_same_linkage(old.linkage, linkage)
        && compatible(&old.of, of)
        && !(valued && is_valued(&old.start))
}

/// The object of a number with a further declaration, which agrees with it.
fn joined_at(
    alloc: Global,
    objects: &[ObjectDef],
    of: &CType,
    storage: Storage,
    linkage: Linkage,
    valued: bool,
    place: Place,
    number: u32,
) -> Result<ObjectDef, CheckError>
    ensures { Answers object_of
        (joined_at (map object_of objects.now) (type_of of.now) storage linkage valued place
        number) result }
{
    let Some(old) = objects.get(number as usize) else {
        return fault(FaultKind::RedeclaredName, place);
    };
    if !may_join(old, of, linkage, valued) {
        return fault(FaultKind::RedeclaredName, place);
    }
    Ok(joined_object(alloc, old, of, storage, valued, place)?)
}

/// A further declaration of an object.
fn object_joined(
    alloc: Global,
    env: &mut Env,
    name: u32,
    of: &CType,
    storage: Storage,
    linkage: Linkage,
    valued: bool,
    place: Place,
    number: u32,
) -> Result<(), CheckError>
    ensures { LeadsTo
        (object_joined (env_of env.old) name (type_of of.now) storage linkage valued place number)
        (env_of env.new) result }
{
    let joined = joined_at(
        alloc,
        &env.tables().objects,
        of,
        storage,
        linkage,
        valued,
        place,
        number,
    )?;
    let changed = is_retyped(env.object_type(number), &joined.of);
    retype(env, changed, linkage, name, joined.of.copy(alloc)?, place)?;
    env.set_object(number, joined);
    env.declare(name, Meaning::Object(number), place)
}

/// A declaration of a name as an object of this type: its number is that of the entry, or that of
/// the new object. RedeclaredName stands at the name where it has another linkage, is a function, has a type
/// that isn't compatible or an initialiser already, or where its scope, or its own type by a call,
/// has the name as something else.
pub fn object_declared(
    alloc: Global,
    env: &mut Env,
    number: u32,
    name: u32,
    of: CType,
    storage: Storage,
    linkage: Linkage,
    valued: bool,
    place: Place,
    entry: Option<Entity>,
) -> Result<(), CheckError>
    ensures { LeadsTo
        (object_declared (env_of env.old) number name (type_of of) storage linkage valued place
        entry)
        (env_of env.new) result }
{
    match entry {
        None => object_added(alloc, env, number, name, of, storage, linkage, place),
        Some(Entity::Object(old)) => {
            object_joined(alloc, env, name, &of, storage, linkage, valued, place, old)
        }
        Some(Entity::Function(_)) => fault(FaultKind::RedeclaredName, place),
    }
}

/// Whether the type of a tentative definition may be completed later in the unit.
fn may_wait(linkage: Linkage, of: &CType) -> bool
    ensures { result ≡ may_wait linkage (type_of of.now) }
{
    match linkage {
        Linkage::External => !is_void(of),
        Linkage::Internal | Linkage::Inner => false,
    }
}

/// Ends the declaration of an object without an initialiser: IncompleteType stands at the declarator where it
/// is defined there and its type isn't complete.
pub fn object_unvalued(
    env: &Env,
    number: u32,
    linkage: Linkage,
    storage: Storage,
    declarator: Place,
) -> Result<(), CheckError>
    ensures { LeadsTo
        (object_unvalued (env_of env.now) number linkage storage declarator)
        (env_of env.now) result }
{
    let Some(of) = env.object_type(number) else {
        return fault(FaultKind::IncompleteType, declarator);
    };
    if is_outside(storage) || may_wait(linkage, of) || is_complete(of, env.structs()) {
        Ok(())
    } else {
        fault(FaultKind::IncompleteType, declarator)
    }
}
