//! Objects of units as those of their program.
ghost use Rattle.std.specs.Prelude.{◌≡◌, ℕ, [], ◌++◌, IfOk, map, nat_eq, slice_get};
ghost use Rattle.std.specs.List.{list_any};
ghost use Rattle.sp_types.specs.Programs.{object_of, function_of};
ghost use Rattle.sp_types.specs.View.{type_of, struct_of};
ghost use Rattle.sp_check_operands.specs.Conversions.{is_open_struct};
ghost use Rattle.sp_link_entries.specs.Entries.{GivesIn};
ghost use Rattle.sp_link_entries.specs.Views.{joined_of, object_entry_of};
ghost use Rattle.sp_link_entries.specs.Objects as rules;

use crate::entries::ObjectEntry;
use crate::joined::{Joined, add_object, link, linked, object, set_object};
use indexmap::IndexSet;
use sp_check_env::Entity;
use sp_check_operands::is_complete;
use sp_check_primaries::composite;
use sp_link_conflicts::{defines_object, is_external};
use sp_link_renaming::renamed_type;
use sp_types::{CType, FunctionDef, ObjectDef, Storage, StructType};
use std::alloc::{AllocError, Global};

/// An entry that one declaration tells, with the composite type of it and another.
fn told<'a>(
    alloc: Global,
    told: &ObjectEntry<'a>,
    other: &ObjectEntry<'a>,
) -> Result<ObjectEntry<'a>, AllocError>
    ensures { IfOk result (λ e. object_entry_of e ≡
        rules.object_told (object_entry_of told.now) (object_entry_of other.now)) }
{
    let of = composite(alloc, &told.of, &other.of)?;
    Ok(ObjectEntry {
        of,
        incomplete: told.incomplete,
        source: told.source,
        unit: told.unit,
    })
}

/// Whether the later of two declarations of one object tells what the composite type doesn't.
fn tells_more(new: &ObjectEntry<'_>, old: &ObjectEntry<'_>) -> bool
    ensures { result ≡ rules.tells_more (object_entry_of new.now) (object_entry_of old.now) }
{
    defines_object(new.source.storage) || old.incomplete && !new.incomplete
}

/// Two declarations of one object.
fn composed<'a>(
    alloc: Global,
    old: &ObjectEntry<'a>,
    new: &ObjectEntry<'a>,
) -> Result<ObjectEntry<'a>, AllocError>
    ensures { IfOk result (λ e. object_entry_of e ≡
        rules.object_composed (object_entry_of old.now) (object_entry_of new.now)) }
{
    if tells_more(new, old) {
        told(alloc, new, old)
    } else {
        told(alloc, old, new)
    }
}

/// A declaration of the object of a number.
fn object_again<'a>(
    alloc: Global,
    joined: &mut Joined<'a>,
    number: u32,
    new: &ObjectEntry<'a>,
) -> Result<u32, AllocError>
    ensures { GivesIn (λ k. k)
        (rules.object_again (joined_of joined.old) number (object_entry_of new.now))
        (joined_of joined.new) result }
{
    let Some(old) = object(joined, number) else {
        return Ok(number);
    };
    let entry = composed(alloc, old, new)?;
    set_object(joined, number, entry);
    Ok(number)
}

/// The first declaration of an external name.
fn object_first<'a>(joined: &mut Joined<'a>, new: ObjectEntry<'a>) -> Result<u32, AllocError>
    ensures { GivesIn (λ k. k)
        (rules.object_first (joined_of joined.old) (object_entry_of new.entry))
        (joined_of joined.new) result }
{
    let name = new.source.name;
    let number = add_object(joined, new)?;
    link(joined, name, Entity::Object(number))?;
    Ok(number)
}

/// A declaration that a unit has of an object: the object's number in the program.
fn object_joined<'a>(
    alloc: Global,
    joined: &mut Joined<'a>,
    new: ObjectEntry<'a>,
) -> Result<u32, AllocError>
    ensures { GivesIn (λ k. k)
        (rules.object_joined (joined_of joined.old) (object_entry_of new.entry))
        (joined_of joined.new) result }
{
    if !is_external(new.source.linkage) {
        return add_object(joined, new);
    }
    match linked(joined, new.source.name) {
        None => object_first(joined, new),
        Some(Entity::Object(number)) => object_again(alloc, joined, number, &new),
        Some(Entity::Function(_)) => add_object(joined, new),
    }
}

/// Adds the parameters and locals of a function, where it is there.
fn add_own(owned: &mut Vec<u32>, functions: &[FunctionDef], number: u32) -> Result<(), AllocError>
    ensures { IfOk result (λ u. owned.new.items ≡
        owned.old.items ++ rules.own_objects (slice_get (map function_of functions.now) number)) }
{
    let Some(function) = functions.get(number as usize) else {
        return Ok(());
    };
    owned.extend_from_slice(&function.formals)?;
    owned.extend_from_slice(&function.locals)
}

/// The parameters and locals of the functions of these numbers.
fn owned_by(
    alloc: Global,
    functions: &[FunctionDef],
    definitions: &[u32],
) -> Result<Vec<u32>, AllocError>
    ensures { IfOk result (λ ks.
        ks.items ≡ rules.owned_by (map function_of functions.now) definitions.now) }
{
    let mut owned = Vec::new(alloc);
    for number in definitions {
        add_own(&mut owned, functions, *number)?;
    }
    Ok(owned)
}

/// The set of these numbers.
fn set_of(alloc: Global, numbers: &[u32]) -> Result<IndexSet<usize>, AllocError>
    ensures { IfOk result (λ s. (k : ℕ) →
        list_any (nat_eq k) s.keys ≡ list_any (nat_eq k) numbers.now) }
{
    let mut set = IndexSet::new(alloc);
    for number in numbers {
        set.insert(*number as usize)?;
    }
    Ok(set)
}

/// Whether an object passes and is of no function that the unit defines (C90 6.5.4.3).
fn is_dropped(owned: &IndexSet<usize>, number: usize, storage: Storage) -> bool
    ensures { result ≡ rules.is_dropped owned.now.keys number storage }
{
    matches!(storage, Storage::Auto | Storage::Formal) && !owned.contains(&number)
}

/// Whether a struct has no members in its unit (C90 6.1.2.5).
fn is_incomplete(of: &CType, table: &[StructType]) -> bool
    ensures { result ≡ is_open_struct (map struct_of table.now) (type_of of.now) }
{
    match of {
        CType::Struct(_) => !is_complete(of, table),
        _ => false,
    }
}

/// An object of a unit as an entry of the program.
fn object_entry<'a>(
    alloc: Global,
    table: &[StructType],
    structs: &[u32],
    unit: u32,
    object: &'a ObjectDef,
) -> Result<ObjectEntry<'a>, AllocError>
    ensures { IfOk result (λ e. object_entry_of e ≡
        rules.object_entry (map struct_of table.now) structs.now unit (object_of object.now)) }
{
    let of = renamed_type(alloc, &object.of, structs)?;
    Ok(ObjectEntry {
        of,
        incomplete: is_incomplete(&object.of, table),
        source: object,
        unit,
    })
}

/// An object of a unit, behind the numbers of those before it.
fn next_object<'a>(
    alloc: Global,
    joined: &mut Joined<'a>,
    table: &[StructType],
    structs: &[u32],
    unit: u32,
    mut numbers: Vec<u32>,
    dropped: bool,
    object: &'a ObjectDef,
) -> Result<Vec<u32>, AllocError>
    ensures { GivesIn (λ ns. ns.items)
        (rules.next_object (map struct_of table.now) structs.now unit (numbers.items, joined_of joined.old) dropped
        (object_of object.now))
        (joined_of joined.new) result }
{
    if dropped {
        numbers.push(0)?;
        return Ok(numbers);
    }
    let entry = object_entry(alloc, table, structs, unit, object)?;
    let number = object_joined(alloc, joined, entry)?;
    numbers.push(number)?;
    Ok(numbers)
}

/// The objects of a unit, whose functions own these: their numbers in the program.
fn all_joined<'a>(
    alloc: Global,
    joined: &mut Joined<'a>,
    table: &[StructType],
    structs: &[u32],
    unit: u32,
    owned: &IndexSet<usize>,
    objects: &'a [ObjectDef],
) -> Result<Vec<u32>, AllocError>
    ensures { GivesIn (λ ns. ns.items)
        (rules.objects_joined (map struct_of table.now) structs.now owned.now.keys unit ([], joined_of joined.old)
        (map object_of objects.now))
        (joined_of joined.new) result }
{
    let mut numbers = Vec::new(alloc);
    'objects: for object in objects {
        let dropped = is_dropped(owned, numbers.len(), object.storage);
        numbers = next_object(
            alloc, joined, table, structs, unit, numbers, dropped, object,
        )?;
    }
    Ok(numbers)
}

/// The objects of a unit: their numbers in the program.
pub(crate) fn objects_joined<'a>(
    alloc: Global,
    joined: &mut Joined<'a>,
    table: &[StructType],
    structs: &[u32],
    unit: u32,
    objects: &'a [ObjectDef],
    functions: &[FunctionDef],
    definitions: &[u32],
) -> Result<Vec<u32>, AllocError>
    ensures { GivesIn (λ ns. ns.items)
        (rules.objects_joined (map struct_of table.now) structs.now
        (rules.owned_by (map function_of functions.now) definitions.now) unit ([], joined_of joined.old) (map object_of objects.now))
        (joined_of joined.new) result }
{
    let owned = set_of(alloc, &owned_by(alloc, functions, definitions)?)?;
    all_joined(alloc, joined, table, structs, unit, &owned, objects)
}
