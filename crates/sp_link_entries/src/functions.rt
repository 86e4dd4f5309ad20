//! Functions of units as those of their program.
ghost use Rattle.std.specs.Prelude.{◌≡◌, [], IfOk, map};
ghost use Rattle.sp_types.specs.Programs.{function_of};
ghost use Rattle.sp_link_entries.specs.Entries.{GivesIn};
ghost use Rattle.sp_link_entries.specs.Views.{joined_of, function_entry_of};
ghost use Rattle.sp_link_entries.specs.Functions as rules;

use crate::entries::FunctionEntry;
use crate::joined::{Joined, add_function, function, link, linked, set_function};
use sp_check_env::Entity;
use sp_check_primaries::composite_signature;
use sp_link_conflicts::{defines_function, is_external};
use sp_link_renaming::renamed_signature;
use sp_types::FunctionDef;
use std::alloc::{AllocError, Global};
use std::rc::Rc;

/// An entry that one declaration tells, with the composite type of it and another.
fn told<'a>(
    alloc: Global,
    told: &FunctionEntry<'a>,
    other: &FunctionEntry<'a>,
) -> Result<FunctionEntry<'a>, AllocError>
    ensures { IfOk result (λ e. function_entry_of e ≡
        rules.function_told (function_entry_of told.now) (function_entry_of other.now)) }
{
    let of = composite_signature(alloc, &told.of, &other.of)?;
    Ok(FunctionEntry {
        of: Rc::new(alloc, of)?,
        source: told.source,
        unit: told.unit,
    })
}

/// Two declarations of one function.
fn composed<'a>(
    alloc: Global,
    old: &FunctionEntry<'a>,
    new: &FunctionEntry<'a>,
) -> Result<FunctionEntry<'a>, AllocError>
    ensures { IfOk result (λ e. function_entry_of e ≡
        rules.function_composed (function_entry_of old.now) (function_entry_of new.now)) }
{
    if defines_function(new.source) {
        told(alloc, new, old)
    } else {
        told(alloc, old, new)
    }
}

/// A declaration of the function of a number.
fn function_again<'a>(
    alloc: Global,
    joined: &mut Joined<'a>,
    number: u32,
    new: &FunctionEntry<'a>,
) -> Result<u32, AllocError>
    ensures { GivesIn (λ k. k)
        (rules.function_again (joined_of joined.old) number (function_entry_of new.now))
        (joined_of joined.new) result }
{
    let Some(old) = function(joined, number) else {
        return Ok(number);
    };
    let entry = composed(alloc, old, new)?;
    set_function(joined, number, entry);
    Ok(number)
}

/// The first declaration of an external name.
fn function_first<'a>(joined: &mut Joined<'a>, new: FunctionEntry<'a>) -> Result<u32, AllocError>
    ensures { GivesIn (λ k. k)
        (rules.function_first (joined_of joined.old) (function_entry_of new.entry))
        (joined_of joined.new) result }
{
    let name = new.source.name;
    let number = add_function(joined, new)?;
    link(joined, name, Entity::Function(number))?;
    Ok(number)
}

/// A declaration that a unit has of a function: the function's number in the program.
fn function_joined<'a>(
    alloc: Global,
    joined: &mut Joined<'a>,
    new: FunctionEntry<'a>,
) -> Result<u32, AllocError>
    ensures { GivesIn (λ k. k)
        (rules.function_joined (joined_of joined.old) (function_entry_of new.entry))
        (joined_of joined.new) result }
{
    if !is_external(new.source.linkage) {
        return add_function(joined, new);
    }
    match linked(joined, new.source.name) {
        None => function_first(joined, new),
        Some(Entity::Function(number)) => function_again(alloc, joined, number, &new),
        Some(Entity::Object(_)) => add_function(joined, new),
    }
}

/// A function of a unit as an entry of the program.
fn function_entry<'a>(
    alloc: Global,
    structs: &[u32],
    unit: u32,
    function: &'a FunctionDef,
) -> Result<FunctionEntry<'a>, AllocError>
    ensures { IfOk result (λ e. function_entry_of e ≡
        rules.function_entry structs.now unit (function_of function.now)) }
{
    let of = renamed_signature(alloc, &function.of, structs)?;
    Ok(FunctionEntry {
        of,
        source: function,
        unit,
    })
}

/// A function of a unit, behind the numbers of those before it.
fn next_function<'a>(
    alloc: Global,
    joined: &mut Joined<'a>,
    structs: &[u32],
    unit: u32,
    mut numbers: Vec<u32>,
    function: &'a FunctionDef,
) -> Result<Vec<u32>, AllocError>
    ensures { GivesIn (λ ns. ns.items)
        (rules.next_function structs.now unit (numbers.items, joined_of joined.old)
        (function_of function.now))
        (joined_of joined.new) result }
{
    let entry = function_entry(alloc, structs, unit, function)?;
    let number = function_joined(alloc, joined, entry)?;
    numbers.push(number)?;
    Ok(numbers)
}

/// The functions of a unit: their numbers in the program.
pub(crate) fn functions_joined<'a>(
    alloc: Global,
    joined: &mut Joined<'a>,
    structs: &[u32],
    unit: u32,
    functions: &'a [FunctionDef],
) -> Result<Vec<u32>, AllocError>
    ensures { GivesIn (λ ns. ns.items)
        (rules.functions_joined structs.now unit ([], joined_of joined.old)
        (map function_of functions.now))
        (joined_of joined.new) result }
{
    let mut numbers = Vec::new(alloc);
    'functions: for function in functions {
        numbers = next_function(alloc, joined, structs, unit, numbers, function)?;
    }
    Ok(numbers)
}
