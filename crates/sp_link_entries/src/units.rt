//! Units as one program.
ghost use Rattle.std.specs.Prelude.{◌≡◌, ◌++◌, [], IfOk, OnOk, map, slice_index_or};
ghost use Rattle.sp_base_checked.specs.Units.{checked_unit_of};
ghost use Rattle.sp_link_entries.specs.Entries as entries;
ghost use Rattle.sp_link_entries.specs.Entries.{GivesIn};
ghost use Rattle.sp_link_entries.specs.Views.{joined_of, numbers_of};
ghost use Rattle.sp_link_entries.specs.Units as rules;

use crate::entries::UnitNumbers;
use crate::functions::functions_joined;
use crate::joined::{Joined, add_texts};
use crate::objects::objects_joined;
use sp_base_checked::CheckedUnit;
use std::alloc::{AllocError, Global};

/// Numbers of a unit as those of the program.
pub fn renumbered(alloc: Global, to: &[u32], numbers: &[u32]) -> Result<Vec<u32>, AllocError>
    ensures { IfOk result (λ all. all.items ≡ entries.renumbered to.now numbers.now) }
{
    let mut all = Vec::new(alloc);
    for number in numbers {
        all.push(to.get(*number as usize).copied().unwrap_or(0))?;
    }
    Ok(all)
}

/// The unit of a number: its objects, then its functions.
fn unit_joined<'a>(
    alloc: Global,
    joined: &mut Joined<'a>,
    structs: &[u32],
    number: u32,
    unit: &'a CheckedUnit,
) -> Result<UnitNumbers, AllocError>
    ensures { GivesIn numbers_of
        (rules.unit_joined structs.now number (joined_of joined.old) (checked_unit_of unit.now))
        (joined_of joined.new) result }
{
    let objects = objects_joined(
        alloc,
        joined,
        &unit.structs,
        structs,
        number,
        &unit.objects,
        &unit.functions,
        &unit.definitions,
    )?;
    let functions = functions_joined(alloc, joined, structs, number, &unit.functions)?;
    let definitions = renumbered(alloc, &functions, &unit.definitions)?;
    add_texts(joined, &definitions, &unit.constants)?;
    Ok(UnitNumbers {
        structs: Vec::from_slice(alloc, structs)?,
        objects,
        functions,
    })
}

/// What a list of lists has at a number; nothing where it has none.
fn structs_of(structs: &[Vec<u32>], number: usize) -> &[u32]
    ensures { result.now ≡ slice_index_or (map (λ ns. ns.items) structs.now) number [] }
{
    match structs.get(number) {
        Some(numbers) => numbers,
        None => &[],
    }
}

/// The next unit, behind the numbers of those before it. More than 2^32 of them want memory.
fn next_unit<'a>(
    alloc: Global,
    joined: &mut Joined<'a>,
    structs: &[Vec<u32>],
    mut done: Vec<UnitNumbers>,
    unit: &'a CheckedUnit,
) -> Result<Vec<UnitNumbers>, AllocError>
    ensures { GivesIn (λ ns. map numbers_of ns.items)
        (rules.next_unit (map (λ ns. ns.items) structs.now)
        (map numbers_of done.items, joined_of joined.old) (checked_unit_of unit.now))
        (joined_of joined.new) result }
{
    let Ok(number) = u32::try_from(done.len()) else {
        return Err(AllocError);
    };
    let numbers = unit_joined(alloc, joined, structs_of(structs, done.len()), number, unit)?;
    done.push(numbers)?;
    Ok(done)
}

/// The units of a program in order, where `structs` has for each unit the program's number of each
/// of its structs: the program's numbers for each unit.
pub fn join_units<'a>(
    alloc: Global,
    joined: &mut Joined<'a>,
    structs: &[Vec<u32>],
    units: &'a [CheckedUnit],
) -> Result<Vec<UnitNumbers>, AllocError>
    ensures { GivesIn (λ ns. map numbers_of ns.items)
        (rules.units_joined (map (λ ns. ns.items) structs.now) ([], joined_of joined.old)
        (map checked_unit_of units.now))
        (joined_of joined.new) result }
{
    let mut done = Vec::new(alloc);
    'units: for unit in units {
        done = next_unit(alloc, joined, structs, done, unit)?;
    }
    Ok(done)
}
