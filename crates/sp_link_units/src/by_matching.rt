//! Programs of units.
#![tactic(auto, unfolding(sp_link_entries::specs::Views::joined_of))]

ghost use Rattle.std.specs.Prelude.{◌≡◌, [], IfOk, map, slice_get, unwrap_or, codes, bytes_eq};
ghost use Rattle.sp_types.specs.Programs.{program_of};
ghost use Rattle.sp_base_checked.specs.Answers.{Answers};
ghost use Rattle.sp_link_renaming.specs.View.{renaming_of};
ghost use Rattle.sp_base_checked.specs.Units.{checked_unit_of};
ghost use Rattle.sp_link_structs.specs.Matching.{matching_of};
ghost use Rattle.sp_link_entries.specs.Views.{joined_of, object_entry_of, function_entry_of, numbers_of};
ghost use Rattle.sp_link_units.specs.Making.{constants_made};
ghost use Rattle.sp_link_units.specs.Linking.{is_main, main_from, renamings, program_made, linked};

use crate::renamings::{any_lacks_length, final_types, renamings};
use crate::structs::structs_made;
use crate::tables::{functions_made, objects_made};
use sp_base_checked::{CheckError, CheckedUnit, fault};
use sp_link_entries::{
    FunctionEntry, Joined, ObjectEntry, UnitNumbers, join_units, nothing_joined,
};
use sp_link_renaming::Renaming;
use sp_link_structs::Matching;
use sp_tree::{FaultKind, Names, Place};
use sp_types::{Linkage, Program};
use std::alloc::{AllocError, Global};

/// Whether a name is `main`.
fn is_main_name(names: &Names, name: u32) -> bool
    ensures { result ≡ bytes_eq (unwrap_or (slice_get names.now name) []) (codes "main") }
{
    match names.get(name) {
        Some(bytes) => bytes == "main".as_bytes(),
        None => false,
    }
}

/// Whether a function is the one that the program starts with (C90 5.1.2.2.1).
fn is_main(names: &Names, entry: &FunctionEntry<'_>) -> bool
    ensures { result ≡ is_main names.now (function_entry_of entry.now) }
{
    let source = entry.source;
    matches!(source.linkage, Linkage::External)
        && source.body.is_some()
        && is_main_name(names, source.name)
}

/// The number of that function. More than 2^32 of them want memory.
fn main_of(names: &Names, entries: &[FunctionEntry<'_>]) -> Result<Option<u32>, AllocError>
    ensures { IfOk result (λ k. k ≡
        main_from names.now 0 (map function_entry_of entries.now)) }
{
    'entries: for (i, entry) in entries.iter().enumerate() {
        if is_main(names, entry) {
            let Ok(number) = u32::try_from(i) else {
                return Err(AllocError);
            };
            return Ok(Some(number));
        }
    }
    Ok(None)
}

/// The constants of the program: those of the text, and 1 where an array has it as its length.
fn constants_made(
    mut constants: Vec<i128>,
    objects: &[ObjectEntry<'_>],
) -> Result<Vec<i128>, AllocError>
    ensures { IfOk result (λ all. all.items ≡
        constants_made (map object_entry_of objects.now) constants.items) }
{
    if any_lacks_length(objects) {
        constants.push(1)?;
    }
    Ok(constants)
}

/// The program of what is joined.
fn program_made(
    alloc: Global,
    matching: &Matching,
    units: &[CheckedUnit],
    renamings: &[Renaming],
    joined: Joined<'_>,
    main: u32,
) -> Result<Program, AllocError>
    ensures { IfOk result (λ p. program_of p ≡
        program_made (matching_of matching.now) (map checked_unit_of units.now)
        (map renaming_of renamings.now) (joined_of joined.entry) main) }
{
    let structs = structs_made(alloc, units, renamings, &matching.structs)?;
    let objects = objects_made(alloc, &joined.objects, renamings)?;
    let functions = functions_made(alloc, &joined.functions, renamings)?;
    let constants = constants_made(joined.constants, &joined.objects)?;
    Ok(Program {
        structs,
        objects,
        functions,
        definitions: joined.definitions,
        constants,
        main,
    })
}

/// What the trees of each unit name in the program.
fn renamings_of(
    alloc: Global,
    joined: &Joined<'_>,
    units: &[UnitNumbers],
) -> Result<Vec<Renaming>, AllocError>
    ensures { IfOk result (λ rs. map renaming_of rs.items ≡
        renamings (joined_of joined.now) (map numbers_of units.now)) }
{
    let types = final_types(alloc, &joined.objects)?;
    renamings(alloc, &types, units)
}

/// The program of these units, or its fault, where `matching` tells which of their structs are one
/// (C90 6.1.2.2, 6.7). `names` tells the bytes of each name; where no unit defines `main` the fault
/// NoMain stands at `first`.
pub fn link_by(
    alloc: Global,
    units: &[CheckedUnit],
    matching: &Matching,
    first: Place,
    names: &Names,
) -> Result<Program, CheckError>
    ensures { Answers program_of
        (linked names.now first (matching_of matching.now) (map checked_unit_of units.now))
        result }
{
    let mut joined = nothing_joined(alloc);
    let numbers = join_units(alloc, &mut joined, &matching.numbers, units)?;
    let Some(main) = main_of(names, &joined.functions)? else {
        return fault(FaultKind::NoMain, first);
    };
    let renamings = renamings_of(alloc, &joined, &numbers)?;
    Ok(program_made(alloc, matching, units, &renamings, joined, main)?)
}
