//! The structs of the program.
ghost use Rattle.std.specs.Prelude.{◌≡◌, IfOk, map, option_map, slice_get};
ghost use Rattle.std.specs.Option.{option_copied};
ghost use Rattle.sp_types.specs.View.{struct_of};
ghost use Rattle.sp_link_renaming.specs.View.{renaming_of};
ghost use Rattle.sp_base_checked.specs.Units.{checked_unit_of};
ghost use Rattle.sp_link_units.specs.Making as rules;
ghost use Rattle.sp_link_units.specs.MemberView.{members_of, maybe_members_of};

use crate::renamings::{no_renaming, renaming_of_unit};
use sp_base_checked::CheckedUnit;
use sp_link_renaming::{Renaming, renamed_type};
use sp_types::{CType, StructType};
use std::alloc::{AllocError, Global};

/// Members, with their types in the program.
fn renamed_members(
    alloc: Global,
    members: &[(u32, CType)],
    structs: &[u32],
) -> Result<Vec<(u32, CType)>, AllocError>
    ensures { IfOk result (λ all. members_of all.items ≡
        rules.renamed_members structs.now (members_of members.now)) }
{
    let mut all = Vec::new(alloc);
    for member in members {
        all.push((member.0, renamed_type(alloc, &member.1, structs)?))?;
    }
    Ok(all)
}

/// The same of a struct that may have none.
fn maybe_members(
    alloc: Global,
    members: &Option<Vec<(u32, CType)>>,
    structs: &[u32],
) -> Result<Option<Vec<(u32, CType)>>, AllocError>
    ensures { IfOk result (λ all. maybe_members_of all ≡
        option_map (rules.renamed_members structs.now) (maybe_members_of members.now)) }
{
    match members {
        Some(members) => Ok(Some(renamed_members(alloc, members, structs)?)),
        None => Ok(None),
    }
}

/// A struct of a unit as one of the program; one that isn't there has no members.
fn struct_told(
    alloc: Global,
    told: Option<&StructType>,
    structs: &[u32],
) -> Result<StructType, AllocError>
    ensures { IfOk result (λ s. struct_of s ≡
        rules.struct_told structs.now (option_map struct_of (option_copied told.entry))) }
{
    match told {
        Some(told) => Ok(StructType {
            tag: told.tag,
            union: told.union,
            members: maybe_members(alloc, &told.members, structs)?,
            extent: told.extent,
            level: told.level,
            leaves: told.leaves,
            cells: told.cells,
        }),
        None => Ok(StructType {
            tag: None,
            union: false,
            members: None,
            extent: None,
            level: 0,
            leaves: 0,
            cells: 0,
        }),
    }
}

/// The struct of a number in a unit, where both are there.
fn struct_at(units: &[CheckedUnit], unit: u32, number: u32) -> Option<&StructType>
    ensures { option_map struct_of (option_copied result) ≡
        slice_get (rules.structs_of (slice_get (map checked_unit_of units.now) unit)) number }
{
    match units.get(unit as usize) {
        Some(unit) => unit.structs.get(number as usize),
        None => None,
    }
}

/// The structs of the program, each the one that a struct of a unit stands for.
pub(crate) fn structs_made(
    alloc: Global,
    units: &[CheckedUnit],
    renamings: &[Renaming],
    structs: &[(u32, u32)],
) -> Result<Vec<StructType>, AllocError>
    ensures { IfOk result (λ all. map struct_of all.items ≡
        map (rules.struct_made (map checked_unit_of units.now) (map renaming_of renamings.now))
        structs.now) }
{
    let none = no_renaming(alloc);
    let mut all = Vec::new(alloc);
    for pair in structs {
        let to = renaming_of_unit(renamings, pair.0, &none);
        all.push(struct_told(alloc, struct_at(units, pair.0, pair.1), &to.structs)?)?;
    }
    Ok(all)
}
