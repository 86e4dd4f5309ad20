//! Which regions have a leaf that is a pointer.
ghost use Rattle.std.specs.Prelude.{◌≡◌, ◌≤◌, ◌&&◌, ◌||◌, nat_eq, ℕ, map, slice_get, option_map, length, IfOk, OnOk};
ghost use Rattle.sp_types.specs.View.{type_of, struct_of};
ghost use Rattle.sp_ir.specs.Programs.{lowered_of};
ghost use Rattle.sp_base_region_laws.specs.Parts.{member_type, part_type, part_of, type_along};
ghost use Rattle.sp_base_layouts.specs.Summaries.{AreSummaries};
ghost use Rattle.sp_base_sets.specs.Sets.{has};
ghost use Rattle.sp_points_rules.specs.Leaves.{type_in, type_at, any_points, leaf_points};

use sp_base_layouts::{Summary, summaries_of, summary_by};
use sp_base_sets::NumberSet;
use sp_ir::{Lowered, Step};
use sp_types::{CType, StructType};
use std::alloc::{AllocError, Global};

/// The type of a member of a struct or a union.
fn member_type(structs: &[StructType], number: u32, member: u32) -> Option<&CType>
    ensures { option_map (λ t. type_of t.now) result ≡
        member_type (slice_get (map struct_of structs.now) number) member }
{
    let found = structs.get(number as usize)?;
    match &found.members {
        None => None,
        Some(members) => match members.as_slice().get(member as usize) {
            None => None,
            Some(member) => Some(&member.1),
        },
    }
}

/// The type one step inside a type.
fn part_type<'a>(structs: &'a [StructType], of: &'a CType, step: Step) -> Option<&'a CType>
    ensures { option_map (λ t. type_of t.now) result ≡
        part_type (map struct_of structs.now) (type_of of.now) step }
{
    match step {
        Step::Element => match of {
            CType::Array(array) => Some(&array.element),
            CType::Void
            | CType::Int(_)
            | CType::Float(_)
            | CType::Pointer(_)
            | CType::Struct(_)
            | CType::Function(_) => None,
        },
        Step::Field(member) => match of {
            CType::Struct(number) => member_type(structs, *number, member),
            CType::Void
            | CType::Int(_)
            | CType::Float(_)
            | CType::Pointer(_)
            | CType::Array(_)
            | CType::Function(_) => None,
        },
    }
}

fn part_of<'a>(structs: &'a [StructType], of: Option<&'a CType>, step: Step) -> Option<&'a CType>
    ensures { option_map (λ t. type_of t.now) result ≡
        part_of (map struct_of structs.now) (option_map (λ t. type_of t.now) of.entry) step }
{
    match of {
        None => None,
        Some(of) => part_type(structs, of, step),
    }
}

/// The type to which a path leads.
fn type_along<'a>(
    structs: &'a [StructType],
    of: Option<&'a CType>,
    path: &[Step],
) -> Option<&'a CType>
    ensures { option_map (λ t. type_of t.now) result ≡
        type_along (map struct_of structs.now) (option_map (λ t. type_of t.now) of.entry) path.now }
{
    let mut at = of;
    for step in path {
        at = part_of(structs, at, *step);
    }
    at
}

/// The type of an object.
fn type_in(lowered: &Lowered, object: u32) -> Option<&CType>
    ensures { option_map (λ t. type_of t.now) result ≡
        type_in (slice_get (lowered_of lowered.now).objects object) }
{
    match lowered.objects.get(object as usize) {
        None => None,
        Some(found) => found.of.as_ref(),
    }
}

/// The type that stands at a region.
fn type_at(lowered: &Lowered, region: u32) -> Option<&CType>
    ensures { option_map (λ t. type_of t.now) result ≡ type_at (lowered_of lowered.now) region }
{
    match lowered.regions.get(region) {
        None => None,
        Some(found) => {
            let of = type_in(lowered, found.object);
            type_along(lowered.structs.as_slice(), of, found.path.as_slice())
        }
    }
}

/// Whether a leaf of a type is a pointer.
fn any_points(
    structs: &[StructType],
    summaries: &[Summary],
    of: Option<&CType>,
) -> Result<bool, AllocError>
    requires { AreSummaries (map struct_of structs.now) summaries.now }
    ensures { IfOk result (λ b. b ≡
        any_points (map struct_of structs.now) (option_map (λ t. type_of t.now) of.entry)) }
{
    let _structs = structs;
    match of {
        None => Ok(false),
        Some(of) => {
            let summary = summary_by(summaries, of)?;
            Ok(summary.points)
        }
    }
}

/// Adds a region where a leaf of it is a pointer.
fn add_pointer(
    lowered: &Lowered,
    summaries: &[Summary],
    region: u32,
    set: &mut NumberSet,
) -> Result<(), AllocError>
    requires { AreSummaries (lowered_of lowered.now).structs summaries.now }
    ensures { OnOk result ((c : ℕ) → has c set.new ≡ (has c set.old
        || (nat_eq c region && leaf_points (lowered_of lowered.now) region))) }
{
    let of = type_at(lowered, region);
    if any_points(lowered.structs.as_slice(), summaries, of)? {
        set.add(region)?;
    }
    Ok(())
}

/// The regions with a leaf that is a pointer, in time that is linear in their paths.
pub(crate) fn pointers_of(alloc: Global, lowered: &Lowered) -> Result<NumberSet, AllocError>
    requires { length (lowered_of lowered.now).regions ≤ 200000 }
    ensures { IfOk result (λ set. (c : ℕ) → has c set ≡ leaf_points (lowered_of lowered.now) c) }
{
    let summaries = summaries_of(alloc, lowered.structs.as_slice())?;
    let mut set = NumberSet::new(alloc);
    for region in 0..lowered.regions.len() as u32 {
        add_pointer(lowered, summaries.as_slice(), region, &mut set)?;
    }
    Ok(set)
}
