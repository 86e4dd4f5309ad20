//! What types come to: each struct is summed up once.
ghost use Rattle.std.specs.Prelude.{◌≡◌, ◌+◌, ◌*◌, cond, IfOk, Some, map};
ghost use Rattle.sp_types.specs.Types.{structure};
ghost use Rattle.sp_types.specs.View.{type_of, struct_of};
ghost use Rattle.sp_ir.specs.Formed.{is_floating, points};
ghost use Rattle.sp_base_layouts.specs.Layouts.{layout_of, pointers_of};
ghost use Rattle.sp_base_layouts.specs.Summaries.{nothing, of_elements, with_member, of_members, whole, of_first, of_struct_members, of_struct, summary_at, summary_by, same_flag, same_summary, are_below, are_levelled, is_summed, are_summed, AreSummaries};
ghost use Rattle.sp_base_layouts.specs.Seen.{seen_members};

use sp_types::{CType, StructType, height};
use std::alloc::{AllocError, Global};

/// What an object of a type comes to.
#[derive(Clone, Copy)]
pub struct Summary {
    /// How many regions it has.
    pub regions: u64,
    /// How many scalar leaves it has.
    pub leaves: u64,
    /// Whether one of them is a pointer.
    pub points: bool,
    /// Whether one of its regions is a cell.
    pub cells: bool,
}

/// Of a type without members that are known.
const NOTHING: Summary = Summary {
    regions: 1,
    leaves: 0,
    points: false,
    cells: false,
};

/// So many times so many. Past 2^64 it wants memory.
pub(crate) fn times(count: u64, each: u64) -> Result<u64, AllocError>
    ensures { IfOk result (λ n. n ≡ count * each) }
{
    match count.checked_mul(each) {
        Some(product) => Ok(product),
        None => Err(AllocError),
    }
}

/// So many and so many. Past 2^64 it wants memory.
pub(crate) fn plus(count: u64, more: u64) -> Result<u64, AllocError>
    ensures { IfOk result (λ n. n ≡ count + more) }
{
    match count.checked_add(more) {
        Some(sum) => Ok(sum),
        None => Err(AllocError),
    }
}

/// Whether it is of floating type.
pub(crate) fn is_floating(of: &CType) -> bool
    ensures { result ≡ is_floating (type_of of.now) }
{
    match of {
        CType::Float(_) => true,
        CType::Int(_)
        | CType::Pointer(_)
        | CType::Array(_)
        | CType::Struct(_)
        | CType::Void
        | CType::Function(_) => false,
    }
}

fn summary_at(summaries: &[Summary], number: u32) -> Summary
    ensures { result ≡ summary_at summaries.now number }
{
    match summaries.get(number as usize) {
        Some(found) => *found,
        None => NOTHING,
    }
}

fn of_elements(count: u64, element: &Summary) -> Result<Summary, AllocError>
    ensures { IfOk result (λ s. s ≡ of_elements count element.now) }
{
    Ok(Summary {
        regions: plus(1, element.regions)?,
        leaves: times(count, element.leaves)?,
        points: element.points,
        cells: element.cells,
    })
}

/// What a type comes to, where these are the summaries of the structs.
pub fn summary_by(summaries: &[Summary], of: &CType) -> Result<Summary, AllocError>
    ensures { IfOk result (λ s. s ≡ summary_by summaries.now (type_of of.now)) }
{
    match of {
        CType::Int(_) => Ok(Summary {
            regions: 1,
            leaves: 1,
            points: false,
            cells: true,
        }),
        CType::Float(_) => Ok(Summary {
            regions: 1,
            leaves: 1,
            points: false,
            cells: false,
        }),
        CType::Pointer(_) => Ok(Summary {
            regions: 1,
            leaves: 1,
            points: true,
            cells: true,
        }),
        CType::Array(array) => match array.length {
            Some(count) => {
                let element = summary_by(summaries, &array.element)?;
                of_elements(count, &element)
            }
            None => Ok(NOTHING),
        },
        CType::Struct(number) => Ok(summary_at(summaries, *number)),
        CType::Void | CType::Function(_) => Ok(NOTHING),
    }
}

/// How many regions a member has.
pub(crate) fn member_regions(of: &CType, member: &Summary) -> u64
    ensures { result ≡ cond (is_floating (type_of of.now)) 0 member.now.regions }
{
    if is_floating(of) { 0 } else { member.regions }
}

fn with_member(of: &CType, member: &Summary, rest: &Summary) -> Result<Summary, AllocError>
    ensures { IfOk result (λ s. s ≡ with_member (type_of of.now) member.now rest.now) }
{
    Ok(Summary {
        regions: plus(member_regions(of, member), rest.regions)?,
        leaves: plus(member.leaves, rest.leaves)?,
        points: member.points || rest.points,
        cells: member.cells || rest.cells,
    })
}

fn of_members(summaries: &[Summary], members: &[(u32, CType)]) -> Result<Summary, AllocError>
    ensures { IfOk result (λ s. s ≡
        of_members (summary_by summaries.now) (seen_members members.now)) }
{
    let mut all = Summary {
        regions: 0,
        leaves: 0,
        points: false,
        cells: false,
    };
    let mut left = members.len();
    'members: while left > 0 {
        left -= 1;
        let of = &members[left].1;
        let member = summary_by(summaries, of)?;
        all = with_member(of, &member, &all)?;
    }
    Ok(all)
}

/// Of a union of these members.
fn of_first(summaries: &[Summary], members: &[(u32, CType)]) -> Result<Summary, AllocError>
    ensures { IfOk result (λ s. s ≡
        of_first (summary_by summaries.now) (seen_members members.now)) }
{
    match members {
        [] => Ok(NOTHING),
        [first, ..] => {
            let first = summary_by(summaries, &first.1)?;
            Ok(Summary {
                regions: 1,
                leaves: first.leaves,
                points: first.points,
                cells: true,
            })
        }
    }
}

/// Of a struct of these members.
fn whole(summaries: &[Summary], members: &[(u32, CType)]) -> Result<Summary, AllocError>
    ensures { IfOk result (λ s. s ≡
        whole (of_members (summary_by summaries.now) (seen_members members.now))) }
{
    let all = of_members(summaries, members)?;
    Ok(Summary {
        regions: plus(1, all.regions)?,
        leaves: all.leaves,
        points: all.points,
        cells: all.cells,
    })
}

/// Of a struct or a union of these members.
fn of_known(
    summaries: &[Summary],
    union: bool,
    members: &[(u32, CType)],
) -> Result<Summary, AllocError>
    ensures { IfOk result (λ s. s ≡ of_struct_members (summary_by summaries.now) union
        (Some (seen_members members.now))) }
{
    if union {
        of_first(summaries, members)
    } else {
        whole(summaries, members)
    }
}

fn of_struct(summaries: &[Summary], found: &StructType) -> Result<Summary, AllocError>
    ensures { IfOk result (λ s. s ≡
        of_struct (summary_by summaries.now) (Some (struct_of found.now))) }
{
    match &found.members {
        None => Ok(NOTHING),
        Some(members) => {
            let made = of_known(summaries, found.union, members.as_slice())?;
            Ok(made)
        }
    }
}

/// Each struct's summary, those with fewer structs inside one another first.
fn summed_up(alloc: Global, structs: &[StructType]) -> Result<Vec<Summary>, AllocError> {
    let mut order = Vec::new(alloc);
    let mut summaries = Vec::new(alloc);
    for (k, found) in structs.iter().enumerate() {
        order.push((found.level, k))?;
        summaries.push(NOTHING)?;
    }
    order.sort()?;
    for (_, k) in &order {
        let made = match structs.get(*k) {
            Some(found) => of_struct(summaries.as_slice(), found)?,
            None => NOTHING,
        };
        if let Some(summary) = summaries.get_mut(*k) {
            *summary = made;
        }
    }
    Ok(summaries)
}

fn same_flag(flag: bool, other: bool) -> bool
    ensures { result ≡ same_flag flag other }
{
    if flag { other } else { !other }
}

fn same_summary(a: &Summary, b: &Summary) -> bool
    ensures { result ≡ same_summary a.now b.now }
{
    a.regions == b.regions
        && a.leaves == b.leaves
        && same_flag(a.points, b.points)
        && same_flag(a.cells, b.cells)
}

fn are_below(structs: &[StructType], level: u32, members: &[(u32, CType)]) -> bool
    ensures { result ≡ are_below (map struct_of structs.now) level (seen_members members.now) }
{
    for member in members {
        if height(&member.1, structs) >= level {
            return false;
        }
    }
    true
}

fn is_levelled(structs: &[StructType], found: &StructType) -> bool
    ensures { result ≡ are_levelled (map struct_of structs.now) (struct_of found.now).level
        (struct_of found.now).members }
{
    match &found.members {
        None => true,
        Some(members) => 0 < found.level && are_below(structs, found.level, members.as_slice()),
    }
}

fn is_summed(
    structs: &[StructType],
    summaries: &[Summary],
    number: u32,
    found: &StructType,
) -> Result<bool, AllocError>
    ensures { IfOk result (λ b. b ≡
        is_summed (map struct_of structs.now) summaries.now number (struct_of found.now)) }
{
    if !is_levelled(structs, found) {
        return Ok(false);
    }
    let made = of_struct(summaries, found)?;
    Ok(same_summary(&summary_at(summaries, number), &made))
}

fn are_summed(structs: &[StructType], summaries: &[Summary]) -> Result<bool, AllocError>
    ensures { IfOk result (λ b. b ≡
        are_summed (map struct_of structs.now) summaries.now 0 (map struct_of structs.now)) }
{
    for (k, found) in structs.iter().enumerate() {
        let Ok(number) = u32::try_from(k) else {
            return Err(AllocError);
        };
        if !is_summed(structs, summaries, number, found)? {
            return Ok(false);
        }
    }
    Ok(true)
}

/// What each struct comes to, in time that is linear in all members: no struct is gone down through
/// again. They are found by levels. Then each is compared with what its members give it: where one
/// differed, as with a struct that holds itself, it would want memory.
#[tactic(auto, using(crate::proofs::Laid::laid_by))]
pub fn summaries_of(alloc: Global, structs: &[StructType]) -> Result<Vec<Summary>, AllocError>
    ensures { IfOk result (λ all. AreSummaries (map struct_of structs.now) all.items) }
{
    let summaries = summed_up(alloc, structs)?;
    if summaries.len() != structs.len() {
        return Err(AllocError);
    }
    if are_summed(structs, summaries.as_slice())? {
        Ok(summaries)
    } else {
        Err(AllocError)
    }
}

/// Whether the struct of this number has a leaf of pointer type.
fn struct_points(structs: &[StructType], summaries: &[Summary], number: u32) -> bool
    requires { AreSummaries (map struct_of structs.now) summaries.now }
    ensures { result ≡ points (layout_of (map struct_of structs.now) (structure number)) }
{
    let _structs = structs;
    summary_at(summaries, number).points
}

/// Of each struct whether it has a leaf of pointer type.
pub fn pointer_flags(alloc: Global, structs: &[StructType]) -> Result<Vec<bool>, AllocError>
    ensures { IfOk result (λ flags. flags.items ≡ pointers_of (map struct_of structs.now)) }
{
    let summaries = summaries_of(alloc, structs)?;
    let mut flags = Vec::new(alloc);
    for (k, _) in structs.iter().enumerate() {
        let Ok(number) = u32::try_from(k) else {
            return Err(AllocError);
        };
        flags.push(struct_points(structs, summaries.as_slice(), number))?;
    }
    Ok(flags)
}
