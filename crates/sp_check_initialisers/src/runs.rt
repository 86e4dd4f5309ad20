//! Which part of an object a value goes to (C90 6.5.7).
ghost use Rattle.std.specs.Prelude.{◌≡◌, ◌++◌, IfOk, map, option_map, slice_get, is_some};
ghost use Rattle.std.specs.Option.{option_copied};
ghost use Rattle.sp_types.specs.View.{type_of, struct_of};
ghost use Rattle.sp_base_checked.specs.Answers.{Answers};
ghost use Rattle.sp_check_type_names.specs.Tags.{is_union};
ghost use Rattle.sp_check_initialisers.specs.InitView.{init_of, run_of, runs_of, step_of, part_of};
ghost use Rattle.sp_check_initialisers.specs.Strings.{string_for};
ghost use Rattle.sp_check_initialisers.specs.Runs.{
  part,
  has_more,
  one_less,
  elements_behind,
  member_numbered,
  element_next,
  member_next,
  next_in,
  next_part,
  first_member,
  struct_parts,
  parts,
  into_arrays,
  from_array,
  into_struct,
  is_structure,
  inwards,
  innermost,
  reached,
  taken,
};

use crate::strings::string_for;
use sp_base_checked::{CheckError, fault};
use sp_parse_trees::Init;
use sp_tree::{FaultKind, Place};
use sp_types::{CType, StructType, height, leaves};
use std::alloc::{AllocError, Global};

/// Parts of an aggregate that have no value yet.
#[derive(Drop)]
pub(crate) enum Run {
    /// So many elements of this type, the first at this leaf. Where no number is told there is
    /// always one more.
    Elements(CType, u64, Option<u64>),
    /// The members of the struct of a number from this one on, which begins at this leaf.
    Members(u32, usize, u64),
}

/// The next part of a run: its type, its first leaf, and what is left of the run.
#[derive(Drop)]
pub(crate) struct Step {
    pub of: CType,
    pub from: u64,
    pub rest: Run,
}

/// A part that is about to get its value: its type, its first leaf, and the runs behind it, the
/// innermost last.
#[derive(Drop)]
pub(crate) struct Part {
    pub of: CType,
    pub from: u64,
    pub behind: Vec<Run>,
}

fn has_more(count: Option<u64>) -> bool
    ensures { result ≡ has_more count }
{
    match count {
        None => true,
        Some(count) => count > 0,
    }
}

fn one_less(count: Option<u64>) -> Option<u64>
    ensures { result ≡ one_less count }
{
    match count {
        None => None,
        Some(count) => Some(count.saturating_sub(1)),
    }
}

/// The elements behind the one at this leaf.
fn elements_behind(
    alloc: Global,
    structs: &[StructType],
    of: &CType,
    from: u64,
    count: Option<u64>,
) -> Result<Run, AllocError>
    ensures { IfOk result (λ r. run_of r ≡
        elements_behind (map struct_of structs.now) (type_of of.now) from count) }
{
    let next = from.saturating_add(leaves(of, structs));
    Ok(Run::Elements(of.copy(alloc)?, next, one_less(count)))
}

/// The type of the member of a number.
fn member_numbered(structs: &[StructType], number: u32, member: usize) -> Option<&CType>
    ensures { option_map type_of (option_copied result) ≡
        member_numbered (map struct_of structs.now) number member }
{
    let Some(found) = structs.get(number as usize) else {
        return None;
    };
    let Some(members) = &found.members else {
        return None;
    };
    match members.get(member) {
        Some(member) => Some(&member.1),
        None => None,
    }
}

/// The next of so many elements.
fn element_next(
    alloc: Global,
    structs: &[StructType],
    of: CType,
    from: u64,
    count: Option<u64>,
) -> Result<Option<Step>, AllocError>
    ensures { IfOk result (λ x. option_map step_of x ≡
        element_next (map struct_of structs.now) (type_of of) from count) }
{
    if !has_more(count) {
        return Ok(None);
    }
    let rest = elements_behind(alloc, structs, &of, from, count)?;
    Ok(Some(Step { of, from, rest }))
}

/// The member of a number, where there is one.
fn member_next(
    alloc: Global,
    structs: &[StructType],
    number: u32,
    member: usize,
    from: u64,
) -> Result<Option<Step>, AllocError>
    ensures { IfOk result (λ x. option_map step_of x ≡
        member_next (map struct_of structs.now) number member from
        (member_numbered (map struct_of structs.now) number member)) }
{
    let Some(of) = member_numbered(structs, number, member) else {
        return Ok(None);
    };
    let next = from.saturating_add(leaves(of, structs));
    let Some(above) = member.checked_add(1) else {
        return Err(AllocError);
    };
    let rest = Run::Members(number, above, next);
    Ok(Some(Step {
        of: of.copy(alloc)?,
        from,
        rest,
    }))
}

/// The next part of a run, where it has one left.
fn next_in(alloc: Global, structs: &[StructType], run: Run) -> Result<Option<Step>, AllocError>
    ensures { IfOk result (λ x. option_map step_of x ≡
        next_in (map struct_of structs.now) (run_of run)) }
{
    match run {
        Run::Elements(of, from, count) => element_next(alloc, structs, of, from, count),
        Run::Members(number, member, from) => member_next(alloc, structs, number, member, from),
    }
}

/// The next part that the innermost run gives, of those that have one left.
#[tactic(auto, using(crate::proofs::Order::order))]
fn next_part(
    alloc: Global,
    structs: &[StructType],
    mut runs: Vec<Run>,
) -> Result<Option<Part>, AllocError>
    ensures { IfOk result (λ x. option_map part_of x ≡
        next_part (map struct_of structs.now) (runs_of runs.items)) }
{
    'runs: while let Some(run) = runs.pop() {
        if let Some(step) = next_in(alloc, structs, run)? {
            runs.push(step.rest)?;
            return Ok(Some(Part {
                of: step.of,
                from: step.from,
                behind: runs,
            }));
        }
    }
    Ok(None)
}

/// Puts the run of a union's first member behind the others.
#[tactic(auto, using(crate::proofs::Order::order))]
fn first_member(
    alloc: Global,
    mut runs: Vec<Run>,
    from: u64,
    of: Option<&CType>,
) -> Result<Vec<Run>, AllocError>
    ensures { IfOk result (λ rs. runs_of rs.items ≡
        first_member from (option_map type_of (option_copied of.entry)) ++ runs_of runs.items) }
{
    if let Some(of) = of {
        runs.push(Run::Elements(of.copy(alloc)?, from, Some(1)))?;
    }
    Ok(runs)
}

/// Whether the struct of a number is a union.
fn is_union(structs: &[StructType], number: u32) -> Option<bool>
    ensures { result ≡ is_union (slice_get (map struct_of structs.now) number) }
{
    match structs.get(number as usize) {
        Some(found) => Some(found.union),
        None => None,
    }
}

/// Puts the run of the parts of a struct or a union behind the others.
#[tactic(auto, using(crate::proofs::Order::order))]
fn struct_parts(
    alloc: Global,
    structs: &[StructType],
    mut runs: Vec<Run>,
    number: u32,
    from: u64,
) -> Result<Vec<Run>, AllocError>
    ensures { IfOk result (λ rs. runs_of rs.items ≡
        struct_parts (map struct_of structs.now) number from
        (is_union (slice_get (map struct_of structs.now) number)) ++ runs_of runs.items) }
{
    match is_union(structs, number) {
        None => Ok(runs),
        Some(true) => first_member(alloc, runs, from, member_numbered(structs, number, 0)),
        Some(false) => {
            runs.push(Run::Members(number, 0, from))?;
            Ok(runs)
        }
    }
}

/// Puts the run of the parts of an aggregate or a union, whose first leaf this is, behind the
/// others.
#[tactic(auto, using(crate::proofs::Order::order))]
pub(crate) fn with_parts(
    alloc: Global,
    structs: &[StructType],
    mut runs: Vec<Run>,
    of: &CType,
    from: u64,
) -> Result<Vec<Run>, AllocError>
    ensures { IfOk result (λ rs. runs_of rs.items ≡
        parts (map struct_of structs.now) (type_of of.now) from ++ runs_of runs.items) }
{
    match of {
        CType::Array(array) => {
            let element = array.element.copy(alloc)?;
            runs.push(Run::Elements(element, from, array.length))?;
            Ok(runs)
        }
        CType::Struct(number) => struct_parts(alloc, structs, runs, *number, from),
        CType::Void | CType::Int(_) | CType::Float(_) | CType::Pointer(_) | CType::Function(_) => {
            Ok(runs)
        }
    }
}

/// Whether an initialiser is a string for a type.
fn is_string_for(of: &CType, init: &Init) -> bool
    ensures { result ≡ is_some (string_for (type_of of.now) (init_of init.now)) }
{
    string_for(of, init).is_some()
}

fn part_here(alloc: Global, of: &CType, from: u64, behind: Vec<Run>) -> Result<Part, AllocError>
    ensures { IfOk result (λ x. part_of x ≡ part (type_of of.now) from (runs_of behind.items)) }
{
    Ok(Part {
        of: of.copy(alloc)?,
        from,
        behind,
    })
}

/// The first part of an array inwards that a value without braces is for.
#[tactic(auto, using(crate::proofs::Order::order))]
fn into_arrays(
    alloc: Global,
    of: &CType,
    structs: &[StructType],
    init: &Init,
    from: u64,
    mut behind: Vec<Run>,
) -> Result<Part, AllocError>
    ensures { IfOk result (λ x. part_of x ≡ into_arrays (map struct_of structs.now)
        (init_of init.now) (type_of of.now) from (runs_of behind.items)) }
{
    match of {
        CType::Array(array) => {
            if is_string_for(of, init) {
                part_here(alloc, of, from, behind)
            } else {
                let element = &array.element;
                behind.push(elements_behind(alloc, structs, element, from, array.length)?)?;
                into_arrays(alloc, element, structs, init, from, behind)
            }
        }
        CType::Void
        | CType::Int(_)
        | CType::Float(_)
        | CType::Pointer(_)
        | CType::Struct(_)
        | CType::Function(_) => part_here(alloc, of, from, behind),
    }
}

fn from_array(
    alloc: Global,
    structs: &[StructType],
    init: &Init,
    part: Part,
) -> Result<Part, AllocError>
    ensures { IfOk result (λ x. part_of x ≡
        from_array (map struct_of structs.now) (init_of init.now) (part_of part)) }
{
    let Part { of, from, behind } = part;
    into_arrays(alloc, &of, structs, init, from, behind)
}

/// The first part of a struct or a union inwards.
fn into_struct(
    alloc: Global,
    structs: &[StructType],
    init: &Init,
    part: Part,
) -> Result<Option<Part>, AllocError>
    ensures { IfOk result (λ x. option_map part_of x ≡
        into_struct (map struct_of structs.now) (init_of init.now) (part_of part)) }
{
    let Part { of, from, behind } = part;
    let runs = with_parts(alloc, structs, behind, &of, from)?;
    match next_part(alloc, structs, runs)? {
        Some(next) => Ok(Some(from_array(alloc, structs, init, next)?)),
        None => Ok(None),
    }
}

fn is_structure(of: &CType) -> bool
    ensures { result ≡ is_structure (type_of of.now) }
{
    matches!(of, CType::Struct(_))
}

/// The part that a value without braces is for, through so many structs that lie in each other.
fn inwards(
    alloc: Global,
    structs: &[StructType],
    init: &Init,
    mut levels: u32,
    mut part: Part,
) -> Result<Option<Part>, AllocError>
    ensures { IfOk result (λ x. option_map part_of x ≡
        inwards (map struct_of structs.now) (init_of init.now) levels (part_of part)) }
{
    'levels: while is_structure(&part.of) {
        if levels == 0 {
            return Ok(None);
        }
        levels -= 1;
        let Some(next) = into_struct(alloc, structs, init, part)? else {
            return Ok(None);
        };
        part = next;
    }
    Ok(Some(part))
}

fn innermost(
    alloc: Global,
    structs: &[StructType],
    init: &Init,
    part: Part,
) -> Result<Option<Part>, AllocError>
    ensures { IfOk result (λ x. option_map part_of x ≡
        innermost (map struct_of structs.now) (init_of init.now) (part_of part)) }
{
    let levels = height(&part.of, structs);
    let part = from_array(alloc, structs, init, part)?;
    inwards(alloc, structs, init, levels, part)
}

fn reached(
    alloc: Global,
    structs: &[StructType],
    init: &Init,
    part: Part,
) -> Result<Option<Part>, AllocError>
    ensures { IfOk result (λ x. option_map part_of x ≡
        reached (map struct_of structs.now) (init_of init.now) (part_of part)) }
{
    match init {
        Init::One(_) => innermost(alloc, structs, init, part),
        Init::List(_, _) => Ok(Some(part)),
    }
}

/// The part that the next initialiser of a list is for: BadInitialiser stands at the name where none is left.
pub(crate) fn taken(
    alloc: Global,
    structs: &[StructType],
    name: Place,
    runs: Vec<Run>,
    init: &Init,
) -> Result<Part, CheckError>
    ensures { Answers part_of
        (taken (map struct_of structs.now) name (runs_of runs.items) (init_of init.now)) result }
{
    let Some(next) = next_part(alloc, structs, runs)? else {
        return fault(FaultKind::BadInitialiser, name);
    };
    let Some(part) = reached(alloc, structs, init, next)? else {
        return fault(FaultKind::BadInitialiser, name);
    };
    Ok(part)
}
