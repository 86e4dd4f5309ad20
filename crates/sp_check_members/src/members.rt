//! What members make of a struct or a union (C90 6.5.2.1).
ghost use Rattle.std.specs.Prelude.{◌≡◌, ◌∷◌, IfOk, map, slice_get, option_map};
ghost use Rattle.sp_types.specs.Layout.{extent};
ghost use Rattle.sp_types.specs.Structs.{
  level_above,
  leaves_of_members,
  cells_of_members,
  sum_of,
  leaves,
  cells,
};
ghost use Rattle.sp_types.specs.View.{type_of, struct_of};
ghost use Rattle.sp_base_checked.specs.Answers.{Answers};
ghost use Rattle.sp_check_operands.specs.Balances.{members_seen};
ghost use Rattle.sp_check_env.specs.Declaring.{LeadsTo};
ghost use Rattle.sp_check_env.specs.Views.{env_of};
ghost use Rattle.sp_check_members.specs.Members.{
  is_open_level,
  is_open,
  begun,
  next_extent,
  members_extent,
  head_of,
  with_members,
  depth,
  depth_above,
  completed,
};

use crate::extents::{closed, with_member};
use sp_base_checked::{CheckError, fault};
use sp_check_env::Env;
use sp_tree::{FaultKind, Place};
use sp_types::{CType, Extent, StructType, cells, height, layout, leaves};
use std::alloc::AllocError;

/// The cells of abstract memory that a struct or a union may have at most.
pub const MAX_CELLS: u64 = 256;

/// How many structs and arrays may lie inside one another: paths of regions are as long, and calls
/// of the layers above as deep.
pub const MAX_DEPTH: u32 = 200;

/// Whether a struct has no members yet, and they aren't being read.
pub fn is_open(env: &Env, number: u32) -> bool
    ensures { result ≡ is_open (env_of env.now) number }
{
    is_open_level(env.structs(), number)
}

fn is_open_level(structs: &[StructType], number: u32) -> bool
    ensures { result ≡ is_open_level (slice_get (map struct_of structs.now) number) }
{
    match structs.get(number as usize) {
        Some(found) => found.level == 0,
        None => false,
    }
}

/// Marks the struct of a number, with this tag and kind, as one whose members are being read: until
/// they are, it is incomplete, and braces of the same tag inside it are refused.
pub fn begun(env: &mut Env, number: u32, tag: Option<u32>, union: bool)
    ensures { env_of env.new ≡ begun (env_of env.old) number tag union }
{
    env.set_struct(
        number,
        StructType {
            tag,
            union,
            members: None,
            extent: None,
            level: 1,
            leaves: 0,
            cells: 0,
        },
    );
}

/// The extent with a member of this type.
fn next_extent(
    structs: &[StructType],
    union: bool,
    place: Place,
    whole: Extent,
    of: &CType,
) -> Result<Extent, CheckError>
    ensures { Answers (λ e. e)
        (next_extent (map struct_of structs.now) union place whole (type_of of.now)) result }
{
    let Some(member) = layout(of, structs) else {
        return fault(FaultKind::IncompleteType, place);
    };
    let Some(next) = with_member(union, whole, member) else {
        return fault(FaultKind::BadLength, place);
    };
    Ok(next)
}

fn members_extent(
    structs: &[StructType],
    union: bool,
    place: Place,
    members: &[(u32, CType)],
) -> Result<Extent, CheckError>
    ensures { Answers (λ e. e)
        (members_extent (map struct_of structs.now) union place (extent 0 1)
        (members_seen members.now)) result }
{
    let mut whole = Extent { size: 0, align: 1 };
    'members: for (i, member) in members.iter().enumerate() {
        match next_extent(structs, union, place, whole, &member.1) {
            Ok(next) => whole = next,
            Err(error) => return Err(error),
        }
    }
    let Some(whole) = closed(whole) else {
        return fault(FaultKind::BadLength, place);
    };
    Ok(whole)
}

/// How many structs lie inside one another in one with these members.
fn level_above(structs: &[StructType], members: &[(u32, CType)]) -> Result<u32, AllocError>
    ensures { IfOk result (λ n. n ≡
        level_above (map struct_of structs.now) (members_seen members.now)) }
{
    let mut level = 1;
    let mut left = members.len();
    'members: while left > 0 {
        left -= 1;
        let Some(above) = height(&members[left].1, structs).checked_add(1) else {
            return Err(AllocError);
        };
        level = above.max(level);
    }
    Ok(level)
}

fn leaves_of_all(structs: &[StructType], members: &[(u32, CType)]) -> u64
    ensures { result ≡
        sum_of (leaves (map struct_of structs.now)) (members_seen members.now) }
{
    let mut sum = 0u64;
    let mut left = members.len();
    'members: while left > 0 {
        left -= 1;
        sum = leaves(&members[left].1, structs).saturating_add(sum);
    }
    sum
}

fn cells_of_all(structs: &[StructType], members: &[(u32, CType)]) -> u64
    ensures { result ≡ sum_of (cells (map struct_of structs.now)) (members_seen members.now) }
{
    let mut sum = 0u64;
    let mut left = members.len();
    'members: while left > 0 {
        left -= 1;
        sum = cells(&members[left].1, structs).saturating_add(sum);
    }
    sum
}

fn leaves_of_members(structs: &[StructType], union: bool, members: &[(u32, CType)]) -> u64
    ensures { result ≡
        leaves_of_members (map struct_of structs.now) union (members_seen members.now) }
{
    if !union {
        return leaves_of_all(structs, members);
    }
    match members.first() {
        None => 0,
        Some(first) => leaves(&first.1, structs),
    }
}

fn cells_of_members(structs: &[StructType], union: bool, members: &[(u32, CType)]) -> u64
    ensures { result ≡
        cells_of_members (map struct_of structs.now) union (members_seen members.now) }
{
    if union {
        1
    } else {
        cells_of_all(structs, members)
    }
}

/// The tag of a struct, and whether it is a union.
fn head_of(structs: &[StructType], number: u32) -> Option<(Option<u32>, bool)>
    ensures { result ≡ head_of (slice_get (map struct_of structs.now) number) }
{
    match structs.get(number as usize) {
        Some(found) => Some((found.tag, found.union)),
        None => None,
    }
}

/// How many structs and arrays lie inside one another in a type, held by value.
fn depth(env: &Env, of: &CType) -> Result<u32, AllocError>
    ensures { IfOk result (λ n. n ≡ depth (env_of env.now).depths (type_of of.now)) }
{
    match of {
        CType::Array(array) => {
            let inside = depth(env, &array.element)?;
            inside.checked_add(1).ok_or(AllocError)
        }
        CType::Struct(number) => Ok(env.struct_depth(*number)),
        CType::Void | CType::Int(_) | CType::Float(_) | CType::Pointer(_) | CType::Function(_) =>
            Ok(0),
    }
}

/// How many in a struct of these members.
fn depth_above(env: &Env, members: &[(u32, CType)]) -> Result<u32, AllocError>
    ensures { IfOk result (λ n. n ≡ depth_above (env_of env.now).depths
        (members_seen members.now)) }
{
    let mut deepest = 1;
    let mut left = members.len();
    'members: while left > 0 {
        left -= 1;
        let Some(above) = depth(env, &members[left].1)?.checked_add(1) else {
            return Err(AllocError);
        };
        deepest = above.max(deepest);
    }
    Ok(deepest)
}

/// Gives the struct of a number its members; `place` is that of its specifier. IncompleteType stands where a
/// member isn't complete, BadLength where it has more than 2^40 bytes, TooManyCells past 256 cells, NestingTooDeep where more
/// than 200 structs and arrays lie inside one another in it.
pub fn completed(
    env: &mut Env,
    number: u32,
    union: bool,
    place: Place,
    members: Vec<(u32, CType)>,
) -> Result<(), CheckError>
    ensures { LeadsTo (completed (env_of env.old) number union place (members_seen members.items))
        (env_of env.new) result }
{
    let depth = depth_above(env, &members)?;
    let made = with_members(env.structs(), number, union, place, members)?;
    if depth > MAX_DEPTH {
        return fault(FaultKind::NestingTooDeep, place);
    }
    env.set_struct(number, made);
    env.set_depth(number, depth)?;
    Ok(())
}

fn with_members(
    structs: &[StructType],
    number: u32,
    union: bool,
    place: Place,
    members: Vec<(u32, CType)>,
) -> Result<StructType, CheckError>
    ensures { Answers struct_of (with_members (map struct_of structs.now) number union place
        (members_seen members.items)) result }
{
    let Some((tag, kind)) = head_of(structs, number) else {
        return fault(FaultKind::OtherTagKind, place);
    };
    let extent = members_extent(structs, union, place, &members)?;
    let cells = cells_of_members(structs, union, &members);
    if cells > MAX_CELLS {
        return fault(FaultKind::TooManyCells, place);
    }
    let level = level_above(structs, &members)?;
    let leaves = leaves_of_members(structs, union, &members);
    Ok(StructType {
        tag,
        union: kind,
        members: Some(members),
        extent: Some(extent),
        level,
        leaves,
        cells,
    })
}
