//! Indices, members and steps behind their operand (C90 6.3.2).
ghost use Rattle.std.specs.Prelude.{◌≡◌, IfOk, map, option_map, Some, None, slice_get, drop};
ghost use Rattle.sp_types.specs.View.{type_of, struct_of};
ghost use Rattle.sp_types.specs.TypedView.{boxed_of, typed_of};
ghost use Rattle.sp_base_checked.specs.Answers.{Answers};
ghost use Rattle.sp_check_binary_rules.specs.Rules.{
  indexed,
  struct_number,
  pointed_struct,
  members_of,
  member_in,
  member_type,
  member_taken,
  arrow_taken,
  stepped_type,
  stepped_after,
};
ghost use Rattle.sp_check_operands.specs.Balances.{members_seen};

use sp_base_checked::{CheckError, fault};
use sp_check_binary_rules::is_modifiable;
use sp_check_operands::{can_move, element_type, is_complete, is_scalar};
use sp_tree::{FaultKind, Place, Punct};
use sp_types::{CType, StructType, TypedExpr};
use std::alloc::{AllocError, Global};

/// `a[b]` (C90 6.3.2.1).
pub fn indexed(
    alloc: Global,
    structs: &[StructType],
    place: Place,
    mark: Place,
    a: Box<TypedExpr>,
    b: Box<TypedExpr>,
) -> Result<Box<TypedExpr>, CheckError>
    ensures { Answers boxed_of
        (indexed (map struct_of structs.now) place mark (boxed_of a) (boxed_of b)) result }
{
    let Some(of) = element_type(alloc, a.of(), b.of())? else {
        return fault(FaultKind::BadOperand, place);
    };
    if !is_complete(&of, structs) {
        return fault(FaultKind::IncompleteType, place);
    }
    Ok(TypedExpr::index(alloc, a, b, of, place, mark)?)
}

fn struct_number(of: &CType) -> Option<u32>
    ensures { result ≡ struct_number (type_of of.now) }
{
    match of {
        CType::Struct(number) => Some(*number),
        _ => None,
    }
}

fn pointed_struct(of: &CType) -> Option<u32>
    ensures { result ≡ pointed_struct (type_of of.now) }
{
    match of {
        CType::Pointer(to) => struct_number(to),
        _ => None,
    }
}

/// The members of a struct, where it is complete.
fn members_of(structs: &[StructType], number: u32) -> Option<&[(u32, CType)]>
    ensures { members_of (slice_get (map struct_of structs.now) number) ≡
        option_map (λ ms. members_seen ms.now) result }
{
    match structs.get(number as usize) {
        Some(found) => match &found.members {
            Some(members) => Some(members.as_slice()),
            None => None,
        },
        None => None,
    }
}

fn member_type(
    alloc: Global,
    members: &[(u32, CType)],
    name: u32,
) -> Result<Option<CType>, AllocError>
    ensures { IfOk result (λ t. option_map type_of t ≡
        member_type (members_seen members.now) name) }
{
    'members: for (i, member) in members.iter().enumerate() {
        if member.0 == name {
            return Ok(Some(member.1.copy(alloc)?));
        }
    }
    Ok(None)
}

/// The type of the member of this name.
fn member_in(
    alloc: Global,
    structs: &[StructType],
    number: Option<u32>,
    name: u32,
    place: Place,
) -> Result<CType, CheckError>
    ensures { Answers type_of (member_in (map struct_of structs.now) number name place) result }
{
    let Some(number) = number else {
        return fault(FaultKind::BadOperand, place);
    };
    let Some(members) = members_of(structs, number) else {
        return fault(FaultKind::IncompleteType, place);
    };
    let Some(of) = member_type(alloc, members, name)? else {
        return fault(FaultKind::NoSuchMember, place);
    };
    Ok(of)
}

/// `e.name` (C90 6.3.2.3).
pub fn member_taken(
    alloc: Global,
    structs: &[StructType],
    name: u32,
    place: Place,
    mark: Place,
    e: Box<TypedExpr>,
) -> Result<Box<TypedExpr>, CheckError>
    ensures { Answers boxed_of
        (member_taken (map struct_of structs.now) name place mark (boxed_of e)) result }
{
    let of = member_in(alloc, structs, struct_number(e.of()), name, place)?;
    Ok(TypedExpr::member(alloc, name, e, of, place, mark)?)
}

/// `e->name` (C90 6.3.2.3).
pub fn arrow_taken(
    alloc: Global,
    structs: &[StructType],
    name: u32,
    place: Place,
    mark: Place,
    e: Box<TypedExpr>,
) -> Result<Box<TypedExpr>, CheckError>
    ensures { Answers boxed_of
        (arrow_taken (map struct_of structs.now) name place mark (boxed_of e)) result }
{
    let of = member_in(alloc, structs, pointed_struct(e.of()), name, place)?;
    Ok(TypedExpr::arrow(alloc, name, e, of, place, mark)?)
}

/// The type of what `++` and `--` step (C90 6.3.2.4, 6.3.3.1).
pub(crate) fn stepped_type(
    alloc: Global,
    structs: &[StructType],
    place: Place,
    at: Place,
    e: &TypedExpr,
) -> Result<CType, CheckError>
    ensures { Answers type_of
        (stepped_type (map struct_of structs.now) place at (typed_of e.now)) result }
{
    if !is_modifiable(e) {
        return fault(FaultKind::NotAnLvalue, at);
    }
    if !is_scalar(e.of()) {
        return fault(FaultKind::BadOperand, place);
    }
    if !can_move(structs, e.of()) {
        return fault(FaultKind::IncompleteType, place);
    }
    Ok(e.of().copy(alloc)?)
}

/// `e++` and `e--`; `at` is the place of `e`.
pub fn stepped_after(
    alloc: Global,
    structs: &[StructType],
    operator: Punct,
    place: Place,
    mark: Place,
    at: Place,
    e: Box<TypedExpr>,
) -> Result<Box<TypedExpr>, CheckError>
    ensures { Answers boxed_of
        (stepped_after (map struct_of structs.now) operator place mark at (boxed_of e)) result }
{
    let of = stepped_type(alloc, structs, place, at, &e)?;
    Ok(TypedExpr::after(alloc, operator, e, of, place, mark)?)
}
