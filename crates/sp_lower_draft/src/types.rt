//! What lowering asks of types.
ghost use Rattle.std.specs.Prelude.{◌≡◌, IfOk, map, slice_get};
ghost use Rattle.sp_types.specs.View.{type_of, struct_of};
ghost use Rattle.sp_ir.specs.Formed.{is_pointer, is_scalar, is_struct};
ghost use Rattle.sp_ir.specs.Terrain.{size_of};
ghost use Rattle.sp_lower_draft.specs.Context.{
  is_void,
  kind_of,
  pointee_size,
  flag_at,
  has_pointer,
  members_of,
  member_named,
  member_of,
  pointee,
};
ghost use Rattle.sp_lower_draft.specs.View.{context_of};

use crate::Scope;
use sp_types::{CType, IntKind, StructType, layout};
use std::alloc::{AllocError, Global};

pub fn is_void(of: &CType) -> bool
    ensures { result ≡ is_void (type_of of.now) }
{
    match of {
        CType::Void => true,
        _ => false,
    }
}

pub fn is_pointer(of: &CType) -> bool
    ensures { result ≡ is_pointer (type_of of.now) }
{
    match of {
        CType::Pointer(_) => true,
        _ => false,
    }
}

pub fn is_scalar(of: &CType) -> bool
    ensures { result ≡ is_scalar (type_of of.now) }
{
    match of {
        CType::Int(_) | CType::Pointer(_) => true,
        _ => false,
    }
}

pub fn is_struct(of: &CType) -> bool
    ensures { result ≡ is_struct (type_of of.now) }
{
    match of {
        CType::Struct(_) => true,
        _ => false,
    }
}

/// The kind of an integer type.
pub fn kind_of(of: &CType) -> IntKind
    ensures { result ≡ kind_of (type_of of.now) }
{
    match of {
        CType::Int(kind) => *kind,
        _ => IntKind::Int,
    }
}

/// Its size in bytes; 0 without a layout.
pub fn size_of(structs: &[StructType], of: &CType) -> u64
    ensures { result ≡ size_of (map struct_of structs.now) (type_of of.now) }
{
    match layout(of, structs) {
        Some(extent) => extent.size,
        None => 0,
    }
}

/// The size of what a pointer of this type points to; 0 without a layout.
pub fn pointee_size(scope: &Scope<'_>, of: &CType) -> u64
    ensures { result ≡ pointee_size (context_of scope.now) (type_of of.now) }
{
    match of {
        CType::Pointer(to) => size_of(scope.structs, to),
        _ => 0,
    }
}

fn flag_at(flags: &[bool], number: u32) -> bool
    ensures { result ≡ flag_at (slice_get flags.now number) }
{
    match flags.get(number as usize) {
        Some(flag) => *flag,
        None => false,
    }
}

/// Whether it has a leaf of pointer type, by the flags of the structs.
pub fn has_pointer(flags: &[bool], of: &CType) -> bool
    ensures { result ≡ has_pointer flags.now (type_of of.now) }
{
    match of {
        CType::Pointer(_) => true,
        CType::Array(array) => has_pointer(flags, &array.element),
        CType::Struct(number) => flag_at(flags, *number),
        CType::Void | CType::Int(_) | CType::Float(_) | CType::Function(_) => false,
    }
}

/// A member of a struct or a union: its number there, and its type.
#[derive(Drop)]
pub struct Member {
    pub number: u32,
    pub of: CType,
}

/// The member of this name among these; of another name one behind the last, of no type.
fn member_named(alloc: Global, members: &[(u32, CType)], name: u32) -> Result<Member, AllocError>
    ensures { IfOk result (λ m. (m.number, type_of m.of) ≡
        member_named name 0 (map (λ m. (m.0, type_of m.1)) members.now)) }
{
    let mut number: u32 = 0;
    for member in members {
        if member.0 == name {
            return Ok(Member {
                number,
                of: member.1.copy(alloc)?,
            });
        }
        let Some(following) = number.checked_add(1) else {
            return Err(AllocError);
        };
        number = following;
    }
    Ok(Member {
        number,
        of: CType::Void,
    })
}

fn member_in(
    alloc: Global,
    structs: &[StructType],
    number: u32,
    name: u32,
) -> Result<Member, AllocError>
    ensures { IfOk result (λ m. (m.number, type_of m.of) ≡
        member_named name 0 (members_of (slice_get (map struct_of structs.now) number))) }
{
    match structs.get(number as usize) {
        Some(of) => match &of.members {
            Some(members) => member_named(alloc, members, name),
            None => member_named(alloc, &[], name),
        },
        None => member_named(alloc, &[], name),
    }
}

/// The member of this name of a struct or union type (C90 6.3.2.3).
pub fn member_of(scope: &Scope<'_>, of: &CType, name: u32) -> Result<Member, AllocError>
    ensures { IfOk result (λ m. (m.number, type_of m.of) ≡
        member_of (context_of scope.now) (type_of of.now) name) }
{
    match of {
        CType::Struct(number) => member_in(scope.alloc, scope.structs, *number, name),
        _ => Ok(Member {
            number: 0,
            of: CType::Void,
        }),
    }
}

/// What a pointer of this type points to.
pub fn pointee(alloc: Global, of: &CType) -> Result<CType, AllocError>
    ensures { IfOk result (λ t. type_of t ≡ pointee (type_of of.now)) }
{
    match of {
        CType::Pointer(to) => to.copy(alloc),
        _ => Ok(CType::Void),
    }
}
