//! The table of structs and unions, and what a type takes from it.
ghost use Rattle.std.specs.Prelude.{◌≡◌, ◌^◌, ◌<◌, map, slice_get, min};
ghost use Rattle.sp_types.specs.Structs.{height, leaves, cells, height_of, leaves_of, cells_of, times};
ghost use Rattle.sp_types.specs.View.{type_of, struct_of};

use crate::{CType, Extent};

/// A struct or a union (C90 6.5.2.1), with what its members give it: so no call goes down through members again, which would
/// take time that is exponential in how deep structs lie in each other.
#[derive(Drop)]
pub struct StructType {
    /// The number of its tag's name, where it has one.
    pub tag: Option<u32>,
    /// Whether it is a union.
    pub union: bool,
    /// The members in order, each with the number of its name; `None` where it isn't complete.
    pub members: Option<Vec<(u32, CType)>>,
    /// Its size and its alignment, exactly where it is complete.
    pub extent: Option<Extent>,
    /// How many structs and unions lie inside one another in it, itself included; 0 until its members are read.
    pub level: u32,
    /// Its scalar leaves: those of all members, of a union those of the first. Initialisers count by them (C90 6.5.7).
    pub leaves: u64,
    /// The cells of abstract memory under it: one for each member that is an integer or a pointer, an element of an array
    /// once, a union once.
    pub cells: u64,
}

fn height_of(structs: &[StructType], number: u32) -> u32
    ensures { result ≡ height_of (slice_get (map struct_of structs.now) number) }
{
    match structs.get(number as usize) {
        Some(found) => found.level,
        None => 0,
    }
}

/// How many structs and unions lie inside one another in a type, held by value.
pub fn height(of: &CType, structs: &[StructType]) -> u32
    ensures { result ≡ height (map struct_of structs.now) (type_of of.now) }
{
    match of {
        CType::Array(array) => height(&array.element, structs),
        CType::Struct(number) => height_of(structs, *number),
        CType::Void | CType::Int(_) | CType::Float(_) | CType::Pointer(_) | CType::Function(_) => 0,
    }
}

fn leaves_of(structs: &[StructType], number: u32) -> u64
    ensures { result ≡ leaves_of (slice_get (map struct_of structs.now) number) }
{
    match structs.get(number as usize) {
        Some(found) => found.leaves,
        None => 0,
    }
}

/// So many times so many, at most 2^64 - 1.
fn times(count: u64, each: u64) -> u64
    ensures { result ≡ times count each }
{
    count.saturating_mul(each)
}

/// How many scalar leaves a type has; 0 for an array without a length, and at most 2^64 - 1.
pub fn leaves(of: &CType, structs: &[StructType]) -> u64
    ensures { result ≡ leaves (map struct_of structs.now) (type_of of.now) }
{
    match of {
        CType::Int(_) | CType::Float(_) | CType::Pointer(_) => 1,
        CType::Array(array) => match array.length {
            Some(length) => times(length, leaves(&array.element, structs)),
            None => 0,
        },
        CType::Struct(number) => leaves_of(structs, *number),
        CType::Void | CType::Function(_) => 0,
    }
}

fn cells_of(structs: &[StructType], number: u32) -> u64
    ensures { result ≡ cells_of (slice_get (map struct_of structs.now) number) }
{
    match structs.get(number as usize) {
        Some(found) => found.cells,
        None => 0,
    }
}

/// How many cells of abstract memory an object of the type has.
pub fn cells(of: &CType, structs: &[StructType]) -> u64
    ensures { result ≡ cells (map struct_of structs.now) (type_of of.now) }
{
    match of {
        CType::Int(_) | CType::Pointer(_) => 1,
        CType::Array(array) => cells(&array.element, structs),
        CType::Struct(number) => cells_of(structs, *number),
        CType::Float(_) | CType::Void | CType::Function(_) => 0,
    }
}
