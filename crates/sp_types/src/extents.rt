//! Sizes and alignments of types, in bytes (C90 6.3.3.4, and the choice that 6.1.2.5 leaves to an implementation).
ghost use Rattle.std.specs.Prelude.{◌≡◌, map, slice_get, Some};
ghost use Rattle.sp_types.specs.Layout.{layout, repeated, integer_extent, floating_extent, struct_extent};
ghost use Rattle.sp_types.specs.View.{type_of, struct_of};

use crate::{CType, FloatKind, IntKind, StructType};

/// No type has more bytes: sums of sizes and offsets then stay far below 2^63.
pub const MAX_SIZE: u64 = 1 << 40;

/// The size and the alignment of a complete type, in bytes.
#[derive(Clone, Copy, Debug, PartialEq, Eq)]
pub struct Extent {
    pub size: u64,
    pub align: u64,
}

fn of_kind(kind: IntKind) -> Extent
    ensures { result ≡ integer_extent kind }
{
    let size = match kind {
        IntKind::Char | IntKind::SChar | IntKind::UChar => 1,
        IntKind::Short | IntKind::UShort => 2,
        IntKind::Int | IntKind::UInt => 4,
        IntKind::Long | IntKind::ULong => 8,
    };
    Extent { size, align: size }
}

fn of_float(kind: FloatKind) -> Extent
    ensures { result ≡ floating_extent kind }
{
    let size = match kind {
        FloatKind::Float => 4,
        FloatKind::Double => 8,
        FloatKind::LongDouble => 16,
    };
    Extent { size, align: size }
}

/// So many of these; `None` exactly past the largest size.
fn repeated(length: u64, element: Extent) -> Option<Extent>
    ensures { result ≡ repeated length (Some element) }
{
    match element.size.checked_mul(length) {
        Some(size) if size <= MAX_SIZE => Some(Extent {
            size,
            align: element.align,
        }),
        _ => None,
    }
}

/// The extent of a struct by its number.
fn extent_of(structs: &[StructType], number: u32) -> Option<Extent>
    ensures { result ≡ struct_extent (slice_get (map struct_of structs.now) number) }
{
    match structs.get(number as usize) {
        Some(found) => found.extent,
        None => None,
    }
}

/// The size and the alignment of a type; `None` exactly for a type that isn't complete: void, a function, an array without a
/// length, of such elements or of more than [`MAX_SIZE`] bytes, and a struct whose members aren't known.
pub fn layout(of: &CType, structs: &[StructType]) -> Option<Extent>
    ensures { result ≡ layout (map struct_of structs.now) (type_of of.now) }
{
    match of {
        CType::Void | CType::Function(_) => None,
        CType::Int(kind) => Some(of_kind(*kind)),
        CType::Float(kind) => Some(of_float(*kind)),
        CType::Pointer(_) => Some(Extent { size: 8, align: 8 }),
        CType::Array(array) => repeated(array.length?, layout(&array.element, structs)?),
        CType::Struct(number) => extent_of(structs, *number),
    }
}
