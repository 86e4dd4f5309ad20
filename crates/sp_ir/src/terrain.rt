//! What evaluation and points-to read of a program.
ghost use Rattle.std.specs.Prelude.{◌≡◌, map, slice_get, option_map};
ghost use Rattle.sp_types.specs.View.{type_of, struct_of};
ghost use Rattle.sp_types.specs.Structs.{plus};
ghost use Rattle.sp_types.specs.Layout.{layout, integer_size};
ghost use Rattle.sp_types.specs.Compatible.{same_length};
ghost use Rattle.sp_ir.specs.Programs.{lowered_of};
ghost use Rattle.sp_ir.specs.Terrain.{terrain_of, matches, element_accepts, size_of, begins_at, offset_among, offset_of, member_offset};
ghost use Rattle.sp_ir.specs.Functions.{function_at};

use crate::program::Lowered;
use crate::region::Step;
use sp_types::{CType, Extent, IntKind, StructType, layout};

/// No region counts more elements: a target's size is below 2^63.
const MAX_COUNT: u64 = (1 << 63) - 1;

impl Lowered {
    /// The root region of an object.
    pub fn root_of(&self, object: u32) -> u32
        ensures { result ≡ (terrain_of (lowered_of self.now)).root object }
    {
        self.regions.root(object).unwrap_or(0)
    }

    /// The region of a member of a struct, by its number there.
    pub fn member_of(&self, region: u32, number: u32) -> u32
        ensures { result ≡ (terrain_of (lowered_of self.now)).member region number }
    {
        self.regions.child(region, Step::Field(number)).unwrap_or(0)
    }

    /// The region of the elements of an array.
    pub fn element_of(&self, region: u32) -> u32
        ensures { result ≡ (terrain_of (lowered_of self.now)).element region }
    {
        self.regions.child(region, Step::Element).unwrap_or(0)
    }

    /// Whether a region is kept as bytes.
    pub fn is_collapsed(&self, region: u32) -> bool
        ensures { result ≡ (terrain_of (lowered_of self.now)).collapsed region }
    {
        match self.regions.get(region) {
            Some(found) => found.element.is_none(),
            None => false,
        }
    }

    /// The size of an element of a region, in bytes.
    pub fn element_size(&self, region: u32) -> u64
        ensures { result ≡ (terrain_of (lowered_of self.now)).element_size region }
    {
        match self.regions.get(region) {
            Some(found) => found.size.max(1),
            None => 1,
        }
    }

    /// How many elements a region has; 0 where that isn't fixed.
    pub fn count_of(&self, region: u32) -> u64
        ensures { result ≡ (terrain_of (lowered_of self.now)).count region }
    {
        match self.regions.get(region) {
            Some(found) => found.count.unwrap_or(0).min(MAX_COUNT),
            None => 0,
        }
    }

    /// Whether an access of a type finds the elements of a region as they were stored.
    pub fn accepts(&self, region: u32, access: &CType) -> bool
        ensures { result ≡ (terrain_of (lowered_of self.now)).accepts region (type_of access.now) }
    {
        match self.regions.get(region) {
            Some(found) => element_accepts(found.element.as_ref(), access),
            None => false,
        }
    }

    /// The size of an access of a type, in bytes; 0 without a layout.
    pub fn access_size(&self, of: &CType) -> u64
        ensures { result ≡ (terrain_of (lowered_of self.now)).access_size (type_of of.now) }
    {
        size_of(&self.structs, of)
    }

    /// Where a member begins in its struct or union, in bytes.
    pub fn member_offset(&self, of: &CType, number: u32) -> u64
        ensures { result ≡
            (terrain_of (lowered_of self.now)).member_offset (type_of of.now) number }
    {
        match of {
            CType::Struct(of) => offset_at(&self.structs, *of, number),
            CType::Void
            | CType::Int(_)
            | CType::Float(_)
            | CType::Pointer(_)
            | CType::Array(_)
            | CType::Function(_) => 0,
        }
    }

    /// The defined function of so many parameters that is at a region.
    pub fn function_at(&self, region: u32, count: usize) -> Option<u32>
        ensures { result ≡ function_at (lowered_of self.now) region count }
    {
        let found = self.regions.get(region)?;
        let object = self.objects.get(found.object as usize)?;
        let number = object.code?;
        let code = self.functions.get(number as usize)?;
        if code.formals.len() == count {
            Some(number)
        } else {
            None
        }
    }
}

/// Whether an access of a type finds elements of a type, or bytes, as they were stored.
pub fn element_accepts(element: Option<&CType>, access: &CType) -> bool
    ensures { result ≡ element_accepts (option_map (λ t. type_of t.now) element.entry) (type_of access.now) }
{
    match element {
        None => true,
        Some(of) => matches(of, access),
    }
}

fn width(kind: IntKind) -> u32
    ensures { result ≡ integer_size kind }
{
    match kind {
        IntKind::Char | IntKind::SChar | IntKind::UChar => 1,
        IntKind::Short | IntKind::UShort => 2,
        IntKind::Int | IntKind::UInt => 4,
        IntKind::Long | IntKind::ULong => 8,
    }
}

fn same_length(left: Option<u64>, right: Option<u64>) -> bool
    ensures { result ≡ same_length left right }
{
    match (left, right) {
        (Some(n), Some(m)) => n == m,
        (None, None) => true,
        _ => false,
    }
}

/// Whether an access of the second type finds an element of the first as it was stored.
pub fn matches(of: &CType, access: &CType) -> bool
    ensures { result ≡ matches (type_of of.now) (type_of access.now) }
{
    match (of, access) {
        (CType::Int(a), CType::Int(b)) => width(*a) == width(*b),
        (CType::Pointer(_), CType::Pointer(_)) => true,
        (CType::Struct(a), CType::Struct(b)) => a == b,
        (CType::Array(a), CType::Array(b)) => {
            same_length(a.length, b.length) && matches(&a.element, &b.element)
        }
        _ => false,
    }
}

fn size_of(structs: &[StructType], of: &CType) -> u64
    ensures { result ≡ size_of (map struct_of structs.now) (type_of of.now) }
{
    match layout(of, structs) {
        Some(extent) => extent.size,
        None => 0,
    }
}

/// Where a member of this alignment begins behind so many bytes.
fn begins_at(extent: Option<Extent>, from: u64) -> u64
    ensures { result ≡ begins_at extent from }
{
    match extent {
        None => from,
        Some(extent) if extent.align == 0 => 0,
        Some(extent) => from.saturating_add(extent.align - 1) / extent.align * extent.align,
    }
}

/// Where a member of a struct or union of the table begins.
fn offset_at(structs: &[StructType], of: u32, number: u32) -> u64
    ensures { result ≡
        offset_of (map struct_of structs.now) (slice_get (map struct_of structs.now) of) number }
{
    match structs.get(of as usize) {
        Some(found) => offset_of(structs, found, number),
        None => 0,
    }
}

fn offset_of(structs: &[StructType], of: &StructType, number: u32) -> u64
    ensures { result ≡ offset_of (map struct_of structs.now) (Some (struct_of of.now)) number }
{
    match &of.members {
        None => 0,
        Some(_) if of.union => 0,
        Some(members) => offset_among(structs, members.as_slice(), number),
    }
}

fn offset_among(structs: &[StructType], members: &[(u32, CType)], number: u32) -> u64
    ensures { result ≡ offset_among (map struct_of structs.now) 0 (map (λ m. (m.0, type_of m.1)) members.now) number }
{
    let mut from = 0;
    for (i, member) in members.iter().enumerate() {
        let begins = begins_at(layout(&member.1, structs), from);
        if i == number as usize {
            return begins;
        }
        from = begins.saturating_add(size_of(structs, &member.1));
    }
    0
}
