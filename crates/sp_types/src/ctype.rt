//! Types (C90 6.1.2.5), with qualifiers left aside.
ghost use Rattle.std.specs.Prelude.{◌≡◌};
ghost use Rattle.sp_types.specs.Arithmetic.{promoted_kind, common_kind};

use std::rc::Rc;

/// A type. An enumeration is `Int(Int)`, since C90 6.5.2.2 lets each be compatible with `int`. A
/// copy shares what the type is derived from, which no call changes.
#[derive(Drop)]
#[cycle(ctype)]
pub enum CType {
    Void,
    Int(IntKind),
    Float(FloatKind),
    Pointer(Rc<CType>),
    Array(Rc<ArrayType>),
    /// A struct or a union, by its number in the table of structs.
    Struct(u32),
    Function(Rc<Signature>),
}

/// The type of an array (C90 6.5.4.2): that of its elements, and how many it has where that is
/// known.
#[derive(Drop)]
#[cycle(ctype)]
pub struct ArrayType {
    pub element: Rc<CType>,
    pub length: Option<u64>,
}

/// The type of a function (C90 6.5.4.3): its result, its parameters where it has a prototype, and whether more arguments may
/// follow them.
#[derive(Drop)]
#[cycle(ctype)]
pub struct Signature {
    pub result: CType,
    pub params: Option<Vec<CType>>,
    pub variadic: bool,
}

/// The integer types (C90 6.1.2.5). `char` holds what `signed char` holds; `short` has 16 bits, `int` 32, `long` 64.
#[derive(Clone, Copy, Debug, PartialEq, Eq)]
pub enum IntKind {
    Char,
    SChar,
    UChar,
    Short,
    UShort,
    Int,
    UInt,
    Long,
    ULong,
}

/// The floating types (C90 6.1.2.5).
#[derive(Clone, Copy, Debug, PartialEq, Eq)]
pub enum FloatKind {
    Float,
    Double,
    LongDouble,
}

/// The integral promotion (C90 6.2.1.1).
pub fn promote(kind: IntKind) -> IntKind
    ensures { result ≡ promoted_kind kind }
{
    match kind {
        IntKind::UInt => IntKind::UInt,
        IntKind::Long => IntKind::Long,
        IntKind::ULong => IntKind::ULong,
        _ => IntKind::Int,
    }
}

/// The usual arithmetic conversions on integers (C90 6.2.1.5).
pub fn common(left: IntKind, right: IntKind) -> IntKind
    ensures { result ≡ common_kind left right }
{
    match (promote(left), promote(right)) {
        (IntKind::ULong, _) | (_, IntKind::ULong) => IntKind::ULong,
        (IntKind::Long, _) | (_, IntKind::Long) => IntKind::Long,
        (IntKind::UInt, _) | (_, IntKind::UInt) => IntKind::UInt,
        _ => IntKind::Int,
    }
}
