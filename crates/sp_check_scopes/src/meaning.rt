//! What names and tags stand for.

use sp_types::CType;

/// What a name stands for (C90 6.1.2).
#[derive(Drop)]
pub enum Meaning {
    /// An object, by its number in the tables of the unit.
    Object(u32),
    /// A function, by its number in the tables of the unit.
    Function(u32),
    /// An enumeration constant, by its value.
    Constant(i128),
    /// A type, by a `typedef`.
    Named(CType),
}

/// What a tag stands for (C90 6.5.2.3).
#[derive(Clone, Copy, Debug, PartialEq, Eq)]
pub enum Tag {
    /// A struct or a union, by its number in the table of structs.
    Struct(u32),
    Enum,
}
