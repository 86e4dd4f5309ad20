//! Checked units.

use sp_tree::Place;
use sp_types::{CType, FunctionDef, ObjectDef, StructType};

/// A declarator that gives an external name its type, or changes it (C90 6.1.2.6).
#[derive(Drop)]
pub struct Typing {
    /// The number of the name.
    pub name: u32,
    /// The type that it has from there on: the composite of those that are declared by then.
    pub of: CType,
    /// Where the name stands.
    pub place: Place,
}

/// A unit whose declarations are checked.
#[derive(Drop)]
pub struct CheckedUnit {
    pub structs: Vec<StructType>,
    pub objects: Vec<ObjectDef>,
    pub functions: Vec<FunctionDef>,
    /// The values of the constants of the text, for the threshold ladder.
    pub constants: Vec<i128>,
    /// The numbers of the functions that are defined, in the order of their text.
    pub definitions: Vec<u32>,
    /// The types of external names, in the order of the text.
    pub typings: Vec<Typing>,
}
