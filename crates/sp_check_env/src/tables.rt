//! The tables of a unit.

use sp_base_checked::Typing;
use sp_types::{FunctionDef, ObjectDef, StructType};

/// What a unit declares, in the order of its text. Structs, objects and functions are named by
/// their numbers here.
#[derive(Drop)]
pub struct UnitTables {
    pub structs: Vec<StructType>,
    pub objects: Vec<ObjectDef>,
    pub functions: Vec<FunctionDef>,
    /// The values of the constants of the text, of `sizeof` and of array lengths.
    pub constants: Vec<i128>,
    /// The types of external names, each with the declarator that gives it.
    pub typings: Vec<Typing>,
}
