//! Entries of a program, and numbers of units.
use sp_types::{CType, FunctionDef, ObjectDef, Signature};
use std::rc::Rc;

/// An object of the program: its type there, and the declaration that tells all else, with the
/// number of its unit, and whether its struct is incomplete in that unit.
#[derive(Drop)]
pub struct ObjectEntry<'a> {
    pub of: CType,
    pub incomplete: bool,
    pub source: &'a ObjectDef,
    pub unit: u32,
}

/// A function alike.
#[derive(Drop)]
pub struct FunctionEntry<'a> {
    pub of: Rc<Signature>,
    pub source: &'a FunctionDef,
    pub unit: u32,
}

/// The program's number of each struct, object and function of a unit.
#[derive(Drop)]
pub struct UnitNumbers {
    pub structs: Vec<u32>,
    pub objects: Vec<u32>,
    pub functions: Vec<u32>,
}
