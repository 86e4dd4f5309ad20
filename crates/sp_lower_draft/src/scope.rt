//! What lowering knows of the program, and of the function at hand.
use sp_ir::Routine;
use sp_types::{FunctionDef, ObjectDef, StructType};
use std::alloc::Global;

/// The program, and the numbers that the objects of the function at hand have.
pub struct Scope<'a> {
    pub alloc: Global,
    pub structs: &'a [StructType],
    pub objects: &'a [ObjectDef],
    pub functions: &'a [FunctionDef],
    /// Of each function the routine of the library that its name says.
    pub routines: &'a [Option<Routine>],
    /// Of each struct whether it has a leaf of pointer type.
    pub pointers: &'a [bool],
    /// The number of the function that is lowered, in the lowered program.
    pub function: u32,
    /// The number of its first temporary among the objects.
    pub first_temporary: u32,
    /// The number of the first site that a node has.
    pub first_site: u32,
}
