//! Objects, functions and programs.
use crate::{CType, Signature, StructType, TypedExpr, TypedStatement};
use sp_tree::Place;
use std::rc::Rc;

/// How an object is stored (C90 6.1.2.4).
#[derive(Clone, Copy, Debug, PartialEq, Eq)]
pub enum Storage {
    /// Static, and defined in the program.
    Static,
    /// Static, and declared but defined nowhere.
    Outside,
    /// A string literal.
    Text,
    /// Automatic, of a block.
    Auto,
    /// A parameter.
    Formal,
}

/// Which declarations of a name speak of one entity (C90 6.1.2.2).
#[derive(Clone, Copy, Debug, PartialEq, Eq)]
pub enum Linkage {
    /// Those of all units.
    External,
    /// Those of one unit.
    Internal,
    /// Each by itself: the name has no linkage.
    Inner,
}

/// An object.
#[derive(Drop)]
pub struct ObjectDef {
    /// The number of its name; of a string literal 0, which isn't read.
    pub name: u32,
    pub of: CType,
    pub storage: Storage,
    pub linkage: Linkage,
    /// Its start values: the numbers of scalar leaves, counted in the order of declaration, each with its value. An automatic
    /// struct that one expression of its type initialises has that expression alone, at number 0.
    pub start: Vec<(u64, TypedExpr)>,
    /// Where its declarator's name stands.
    pub place: Place,
}

/// A function.
#[derive(Drop)]
pub struct FunctionDef {
    /// The number of its name.
    pub name: u32,
    /// Its type, which expressions that name it share.
    pub of: Rc<Signature>,
    pub linkage: Linkage,
    /// The objects of its parameters, in their order.
    pub formals: Vec<u32>,
    /// The objects of its blocks, in the order of their declarators.
    pub locals: Vec<u32>,
    /// `None` where the function is declared and not defined.
    pub body: Option<TypedStatement>,
    /// Where its declarator's name stands.
    pub place: Place,
    /// Where the `}` of its body stands; of a function that isn't defined its place.
    pub end: Place,
}

/// A checked and linked program. Objects, functions and structs are named by their numbers in these lists.
#[derive(Drop)]
pub struct Program {
    pub structs: Vec<StructType>,
    pub objects: Vec<ObjectDef>,
    pub functions: Vec<FunctionDef>,
    /// The functions that are defined, in the order of their text.
    pub definitions: Vec<u32>,
    /// The values of the constants of the text, for the threshold ladder.
    pub constants: Vec<i128>,
    /// The function that the program starts with.
    pub main: u32,
}
