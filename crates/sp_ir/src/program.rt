//! Objects, functions and lowered programs.
use crate::{Leaf, Node, Regions};
use sp_types::{CType, StructType};

/// What an object is.
#[derive(Clone, Copy, Debug, PartialEq, Eq)]
pub enum ObjectKind {
    /// Static, and defined in the program.
    Static,
    /// Static, and declared but defined nowhere.
    Outside,
    /// A string literal.
    Text,
    /// Automatic, of a block.
    Auto,
    /// A parameter.
    Formal,
    /// A temporary of the lowering.
    Temp,
    /// The result of a function.
    Result,
    /// A function, by its number in the checked program, which counts undefined ones too.
    Function(u32),
    /// What the library's allocation at a node gives.
    Heap(u32),
    /// Where a pointer from outside the program points, by the node; node 0 for `main`'s formals.
    Foreign(u32),
}

/// An object, named by its number in its program.
#[derive(Drop)]
pub struct Object {
    pub kind: ObjectKind,
    /// Its type; `None` for a site whose elements have no type.
    pub of: Option<CType>,
    /// The bytes by which a report names it.
    pub name: Vec<u8>,
    /// The function that it is of, where it is automatic, a formal, a temporary or a result.
    pub function: Option<u32>,
    /// The start values of a static object or a string.
    pub start: Vec<Leaf>,
    /// The cells of a static object or a string with a leaf that has no start value.
    pub zero: Vec<u32>,
    /// The number in `Lowered::functions` of the function that it is, where that is defined.
    pub code: Option<u32>,
}

/// A defined function.
#[derive(Drop)]
pub struct Code {
    pub entry: u32,
    pub exit: u32,
    /// The objects of its parameters, in their order.
    pub formals: Vec<u32>,
    /// The object of its result, where it has one.
    pub result: Option<u32>,
    /// The object that it is itself.
    pub object: u32,
}

/// A lowered program. Objects, regions, functions, nodes and structs are named by their numbers in
/// these lists.
#[derive(Drop)]
pub struct Lowered {
    pub structs: Vec<StructType>,
    pub objects: Vec<Object>,
    pub regions: Regions,
    /// The defined functions, in the order of units and text.
    pub functions: Vec<Code>,
    /// Node 0 is the start node.
    pub nodes: Vec<Node>,
    /// The edges inside functions.
    pub flow: Vec<(u32, u32)>,
    /// The values of the constants of the text, for the threshold ladder.
    pub constants: Vec<i128>,
    /// The number in `functions` of the function that the program starts with.
    pub main: u32,
}
