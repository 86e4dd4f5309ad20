//! Commands and nodes.
use crate::{Expr, Lvalue};
use sp_tree::{Place, Punct};

/// The functions of the library that have an effect of their own (C90 7.10, 7.11).
#[derive(Clone, Copy, Debug, PartialEq, Eq)]
pub enum Routine {
    Malloc,
    Calloc,
    Realloc,
    Free,
    Exit,
    Abort,
    Memset,
    Memcpy,
    Memmove,
    Strlen,
    Strcpy,
    Strncpy,
    Strcat,
}

/// A scalar leaf of an object that is given a value (C90 6.5.7).
#[derive(Drop)]
pub struct Leaf {
    /// Its number in the order of declaration.
    pub number: u64,
    /// The region of its cell.
    pub cell: u32,
    pub value: Expr,
}

/// What a node does.
#[derive(Drop)]
pub enum Command {
    /// The program begins: static objects get their start values.
    Start,
    /// A function, by its number, begins.
    Entry {
        function: u32,
    },
    /// A function, by its number, ends.
    Exit {
        function: u32,
    },
    /// Nothing.
    Skip,
    /// A scalar is assigned.
    Assign {
        to: Lvalue,
        value: Expr,
    },
    /// A struct or a union is assigned.
    Copy {
        to: Lvalue,
        from: Lvalue,
    },
    /// An automatic array, struct or union is initialised: the leaves with a value, and the cells
    /// with a leaf that has none.
    Init {
        object: u32,
        values: Vec<Leaf>,
        zero: Vec<u32>,
    },
    /// Control goes on only where the relation holds.
    Assume {
        left: Expr,
        op: Punct,
        right: Expr,
    },
    /// An expression whose value isn't used.
    Eval(Expr),
    /// A function is called.
    Call {
        callee: Expr,
        args: Vec<Expr>,
    },
    /// The call of this node returns, and its result goes there.
    Return {
        call: u32,
        to: Option<Lvalue>,
    },
    /// A function of the library is called; `site` is the object that it allocates.
    Library {
        which: Routine,
        to: Option<Lvalue>,
        args: Vec<Expr>,
        site: Option<u32>,
    },
    /// Another function that isn't defined is called; `site` is where a pointer from it points.
    Outside {
        to: Option<Lvalue>,
        args: Vec<Expr>,
        site: Option<u32>,
    },
}

/// A node: a command, the place that it comes from, and the function that it is of.
#[derive(Drop)]
pub struct Node {
    pub command: Command,
    pub place: Place,
    /// `None` for the start node alone.
    pub function: Option<u32>,
}
