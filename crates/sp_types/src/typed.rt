//! Typed expressions: the trees of the parser with types, and with each conversion of C90 written out.

use crate::{CType, WideInt};
use sp_tree::{Number, Place, Punct};

/// An expression with its type. Its place is that of its first token, its mark that of its operator.
#[derive(Drop)]
#[cycle(typed)]
pub struct TypedExpr {
    pub form: TypedForm,
    pub of: CType,
    pub place: Place,
    pub mark: Place,
}

/// The forms of typed expressions. What a `Convert`, a `Decay` or a `Cast` converts to is the type of the whole.
#[derive(Drop)]
#[cycle(typed)]
pub enum TypedForm {
    Number(Number),
    Char(i64),
    /// An enumeration constant, or the value of a `sizeof`.
    Constant(WideInt),
    /// An object, by its number.
    Object(u32),
    /// A function, by its number.
    Function(u32),
    /// A conversion that C90 makes without a cast.
    Convert(Box<TypedExpr>),
    /// An array or a function as a pointer (C90 6.2.2.1).
    Decay(Box<TypedExpr>),
    Index(Box<TypedExpr>, Box<TypedExpr>),
    Call(Box<TypedExpr>, Vec<TypedExpr>),
    /// A member of a struct or a union, by the number of its name.
    Member(Box<TypedExpr>, u32),
    /// The same through a pointer.
    Arrow(Box<TypedExpr>, u32),
    /// `++` or `--` after its operand.
    After(Punct, Box<TypedExpr>),
    Unary(Punct, Box<TypedExpr>),
    Cast(Box<TypedExpr>),
    Binary(Punct, Box<TypedExpr>, Box<TypedExpr>),
    Choice(Box<TypedExpr>, Box<TypedExpr>, Box<TypedExpr>),
    Assign(Punct, Box<TypedExpr>, Box<TypedExpr>),
    Comma(Box<TypedExpr>, Box<TypedExpr>),
}
