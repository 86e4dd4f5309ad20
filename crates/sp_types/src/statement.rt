//! Typed statements (C90 6.6).
use crate::TypedExpr;
use sp_tree::Place;

/// A statement with the place of its first token and that of its last, its end.
#[derive(Drop)]
#[cycle(typed_statement)]
pub struct TypedStatement {
    pub form: TypedStatementForm,
    pub place: Place,
    pub end: Place,
}

/// The forms of typed statements.
#[derive(Drop)]
#[cycle(typed_statement)]
pub enum TypedStatementForm {
    /// A label, by the number of its name, and the statement that it stands before.
    Label(u32, Box<TypedStatement>),
    /// `case`, with its value converted to the promoted type of its `switch`.
    Case(i128, Box<TypedStatement>),
    Default(Box<TypedStatement>),
    /// The numbers of the objects that the block declares, in the order of their declarators, and its statements.
    Block(Vec<u32>, Vec<TypedStatement>),
    Empty,
    /// An expression, whose value isn't used.
    Of(Box<TypedExpr>),
    If(Box<TypedExpr>, Box<TypedStatement>, Option<Box<TypedStatement>>),
    Switch(Box<TypedExpr>, Box<TypedStatement>),
    While(Box<TypedExpr>, Box<TypedStatement>),
    Do(Box<TypedStatement>, Box<TypedExpr>),
    For(
        Option<Box<TypedExpr>>,
        Option<Box<TypedExpr>>,
        Option<Box<TypedExpr>>,
        Box<TypedStatement>,
    ),
    Goto(u32),
    Continue,
    Break,
    Return(Option<Box<TypedExpr>>),
}
