//! Statements, external declarations and units (C90 6.6, 6.7).

use crate::{Declaration, Declarator, Expr, Specifier};
use sp_tree::Place;

/// A statement (C90 6.6).
#[derive(Drop)]
#[cycle(statement)]
pub struct Statement {
    pub form: StatementForm,
    /// The place of its first token.
    pub place: Place,
    /// The place of its last token.
    pub end: Place,
}

/// What stands between the parentheses of a `for` (C90 6.6.5.3), each of the three where it is given.
#[derive(Drop)]
pub struct ForClauses {
    /// What is evaluated before the first turn.
    pub start: Option<Expr>,
    /// What is tested before each turn.
    pub test: Option<Expr>,
    /// What is evaluated behind each turn.
    pub step: Option<Expr>,
}

/// The forms of statements (C90 6.6.1 to 6.6.6).
#[derive(Drop)]
#[cycle(statement)]
pub enum StatementForm {
    /// `name: s`
    Label(u32, Box<Statement>),
    /// `case e: s`
    Case(Expr, Box<Statement>),
    /// `default: s`
    Default(Box<Statement>),
    /// `{ .. }`: the declarations, then the statements.
    Block(Vec<Declaration>, Vec<Statement>),
    /// `;`
    Empty,
    /// `e;`
    Of(Expr),
    /// `if (e) s` and `if (e) s else s`
    If(Expr, Box<Statement>, Option<Box<Statement>>),
    /// `switch (e) s`
    Switch(Expr, Box<Statement>),
    /// `while (e) s`
    While(Expr, Box<Statement>),
    /// `do s while (e);`
    Do(Box<Statement>, Expr),
    /// `for (e; e; e) s`
    For(Box<ForClauses>, Box<Statement>),
    /// `goto name;`
    Goto(u32),
    /// `continue;`
    Continue,
    /// `break;`
    Break,
    /// `return;` and `return e;`
    Return(Option<Expr>),
}

/// An external declaration (C90 6.7).
#[derive(Drop)]
pub enum External {
    /// The definition of a function: specifiers, declarator and body. The body is a block.
    Function(Vec<Specifier>, Declarator, Statement),
    Declaration(Declaration),
    /// A `;` alone.
    Empty,
}

/// The external declarations of one text, in order (C90 6.7).
#[derive(Drop)]
pub struct Unit {
    pub items: Vec<External>,
}
