//! The trees of C90 programs, as the parsers answer them and the checks read them.
//!
//! A *tree* is an expression, a specifier, a declarator, a type name, an initialiser, a declaration, a statement or a unit.
//! Expressions, declarators, declarations, statements and specifiers of structs and enums have the *place* of their first token; an
//! expression also the *mark*, the place of its operator, and a statement its *end*, the place of its last token. Contracts see a tree without its pointers (`specs/Syntax.antt`, by `tree_of` and its like in `specs/View.antt`).
//!
//! `specs/` says of each tree which kinds of tokens it spells (`tokens_of`), where its places stand (`Placed`), whether the
//! grammar allows each part where it stands (`IsLevelled`), and how deep it is (`depth`). The layers above use these definitions
//! and the makers, as [`Expr::binary`], each of which answers exactly the tree that it names, or want of memory.
//!
//! So `a-b-c`, whose tokens stand in the columns 1 to 5, is the tree
//! `expression (binary Minus (expression (binary Minus a b) 1 2) c) 1 4`. It is levelled, since `-` takes operands of its own
//! level on the left; it is 3 deep; `a-(b-c)` without its parentheses is not levelled.
#![tactic(auto)]

mod declarators;
mod expressions;
mod statement;
mod tree;
mod words;

pub use statement::{External, ForClauses, Statement, StatementForm, Unit};
pub use tree::{
    Declaration, Declarator, DeclaratorForm, EnumSpec, Expr, ExprForm, Init, InitDeclarator, Param,
    Specifier, StructSpec, TypeName,
};
pub use words::{binary_level, is_assignment, is_qualifier, is_step, is_storage, is_unary};
