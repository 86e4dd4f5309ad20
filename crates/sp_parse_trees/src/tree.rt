//! Expressions, declarations and what they are made of (C90 6.3, 6.5).
//!
//! These types contain each other: an expression has type names, they have structs, those have declarations, and a length or an
//! initialiser is an expression.
//!
//! A *place* in a tree is that of the part's first token, unless its comment says otherwise.

use sp_tree::{Keyword, Number, Place, Punct};

/// An expression (C90 6.3).
#[derive(Drop)]
#[cycle(tree)]
pub struct Expr {
    pub form: ExprForm,
    /// The place of its first token.
    pub place: Place,
    /// The place of its operator: the `[`, `(` and `?` of an index, a call and a choice. Without an operator it is `place`.
    pub mark: Place,
}

/// The forms of expressions (C90 6.3.1 to 6.3.17).
#[derive(Drop)]
#[cycle(tree)]
pub enum ExprForm {
    /// An identifier, by its number in [`sp_tree::Names`].
    Name(u32),
    /// An integer constant.
    Number(Number),
    /// A character constant, by its value.
    Char(i64),
    /// Adjacent string literals, one or more: the numbers in [`sp_tree::Names`] of their bytes.
    Text(Vec<u32>),
    /// `(e)`
    Paren(Box<Expr>),
    /// `a[i]`
    Index(Box<Expr>, Box<Expr>),
    /// `f(a, b)`
    Call(Box<Expr>, Vec<Expr>),
    /// `s.m`
    Member(Box<Expr>, u32),
    /// `p->m`
    Arrow(Box<Expr>, u32),
    /// `e++` and `e--`
    After(Punct, Box<Expr>),
    /// An operator before its operand: `++`, `--`, `&`, `*`, `+`, `-`, `~`, `!`.
    Unary(Punct, Box<Expr>),
    /// `sizeof e`
    SizeofExpr(Box<Expr>),
    /// `sizeof(T)`
    SizeofType(Box<TypeName>),
    /// `(T)e`
    Cast(Box<TypeName>, Box<Expr>),
    /// An operator between its operands, from `||` to `%`.
    Binary(Punct, Box<Expr>, Box<Expr>),
    /// `a ? b : c`
    Choice(Box<Expr>, Box<Expr>, Box<Expr>),
    /// `=` and the assignments with an operator.
    Assign(Punct, Box<Expr>, Box<Expr>),
    /// `a, b`
    Comma(Box<Expr>, Box<Expr>),
}

/// One word of a list of specifiers (C90 6.5.1 to 6.5.3), or a whole specifier of a struct, a union or an enum.
#[derive(Drop)]
#[cycle(tree)]
pub enum Specifier {
    /// `typedef`, `extern`, `static`, `auto` or `register`.
    Storage(Keyword),
    /// `const` or `volatile`.
    Qualifier(Keyword),
    /// A word of an arithmetic type, or `void`.
    Basic(Keyword),
    /// The name of a type, which a `typedef` declared.
    Named(u32),
    Struct(Box<StructSpec>),
    Enum(Box<EnumSpec>),
}

/// A specifier of a struct or a union (C90 6.5.2.1). It has a tag, or members, or both.
#[derive(Drop)]
#[cycle(tree)]
pub struct StructSpec {
    /// Whether it is a union.
    pub union: bool,
    pub tag: Option<u32>,
    /// The declarations between the braces, one or more; `None` where there are no braces.
    pub members: Option<Vec<Declaration>>,
    /// The place of `struct` or `union`.
    pub place: Place,
}

/// A specifier of an enum (C90 6.5.2.2). It has a tag, or constants, or both.
#[derive(Drop)]
#[cycle(tree)]
pub struct EnumSpec {
    pub tag: Option<u32>,
    /// The constants between the braces, one or more, each with its name, the place of its name and its value where one is
    /// given; `None` where there are no braces.
    pub constants: Option<Vec<(u32, Place, Option<Expr>)>>,
    /// The place of `enum`.
    pub place: Place,
}

/// A declarator (C90 6.5.4, 6.5.5).
#[derive(Drop)]
#[cycle(tree)]
pub struct Declarator {
    pub form: DeclaratorForm,
    /// The place of its first token; for an absent declarator, which has none, that of the token after it.
    pub place: Place,
}

/// The forms of declarators (C90 6.5.4, 6.5.5). They are read from the name outwards: `*a[3]` is a pointer's declarator round that of
/// an array.
#[derive(Drop)]
#[cycle(tree)]
pub enum DeclaratorForm {
    /// No token: where a type name or a parameter has no name.
    Absent,
    /// The name that is declared.
    Name(u32),
    /// `(d)`
    Paren(Box<Declarator>),
    /// `* const d`: the qualifiers behind the star, and the declarator behind them.
    Pointer(Vec<Keyword>, Box<Declarator>),
    /// `d[3]` and `d[]`
    Array(Box<Declarator>, Option<Box<Expr>>),
    /// `d(int, char *)`, with the parameters and whether `...` ends them.
    Function(Box<Declarator>, Vec<Param>, bool),
}

/// A parameter of a function's declarator (C90 6.5.4.3).
#[derive(Drop)]
#[cycle(tree)]
pub struct Param {
    pub specifiers: Vec<Specifier>,
    pub declarator: Declarator,
}

/// A type name (C90 6.5.5). Its declarator has no name.
#[derive(Drop)]
#[cycle(tree)]
pub struct TypeName {
    pub specifiers: Vec<Specifier>,
    pub declarator: Declarator,
}

/// An initialiser (C90 6.5.7).
#[derive(Drop)]
#[cycle(tree)]
pub enum Init {
    One(Expr),
    /// The initialisers between braces, one or more, and whether a comma stands before the `}`.
    List(Vec<Init>, bool),
}

/// A declarator of a declaration, with its initialiser where one is given.
#[derive(Drop)]
#[cycle(tree)]
pub struct InitDeclarator {
    pub declarator: Declarator,
    pub start: Option<Init>,
}

/// A declaration (C90 6.5), also of a struct's members.
#[derive(Drop)]
#[cycle(tree)]
pub struct Declaration {
    pub specifiers: Vec<Specifier>,
    pub items: Vec<InitDeclarator>,
    /// The place of its first token.
    pub place: Place,
}
