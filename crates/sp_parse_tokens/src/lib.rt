//! What the readers of C90 share: the tokens as the grammar tells them apart, the words of a list
//! of specifiers, the names of types, and the kinds of faults (C90 6.1, 6.3 to 6.7).
//!
//! A *sort* ([`Sort`]) is what the grammar's table tells of a token: names by their numbers, binary
//! operators by their levels, most others as a [`Mark`] of their own. A name is a type name where
//! [`TypeNames`] holds it. A *part* ([`Part`]) is what a reader read: a tree, how deep it is, and
//! the tokens left; a [`ReadError`] says why nothing was read. A part is read in a [`Context`].
//!
//! The grammar is the table of `sp_parse_grammar`, taken over the trees of `sp_parse_trees` (`syntax_trees`,
//! `c_table`, specs/SyntaxTrees.antt) and the tokens of `sp_tree` (`sort_of`, `c_tokens`,
//! specs/Sorts.antt), with how deep each answer is (`c_depths`, specs/Depths.antt) and the kind of
//! each fault (`fault_of`, specs/Faults.antt). An absent declarator has the place of the token
//! after it; until that is known it is *pending*, and `settle` gives it its place
//! (specs/Makers.antt).
//!
//! For example in `int f(a)int a;{return a;}` the failing token is the first `a`, since only a
//! parameter or `)` may be there: what might also be there is a parameter, so its fault is OldStyleParameters; in
//! `long const long x;` it is the second `long`, and the fault is LongLong ([`refined`]).
//!
//! The layer above uses `sort_of`, `c_table`, `c_depths` and `fault_of` in its contracts, and the
//! calls below.
#![tactic(auto)]

mod ended;
mod faults;
mod part;
mod scope;
mod sorts;
mod type_names;
mod words;

pub use ended::is_ended;
pub use faults::refined;
pub use part::{
    DeclaratorKind, Declared, DeclaredShape, MemberDeclarators, Operand, ParameterPart, Parameters,
    Part, ReadError, SpecifierList, TypeNamePart, expect, fault, next_token,
};
pub use scope::{AlsoAllowed, Context, Scope, kind_for};
pub use sorts::{
    Mark, Sort, TypeWord, begins_expression, continues_level, is_mark, is_specifier, looseness,
    sort_at,
};
pub use type_names::TypeNames;
pub use words::{NOTHING, Words, add_specifier, begins_specifiers, is_typed};
