//! Declarations of objects, functions and types, in a block and at file scope (C90 6.5, 6.7.2).
//!
//! The specifiers of a declaration are read once; then each declarator comes in order, with its
//! initialiser. Its name is that of a *type* (`typedef`), of a *function*, as its own derivation or
//! the type that its specifiers name tells before the type is read, or of an *object*. An object's
//! entry is reserved, its type read, the name declared; then its initialiser stands in the scope of
//! the name.
//!
//! So in a block `static int a[] = {1, 2}, f(void), *p = a;` is the fault BadOperand at `static`, since a
//! block declares no static function. Without `f` it lists two objects, of the types
//! `int[2]` and `int*`.
//!
//! The layer above uses [`check_declaration`]. It answers exactly what `declaration_checked` in
//! `specs/Declarations.antt` gives: the numbers of the objects without linkage, which a block
//! lists, and the environment behind it, or the fault that stands.
#![tactic(auto)]

mod declarations;
mod objects;
mod words;

pub use declarations::check_declaration;
pub use words::{is_floating_array, storage_class};
