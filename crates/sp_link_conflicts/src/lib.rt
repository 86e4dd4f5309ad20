//! External names that units declare in conflict (C90 6.1.2.2, 6.1.2.6, 6.7).
//!
//! A name with external linkage is one object or one function in all units of a program. Its
//! declarations have compatible types, and one unit at most defines it. Here the *declarations* of
//! a program are those of its units in order. Of each unit they are the declarators that give a
//! name its type or change it, and then its objects and its functions, with the type that all its
//! text gives them. Types of two units are compared as they stand there, structs by
//! [`sp_link_agreement`].
//!
//! So of `int a[]; extern char b; char c;` and `int a[4]; int b; char c;` the fault IncompatibleDeclaration stands at
//! the second `b`, and without `b` the fault SecondDefinition at the second `c`. The two types of `a` are
//! compatible. Behind `int a[4];` the fault of `extern int a[]; extern int a[3];` is IncompatibleDeclaration at the
//! second declarator.
//!
//! The layer above uses one contract: [`check_declarations`] answers the first fault that stands,
//! or that none does (`AreChecked` in `specs/Conflicts.antt`). Each declaration is compared with
//! all of its name before it, since compatible types need not be compatible with the same third
//! one.
#![tactic(auto)]

mod checked;
mod declarations;
mod earlier;
mod laws;
mod linkage;

pub use checked::check_declarations;
pub use laws::conflict_laws;
pub use linkage::{defines_function, defines_object, is_external};
