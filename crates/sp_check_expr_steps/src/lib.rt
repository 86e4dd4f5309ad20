//! The typing of expressions, specifiers and declarators as it is defined, and what each step of it
//! does once the parts are read (C90 6.3, 6.5.2, 6.5.4).
//!
//! The definitions are all here: `value_checked` and its like (`specs/Expressions.antt`) go over
//! the trees from left to right. Of the code here is what calls no part of the walk: what a form
//! gives behind its last part ([`operated`], [`paired`], [`call_made`]), what a declarator derives
//! ([`derived`]), and the leaves of specifiers ([`struct_opened`], [`member_added`],
//! [`next_enumerator`], [`param_told`]).
//!
//! The last part comes as its answer, and its error is that of the whole. So the walk, whose
//! functions are one cycle of calls, has a `?` only where another part follows. What it has at hand
//! there goes through [`sp_base_kept::keeping`].
//!
//! So the second `a` of `struct s { int a; char a; }` is the fault RedeclaredName at its name, and a parameter
//! of type `void` beside another is the fault IncompleteType at its declarator.
//!
//! The walk over trees (`sp_expr_check`) uses the calls. Each equals or answers the definition of
//! its name in `specs/`, or its fault.
#![tactic(auto)]

mod derivations;
mod forms;
mod specifiers;
mod values;

pub use derivations::{array_derived, derived, function_derived, made_of};
pub use forms::{argument_made, as_it_stands, as_value, cast_of, chosen, operated, paired};
pub use specifiers::{
    is_alone_in, list_told, member_added, names_type, param_told, struct_closed, struct_opened,
};
pub use values::{call_made, callee_declared, length_told, next_enumerator, size_of_type};
