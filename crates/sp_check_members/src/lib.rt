//! The rules of C90 on what stands inside specifiers and declarators: members, enumeration
//! constants and parameters (C90 6.5.2.1 to 6.5.2.3, 6.5.4.3).
//!
//! Members lie one behind the other, each where its alignment divides; those of a union lie all at
//! 0. A [`MemberList`] has those that are read so far. [`completed`] gives a struct of the tables
//! its members, with its size and alignment and what else the table keeps of it. An enumeration
//! constant is a value of `int` ([`enumerator`]). A parameter of array or function type is a
//! pointer ([`adjusted`]), and a named one is declared in its list's scope.
//!
//! So `struct s { char c; int i; }` has size 8 and alignment 4, with `i` at 4. A struct of more
//! than 2^40 bytes is the fault BadLength at its specifier, one of more than 256 cells TooManyCells, one in which
//! more than 200 structs and arrays lie inside one another NestingTooDeep.
//!
//! The checks of specifiers use the calls. Each answers exactly what the definition of its name in
//! `specs/` gives, or its fault.
#![tactic(auto)]

mod enumerators;
mod extents;
mod member_list;
mod members;
mod parameters;

pub use enumerators::{enumerator, with_enum_tag};
pub use member_list::MemberList;
pub use members::{MAX_CELLS, MAX_DEPTH, begun, completed, is_open};
pub use parameters::{
    adjusted, declared_name, has_parameter_storage, is_lone_void, named_parameter, reserved,
};
