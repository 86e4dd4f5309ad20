//! The lists of expressions and declarations (C90 6.3.2.2, 6.5.2, 6.5.4.3), but for what the
//! readers of `sp_parse_expr_reader` read of their items.
//!
//! Those readers call one another, and the proof of such a cycle grows with its functions and the
//! calls in them. So the reader of a list there is a loop: an item is read, and the *answer* of the
//! last reader that it takes, an error too, goes to a call of this crate. That adds the item to
//! what is *listed* so far, and says whether another comes. The lists are arguments, parameters,
//! the members of a structure and their declarators, and the constants of an enumeration.
//!
//! So behind the `(` of `f(a,b+1);` the reader of expressions answers `a`, with `,b+1);` left.
//! [`with_argument`] lists it and goes on behind the comma; after `b+1` it says that no other
//! comes. The *head* of a body ([`specifier_head`]) is what is before it, as the `e{` of `enum
//! e{A,B=2}`.
//!
//! Each contract says: where the answer is right for the item (`Answers`, `IsGiven` and
//! `IsDeclared` of `sp_parse_expr_steps`), the list is right so far (`HasArguments`, `HasParameters`,
//! `HasMembers`, `HasItems`, `HasConstants` of specs/), and at its end right for the whole. Some
//! arguments are read by contracts alone: the tokens, the word and the head of what is listed.
#![tactic(auto)]

mod arguments;
mod constants;
mod heads;
mod items;
mod lists;
mod members;
mod parameters;

pub use arguments::{no_arguments, with_argument};
pub use constants::{
    ConstantName, closed_enumeration, constant_name, no_constants, valued, with_constant,
};
pub use heads::{Body, Head, specifier_head, whole_specifier};
pub use items::{Member, closed_member, member_of, with_item};
pub use lists::Listed;
pub use members::{closed_structure, inside_structure, no_members, with_member};
pub use parameters::{ParameterList, no_parameters, with_parameter};
