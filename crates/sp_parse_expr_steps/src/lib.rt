//! The steps of the readers of C90's expressions, type names, specifiers and declarators (C90 6.3,
//! 6.5): what a production does once its parts are read.
//!
//! The definitions are all here. `Answers` (specs/Reading.antt) is what a reader answers for an
//! *ask* of the grammar's table: a part that the table reads for it, as deep as said, or where that
//! ends. specs/Declaring.antt has what waits for the token after it, and lists. How far a reading
//! has come is a state (specs/States.antt); the lemmas lead from one state to the next, production
//! by production. Of the code here is what calls no reader of the cycle: tests of a token by its
//! sort, makers of trees and of declarators, and the readers of names, constants, strings and
//! qualifiers.
//!
//! So from `"a" "b"+c` the reader of leaves makes the string of two parts, with `+c` left; and
//! behind the `*` of `* const p` the qualifiers are `const`, with `p` left.
//!
//! The readers that call one another (`sp_parse_expr_reader`), and those of declarations and statements above
//! them, use the definitions, the lemmas and the calls. Each call equals the definition of its name,
//! or is read as its ask says.
#![tactic(auto)]

mod declarators;
mod expressions;
mod levels;
mod primaries;
mod specifiers;

pub use declarators::{
    absent, array_of, begins_array, begins_deeper, begins_inner, begins_parameters, begins_part,
    closed, function_of, group_fault, grouped, head_name, length_allowed, named, pointed,
    read_head, read_qualifiers,
};
pub use expressions::{
    ASSIGNMENT, COMMA, CONDITIONAL, as_operand, begins_nested, call_allowed, is_prefix, is_suffix,
    joined, punct_of, read_member_or_step,
};
pub use levels::next_level;
pub use primaries::read_operand;
pub use specifiers::{
    enumeration, is_either, is_too_deep, item_of, structure, tagged_enumeration, tagged_structure,
    type_allowed, word_specifier,
};
