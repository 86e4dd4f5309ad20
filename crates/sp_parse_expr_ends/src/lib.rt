//! The closings of the readers of C90's expressions, type names, specifiers and declarators (C90
//! 6.3, 6.5): what a production does with the answer of the last reader that it calls.
//!
//! The readers of `sp_parse_expr_reader` call one another, and the proof of such a cycle grows with the calls
//! in it. So what stands behind the last reader of a production is a call of this crate. It takes
//! the *answer* of that reader: an error is the production's own; from a part it goes on to the
//! closing mark, and makes the tree.
//!
//! So behind the `[` of `a[i]+b` the reader of expressions answers `i`, with `]+b` left. Of that
//! answer [`indexed`] makes `a[i]`, with `+b` left.
//!
//! Each contract says: where the answer is right for the inner production (`Answers` of
//! `sp_parse_expr_steps`), the call's answer is right for the outer one. The tokens and the depth are those
//! that the reader was given; contracts speak of them.
#![tactic(auto)]

mod conversions;
mod declarators;
mod expressions;

pub use conversions::{
    converted, grouped_operand, measured, measured_group, measured_type, unary_operand,
    until_target,
};
pub use declarators::{
    absent_function, arrayed, enclosed, given_length, parameter_named, parametered, pointing,
    type_named,
};
pub use expressions::{
    assigned, called, chosen, closed_group, indexed, prefixed, prefixed_unary, until_colon,
};
