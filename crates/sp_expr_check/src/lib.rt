//! The checks of expressions and type names: each has a typed tree, or a fault that stands (C90
//! 6.3, 6.5.5).
//!
//! [`check_expression`] takes the tree of an expression and the environment of its unit
//! ([`sp_check_env`]) and gives the typed tree of its value, in which every conversion of C90 is written
//! out. It walks the tree from left to right. Strings, constants and functions that are declared by
//! their call go to the tables on the way. [`check_specifiers`] and [`check_declarator`] give the
//! types that specifiers and declarators name; of the parts of a declarator [`check_length`] gives
//! the length of an array, and [`check_list`] the types of a function's parameters. Each form of tree
//! has one rule, which stands below (`sp_check_binary_rules`, `sp_check_unary_rules`, `sp_check_primaries`, `sp_check_type_names`,
//! `sp_check_members`, `sp_check_expr_steps`): here are the calls that walk.
//!
//! So for `char *p` the expression `*p + 1` is, without places, `binary + (convert (unary * p) int)
//! 1` of type `int`; on `p + q`, with two pointers, it is the fault BadOperand at `p`.
//!
//! The layer above uses one contract: each call answers exactly what the definition of its name in
//! `specs/Expressions.antt` of `sp_check_expr_steps` gives, or its fault at its place; where memory runs
//! out it says nothing.
#![tactic(auto)]

mod checks;
mod expressions;

pub use checks::{check_declarator, check_expression, check_length, check_list, check_specifiers};
