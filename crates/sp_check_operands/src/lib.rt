//! What the operators of C90 take, and what their operands are converted to (C90 6.2, 6.3).
//!
//! A type is an object type, a scalar type, complete and so on ([`is_object`] and its like,
//! 6.1.2.5). A typed expression is an lvalue or not, and where its value is taken, an array or a
//! function becomes a pointer ([`value`], 6.2.2.1). A *balance* is the two types that the operands
//! of a binary operator are converted to, with the type of the whole: [`binary_balance`] has it for
//! each operator and two types, and `None` where the operator doesn't take them.
//!
//! So `+` of `p`, which points to `int`, and of the `char` 'a' has the balance in which `p` stays,
//! the character becomes an `int`, and the whole points to `int` (6.3.6).
//!
//! The rules on expressions (`sp_check_binary_rules`) use the calls, each of which equals the
//! definition of its name in `specs/`.
#![tactic(auto)]

mod conversions;
mod operands;

pub use conversions::{
    converted, is_array, is_complete, is_floating, is_function, is_lvalue, is_object, is_scalar,
    is_void, promoted_type, value,
};
pub use operands::{
    Balance, are_moved_whole, binary_balance, can_move, choice_type, compound_type, element_type,
};
