//! The rules of C90 on expressions of one operand: indices, members, calls, steps and unary
//! operators (C90 6.3.2, 6.3.3).
//!
//! Each call takes parts that have their types, and `Answers` (`sp_check_operands`) exactly what the
//! definition of its name in `specs/Rules.antt` of `sp_check_binary_rules` gives: the typed tree of the whole,
//! or the fault that is found there.
//!
//! So `followed` on `p`, which points to `int`, is the lvalue `*p` of type `int` (6.3.3.2). On a
//! pointer to `void` it is the fault BadOperand at the place of the whole.
#![tactic(auto)]

mod calls;
mod postfix;
mod unary;

pub use calls::{argument_at, called, called_signature};
pub use postfix::{arrow_taken, indexed, member_taken, stepped_after};
pub use unary::{addressed, followed, takes_object, unary_object, unary_value};
