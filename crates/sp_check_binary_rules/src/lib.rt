//! The rules of C90 on expressions: for each form, the typed tree of the whole from those of its
//! parts, or the fault that is found there (C90 6.2 to 6.4).
//!
//! A *rule* is a constraint, a result type and the conversions of the operands. It takes parts that
//! have their types, and nothing of the scopes: these are the layer above. What a rule answers is
//! said by a definition of the same name in `specs/`, as `Checked`: `accepted` with the tree, or
//! `refused` with a kind of fault and its place. Each call here `Answers` (`sp_check_operands`) exactly
//! that, unless memory runs out.
//!
//! The definitions of all forms are here. The calls are those of casts, operators between operands,
//! assignments and arrays, and what a type says of a function; `sp_check_unary_rules` has the others.
//!
//! So `binary` on `p` and `1`, where `p` points to `int`, takes the balance of `+`: the pointer
//! stays, the integer stays, and the whole is a pointer to `int` (6.3.6). On a pointer to `void` it
//! is the fault BadOperand at the place of the whole.
#![tactic(auto)]

mod lengths;
mod rules;
mod signatures;

pub use lengths::{length_given, made_array};
pub use rules::{assign, binary, cast_to, choice, is_modifiable, not_floating};
pub use signatures::function_type;
