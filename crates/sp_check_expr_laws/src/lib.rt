//! What the checks of expressions accept is well typed (C90 6.3).
//!
//! In a sound environment the tree that the checks give of an expression is typed as `sp_check_typing`
//! says: each operand has a type of the sort that its operator takes, conversions are written out,
//! and what is named is there and visible. The environment behind it is sound again, and trees that
//! were typed before stay so. Where the value of an expression is checked, arrays that are lvalues
//! and functions have become pointers, and a struct is complete. So in `struct s { int a[3]; } *p;`
//! the value of `p->a` is the array, decayed to a pointer to its first `int`, whose size is 4.
//!
//! The trees are those that a text can have: numbers are below 2 ^ 64, characters are ints, unary
//! and binary operators stand where the grammar has them, and the braces of a struct hold a member.
//! Literals are bytes.
//!
//! It computes nothing: a layer that rests on the law calls [`expressions_are_typed`] and has it
//! from its contract.
#![tactic(auto)]

mod laws;

pub use laws::expressions_are_typed;
