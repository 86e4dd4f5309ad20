//! Which typed trees are well typed, as far as lowering asks (C90 6.3).
//!
//! The checks give each tree its types by the rules of C90. Lowering rests on less: that operands
//! have types of the sorts that their operators take, that conversions are written out, that what
//! is named is there, and that what is moved or kept has a size. That is `IsTyped`
//! (specs/Trees.antt). So `p + i` is well typed where `p` is a pointer to a type with a size and `i`
//! an integer.
//!
//! It holds definitions alone, between the laws of the checks and those of lowering.
#![tactic(auto)]
