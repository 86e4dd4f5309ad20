//! A linked program has the objects and functions that its units name, as laws of the definition of
//! joining (C90 6.1.2.2, 6.1.2.6).
//!
//! Each object of a unit has an entry in the program, which it may name with the type that it knows:
//! of the same sort, with no other length, and of the same struct where the unit has its members
//! (`StandsFor`, specs/Joined.antt). So of `extern int a[];` and `int a[3];` the entry is an array of
//! three, which both may name. A function's entry is told by the unit that defines it. Each entry
//! comes from a unit, and has a type that is formed over the program's structs.
//!
//! It computes nothing: a layer that rests on a law calls [`joined_stand`] and has it from its
//! contract.
#![tactic(auto)]

mod laws;

pub use laws::joined_stand;
