//! What the checks accept is well formed (C90 6.5.2.1, 6.7).
//!
//! The structs of a checked unit form a table: none holds itself by value, members are complete,
//! and each entry has the size and the counts that its members give it. The types of the unit's
//! objects, functions and names are formed over that table. No object has the type of a function,
//! and the formals and locals of a function are objects of the unit. So after `struct s { struct s
//! *next; }; typedef int f(void); f g; extern int a[]; int a[3];` the table has one struct of level
//! 1, `g` is a function and no object, and `a` has three elements.
//!
//! It computes nothing: a layer that rests on the law calls [`units_are_formed`] and has it from
//! its contract.
#![tactic(auto)]

mod laws;

pub use laws::units_are_formed;
