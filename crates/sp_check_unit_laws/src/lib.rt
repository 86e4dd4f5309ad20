//! What the checks of a unit accept is well typed (C90 6.5, 6.6, 6.7).
//!
//! Statements are typed as `sp_check_typing` says: conditions are scalars, a case has a value of the type
//! of its switch, a `goto` names a label of its function, and what is returned goes to the result.
//! The objects that a block lists are there and seen, with start values of their types. A function
//! that is defined returns nothing or a value that can be kept, its formals are distinct objects,
//! and its body names objects that last and its own alone. So in `int f(int n) { static int c;
//! return c + n; }` the body names the object `c`, which lasts, and the formal `n`.
//!
//! Start values of static objects and of literals are constants, which name what lasts alone. So in
//! `int a[3]; int *p = a + 1;` the value of `p` is the address of an element of `a`, which has no
//! values of its own.
//!
//! It computes nothing: a layer that rests on the law calls [`units_are_typed`] and has it from its
//! contract.
#![tactic(auto)]

mod laws;

pub use laws::units_are_typed;
