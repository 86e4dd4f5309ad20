//! The heads of functions that are defined: what their specifiers and declarators declare (C90
//! 6.7.1).
//!
//! The list of parameters next to the name is the function's *own*: each of its parameters has a
//! name and a complete type, and is an object of the function. Their scope is set aside behind the
//! list, since the body stands in it too (6.1.2.1). So the rest of the declarator is checked in the
//! scope of the file, as that of a declaration. A list further out is that of a function which the
//! result leads to; its scope ends with it. So `int (*f(int a))(char)` declares `f` as a function
//! that takes an `int` and returns a pointer to a function; its own list is `(int a)`.
//!
//! [`check_head`] declares the function in the scope of the file, and opens the scope of its
//! parameters inside it. It answers the number of the function with what its declarator declares:
//! the place of its name, its type, and the numbers of its parameters' objects. So behind `static
//! int f(int a, char *b)` the innermost scope has `a` and `b`, and the one around it `f`, with
//! internal linkage. A second definition of `f` is the fault `RedeclaredName` at its name.
//!
//! The layer above uses one contract: `check_head` answers exactly what `head_checked` in
//! `specs/Heads.antt` gives, or its fault; where memory runs out it says nothing.
#![tactic(auto)]

mod definitions;
mod heads;
mod parameters;
mod steps;

pub use definitions::Own;
pub use heads::{Head, check_head};
