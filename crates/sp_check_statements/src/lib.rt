//! The checks of statements and of the bodies of functions: each has a typed tree, or a fault that
//! stands (C90 6.6).
//!
//! [`check_body`] takes the body of a function, with the environment of its unit in which its
//! parameters are declared, and gives the typed statement: each expression is its typed tree, each
//! condition a scalar, and each `case` its value. It goes over the statement from left to right. A
//! block has a scope of its own, and lists the objects that it declares; the outermost block of a
//! function stands in the scope of the parameters. Behind the walk the labels are told. What each
//! form asks of its parts stands below (`sp_check_statement_rules`, `sp_check_statement_rules`): here are the calls that
//! walk.
//!
//! So in `switch (c) { case 'a': return; }` with a `char c` the value is promoted to `int`, and the
//! case has the value 97.
//!
//! The layer above uses one contract: `check_body` answers exactly what `body_checked` in
//! `specs/Statements.antt` gives, or its fault; where memory runs out it says nothing.
#![tactic(auto)]

mod body;
mod parts;
mod statements;

pub use body::check_body;
